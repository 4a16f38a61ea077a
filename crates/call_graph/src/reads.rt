//! Which parameters a routine reads.
ghost use Rattle.std.specs.Prelude.{◌≡◌, ◌||◌, IfOk, nat_eq};
ghost use Rattle.il_core.specs.Operands.{reads, end_reads};
ghost use Rattle.il_laws.specs.Live.{any_reads, read_in};
ghost use Rattle.plan_laws.specs.Summary.{tests};
ghost use Rattle.const_prop.specs.Tables.{AddsMarks};

use il_core::{Block, End, Instr};
use std::alloc::{AllocError, Global};

/// By parameter, whether some instruction or end reads it.
pub(crate) fn reads_of(
    alloc: Global,
    params: u32,
    blocks: &[Block],
) -> Result<Vec<bool>, AllocError>
    ensures { IfOk result (λ v. v.items ≡ tests (read_in blocks.now) 0 params) }
{
    let mut marks = vec![in alloc; false; params as usize]?;
    for block in blocks {
        mark_block(marks.as_mut_slice(), block);
    }
    Ok(marks)
}

/// Marks what a block reads.
fn mark_block(marks: &mut [bool], block: &Block)
    ensures { AddsMarks marks.old marks.new (λ x. any_reads block.now.instrs x || end_reads block.now.end x) }
{
    mark_reads(marks, block.instrs.as_slice());
    mark_end(marks, block.end);
}

/// Marks what instructions read.
fn mark_reads(marks: &mut [bool], instrs: &[Instr])
    ensures { AddsMarks marks.old marks.new (any_reads instrs.now) }
{
    for instr in instrs {
        mark_sources(marks, instr);
    }
}

/// Marks what an instruction reads.
fn mark_sources(marks: &mut [bool], instr: &Instr)
    ensures { AddsMarks marks.old marks.new (reads instr.now) }
{
    for source in instr.sources() {
        mark(marks, source);
    }
}

/// Marks what an end reads.
fn mark_end(marks: &mut [bool], end: End)
    ensures { AddsMarks marks.old marks.new (end_reads end) }
{
    if let Some(source) = end.source() {
        mark(marks, source);
    }
}

/// Marks a register, where it is among them.
fn mark(marks: &mut [bool], register: u32)
    ensures { AddsMarks marks.old marks.new (λ x. nat_eq x register) }
{
    let register = register as usize;
    if register < marks.len() {
        marks[register] = true;
    }
}
