//! Marks of blocks and registers: what some `loop` goes to, and what some instruction writes.
ghost use Rattle.std.specs.Prelude.{◌≡◌, ◌+◌, ◌≤◌, length, IfOk};
ghost use Rattle.std.specs.List.{AllByRecursion};
ghost use Rattle.il_core.specs.Operands.{writes};
ghost use Rattle.il_core.specs.Meaning.{is_among};
ghost use Rattle.il_laws.specs.Facts.{looped, written, any_writes};
ghost use Rattle.const_prop.specs.Tables.{NamesRegisters, AreNamed, AreMarks, AddsMarks, is_head};

use il_core::{Block, End, Instr};
use std::alloc::{AllocError, Global};

/// The blocks to which some `loop` goes.
pub(crate) fn loop_heads(alloc: Global, blocks: &[Block]) -> Result<Vec<bool>, AllocError>
    ensures { IfOk result (λ v. AreMarks (length blocks.now) v.items (looped blocks.now)) }
{
    let mut heads = vec![in alloc; false; blocks.len()]?;
    for block in blocks {
        mark_head(heads.as_mut_slice(), block.end);
    }
    Ok(heads)
}

/// Marks the block to which an end goes back.
fn mark_head(heads: &mut [bool], end: End)
    ensures { AddsMarks heads.old heads.new (is_head end) }
{
    if let End::Loop(t) = end {
        if (t as usize) < heads.len() {
            heads[t as usize] = true;
        }
    }
}

/// The registers that some instruction writes, of so many.
pub(crate) fn written(alloc: Global, regs: usize, blocks: &[Block]) -> Result<Vec<bool>, AllocError>
    requires { AreNamed regs blocks.now }
    ensures { IfOk result (λ v. AreMarks regs v.items (written blocks.now)) }
{
    let mut marks = vec![in alloc; false; regs]?;
    for block in blocks {
        mark_written(marks.as_mut_slice(), block.instrs.as_slice());
    }
    Ok(marks)
}

/// Marks what instructions write.
fn mark_written(marks: &mut [bool], instrs: &[Instr])
    requires { AllByRecursion (NamesRegisters (length marks.old)) instrs.now }
    ensures { AddsMarks marks.old marks.new (any_writes instrs.now) }
{
    for instr in instrs {
        mark(marks, instr);
    }
}

/// Marks what an instruction writes.
fn mark(marks: &mut [bool], instr: &Instr)
    requires { NamesRegisters (length marks.old) instr.now }
    ensures { AddsMarks marks.old marks.new (writes instr.now) }
{
    match instr {
        Instr::Clear(first, count, _, _) => mark_row(marks, *first, *count),
        _ => {
            if let Some(d) = instr.destination() {
                marks[d as usize] = true;
            }
        }
    }
}

/// Marks so many registers.
fn mark_row(marks: &mut [bool], first: u32, count: u32)
    requires { first + count ≤ length marks.old }
    ensures { AddsMarks marks.old marks.new (is_among first count) }
{
    let first = first as usize;
    marks[first..first + count as usize].fill(true);
}
