//! Blocks merged with the only ones that go to them.
ghost use Rattle.std.specs.Prelude.{◌≡◌, ℕ, ◌+◌, ◌^◌, ◌<◌, ◌≤◌, ◌++◌, length, replicate, true, false, IfOk, OnOk, slice_get, slice_set, slice_index};
ghost use Rattle.il_core.specs.Limits.{max_size};
ghost use Rattle.il_laws.specs.Edges.{edges};
ghost use Rattle.il_laws.specs.Merge.{may_end, merge_blocks, merge_from};
ghost use Rattle.il_laws.specs.Renumber.{renumbered};
ghost use Rattle.const_prop.specs.Tables.{IsValidRoutine};
ghost use Rattle.cleanup.specs.Bits.{GoForward};
ghost use Rattle.cleanup.specs.Marks.{EndsName, NamesBlocks};
ghost use Rattle.cleanup.specs.Merges.{AreCounts, next_by, with_joined};

use crate::unreachable::keep_marked;
use const_prop::copy_routine;
use hlo_num::Seq;
use il_core::{Block, End, Instr, Routine};
use std::alloc::{AllocError, Global};
use std::mem;

/// A routine in which each block that ends with a jump has taken in the block to which it jumps, where nothing else goes
/// there. It keeps what every routine does (`il_laws::merge_blocks_keeps`). The only error is want of memory. It takes
/// time and memory for a copy of the routine, and time in proportion to it.
pub fn merge_blocks(alloc: Global, r: &Routine) -> Result<Routine, AllocError>
    requires { IsValidRoutine r.now }
    ensures { IfOk result (λ q. q ≡ merge_blocks r.now) }
{
    merge_blocks_owned(alloc, copy_routine(alloc, r)?)
}

/// The same of a routine that isn't wanted any more: instructions move, and aren't copied. It takes time in proportion
/// to the blocks and to the instructions that move.
pub fn merge_blocks_owned(alloc: Global, r: Routine) -> Result<Routine, AllocError>
    requires { IsValidRoutine r }
    ensures { IfOk result (λ q. q ≡ merge_blocks r) }
{
    let Routine {
        pid,
        params,
        value,
        regs,
        entry,
        arrays,
        blocks,
    } = r;
    let mut blocks = blocks.into_vec();
    let kept = merge(alloc, blocks.as_mut_slice())?;
    Ok(Routine {
        pid,
        params,
        value,
        regs,
        entry,
        arrays,
        blocks: Seq::from_vec(kept),
    })
}

/// The merged blocks. What is handed in is left without use.
fn merge(alloc: Global, blocks: &mut [Block]) -> Result<Vec<Block>, AllocError>
    requires few { length blocks.old ≤ max_size }
    requires inside { EndsName (length blocks.old) blocks.old }
    requires forward { GoForward blocks.old }
    ensures { IfOk result (λ v. v.items ≡ merge_from (length blocks.old) (record { blocks = blocks.old; at = 0 })) }
{
    let counts = count_edges(alloc, blocks)?;
    let mut marks = vec![in alloc; true; blocks.len()]?;
    join_blocks(alloc, counts.as_slice(), marks.as_mut_slice(), blocks)?;
    keep_marked(alloc, blocks, marks.as_slice())
}

/// How many edges go to each block.
fn count_edges(alloc: Global, blocks: &[Block]) -> Result<Vec<u32>, AllocError>
    requires few { length blocks.now ≤ max_size }
    requires inside { EndsName (length blocks.now) blocks.now }
    ensures { IfOk result (λ v. AreCounts blocks.now v.items) }
{
    let mut counts = vec![in alloc; 0; blocks.len()]?;
    for block in blocks {
        count_targets(counts.as_mut_slice(), block.end);
    }
    Ok(counts)
}

/// Counts the edges of an end.
fn count_targets(counts: &mut [u32], end: End)
    requires inside { NamesBlocks (length counts.old) end }
    requires room { (t : ℕ) → slice_index counts.old t + edges end t < 2 ^ 32 }
    ensures { (t : ℕ) → slice_index counts.new t ≡ slice_index counts.old t + edges end t }
{
    for t in end.targets() {
        counts[t as usize] += 1;
    }
}

/// Lets each block take in the next one while it may, by the edges to each. Blocks that are taken in lose their marks.
fn join_blocks(
    alloc: Global,
    counts: &[u32],
    marks: &mut [bool],
    blocks: &mut [Block],
) -> Result<(), AllocError>
    requires counts { AreCounts blocks.old counts.now }
    requires marks { marks.old ≡ replicate (length blocks.old) true }
    requires inside { EndsName (length blocks.old) blocks.old }
    requires forward { GoForward blocks.old }
    ensures whole { OnOk result (renumbered marks.new blocks.new ≡ merge_from (length blocks.old) (record { blocks = blocks.old; at = 0 })) }
    ensures inside { OnOk result (EndsName (length blocks.new) blocks.new) }
{
    let mut b = 0;
    while b < blocks.len() {
        match next(counts, blocks, b) {
            Some(t) => join(alloc, marks, blocks, b, t)?,
            None => b += 1,
        }
    }
    Ok(())
}

/// The block that a block may take in: it jumps there, nothing else goes there, and that block's end isn't a `loop` to a
/// later block.
fn next(counts: &[u32], blocks: &[Block], b: usize) -> Option<usize>
    requires within { b < length blocks.now }
    requires size { length counts.now ≡ length blocks.now }
    requires inside { EndsName (length blocks.now) blocks.now }
    ensures { result ≡ next_by counts.now blocks.now (slice_get blocks.now b) b }
{
    let End::Jump(t) = blocks[b].end else {
        return None;
    };
    let t = t as usize;
    if counts[t] == 1 && may_end(b, blocks[t].end) {
        Some(t)
    } else {
        None
    }
}

/// Whether a block may take over an end.
fn may_end(b: usize, end: End) -> bool
    ensures { result ≡ may_end b end }
{
    match end {
        End::Loop(u) => u as usize <= b,
        _ => true,
    }
}

/// Lets a block take in another one, in place of its jump there. The other one loses its mark and is left empty.
fn join(
    alloc: Global,
    marks: &mut [bool],
    blocks: &mut [Block],
    b: usize,
    t: usize,
) -> Result<(), AllocError>
    requires marked { t < length marks.old }
    requires first { b < t }
    requires second { t < length blocks.old }
    ensures marks { OnOk result (marks.new ≡ slice_set marks.old t false) }
    ensures blocks { OnOk result (blocks.new ≡ with_joined blocks.old b t) }
{
    let empty = Block {
        instrs: Seq::new(alloc),
        end: End::Return(None),
    };
    let Block { instrs, end } = mem::replace(&mut blocks[t], empty);
    marks[t] = false;
    take_in(alloc, &mut blocks[b], instrs, end)
}

/// Adds instructions to a block, and gives it another end.
fn take_in(alloc: Global, block: &mut Block, instrs: Seq<Instr>, end: End) -> Result<(), AllocError>
    ensures { OnOk result (block.new ≡ record { instrs = block.old.instrs ++ instrs; end = end }) }
{
    let mut kept = mem::replace(&mut block.instrs, Seq::new(alloc)).into_vec();
    let mut more = instrs.into_vec();
    kept.append(&mut more)?;
    block.instrs = Seq::from_vec(kept);
    block.end = end;
    Ok(())
}
