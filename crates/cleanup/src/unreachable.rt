//! Blocks that can't be reached dropped, and the others renumbered.
ghost use Rattle.std.specs.Prelude.{◌≡◌, ◌<◌, ◌≤◌, ◌++◌, [], ◌∷◌, length, IfOk, OnOk, slice_index, if◌then◌else◌};
ghost use Rattle.il_core.specs.Limits.{max_size};
ghost use Rattle.il_core.specs.Operands.{retargeted, retargeted_block};
ghost use Rattle.il_laws.specs.Edges.{one_if};
ghost use Rattle.il_laws.specs.Renumber.{renumbered};
ghost use Rattle.il_laws.specs.Unreachable.{drop_unreachable};
ghost use Rattle.const_prop.specs.Tables.{IsValidRoutine};
ghost use Rattle.cleanup.specs.Marks.{NamesBlocks, EndsName, ArePlaces};

use crate::reach::reach;
use const_prop::copy_routine;
use hlo_num::Seq;
use il_core::{Block, End, Routine};
use std::alloc::{AllocError, Global};
use std::mem;

/// A routine without the blocks that can't be reached from the first, the others renumbered in their order. It keeps
/// what every routine does (`il_laws::drop_unreachable_keeps`). The only error is want of memory. It takes time and
/// memory for a copy of the routine, and time in proportion to the blocks.
pub fn drop_unreachable(alloc: Global, r: &Routine) -> Result<Routine, AllocError>
    requires { IsValidRoutine r.now }
    ensures { IfOk result (λ q. q ≡ drop_unreachable r.now) }
{
    drop_unreachable_owned(alloc, copy_routine(alloc, r)?)
}

/// The same of a routine that isn't wanted any more: the instructions of the blocks that stay aren't copied. It takes
/// time in proportion to the blocks.
pub fn drop_unreachable_owned(alloc: Global, r: Routine) -> Result<Routine, AllocError>
    requires { IsValidRoutine r }
    ensures { IfOk result (λ q. q ≡ drop_unreachable r) }
{
    let Routine {
        pid,
        params,
        value,
        regs,
        entry,
        arrays,
        blocks,
    } = r;
    let mut blocks = blocks.into_vec();
    let marks = reach(alloc, blocks.as_slice())?;
    let kept = keep_marked(alloc, blocks.as_mut_slice(), marks.as_slice())?;
    Ok(Routine {
        pid,
        params,
        value,
        regs,
        entry,
        arrays,
        blocks: Seq::from_vec(kept),
    })
}

/// The marked blocks, renumbered in their order. The others are left without use.
pub(crate) fn keep_marked(
    alloc: Global,
    blocks: &mut [Block],
    marks: &[bool],
) -> Result<Vec<Block>, AllocError>
    requires size { length marks.now ≡ length blocks.old }
    requires few { length marks.now ≤ max_size }
    requires inside { EndsName (length blocks.old) blocks.old }
    ensures { IfOk result (λ v. v.items ≡ renumbered marks.now blocks.old) }
{
    let numbers = places(alloc, marks)?;
    let mut kept = Vec::with_capacity(alloc, blocks.len())?;
    for (b, block) in blocks.iter_mut().enumerate() {
        keep(alloc, marks[b], block, numbers.as_slice(), &mut kept)?;
    }
    Ok(kept)
}

/// Takes a block over where it is marked, its targets by their places.
fn keep(
    alloc: Global,
    mark: bool,
    block: &mut Block,
    places: &[u32],
    kept: &mut Vec<Block>,
) -> Result<(), AllocError>
    requires { NamesBlocks (length places.now) block.old.end }
    ensures { OnOk result (kept.new.items ≡ kept.old.items ++ (if mark then retargeted_block (slice_index places.now) block.old ∷ [] else [])) }
{
    if mark {
        let instrs = mem::replace(&mut block.instrs, Seq::new(alloc));
        kept.push(Block {
            instrs,
            end: retargeted(places, block.end),
        })?;
    }
    Ok(())
}

/// An end whose targets have other places.
fn retargeted(places: &[u32], end: End) -> End
    requires { NamesBlocks (length places.now) end }
    ensures { result ≡ retargeted (slice_index places.now) end }
{
    match end {
        End::Jump(t) => End::Jump(places[t as usize]),
        End::Branch(r, t, u) => End::Branch(r, places[t as usize], places[u as usize]),
        End::Loop(t) => End::Loop(places[t as usize]),
        End::Return(_) | End::Exit(_) => end,
    }
}

/// By block, how many marked ones stand before it.
fn places(alloc: Global, marks: &[bool]) -> Result<Vec<u32>, AllocError>
    requires { length marks.now ≤ max_size }
    ensures { IfOk result (λ v. ArePlaces marks.now v.items) }
{
    let mut places = Vec::with_capacity(alloc, marks.len())?;
    let mut next = 0;
    for mark in marks {
        places.push(next)?;
        next += one_if(*mark);
    }
    Ok(places)
}

fn one_if(mark: bool) -> u32
    ensures value { result ≡ one_if mark }
    ensures bound { result ≤ 1 }
{
    if mark { 1 } else { 0 }
}
