//! A callee in place of a call.
ghost use Rattle.std.specs.Prelude.{◌≡◌, ◌+◌, ◌^◌, ◌<◌, ◌≤◌, ◌++◌, Some, length, sum, IfErr, IfOk, OnOk};
ghost use Rattle.std.specs.List.{AllByRecursion};
ghost use Rattle.il_core.specs.Limits.{IsBlock, IsWithinLimits, max_arrays, max_elements, max_parameters, max_registers};
ghost use Rattle.il_laws.specs.Splice.{Site, passed, splice, spliced, spliced_blocks};
ghost use Rattle.const_prop.specs.Tables.{IsValidRoutine};
ghost use Rattle.inliner.specs.Copies.{IsCopiedBlock, IsRaise, NamesBlocks, few_blocks};
ghost use Rattle.inliner.specs.Places.{IsAt, IsIn};
ghost use Rattle.inliner.specs.Sites.{entered, site_blocks};

use crate::copies::{Raise, Stand, put_copies};
use crate::fault::SpliceFault;
use crate::limits::{are_few, have_room};
use crate::moves::{moved_end, put_instrs, put_moved};
use crate::place::{Place, place_of};
use const_prop::copy_routine;
use hlo_num::Seq;
use il_core::{Block, End, Instr, Routine};
use std::alloc::{AllocError, Global};
use std::mem;

/// The caller with the callee in place of its call `site`. It does what the caller did, where the site calls this callee
/// with an argument for each parameter, and wants a value where it gives one (`il_laws::splice_keeps`); where the caller
/// has no such site, it is the caller. `TooLarge` comes exactly where it passes a limit of the language, and `Memory` for
/// want of memory. It takes time and memory for a copy of both, and what `splice_owned` takes.
pub fn splice(
    alloc: Global,
    caller: &Routine,
    site: u32,
    callee: &Routine,
) -> Result<Routine, SpliceFault>
    requires caller { IsValidRoutine caller.now }
    requires callee { IsValidRoutine callee.now }
    ensures routine { IfOk result (λ r. r ≡ splice caller.now site callee.now) }
    ensures too_large { IfErr result (λ e. e ≡ SpliceFault.TooLarge → IsWithinLimits (splice caller.now site callee.now) → ⊥) }
{
    let Ok(copy) = copy_routine(alloc, caller) else {
        return Err(SpliceFault::Memory);
    };
    splice_owned(alloc, copy, site, callee)
}

/// The same of a caller that isn't wanted any more: its instructions move, and only the callee's are copied. It takes
/// time in proportion to the caller's blocks, the calls before the site and the callee; what it makes is as large as the
/// copy of the callee and the list of blocks.
pub fn splice_owned(
    alloc: Global,
    caller: Routine,
    site: u32,
    callee: &Routine,
) -> Result<Routine, SpliceFault>
    requires caller { IsValidRoutine caller }
    requires callee { IsValidRoutine callee.now }
    ensures routine { IfOk result (λ r. r ≡ splice caller site callee.now) }
    ensures too_large { IfErr result (λ e. e ≡ SpliceFault.TooLarge → IsWithinLimits (splice caller site callee.now) → ⊥) }
{
    let Some(place) = place_of(caller.blocks.as_slice(), site) else {
        return Ok(caller);
    };
    if !have_room(&caller, callee) {
        return Err(SpliceFault::TooLarge);
    }
    splice_at(alloc, caller, place, callee)
}

/// The caller with the callee at a place.
fn splice_at(
    alloc: Global,
    caller: Routine,
    place: Place,
    callee: &Routine,
) -> Result<Routine, SpliceFault>
    requires caller { IsValidRoutine caller }
    requires callee { IsValidRoutine callee.now }
    requires regs { caller.regs + callee.now.regs ≤ max_registers }
    requires arrays { length caller.arrays + length callee.now.arrays ≤ max_arrays }
    requires elements { sum caller.arrays + sum callee.now.arrays ≤ max_elements }
    requires site { (s : Site) × IsAt place caller.blocks s }
    ensures routine { IfOk result (λ r. (s : Site) → IsAt place caller.blocks s → r ≡ spliced caller callee.now (Some s)) }
    ensures too_large { IfErr result (λ e. e ≡ SpliceFault.TooLarge → (s : Site) → IsAt place caller.blocks s
        → IsWithinLimits (spliced caller callee.now (Some s)) → ⊥) }
{
    let Routine {
        pid,
        params,
        value,
        regs,
        entry,
        arrays,
        blocks,
    } = caller;
    let more_regs = regs + callee.regs;
    let mut arrays = arrays.into_vec();
    let mut blocks = blocks.into_vec();
    let count = arrays.len() as u32;
    let Ok(blocks) = blocks_with(alloc, blocks.as_mut_slice(), place, callee, regs, count) else {
        return Err(SpliceFault::Memory);
    };
    if !are_few(blocks.as_slice()) {
        return Err(SpliceFault::TooLarge);
    }
    let Ok(()) = arrays.extend_from_slice(callee.arrays.as_slice()) else {
        return Err(SpliceFault::Memory);
    };
    Ok(Routine {
        pid,
        params,
        value,
        regs: more_regs,
        entry,
        arrays: Seq::from_vec(arrays),
        blocks: Seq::from_vec(blocks),
    })
}

/// Blocks with the callee's at a place, for a caller with so many registers and local arrays. What is handed in is left
/// without use.
fn blocks_with(
    alloc: Global,
    blocks: &mut [Block],
    place: Place,
    callee: &Routine,
    regs: u32,
    arrays: u32,
) -> Result<Vec<Block>, AllocError>
    requires regs { regs ≤ max_registers }
    requires arrays { arrays ≤ max_arrays }
    requires few { length blocks.old ≤ few_blocks }
    requires limits { AllByRecursion IsBlock blocks.old }
    requires numbers { AllByRecursion (λ x. NamesBlocks few_blocks x.end) blocks.old }
    requires callee { AllByRecursion (IsCopiedBlock max_registers max_arrays few_blocks) callee.now.blocks }
    requires callee_few { length callee.now.blocks ≤ few_blocks }
    requires at { (s : Site) × IsAt place blocks.old s }
    ensures { IfOk result (λ v. (s : Site) → IsAt place blocks.old s → v.items ≡ spliced_blocks regs arrays s callee.now) }
{
    let b = place.block as u32;
    let n = callee.blocks.len();
    let mut out = Vec::with_capacity(alloc, blocks.len() + n + 1)?;
    let (earlier, rest) = blocks.split_at_mut(place.block);
    let (block, later) = rest.split_first_mut().unwrap();
    put_moved(alloc, &mut out, earlier, b, n as u32)?;
    put_site(alloc, &mut out, block, place, callee, regs, arrays)?;
    put_moved(alloc, &mut out, later, b, n as u32)?;
    Ok(out)
}

/// Adds what the block of a call becomes: what stood before the call, the callee's blocks, and what stood after it.
fn put_site(
    alloc: Global,
    out: &mut Vec<Block>,
    block: &mut Block,
    place: Place,
    callee: &Routine,
    regs: u32,
    arrays: u32,
) -> Result<(), AllocError>
    requires regs { regs ≤ max_registers }
    requires arrays { arrays ≤ max_arrays }
    requires block { place.block < few_blocks }
    requires instr { place.instr ≤ length block.old.instrs }
    requires limits { IsBlock block.old }
    requires numbers { NamesBlocks few_blocks block.old.end }
    requires callee { AllByRecursion (IsCopiedBlock max_registers max_arrays few_blocks) callee.now.blocks }
    requires callee_few { length callee.now.blocks ≤ few_blocks }
    ensures { OnOk result ((s : Site) → IsIn place block.old s → out.new.items ≡ out.old.items ++ site_blocks regs arrays s callee.now) }
{
    let mut instrs = mem::replace(&mut block.instrs, Seq::new(alloc)).into_vec();
    let (before, rest) = instrs.as_mut_slice().split_at_mut(place.instr);
    let Some((call, after)) = rest.split_first_mut() else {
        return Ok(());
    };
    let Instr::Call {
        dest,
        count,
        args,
        ..
    } = call
    else {
        return Ok(());
    };
    let b = place.block as u32;
    let n = callee.blocks.len() as u32;
    let by = Raise {
        regs,
        arrays,
        count: *count,
        entry: callee.entry,
    };
    let at = Stand {
        first: b + 1,
        rest: b + 1 + n,
        dest: *dest,
    };
    out.push(entering(alloc, before, args.as_slice(), callee, by, at.first)?)?;
    put_copies(alloc, out, callee.blocks.as_slice(), by, at)?;
    out.push(resuming(alloc, after, moved_end(b, n, block.end))?)?;
    Ok(())
}

/// What stood before the call, and what the call becomes: a turn, the callee's registers and local arrays set to 0, the
/// arguments moved to its first registers, and a jump to its first block.
fn entering(
    alloc: Global,
    before: &mut [Instr],
    args: &[u32],
    callee: &Routine,
    by: Raise,
    first: u32,
) -> Result<Block, AllocError>
    requires raise { IsRaise by }
    requires args { length args.now ≤ max_parameters }
    ensures { IfOk result (λ x. x ≡ entered before.old args.now callee.now by first) }
{
    let room = before.len().saturating_add(args.len()).saturating_add(2);
    let mut instrs = Vec::with_capacity(alloc, room)?;
    put_instrs(&mut instrs, before)?;
    instrs.push(Instr::Turn)?;
    instrs.push(Instr::Clear(by.regs, callee.regs, by.arrays, callee.arrays.len() as u32))?;
    put_passed(&mut instrs, args, by.regs)?;
    Ok(Block {
        instrs: Seq::from_vec(instrs),
        end: End::Jump(first),
    })
}

/// Adds a `move` from each argument, to the registers from a number on.
fn put_passed(out: &mut Vec<Instr>, args: &[u32], register: u32) -> Result<(), AllocError>
    requires { register + length args.now < 2 ^ 32 }
    ensures { OnOk result (out.new.items ≡ out.old.items ++ passed register args.now) }
{
    let mut next = register;
    for arg in args {
        out.push(Instr::Move(next, *arg))?;
        next += 1;
    }
    Ok(())
}

/// What stood after the call, with the block's end.
fn resuming(alloc: Global, after: &mut [Instr], end: End) -> Result<Block, AllocError>
    ensures { IfOk result (λ x. x ≡ record { instrs = after.old; end = end }) }
{
    let mut instrs = Vec::with_capacity(alloc, after.len())?;
    put_instrs(&mut instrs, after)?;
    Ok(Block {
        instrs: Seq::from_vec(instrs),
        end,
    })
}
