//! Clones that begin with constants.
ghost use Rattle.std.specs.Prelude.{◌≡◌, ◌+◌, ◌<◌, ◌≤◌, ◌++◌, ◌∷◌, [], length, map, suc, true, false, nat_le, nat_lt, ◌&&◌, if◌then◌else◌, IfErr, IfOk, OnOk};
ghost use Rattle.std.specs.List.{AllByRecursion};
ghost use Rattle.il_core.specs.Limits.{IsWithinLimits, max_pids, max_size};
ghost use Rattle.il_core.specs.Operands.{retargeted, retargeted_block};
ghost use Rattle.il_core.specs.Size.{size};
ghost use Rattle.il_laws.specs.Clone.{clone_blocks, constants, make_clone};
ghost use Rattle.il_laws.specs.Facts.{looped};
ghost use Rattle.const_prop.specs.Tables.{IsValidRoutine};
ghost use Rattle.inliner.specs.Copies.{NamesBlocks, few_blocks};
ghost use Rattle.clone_groups.specs.Fixing.{fixed_of};

use const_prop::copy_routine;
use hlo_num::{Seq, Word};
use il_core::{Block, End, Instr, Routine, limits};
use inliner::SpliceFault;
use std::alloc::{AllocError, Global};
use std::mem;

/// A routine's clone: its copy under another PID that begins with constants, one for each pair of a register and its
/// word, in order. Where no `loop` goes to block 0 they stand at its start, else in a new block 0 before it. For pairs of
/// parameters it does what the routine does with these arguments (`il_laws::clone_is_right`). `TooLarge` comes exactly
/// where it passes a limit of the language, and `Memory` for want of memory. It takes time and memory for a copy of the
/// routine and the constants.
pub fn make_clone(
    alloc: Global,
    r: &Routine,
    pid: u32,
    fixed: &[(u32, Word)],
) -> Result<Routine, SpliceFault>
    requires { IsValidRoutine r.now }
    ensures routine { IfOk result (λ q. q ≡ make_clone r.now pid (fixed_of fixed.now)) }
    ensures too_large { IfErr result (λ e. e ≡ SpliceFault.TooLarge → IsWithinLimits (make_clone r.now pid (fixed_of fixed.now)) → ⊥) }
{
    let Ok(copy) = copy_routine(alloc, r) else {
        return Err(SpliceFault::Memory);
    };
    make_clone_owned(alloc, copy, pid, fixed)
}

/// The same of a routine that isn't wanted any more: its blocks are taken over. It takes time in proportion to the
/// blocks, the instructions of the first one and the constants.
pub fn make_clone_owned(
    alloc: Global,
    r: Routine,
    pid: u32,
    fixed: &[(u32, Word)],
) -> Result<Routine, SpliceFault>
    requires { IsValidRoutine r }
    ensures routine { IfOk result (λ q. q ≡ make_clone r pid (fixed_of fixed.now)) }
    ensures too_large { IfErr result (λ e. e ≡ SpliceFault.TooLarge → IsWithinLimits (make_clone r pid (fixed_of fixed.now)) → ⊥) }
{
    let is_looped = is_looped(r.blocks.as_slice());
    if pid >= limits::PIDS {
        return Err(SpliceFault::TooLarge);
    }
    if !has_room(&r, fixed, is_looped) {
        return Err(SpliceFault::TooLarge);
    }
    let Ok(clone) = clone_within(alloc, r, pid, fixed, is_looped) else {
        return Err(SpliceFault::Memory);
    };
    Ok(clone)
}

/// Whether some `loop` goes to the first block.
fn is_looped(blocks: &[Block]) -> bool
    ensures { result ≡ looped blocks.now 0 }
{
    for block in blocks {
        if let End::Loop(0) = block.end {
            return true;
        }
    }
    false
}

/// Whether the routine with these constants, and with a new first block if wanted, is small enough.
fn has_room(r: &Routine, fixed: &[(u32, Word)], has_new_block: bool) -> bool
    ensures { result ≡ nat_le (size r.now + length fixed.now + (if has_new_block then 1 else 0)) max_size }
{
    let more = if has_new_block { 1 } else { 0 };
    r.size() as usize + fixed.len() + more <= limits::SIZE as usize
}

/// The clone that is within the limits.
fn clone_within(
    alloc: Global,
    r: Routine,
    pid: u32,
    fixed: &[(u32, Word)],
    is_looped: bool,
) -> Result<Routine, AllocError>
    requires routine { IsValidRoutine r }
    requires looped { is_looped ≡ looped r.blocks 0 }
    requires within { IsWithinLimits (make_clone r pid (fixed_of fixed.now)) }
    ensures { IfOk result (λ q. q ≡ make_clone r pid (fixed_of fixed.now)) }
{
    let Routine {
        params,
        value,
        regs,
        entry,
        arrays,
        blocks,
        ..
    } = r;
    let mut blocks = blocks.into_vec();
    begin(alloc, &mut blocks, fixed, is_looped)?;
    Ok(Routine {
        pid,
        params,
        value,
        regs,
        entry,
        arrays,
        blocks: Seq::from_vec(blocks),
    })
}

/// Makes blocks begin with constants: inside the first block, or in a new one before it.
fn begin(
    alloc: Global,
    blocks: &mut Vec<Block>,
    fixed: &[(u32, Word)],
    has_new_block: bool,
) -> Result<(), AllocError>
    requires some { 0 < length blocks.old.items }
    requires targets { AllByRecursion (λ x. NamesBlocks few_blocks x.end) blocks.old.items }
    ensures { OnOk result (blocks.new.items ≡ clone_blocks has_new_block (fixed_of fixed.now) blocks.old.items) }
{
    if has_new_block {
        begin_before(alloc, blocks, fixed)
    } else {
        begin_inside(alloc, blocks.as_mut_slice(), fixed)
    }
}

/// Puts a new block with the constants before the others.
fn begin_before(
    alloc: Global,
    blocks: &mut Vec<Block>,
    fixed: &[(u32, Word)],
) -> Result<(), AllocError>
    requires some { 0 < length blocks.old.items }
    requires targets { AllByRecursion (λ x. NamesBlocks few_blocks x.end) blocks.old.items }
    ensures { OnOk result (blocks.new.items ≡ clone_blocks true (fixed_of fixed.now) blocks.old.items) }
{
    raise_targets(blocks.as_mut_slice());
    let first = Block {
        instrs: Seq::from_vec(constants(alloc, fixed, 0)?),
        end: End::Jump(1),
    };
    blocks.insert(0, first)?;
    Ok(())
}

/// Puts the constants into the first block.
fn begin_inside(
    alloc: Global,
    blocks: &mut [Block],
    fixed: &[(u32, Word)],
) -> Result<(), AllocError>
    requires { 0 < length blocks.old }
    ensures { OnOk result (blocks.new ≡ clone_blocks false (fixed_of fixed.now) blocks.old) }
{
    begin_block(alloc, &mut blocks[0], fixed)
}

/// Puts constants in front of a block's instructions.
fn begin_block(alloc: Global, block: &mut Block, fixed: &[(u32, Word)]) -> Result<(), AllocError>
    ensures { OnOk result (block.new ≡ record block.old { instrs = constants (fixed_of fixed.now) ++ block.old.instrs }) }
{
    let mut old = mem::replace(&mut block.instrs, Seq::new(alloc)).into_vec();
    let mut instrs = constants(alloc, fixed, old.len())?;
    put_instrs(&mut instrs, old.as_mut_slice())?;
    block.instrs = Seq::from_vec(instrs);
    Ok(())
}

/// A `const` for each pair, in a vector with room for so many more instructions.
fn constants(alloc: Global, fixed: &[(u32, Word)], more: usize) -> Result<Vec<Instr>, AllocError>
    ensures { IfOk result (λ v. v.items ≡ constants (fixed_of fixed.now)) }
{
    let mut instrs = Vec::with_capacity(alloc, fixed.len().saturating_add(more))?;
    for (param, word) in fixed {
        instrs.push(Instr::Const(*param, *word))?;
    }
    Ok(instrs)
}

/// Takes instructions over. A `turn` is left in each place.
fn put_instrs(out: &mut Vec<Instr>, instrs: &mut [Instr]) -> Result<(), AllocError>
    ensures { OnOk result (out.new.items ≡ out.old.items ++ instrs.old) }
{
    for instr in instrs {
        out.push(mem::replace(instr, Instr::Turn))?;
    }
    Ok(())
}

/// Makes the ends of blocks go to the blocks after those to which they go.
fn raise_targets(blocks: &mut [Block])
    requires { AllByRecursion (λ x. NamesBlocks few_blocks x.end) blocks.old }
    ensures { blocks.new ≡ map (retargeted_block suc) blocks.old }
{
    for block in blocks.iter_mut() {
        block.end = raised_end(block.end);
    }
}

/// An end that goes to the blocks after those to which it goes.
fn raised_end(end: End) -> End
    requires { NamesBlocks few_blocks end }
    ensures { result ≡ retargeted suc end }
{
    match end {
        End::Jump(t) => End::Jump(t + 1),
        End::Branch(r, t, u) => End::Branch(r, t + 1, u + 1),
        End::Loop(t) => End::Loop(t + 1),
        End::Return(_) | End::Exit(_) => end,
    }
}
