//! The caller's blocks under their new numbers.
ghost use Rattle.std.specs.Prelude.{◌≡◌, ◌≤◌, ◌<◌, ◌++◌, [], ◌∷◌, map, OnOk};
ghost use Rattle.std.specs.List.{AllByRecursion};
ghost use Rattle.il_core.specs.Operands.{retargeted};
ghost use Rattle.il_laws.specs.Splice.{moved, moved_block};
ghost use Rattle.inliner.specs.Copies.{NamesBlocks, few_blocks};

use hlo_num::Seq;
use il_core::{Block, End, Instr};
use std::alloc::{AllocError, Global};
use std::mem;

/// The new number of block `t`, where `n` blocks and the rest of block `b` come behind block `b`.
fn moved(b: u32, n: u32, t: u32) -> u32
    requires number { t < few_blocks }
    requires few { n ≤ few_blocks }
    ensures { result ≡ moved b n t }
{
    if t <= b { t } else { t + (n + 1) }
}

/// An end whose blocks have their new numbers.
pub(crate) fn moved_end(b: u32, n: u32, end: End) -> End
    requires number { NamesBlocks few_blocks end }
    requires few { n ≤ few_blocks }
    ensures { result ≡ retargeted (moved b n) end }
{
    match end {
        End::Jump(t) => End::Jump(moved(b, n, t)),
        End::Branch(r, t, u) => End::Branch(r, moved(b, n, t), moved(b, n, u)),
        End::Loop(t) => End::Loop(moved(b, n, t)),
        End::Return(_) | End::Exit(_) => end,
    }
}

/// Takes blocks over with their new numbers. They are left without instructions.
pub(crate) fn put_moved(
    alloc: Global,
    out: &mut Vec<Block>,
    blocks: &mut [Block],
    b: u32,
    n: u32,
) -> Result<(), AllocError>
    requires number { AllByRecursion (λ x. NamesBlocks few_blocks x.end) blocks.old }
    requires few { n ≤ few_blocks }
    ensures { OnOk result (out.new.items ≡ out.old.items ++ map (moved_block b n) blocks.old) }
{
    for block in blocks {
        put_block(alloc, out, block, b, n)?;
    }
    Ok(())
}

fn put_block(
    alloc: Global,
    out: &mut Vec<Block>,
    block: &mut Block,
    b: u32,
    n: u32,
) -> Result<(), AllocError>
    requires number { NamesBlocks few_blocks block.old.end }
    requires few { n ≤ few_blocks }
    ensures { OnOk result (out.new.items ≡ out.old.items ++ moved_block b n block.old ∷ []) }
{
    out.push(Block {
        instrs: mem::replace(&mut block.instrs, Seq::new(alloc)),
        end: moved_end(b, n, block.end),
    })?;
    Ok(())
}

/// Takes instructions over. A `turn` is left in each place.
pub(crate) fn put_instrs(out: &mut Vec<Instr>, instrs: &mut [Instr]) -> Result<(), AllocError>
    ensures { OnOk result (out.new.items ≡ out.old.items ++ instrs.old) }
{
    for instr in instrs {
        out.push(mem::replace(instr, Instr::Turn))?;
    }
    Ok(())
}
