//! Jumps in place of branches whose way is known.
ghost use Rattle.std.specs.Prelude.{◌≡◌, IfOk, OnOk, length};
ghost use Rattle.std.specs.List.{AllByRecursion};
ghost use Rattle.il_laws.specs.Facts.{through};
ghost use Rattle.il_laws.specs.Propagate.{fold_branches, folded, folded_block, with_facts};
ghost use Rattle.const_prop.specs.Tables.{AreNamed, Has, NamesRegisters, IsValidRoutine, facts_in};
ghost use Rattle.const_prop.specs.Flow.{Follows, bare};
ghost use Rattle.cleanup.specs.Ends.{ReadsRegister, EndsRead};

use const_prop::{Flow, copy_routine, pass};
use hlo_num::Seq;
use il_core::{Block, End, Routine};
use std::alloc::{AllocError, Global};

/// A routine whose branches on a known register, and those with equal targets, are jumps. It keeps what every routine
/// does (`il_laws::fold_branches_keeps`). The only error is want of memory. It takes time and memory for a copy of the
/// routine, and one pass of facts over it (`const_prop::Flow`).
pub fn fold_branches(alloc: Global, r: &Routine) -> Result<Routine, AllocError>
    requires { IsValidRoutine r.now }
    ensures { IfOk result (λ q. q ≡ fold_branches r.now) }
{
    fold_branches_owned(alloc, copy_routine(alloc, r)?)
}

/// The same of a routine that isn't wanted any more: its ends are replaced in place, so that it takes one pass of facts
/// and no copy. The only error is want of memory.
pub fn fold_branches_owned(alloc: Global, r: Routine) -> Result<Routine, AllocError>
    requires { IsValidRoutine r }
    ensures { IfOk result (λ q. q ≡ fold_branches r) }
{
    let Routine {
        pid,
        params,
        value,
        regs,
        entry,
        arrays,
        blocks,
    } = r;
    let mut blocks = blocks.into_vec();
    let mut flow = Flow::new(alloc, params, regs, blocks.as_slice())?;
    let mut table = flow.table(alloc)?;
    fold_blocks(
        alloc,
        &mut flow,
        table.as_mut_slice(),
        blocks.as_mut_slice(),
    )?;
    Ok(Routine {
        pid,
        params,
        value,
        regs,
        entry,
        arrays,
        blocks: Seq::from_vec(blocks),
    })
}

fn fold_blocks(
    alloc: Global,
    flow: &mut Flow,
    table: &mut [Option<u32>],
    blocks: &mut [Block],
) -> Result<(), AllocError>
    requires named { AreNamed flow.old.regs blocks.old }
    requires ends { EndsRead flow.old.regs blocks.old }
    requires follows { Follows flow.old.regs flow.old.params blocks.old 0 flow.old }
    requires count { length table.old ≡ flow.old.regs }
    ensures { OnOk result (blocks.new ≡ with_facts folded_block (bare flow.old.params blocks.old) 0 blocks.old) }
{
    for (b, block) in blocks.iter_mut().enumerate() {
        flow.enter(b, table);
        let end = block.end;
        fold_block(table, block);
        flow.leave(alloc, end, table)?;
    }
    Ok(())
}

/// Takes the facts through a block, and folds its end.
fn fold_block(table: &mut [Option<u32>], block: &mut Block)
    requires instrs { AllByRecursion (NamesRegisters (length table.old)) block.old.instrs }
    requires end { ReadsRegister (length table.old) block.old.end }
    ensures block { block.new ≡ record { instrs = block.old.instrs; end = folded (facts_in table.new) block.old.end } }
    ensures facts { Has (length table.old) table.new (through block.old.instrs (facts_in table.old)) }
{
    pass(table, block.instrs.as_slice());
    block.end = folded(table, block.end);
}

/// A jump in place of a branch on a known register or with equal targets; other ends stay.
fn folded(table: &[Option<u32>], end: End) -> End
    requires { ReadsRegister (length table.now) end }
    ensures { result ≡ folded (facts_in table.now) end }
{
    match end {
        End::Branch(r, t, u) => {
            if t == u {
                return End::Jump(t);
            }
            match table[r as usize] {
                Some(0) => End::Jump(u),
                Some(_) => End::Jump(t),
                None => end,
            }
        }
        _ => end,
    }
}
