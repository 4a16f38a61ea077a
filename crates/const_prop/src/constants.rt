//! Constants in place of results that are known.
ghost use Rattle.std.specs.Prelude.{◌≡◌, IfOk, OnOk, length};
ghost use Rattle.std.specs.List.{AllByRecursion};
ghost use Rattle.il_laws.specs.Facts.{through};
ghost use Rattle.il_laws.specs.Propagate.{propagate, propagated_block, with_facts};
ghost use Rattle.const_prop.specs.Tables.{AreNamed, Has, NamesRegisters, IsValidRoutine, facts_in};
ghost use Rattle.const_prop.specs.Flow.{Follows, bare};

use crate::copy::copy_routine;
use crate::facts::propagate_instrs;
use crate::flow::Flow;
use hlo_num::Seq;
use il_core::{Block, Routine};
use std::alloc::{AllocError, Global};
use std::mem;

/// A routine whose `move`s, conversions and operators with a known result are constants. It keeps what every routine
/// does (`il_laws::propagate_keeps`). The only error is want of memory. It takes time and memory for a copy of the
/// routine, and one pass of facts over it (`Flow`).
pub fn propagate(alloc: Global, r: &Routine) -> Result<Routine, AllocError>
    requires { IsValidRoutine r.now }
    ensures { IfOk result (λ q. q ≡ propagate r.now) }
{
    propagate_owned(alloc, copy_routine(alloc, r)?)
}

/// The same of a routine that isn't wanted any more: its instructions are replaced in place, so that it takes one pass
/// of facts and no copy. The only error is want of memory.
pub fn propagate_owned(alloc: Global, r: Routine) -> Result<Routine, AllocError>
    requires { IsValidRoutine r }
    ensures { IfOk result (λ q. q ≡ propagate r) }
{
    let Routine {
        pid,
        params,
        value,
        regs,
        entry,
        arrays,
        blocks,
    } = r;
    let mut blocks = blocks.into_vec();
    let mut flow = Flow::new(alloc, params, regs, blocks.as_slice())?;
    let mut table = flow.table(alloc)?;
    propagate_blocks(
        alloc,
        &mut flow,
        table.as_mut_slice(),
        blocks.as_mut_slice(),
    )?;
    Ok(Routine {
        pid,
        params,
        value,
        regs,
        entry,
        arrays,
        blocks: Seq::from_vec(blocks),
    })
}

fn propagate_blocks(
    alloc: Global,
    flow: &mut Flow,
    table: &mut [Option<u32>],
    blocks: &mut [Block],
) -> Result<(), AllocError>
    requires named { AreNamed flow.old.regs blocks.old }
    requires follows { Follows flow.old.regs flow.old.params blocks.old 0 flow.old }
    requires count { length table.old ≡ flow.old.regs }
    ensures { OnOk result (blocks.new ≡ with_facts propagated_block (bare flow.old.params blocks.old) 0 blocks.old) }
{
    for (b, block) in blocks.iter_mut().enumerate() {
        flow.enter(b, table);
        propagate_block(alloc, table, block);
        flow.leave(alloc, block.end, table)?;
    }
    Ok(())
}

fn propagate_block(alloc: Global, table: &mut [Option<u32>], block: &mut Block)
    requires { AllByRecursion (NamesRegisters (length table.old)) block.old.instrs }
    ensures block { block.new ≡ propagated_block (facts_in table.old) block.old }
    ensures facts { Has (length table.old) table.new (through block.old.instrs (facts_in table.old)) }
{
    let mut instrs = mem::replace(&mut block.instrs, Seq::new(alloc)).into_vec();
    propagate_instrs(table, instrs.as_mut_slice());
    block.instrs = Seq::from_vec(instrs);
}
