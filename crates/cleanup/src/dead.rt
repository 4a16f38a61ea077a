//! Writes to registers that aren't live dropped.
ghost use Rattle.std.specs.Prelude.{◌≡◌, ℕ, ◌*◌, ◌≤◌, [], length, IfOk, OnOk};
ghost use Rattle.std.specs.List.{AllByRecursion};
ghost use Rattle.il_core.specs.Limits.{max_registers, max_size};
ghost use Rattle.il_laws.specs.Live.{drop_dead_writes, alive, alive_blocks, live_at, live_through, read_in};
ghost use Rattle.const_prop.specs.Tables.{AreNamed, NamesRegisters, IsValidRoutine};
ghost use Rattle.cleanup.specs.Bits.{has, GoForward};
ghost use Rattle.cleanup.specs.Ends.{EndsRead};

use crate::live::{keep_alive, put_live, put_row, read_anywhere};
use const_prop::copy_routine;
use hlo_num::Seq;
use il_core::{Block, Instr, Routine};
use std::alloc::{AllocError, Global};
use std::mem;

/// A routine without the writes to registers that nobody reads, where they can't trap. It keeps what every routine does
/// (`il_laws::drop_dead_writes_keeps`). The only error is want of memory. It takes time and memory for a copy of the
/// routine, and what `drop_dead_writes_owned` takes.
pub fn drop_dead_writes(alloc: Global, r: &Routine) -> Result<Routine, AllocError>
    requires { IsValidRoutine r.now }
    ensures { IfOk result (λ q. q ≡ drop_dead_writes r.now) }
{
    drop_dead_writes_owned(alloc, copy_routine(alloc, r)?)
}

/// The same of a routine that isn't wanted any more: its instructions are dropped in place. Live registers are sets of
/// bits, one for each block in one table. It takes time in proportion to the instructions with the registers that they
/// name, and to the registers in words of 64 for each block; the table takes 8 bytes for each such word.
pub fn drop_dead_writes_owned(alloc: Global, r: Routine) -> Result<Routine, AllocError>
    requires { IsValidRoutine r }
    ensures { IfOk result (λ q. q ≡ drop_dead_writes r) }
{
    let Routine {
        pid,
        params,
        value,
        regs,
        entry,
        arrays,
        blocks,
    } = r;
    let mut blocks = blocks.into_vec();
    drop_dead(alloc, regs, blocks.as_mut_slice())?;
    Ok(Routine {
        pid,
        params,
        value,
        regs,
        entry,
        arrays,
        blocks: Seq::from_vec(blocks),
    })
}

/// Drops the dead writes of blocks.
fn drop_dead(alloc: Global, regs: u32, blocks: &mut [Block]) -> Result<(), AllocError>
    requires regs { regs ≤ max_registers }
    requires few { length blocks.old ≤ max_size }
    requires named { AreNamed regs blocks.old }
    requires ends { EndsRead regs blocks.old }
    requires forward { GoForward blocks.old }
    ensures { OnOk result (blocks.new ≡ alive_blocks blocks.old (live_at blocks.old) blocks.old) }
{
    let width = (regs as usize).div_ceil(64);
    let read = read_anywhere(alloc, width, blocks)?;
    let mut set = vec![in alloc; 0; width]?;
    let mut rows = vec![in alloc; 0; width * blocks.len()]?;
    thin_blocks(
        alloc,
        read.as_slice(),
        set.as_mut_slice(),
        rows.as_mut_slice(),
        blocks,
    )
}

/// Drops the dead writes of blocks, from the last one to the first, by what is read anywhere. The others are room: a set
/// of registers, and one for each block.
fn thin_blocks(
    alloc: Global,
    read: &[u64],
    set: &mut [u64],
    rows: &mut [u64],
    blocks: &mut [Block],
) -> Result<(), AllocError>
    requires sizes { length read.now ≡ length set.old }
    requires rows { length rows.old ≡ length set.old * length blocks.old }
    requires named { AreNamed (64 * length set.old) blocks.old }
    requires ends { EndsRead (64 * length set.old) blocks.old }
    requires forward { GoForward blocks.old }
    requires reads { (x : ℕ) → has read.now x ≡ read_in blocks.old x }
    ensures { OnOk result (blocks.new ≡ alive_blocks blocks.old (live_at blocks.old) blocks.old) }
{
    let mut room = Vec::new(alloc);
    let mut b = blocks.len();
    while b > 0 {
        b -= 1;
        put_live(set, read, rows, blocks[b].end);
        thin_block(alloc, set, &mut blocks[b], &mut room)?;
        put_row(rows, set, b);
    }
    Ok(())
}

/// Drops the dead writes of a block, by what is live at its end, and takes the live registers back to its start.
fn thin_block(
    alloc: Global,
    set: &mut [u64],
    block: &mut Block,
    room: &mut Vec<Instr>,
) -> Result<(), AllocError>
    requires named { AllByRecursion (NamesRegisters (64 * length set.old)) block.old.instrs }
    requires empty { room.old.items ≡ [] }
    ensures block { OnOk result (block.new ≡ record { instrs = alive block.old.instrs (has set.old); end = block.old.end }) }
    ensures room { OnOk result (room.new.items ≡ []) }
    ensures live { OnOk result ((x : ℕ) → has set.new x ≡ live_through block.old.instrs (has set.old) x) }
{
    let mut instrs = mem::replace(&mut block.instrs, Seq::new(alloc)).into_vec();
    keep_alive(set, &mut instrs, room)?;
    block.instrs = Seq::from_vec(instrs);
    Ok(())
}
