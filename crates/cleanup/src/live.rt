//! Live registers, backwards through instructions and ends.
ghost use Rattle.std.specs.Prelude.{◌≡◌, ℕ, ◌+◌, ◌*◌, ◌≤◌, ◌≢◌, ◌&&◌, ◌||◌, [], ◌++◌, length, reverse, not, IfOk, OnOk};
ghost use Rattle.std.specs.List.{AllByRecursion};
ghost use Rattle.il_core.specs.Operands.{reads, writes, end_reads, jumps};
ghost use Rattle.il_laws.specs.Live.{any_reads, read_in, is_wanted, is_dead, live_before, live_through, alive};
ghost use Rattle.const_prop.specs.Tables.{AreNamed, NamesRegisters};
ghost use Rattle.cleanup.specs.Bits.{has, row, live_behind};
ghost use Rattle.cleanup.specs.Ends.{ReadsRegister, EndsRead};

use crate::bits::{insert, is_in, remove, remove_row, some_in, unite};
use il_core::{Block, End, Instr};
use std::alloc::{AllocError, Global};

/// The registers that some instruction or end reads.
pub(crate) fn read_anywhere(
    alloc: Global,
    width: usize,
    blocks: &[Block],
) -> Result<Vec<u64>, AllocError>
    requires named { AreNamed (64 * width) blocks.now }
    requires ends { EndsRead (64 * width) blocks.now }
    ensures size { IfOk result (λ v. length v.items ≡ width) }
    ensures reads { IfOk result (λ v. (x : ℕ) → has v.items x ≡ read_in blocks.now x) }
{
    let mut set = vec![in alloc; 0; width]?;
    for block in blocks {
        add_block(set.as_mut_slice(), block);
    }
    Ok(set)
}

/// Puts what a block reads into a set.
fn add_block(set: &mut [u64], block: &Block)
    requires named { AllByRecursion (NamesRegisters (64 * length set.old)) block.now.instrs }
    requires end { ReadsRegister (64 * length set.old) block.now.end }
    ensures { (x : ℕ) → has set.new x ≡ ((any_reads block.now.instrs x || end_reads block.now.end x) || has set.old x) }
{
    add_reads(set, block.instrs.as_slice());
    add_end(set, block.end);
}

/// Puts what instructions read into a set.
fn add_reads(set: &mut [u64], instrs: &[Instr])
    requires { AllByRecursion (NamesRegisters (64 * length set.old)) instrs.now }
    ensures { (x : ℕ) → has set.new x ≡ (any_reads instrs.now x || has set.old x) }
{
    for instr in instrs {
        add_sources(set, instr);
    }
}

/// Puts what an instruction reads into a set.
fn add_sources(set: &mut [u64], instr: &Instr)
    requires { NamesRegisters (64 * length set.old) instr.now }
    ensures { (x : ℕ) → has set.new x ≡ (reads instr.now x || has set.old x) }
{
    for source in instr.sources() {
        insert(set, source as usize);
    }
}

/// Puts what an end reads into a set.
fn add_end(set: &mut [u64], end: End)
    requires { ReadsRegister (64 * length set.old) end }
    ensures { (x : ℕ) → has set.new x ≡ (end_reads end x || has set.old x) }
{
    if let Some(r) = end.source() {
        insert(set, r as usize);
    }
}

/// Takes what an instruction writes out of a set.
fn drop_written(set: &mut [u64], instr: &Instr)
    requires { NamesRegisters (64 * length set.old) instr.now }
    ensures { (x : ℕ) → has set.new x ≡ (has set.old x && not (writes instr.now x)) }
{
    match instr {
        Instr::Clear(first, count, _, _) => remove_row(set, *first, *count),
        _ => {
            if let Some(d) = instr.destination() {
                remove(set, d as usize);
            }
        }
    }
}

/// Whether a register that an instruction writes is in a set.
fn is_wanted(set: &[u64], instr: &Instr) -> bool
    requires { NamesRegisters (64 * length set.now) instr.now }
    ensures { result ≡ is_wanted instr.now (has set.now) }
{
    match instr {
        Instr::Clear(first, count, _, _) => some_in(set, *first, *count),
        _ => match instr.destination() {
            Some(d) => is_in(set, d as usize),
            None => false,
        },
    }
}

/// Takes the live registers back over an instruction, and tells whether it is kept.
fn step_back(set: &mut [u64], instr: &Instr) -> bool
    requires { NamesRegisters (64 * length set.old) instr.now }
    ensures kept { result ≡ not (is_dead instr.now (has set.old)) }
    ensures live { (x : ℕ) → has set.new x ≡ live_before instr.now (has set.old) x }
{
    if instr.is_pure() && !is_wanted(set, instr) {
        return false;
    }
    drop_written(set, instr);
    add_sources(set, instr);
    true
}

/// Keeps the instructions that aren't dead, by what is live behind them, and takes the live registers back over them.
/// The second vector is room, empty before and after.
pub(crate) fn keep_alive(
    set: &mut [u64],
    instrs: &mut Vec<Instr>,
    room: &mut Vec<Instr>,
) -> Result<(), AllocError>
    requires named { AllByRecursion (NamesRegisters (64 * length set.old)) instrs.old.items }
    requires empty { room.old.items ≡ [] }
    ensures instrs { OnOk result (instrs.new.items ≡ alive instrs.old.items (has set.old)) }
    ensures room { OnOk result (room.new.items ≡ []) }
    ensures live { OnOk result ((x : ℕ) → has set.new x ≡ live_through instrs.old.items (has set.old) x) }
{
    while let Some(instr) = instrs.pop() {
        if step_back(set, &instr) {
            room.push(instr)?;
        }
    }
    put_back(instrs, room)
}

/// Moves instructions to a vector, the last one first.
fn put_back(instrs: &mut Vec<Instr>, room: &mut Vec<Instr>) -> Result<(), AllocError>
    ensures instrs { OnOk result (instrs.new.items ≡ instrs.old.items ++ reverse room.old.items) }
    ensures room { OnOk result (room.new.items ≡ []) }
{
    while let Some(instr) = room.pop() {
        instrs.push(instr)?;
    }
    Ok(())
}

/// The set of a block.
fn row(rows: &[u64], width: usize, t: usize) -> &[u64]
    requires { t * width + width ≤ length rows.now }
    ensures value { result.now ≡ row rows.now width t }
    ensures len { length result.now ≡ width }
{
    &rows[t * width..t * width + width]
}

/// Puts the set of a block in its place.
pub(crate) fn put_row(rows: &mut [u64], set: &[u64], b: usize)
    requires { b * length set.now + length set.now ≤ length rows.old }
    ensures here { row rows.new (length set.now) b ≡ set.now }
    ensures others { (t : ℕ) → t ≢ b → row rows.new (length set.now) t ≡ row rows.old (length set.now) t }
{
    let width = set.len();
    rows[b * width..b * width + width].copy_from_slice(set);
}

/// Puts in a set what is live at an end, by what is read anywhere and what is live at the starts of later blocks.
pub(crate) fn put_live(set: &mut [u64], read: &[u64], rows: &[u64], end: End)
    requires sizes { length read.now ≡ length set.old }
    requires rows { AllByRecursion (λ t. t * length set.old + length set.old ≤ length rows.now) (jumps end) }
    requires end { ReadsRegister (64 * length set.old) end }
    ensures { (x : ℕ) → has set.new x ≡ live_behind (has read.now) (λ t. has (row rows.now (length set.old) t)) end x }
{
    match end {
        End::Jump(t) => set.copy_from_slice(row(rows, set.len(), t as usize)),
        End::Branch(r, t, u) => {
            set.copy_from_slice(row(rows, set.len(), t as usize));
            unite(set, row(rows, set.len(), u as usize));
            insert(set, r as usize);
        }
        End::Loop(_) => set.copy_from_slice(read),
        End::Return(_) | End::Exit(_) => {
            set.fill(0);
            add_end(set, end);
        }
    }
}
