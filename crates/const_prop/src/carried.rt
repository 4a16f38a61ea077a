//! Registers whose facts go from block to block.
ghost use Rattle.std.specs.Prelude.{◌≡◌, ◌≢◌, ℕ, [], false, ◌+◌, ◌<◌, ◌≤◌, length, IfOk, OnOk, if◌then◌else◌, slice_index_or};
ghost use Rattle.std.specs.List.{AllByRecursion};
ghost use Rattle.il_core.specs.Operands.{writes};
ghost use Rattle.const_prop.specs.Tables.{AreNamed, NamesRegisters};
ghost use Rattle.const_prop.specs.Carried.{Carries, Filled, AreEmpty, IsTaken, StandsIn};
ghost use Rattle.const_prop.specs.Taking.{IsStamped, IsTaking, Took, TookAll, TookRow, TookNeeded, TookPassed, Noted};

use hlo_num::Seq;
use il_core::{Block, End, Instr};
use std::alloc::{AllocError, Global};
use std::mem;

/// Of each block, the registers of which it takes facts from the blocks before it: those that it reads, its end
/// included, before it writes them, and those that a block takes to which it jumps and no `loop` goes, unless it writes
/// them. Of no other is a word that is known at its start of any use. It takes time in proportion to the registers, to
/// the instructions with what their `clear`s name, and to what it gives. The only error is want of memory.
pub(crate) fn carried(
    alloc: Global,
    regs: u32,
    blocks: &[Block],
    looped: &[bool],
) -> Result<Vec<Seq<u32>>, AllocError>
    requires { AreNamed regs blocks.now }
    ensures { IfOk result (λ v. Carries regs looped.now v.items blocks.now) }
{
    let mut rows = nothing(alloc, blocks.len())?;
    let mut taking = Taking::new(alloc, regs as usize)?;
    for done in 0..blocks.len() {
        let b = blocks.len() - 1 - done;
        let row = taking.take_block(alloc, done + 1, &blocks[b], rows.as_slice(), looped)?;
        rows[b] = row;
    }
    Ok(rows)
}

/// So many empty rows.
fn nothing(alloc: Global, count: usize) -> Result<Vec<Seq<u32>>, AllocError>
    ensures { IfOk result (λ v. AreEmpty count v.items) }
{
    let mut rows = Vec::with_capacity(alloc, count)?;
    for b in 0..count {
        rows.push(Seq::new(alloc))?;
    }
    Ok(rows)
}

/// What a block takes, as it is gone through.
#[derive(Drop)]
pub(crate) struct Taking {
    /// The block's stamp: the first one that is gone through has 1.
    pub stamp: usize,
    /// The registers that it takes.
    pub row: Vec<u32>,
    /// By register, the stamp of the block that took it last.
    pub takers: Vec<usize>,
    /// By register, the stamp of the block that wrote it last.
    pub writers: Vec<usize>,
}

impl Taking {
    /// No block has been gone through.
    fn new(alloc: Global, regs: usize) -> Result<Taking, AllocError>
        ensures stamped { IfOk result (λ s. IsStamped regs s) }
        ensures stamp { IfOk result (λ s. s.stamp ≡ 0) }
        ensures row { IfOk result (λ s. s.row.items ≡ []) }
    {
        Ok(Taking {
            stamp: 0,
            row: Vec::new(alloc),
            takers: vec![in alloc; 0; regs]?,
            writers: vec![in alloc; 0; regs]?,
        })
    }

    /// What a block takes, where what those behind it take is known.
    fn take_block(
        &mut self,
        alloc: Global,
        stamp: usize,
        block: &Block,
        rows: &[Seq<u32>],
        looped: &[bool],
    ) -> Result<Seq<u32>, AllocError>
        requires named { AllByRecursion (NamesRegisters (length self.old.takers.items)) block.now.instrs }
        requires stamped { IsStamped (length self.old.takers.items) self.old }
        requires fresh { self.old.stamp < stamp }
        requires row { self.old.row.items ≡ [] }
        ensures stamped { OnOk result (IsStamped (length self.old.takers.items) self.new) }
        ensures stamp { OnOk result (self.new.stamp ≡ stamp) }
        ensures row { OnOk result (self.new.row.items ≡ []) }
        ensures takes { IfOk result (λ row. IsTaken (length self.old.takers.items) looped.now rows.now block.now row) }
    {
        self.stamp = stamp;
        self.take_needed(alloc, block)?;
        self.take_passed(alloc, block.end, rows, looped)?;
        Ok(Seq::from_vec(mem::replace(&mut self.row, Vec::new(alloc))))
    }

    /// Takes what a block reads before it writes it.
    fn take_needed(&mut self, alloc: Global, block: &Block) -> Result<(), AllocError>
        requires named { AllByRecursion (NamesRegisters (length self.old.takers.items)) block.now.instrs }
        requires taking { IsTaking (length self.old.takers.items) self.old }
        requires fresh { (x : ℕ) → x < length self.old.takers.items → slice_index_or self.old.writers.items x 0 ≢ self.old.stamp }
        ensures taking { OnOk result (IsTaking (length self.old.takers.items) self.new) }
        ensures needed { OnOk result (TookNeeded (length self.old.takers.items) block.now self.old self.new) }
    {
        for instr in block.instrs.as_slice() {
            self.note(alloc, instr)?;
        }
        if let Some(register) = block.end.source() {
            self.take(alloc, register)?;
        }
        Ok(())
    }

    /// Takes what those blocks take to which an end jumps, if no `loop` goes there and nothing here has written it.
    fn take_passed(
        &mut self,
        alloc: Global,
        end: End,
        rows: &[Seq<u32>],
        looped: &[bool],
    ) -> Result<(), AllocError>
        requires { IsTaking (length self.old.takers.items) self.old }
        ensures taking { OnOk result (IsTaking (length self.old.takers.items) self.new) }
        ensures passed { OnOk result (TookPassed (length self.old.takers.items) end looped.now rows.now self.old self.new) }
    {
        match end {
            End::Jump(t) => self.take_target(alloc, t, rows, looped),
            End::Branch(_, t, u) => {
                self.take_target(alloc, t, rows, looped)?;
                self.take_target(alloc, u, rows, looped)?;
                Ok(())
            }
            End::Loop(_) | End::Return(_) | End::Exit(_) => Ok(()),
        }
    }

    /// Takes what block t takes, if no `loop` goes there and nothing here has written it.
    fn take_target(
        &mut self,
        alloc: Global,
        t: u32,
        rows: &[Seq<u32>],
        looped: &[bool],
    ) -> Result<(), AllocError>
        requires { IsTaking (length self.old.takers.items) self.old }
        ensures taking { OnOk result (IsTaking (length self.old.takers.items) self.new) }
        ensures took { OnOk result (Took self.old self.new) }
        ensures row { OnOk result (slice_index_or looped.now t false ≡ false
            → TookRow (length self.old.takers.items) (slice_index_or rows.now t []) self.old self.new) }
    {
        let t = t as usize;
        if t >= rows.len() || (t < looped.len() && looped[t]) {
            return Ok(());
        }
        self.take_row(alloc, rows[t].as_slice())
    }

    /// Takes registers that nothing here has written.
    fn take_row(&mut self, alloc: Global, row: &[u32]) -> Result<(), AllocError>
        requires { IsTaking (length self.old.takers.items) self.old }
        ensures taking { OnOk result (IsTaking (length self.old.takers.items) self.new) }
        ensures took { OnOk result (Took self.old self.new) }
        ensures row { OnOk result (TookRow (length self.old.takers.items) row.now self.old self.new) }
    {
        for register in row {
            self.take(alloc, *register)?;
        }
        Ok(())
    }

    /// Takes what an instruction reads, and notes what it writes.
    fn note(&mut self, alloc: Global, instr: &Instr) -> Result<(), AllocError>
        requires named { NamesRegisters (length self.old.takers.items) instr.now }
        requires taking { IsTaking (length self.old.takers.items) self.old }
        ensures taking { OnOk result (IsTaking (length self.old.takers.items) self.new) }
        ensures noted { OnOk result (Noted (length self.old.takers.items) instr.now self.old self.new) }
    {
        self.take_all(alloc, instr)?;
        write(self.writers.as_mut_slice(), self.stamp, instr);
        Ok(())
    }

    /// Takes all that an instruction reads.
    fn take_all(&mut self, alloc: Global, instr: &Instr) -> Result<(), AllocError>
        requires { IsTaking (length self.old.takers.items) self.old }
        ensures taking { OnOk result (IsTaking (length self.old.takers.items) self.new) }
        ensures took { OnOk result (Took self.old self.new) }
        ensures all { OnOk result (TookAll (length self.old.takers.items) instr.now self.old self.new) }
    {
        for source in instr.sources() {
            self.take(alloc, source)?;
        }
        Ok(())
    }

    /// Takes a register that nothing here has written, once.
    fn take(&mut self, alloc: Global, register: u32) -> Result<(), AllocError>
        requires { IsTaking (length self.old.takers.items) self.old }
        ensures taking { OnOk result (IsTaking (length self.old.takers.items) self.new) }
        ensures took { OnOk result (Took self.old self.new) }
        ensures here { OnOk result (register < length self.old.takers.items → slice_index_or self.old.writers.items register 0 ≢ self.old.stamp
            → StandsIn self.new.row.items register) }
    {
        let x = register as usize;
        if x >= self.takers.len() || self.writers[x] == self.stamp || self.takers[x] == self.stamp {
            return Ok(());
        }
        self.takers[x] = self.stamp;
        self.row.push(register)?;
        Ok(())
    }
}

/// Notes what an instruction writes.
fn write(writers: &mut [usize], stamp: usize, instr: &Instr)
    requires { NamesRegisters (length writers.old) instr.now }
    ensures size { length writers.new ≡ length writers.old }
    ensures is { (x : ℕ) → x < length writers.old → slice_index_or writers.new x 0 ≡ (if writes instr.now x then stamp else slice_index_or writers.old x 0) }
{
    match instr {
        Instr::Clear(first, count, _, _) => write_row(writers, stamp, *first, *count),
        _ => {
            if let Some(d) = instr.destination() {
                writers[d as usize] = stamp;
            }
        }
    }
}

/// Notes that a block writes so many registers.
fn write_row(writers: &mut [usize], stamp: usize, first: u32, count: u32)
    requires { first + count ≤ length writers.old }
    ensures { Filled stamp writers.old writers.new first count }
{
    let first = first as usize;
    writers[first..first + count as usize].fill(stamp);
}
