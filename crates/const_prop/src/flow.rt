//! Facts from block to block.
ghost use Rattle.std.specs.Prelude.{◌≡◌, ℕ, ◌<◌, length, None, Some, OnOk, IfOk, slice_index_or};
ghost use Rattle.il_laws.specs.Facts.{both_know};
ghost use Rattle.const_prop.specs.Tables.{AreNamed, AreMissing, Has, facts_in};
ghost use Rattle.const_prop.specs.Carried.{Knows, Restores, RestoresIfSome, placed, row_of};
ghost use Rattle.const_prop.specs.Flow.{Follows, Entered, Left, Sent, Starts, IsSized, IsSizedIfSome, Met, quiet, zeros};

use crate::carried::carried;
use crate::marks::{loop_heads, written};
use hlo_num::Seq;
use il_core::{Block, End};
use std::alloc::{AllocError, Global};

/// Facts on their way through a routine, from block to block. A block takes the facts of few registers from the blocks
/// before it: those that it reads before it writes them, and those that a block behind it takes so. A list of these, of 8
/// bytes a register, is kept for each block to which an earlier one jumps, until that block is reached; at a block to
/// which some `loop` goes facts begin anew. A pass takes time in proportion to the instructions with the registers that
/// they name, and to what the blocks take.
#[derive(Drop)]
pub struct Flow {
    pub params: u32,
    pub regs: usize,
    /// By block, the registers whose facts it takes.
    pub carried: Vec<Seq<u32>>,
    /// The blocks to which some `loop` goes.
    pub looped: Vec<bool>,
    /// The registers that some instruction writes.
    pub written: Vec<bool>,
    /// By block, what all that have jumped there know, by places of what it takes.
    pub arriving: Vec<Option<Seq<Option<u32>>>>,
}

impl Flow {
    /// The facts before the first block of a routine. It takes time in proportion to the routine and its registers; the
    /// only error is want of memory.
    pub fn new(alloc: Global, params: u32, regs: u32, blocks: &[Block]) -> Result<Flow, AllocError>
        requires { AreNamed regs blocks.now }
        ensures { IfOk result (λ f. Follows regs params blocks.now 0 f) }
    {
        let looped = loop_heads(alloc, blocks)?;
        let carried = carried(alloc, regs, blocks, looped.as_slice())?;
        let written = written(alloc, regs as usize, blocks)?;
        let arriving = nowhere(alloc, blocks.len())?;
        Ok(Flow {
            params,
            regs: regs as usize,
            carried,
            looped,
            written,
            arriving,
        })
    }

    /// A table by register, for the facts inside of blocks. The only error is want of memory.
    pub fn table(&self, alloc: Global) -> Result<Vec<Option<u32>>, AllocError>
        ensures { IfOk result (λ t. length t.items ≡ self.now.regs) }
    {
        vec![in alloc; None; self.regs]
    }

    /// Puts the facts at the start of a block into a table, of the registers that it takes. What arrived there is taken. It
    /// takes time in proportion to these registers.
    pub fn enter(&mut self, b: usize, table: &mut [Option<u32>])
        requires within { b < length self.old.arriving.items }
        requires sized { IsSized self.old }
        requires count { length table.old ≡ self.old.regs }
        ensures size { length table.new ≡ length table.old }
        ensures starts { Starts self.old b table.new }
        ensures flow { Entered self.old self.new b }
    {
        let kept = self.arriving[b].take();
        let carried = self.carried[b].as_slice();
        if self.looped[b] {
            put_quiet(table, carried, self.params, self.written.as_slice());
        } else if b == 0 {
            put_zeros(table, carried, self.params);
        } else {
            put_kept(table, carried, kept);
        }
    }

    /// Takes the facts at a block's end to the blocks to which it can jump, in time in proportion to what these take.
    /// The only error is want of memory.
    pub fn leave(
        &mut self,
        alloc: Global,
        end: End,
        table: &[Option<u32>],
    ) -> Result<(), AllocError>
        requires sized { IsSized self.old }
        requires count { length table.now ≡ self.old.regs }
        ensures { OnOk result (Left end table.now self.old self.new) }
    {
        match end {
            End::Jump(t) => self.send(alloc, t, table),
            End::Branch(_, t, u) => {
                self.send(alloc, t, table)?;
                if t == u {
                    return Ok(());
                }
                self.send(alloc, u, table)?;
                Ok(())
            }
            End::Loop(_) | End::Return(_) | End::Exit(_) => Ok(()),
        }
    }

    /// Takes facts to a block, if no `loop` goes there.
    fn send(&mut self, alloc: Global, t: u32, table: &[Option<u32>]) -> Result<(), AllocError>
        requires sized { IsSized self.old }
        requires count { length table.now ≡ self.old.regs }
        ensures { OnOk result (Sent t table.now self.old self.new) }
    {
        let t = t as usize;
        if t >= self.arriving.len() || self.looped[t] {
            return Ok(());
        }
        let carried = self.carried[t].as_slice();
        self.arriving[t] = match self.arriving[t].take() {
            None => Some(Seq::from_vec(picked(alloc, carried, table)?)),
            Some(kept) => Some(met(kept, carried, table)),
        };
        Ok(())
    }
}

/// Of the facts of some registers, by their places, what a table knows too.
fn met(kept: Seq<Option<u32>>, carried: &[u32], table: &[Option<u32>]) -> Seq<Option<u32>>
    requires inside { (i : ℕ) → i < length carried.now → slice_index_or carried.now i 0 < length table.now }
    requires sized { length kept ≡ length carried.now }
    ensures { Met (placed carried.now (facts_in table.now)) kept result }
{
    let mut kept = kept.into_vec();
    meet(kept.as_mut_slice(), carried, table);
    Seq::from_vec(kept)
}

/// So many missing tables.
fn nowhere(alloc: Global, count: usize) -> Result<Vec<Option<Seq<Option<u32>>>>, AllocError>
    ensures { IfOk result (λ v. AreMissing count v.items) }
{
    let mut tables = Vec::with_capacity(alloc, count)?;
    for t in 0..count {
        tables.push(None)?;
    }
    Ok(tables)
}

/// What both of two know.
fn both_know(a: Option<u32>, b: Option<u32>) -> Option<u32>
    ensures { result ≡ both_know a b }
{
    match (a, b) {
        (Some(v), Some(w)) => if v == w { Some(v) } else { None },
        _ => None,
    }
}

/// Of the facts of some registers, by their places, those are kept that a table knows too.
fn meet(kept: &mut [Option<u32>], carried: &[u32], table: &[Option<u32>])
    requires inside { (i : ℕ) → i < length carried.now → slice_index_or carried.now i 0 < length table.now }
    requires sized { length kept.old ≡ length carried.now }
    ensures { Met (placed carried.now (facts_in table.now)) kept.old kept.new }
{
    for i in 0..kept.len() {
        kept[i] = both_know(table[carried[i] as usize], kept[i]);
    }
}

/// Of carried registers, nothing is known of parameters and of what is written, and the others are known as 0.
fn put_quiet(table: &mut [Option<u32>], carried: &[u32], params: u32, written: &[bool])
    requires inside { (i : ℕ) → i < length carried.now → slice_index_or carried.now i 0 < length table.old }
    requires written { length written.now ≡ length table.old }
    ensures size { length table.new ≡ length table.old }
    ensures facts { Knows carried.now table.new (quiet params written.now) }
{
    for x in carried {
        let x = *x as usize;
        table[x] = if x < params as usize || written[x] {
            None
        } else {
            Some(0)
        };
    }
}

/// Of carried registers, nothing is known of parameters, and the others are known as 0.
fn put_zeros(table: &mut [Option<u32>], carried: &[u32], params: u32)
    requires inside { (i : ℕ) → i < length carried.now → slice_index_or carried.now i 0 < length table.old }
    ensures size { length table.new ≡ length table.old }
    ensures facts { Knows carried.now table.new (zeros params) }
{
    for x in carried {
        table[*x as usize] = if *x < params { None } else { Some(0) };
    }
}

/// Of carried registers, what is kept of them by their places is known, or nothing.
fn put_kept(table: &mut [Option<u32>], carried: &[u32], kept: Option<Seq<Option<u32>>>)
    requires inside { (i : ℕ) → i < length carried.now → slice_index_or carried.now i 0 < length table.old }
    requires sized { IsSizedIfSome (length carried.now) kept }
    ensures size { length table.new ≡ length table.old }
    ensures facts { RestoresIfSome carried.now kept table.new }
{
    match kept {
        Some(facts) => restore(table, carried, facts.as_slice()),
        None => forget(table, carried),
    }
}

/// Of carried registers, what is kept of them by their places is known.
fn restore(table: &mut [Option<u32>], carried: &[u32], facts: &[Option<u32>])
    requires inside { (i : ℕ) → i < length carried.now → slice_index_or carried.now i 0 < length table.old }
    requires sized { length facts.now ≡ length carried.now }
    ensures size { length table.new ≡ length table.old }
    ensures facts { Restores carried.now facts.now table.new }
{
    for i in 0..carried.len() {
        table[carried[i] as usize] = facts[i];
    }
}

/// Nothing is known of carried registers.
fn forget(table: &mut [Option<u32>], carried: &[u32])
    requires inside { (i : ℕ) → i < length carried.now → slice_index_or carried.now i 0 < length table.old }
    ensures size { length table.new ≡ length table.old }
    ensures facts { Knows carried.now table.new (λ x. None) }
{
    for x in carried {
        table[*x as usize] = None;
    }
}

/// What a table has of carried registers, by their places.
fn picked(
    alloc: Global,
    carried: &[u32],
    table: &[Option<u32>],
) -> Result<Vec<Option<u32>>, AllocError>
    requires inside { (i : ℕ) → i < length carried.now → slice_index_or carried.now i 0 < length table.now }
    ensures { IfOk result (λ v. Has (length carried.now) v.items (placed carried.now (facts_in table.now))) }
{
    let mut facts = Vec::with_capacity(alloc, carried.len())?;
    for x in carried {
        facts.push(table[*x as usize])?;
    }
    Ok(facts)
}
