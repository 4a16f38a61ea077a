//! Which clone stands for which callee and constants.
ghost use Rattle.std.specs.Prelude.{◌≡◌, [], ◌∷◌, filter, reverse, OnErr, OnOk};
ghost use Rattle.il_core.specs.Shapes.{IsRising};
ghost use Rattle.il_laws.specs.Reach.{is_in};
ghost use Rattle.plan_laws.specs.Groups.{clone_in, is_row_of, same_fixed};
ghost use Rattle.clone_groups.specs.Fixing.{fixed_of};
ghost use Rattle.clone_groups.specs.Keys.{fixed_in};

use crate::keys::{CloneKey, numbers_of};
use hlo_num::Word;
use std::alloc::{AllocError, Global};
use std::marker::Model;

/// A clone with the callee and the constants that it was made for.
#[derive(Drop)]
pub(crate) struct CloneRow {
    key: CloneKey,
    clone: u32,
}

impl Model for CloneRow {
    ghost use Rattle.il_laws.specs.Table.{Row};
    ghost use Rattle.clone_groups.specs.Keys.{fixed_in};

    ghost Value = { Row };

    ghost view = { λ r. record { callee = r.key.callee; fixed = fixed_in r.key.fixed.items; clone = r.clone } };
}

/// The clones that stand, each with the callee and the constants that it was made for. Contracts see its rows, the
/// newest one first.
#[derive(Drop)]
pub struct CloneTable {
    /// The oldest one first.
    rows: Vec<CloneRow>,
}

impl Model for CloneTable {
    ghost use Rattle.std.specs.Prelude.{reverse};
    ghost use Rattle.clone_groups.specs.Rows.{Rows};

    ghost Value = { Rows };

    ghost view = { λ t. reverse t.rows.items };
}

impl CloneRow {
    pub(crate) fn key(&self) -> &CloneKey
        ensures callee { result.now.callee ≡ self.now.callee }
        ensures fixed { fixed_in result.now.fixed.items ≡ self.now.fixed }
    {
        &self.key
    }

    pub(crate) fn pid(&self) -> u32
        ensures { result ≡ self.now.clone }
    {
        self.clone
    }

    /// Whether it is for a callee and constants.
    fn is_for(&self, callee: u32, fixed: &[(u32, Word)]) -> bool
        ensures { result ≡ is_row_of callee (fixed_of fixed.now) self.now }
    {
        self.key.callee == callee && are_same(self.key.fixed.as_slice(), fixed)
    }
}

/// Whether a PID is among these. Where they don't rise it answers either. It takes time for a search by halves.
fn is_among(pids: &[u32], pid: u32) -> bool
    ensures { IsRising (λ p. p) pids.now → result ≡ is_in pids.now pid }
{
    pids.binary_search(&pid).is_ok()
}

/// Whether constants are the same, in their order.
fn are_same(some: &[(u32, u32)], others: &[(u32, Word)]) -> bool
    ensures { result ≡ same_fixed (fixed_in some.now) (fixed_of others.now) }
{
    let mut left = others;
    for (param, number) in some {
        let Some(((other, value), rest)) = left.split_first() else {
            return false;
        };
        if *param != *other || *number != value.0 {
            return false;
        }
        left = rest;
    }
    left.is_empty()
}

impl CloneTable {
    /// No clone stands. It takes constant time and no memory.
    pub fn new(alloc: Global) -> CloneTable
        ensures { result ≡ [] }
    {
        CloneTable {
            rows: Vec::new(alloc),
        }
    }

    /// Adds a clone for a callee and constants. A refused call, for want of memory, changes nothing. It takes time in
    /// proportion to the constants, apart from growth.
    pub fn add(&mut self, callee: u32, fixed: &[(u32, Word)], clone: u32) -> Result<(), AllocError>
        ensures added { OnOk result (self.new ≡ record { callee = callee; fixed = fixed_of fixed.now; clone = clone } ∷ self.old) }
        ensures kept { OnErr result (self.new ≡ self.old) }
    {
        let fixed = numbers_of(*self.rows.allocator(), fixed)?;
        let key = CloneKey { callee, fixed };
        match self.rows.push(CloneRow { key, clone }) {
            Ok(()) => Ok(()),
            Err(_) => Err(AllocError),
        }
    }

    /// The rows, the oldest one first.
    pub(crate) fn rows(&self) -> &[CloneRow]
        ensures { reverse result.now ≡ self.now }
    {
        self.rows.as_slice()
    }

    /// Keeps the rows of the clones that are among these PIDs, which rise: those that stand still. It takes a search by
    /// halves for each row, and no memory.
    pub fn keep(&mut self, live: &[u32])
        requires { IsRising (λ p. p) live.now }
        ensures { self.new ≡ filter (λ row. is_in live.now row.clone) self.old }
    {
        self.rows.retain(|row: &CloneRow| is_among(live, row.clone));
    }

    /// The newest clone for a callee and constants, if there is one. It takes time in proportion to the rows, and no
    /// memory.
    pub fn clone_for(&self, callee: u32, fixed: &[(u32, Word)]) -> Option<u32>
        ensures { result ≡ clone_in self.now callee (fixed_of fixed.now) }
    {
        newest_for(self.rows.as_slice(), callee, fixed)
    }
}

/// The last clone of rows for a callee and constants.
fn newest_for(rows: &[CloneRow], callee: u32, fixed: &[(u32, Word)]) -> Option<u32>
    ensures { result ≡ clone_in (reverse rows.now) callee (fixed_of fixed.now) }
{
    let mut left = rows;
    while let Some((row, before)) = left.split_last() {
        if row.is_for(callee, fixed) {
            return Some(row.clone);
        }
        left = before;
    }
    None
}
