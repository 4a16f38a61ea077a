//! What is kept of each pool, by PID.
ghost use Rattle.std.specs.Prelude.{◌≡◌, ◌<◌, [], length, nat_eq, Some, None, IsSome, IfOk, MatchOption};
ghost use Rattle.std.specs.Map.{lookup};
ghost use Rattle.naim_loader.specs.Rows.{Puts, Renews, Resets};

use repository::Filed;
use std::alloc::{AllocError, Global};
use std::marker::Model;
use std::mem;
use std::snapshot::Snapshot;
use std::sync::Arc;

/// PIDs are below this.
const PIDS: usize = 131_072;

/// How many pools there may be.
const SLOTS: usize = 4096;

/// Where the body of a pool lies.
#[derive(Drop)]
pub(crate) enum Lying<T> {
    /// In memory, whole.
    Whole(Arc<T, Global>),
    /// In memory, in its compact spelling.
    Packed(Vec<u8>),
    /// On the disk.
    Stored(Filed),
    /// With the worker that writes or moves it.
    Out,
}

/// What is kept of a pool: its body, its value as contracts know it, and its brief.
#[derive(Drop)]
pub(crate) struct Entry<T, B> {
    pub body: Lying<T>,
    pub value: Snapshot<T>,
    pub brief: B,
}

/// At most 4,096 entries by PID. Contracts see the list of PIDs and entries as they lie.
#[derive(Drop)]
pub(crate) struct Table<T, B> {
    rows: Vec<(u32, Entry<T, B>)>,
    /// The row of each PID.
    index: Vec<Option<u16>>,
}

impl<T, B> Model for Table<T, B> {
    ghost use Rattle.std.specs.Prelude.{List, ℕ, vec_capacity};
    ghost use Rattle.naim_loader.specs.declared.table.Entry.{Entry as EntryRecord};

    ghost Value = { List (ℕ × EntryRecord T B) };

    ghost use Rattle.naim_loader.specs.Rows.{IsTable};

    ghost view = { λ t. t.rows.items };

    ghost invariant = { λ t. IsTable t.rows.items t.index.items (vec_capacity t.rows) };
}

impl<T: Drop, B: Drop> Table<T, B> {
    /// No entries. It reserves all that the table ever takes.
    pub(crate) fn new(alloc: Global) -> Result<Table<T, B>, AllocError>
        ensures { IfOk result (λ t. t ≡ []) }
    {
        let rows = Vec::with_capacity(alloc, SLOTS)?;
        let index = vec![in alloc; None; PIDS]?;
        Ok(Table { rows, index })
    }

    /// The entry of a PID; `None` exactly where there is none. Constant time.
    pub(crate) fn get(&self, pid: u32) -> Option<&Entry<T, B>>
        ensures { MatchOption result (lookup (nat_eq pid) self.now ≡ None) (λ e. lookup (nat_eq pid) self.now ≡ Some e.now) }
    {
        let slot = (*self.index.get(pid as usize)?)?;
        let (_, entry) = &self.rows[slot as usize];
        Some(entry)
    }

    /// Adds an entry. Constant time.
    pub(crate) fn add(&mut self, pid: u32, entry: Entry<T, B>)
        requires absent { lookup (nat_eq pid) self.old ≡ None }
        requires below { pid < 131072 }
        requires room { length self.old < 4096 }
        ensures { Renews self.old self.new pid (Some entry) }
    {
        let slot = self.rows.len() as u16;
        self.rows.push((pid, entry)).unwrap();
        self.index[pid as usize] = Some(slot);
    }

    /// Puts another body in the place of the one that is there. Constant time.
    pub(crate) fn put(&mut self, pid: u32, body: Lying<T>) -> Lying<T>
        requires { IsSome (lookup (nat_eq pid) self.old) }
        ensures { Puts self.old self.new pid body result }
    {
        let slot = self.index[pid as usize].unwrap();
        let row = &mut self.rows[slot as usize];
        mem::replace(&mut row.1.body, body)
    }

    /// Puts another body and value in the place of those that are there. Constant time.
    pub(crate) fn reset(&mut self, pid: u32, body: Lying<T>, value: Snapshot<T>)
        requires { IsSome (lookup (nat_eq pid) self.old) }
        ensures { Resets self.old self.new pid body value }
    {
        let slot = self.index[pid as usize].unwrap();
        let row = &mut self.rows[slot as usize];
        row.1.body = body;
        row.1.value = value;
    }

    /// Puts another entry in the place of the one that is there. Constant time.
    pub(crate) fn renew(&mut self, pid: u32, entry: Entry<T, B>)
        requires { IsSome (lookup (nat_eq pid) self.old) }
        ensures { Renews self.old self.new pid (Some entry) }
    {
        let slot = self.index[pid as usize].unwrap();
        let row = &mut self.rows[slot as usize];
        row.1 = entry;
    }

    /// Takes the entry of a PID out. The last row takes its place. Constant time.
    pub(crate) fn remove(&mut self, pid: u32)
        requires { IsSome (lookup (nat_eq pid) self.old) }
        ensures { Renews self.old self.new pid None }
    {
        let slot = self.index[pid as usize].unwrap();
        let _ = self.rows.swap_remove(slot as usize);
        self.index[pid as usize] = None;
        let Some(row) = self.rows.get(slot as usize) else {
            return;
        };
        self.index[row.0 as usize] = Some(slot);
    }
}
