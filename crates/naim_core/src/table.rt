//! The pools in their use order.
ghost use Rattle.std.specs.Prelude.{◌≡◌, ◌+◌, ◌<◌, ◌≤◌, ◌^◌, ◌∷◌, [], true, false, nat_eq, length, slice_set, reverse, is_none, None, IsSome, IfOk};
ghost use Rattle.std.specs.List.{list_any};
ghost use Rattle.std.specs.Map.{lookup, remove_entry};
ghost use Rattle.std.specs.Option.{option_map_or};
ghost use Rattle.naim_core.specs.Charges.{under_sum, held_sum, under_part, held_part};
ghost use Rattle.naim_core.specs.State.{pool_at, victim, is_free};
ghost use Rattle.naim_core.specs.Steps.{front, in_place};
ghost use Rattle.naim_core.specs.Table.{IsFound, IsIndexed, IsOrder, RingSlots, first_at, is_resident, pid_if, wanted};

use crate::pool::Pool;
use crate::ring::{ENDS, Ring};
use lru::LruCache;
use std::alloc::{AllocError, Global};
use std::marker::Model;
use std::num::NonZeroUsize;

/// How many pools there may be.
pub(crate) const SLOTS: u16 = 4096;

/// PIDs below this are found in constant time; every PID of a program is.
const INDEXED: usize = 131_072;

/// A slot's content: a PID and its pool, or nothing.
type Place = Option<(u32, Pool)>;

/// At most 4,096 pools by PID. Contracts see the list of PIDs and pools in the use order, the last
/// used first.
#[derive(Drop)]
pub(crate) struct Table {
    /// All slots, of which each holds a pool or is empty, in the use order.
    order: LruCache<u16, Place>,
    /// The slot of each PID below [`INDEXED`].
    index: Vec<Option<u16>>,
    /// The empty slots.
    spare: Vec<u16>,
    /// The slots of the free pools, in the use order.
    free: Ring,
    /// The slots of the pools that are expanded, compacted, or on their way from the one to the other,
    /// in the use order.
    resident: Ring,
    /// The bytes that count against the limit, over all pools.
    under: u64,
    /// The bytes that workers hold, over all pools.
    held: u64,
}

impl Model for Table {
    ghost use Rattle.std.specs.Prelude.{List, ℕ, vec_capacity};
    ghost use Rattle.naim_core.specs.declared.pool.Pool.{Pool as PoolRecord};

    ghost Value = { List (ℕ × PoolRecord) };

    ghost use Rattle.naim_core.specs.Table.{pools_in, IsTable, AreRings};

    ghost view = { λ t. pools_in t.order.entries };

    ghost invariant = { λ t. IsTable t.order.entries t.index.items t.spare.items (vec_capacity t.spare) t.under t.held × AreRings t.order.entries
        t.free t.resident };
}

/// The slot of the pool `pid` and the pool. It takes constant time for a PID below [`INDEXED`], and
/// otherwise goes over all slots.
fn found_at(order: &LruCache<u16, Place>, index: &[Option<u16>], pid: u32) -> Option<(u16, Pool)>
    requires slots { IsOrder order.now.entries }
    requires indexed { IsIndexed order.now.entries index.now }
    ensures { IsFound order.now.entries pid result }
{
    if let Some(slot) = index.get(pid as usize) {
        let slot = (*slot)?;
        let (_, pool) = (*order.peek(&slot)?)?;
        return Some((slot, pool));
    }
    scan(order, pid)
}

/// The same, by going over all slots.
fn scan(order: &LruCache<u16, Place>, pid: u32) -> Option<(u16, Pool)>
    requires { IsOrder order.now.entries }
    ensures { IsFound order.now.entries pid result }
{
    for (slot, place) in order.iter() {
        if let Some((other, pool)) = place {
            if *other == pid {
                return Some((*slot, *pool));
            }
        }
    }
    None
}

/// Notes the slot of a PID, if it is one of the index.
fn note(index: &mut Vec<Option<u16>>, pid: u32, slot: Option<u16>)
    ensures { index.new.items ≡ slice_set index.old.items pid slot }
{
    let at = pid as usize;
    if at < index.len() {
        index[at] = slot;
    }
}

/// A sum in which one part has changed. It takes constant time.
fn changed(sum: u64, old: u64, new: u64) -> u64
    requires there { old ≤ sum }
    requires fits { sum + new < 2 ^ 64 }
    ensures { result + old ≡ sum + new }
{
    sum - old + new
}

/// The PID of the pool in a slot, if it is compacted, where `compacted`, and else if it is free.
fn pid_in(order: &LruCache<u16, Place>, slot: u16, compacted: bool) -> Option<u32>
    ensures { result ≡ pid_if (wanted compacted) (lookup (nat_eq slot) order.now.entries) }
{
    let (pid, pool) = (*order.peek(&slot)?)?;
    let passes = if compacted {
        pool.stage.is_compacted()
    } else {
        pool.stage.is_free()
    };
    passes.then_some(pid)
}

/// The PID of the last such pool in the ring. It goes over the slots that come after it.
fn last_in(order: &LruCache<u16, Place>, ring: &Ring, compacted: bool) -> Option<u32>
    requires { RingSlots ring.now }
    ensures { (in_ring : RingSlots ring.now) → result ≡ first_at (wanted compacted) order.now.entries (reverse in_ring.slots) }
{
    let mut slot = ring.before(ENDS);
    for _ in 0..SLOTS {
        if slot == ENDS {
            return None;
        }
        let found = pid_in(order, slot, compacted);
        if found.is_some() {
            return found;
        }
        slot = ring.before(slot);
    }
    None
}

impl Table {
    /// No pools. It reserves all that the table ever takes.
    pub(crate) fn new(alloc: Global) -> Result<Table, AllocError>
        ensures { IfOk result (λ t. t ≡ []) }
    {
        let slots = NonZeroUsize::new(SLOTS as usize).unwrap();
        let mut order = LruCache::new(alloc, slots)?;
        let mut spare = Vec::with_capacity(alloc, SLOTS as usize)?;
        for slot in 0..SLOTS {
            order.put(slot, None)?;
            spare.push(slot)?;
        }
        let index = vec![in alloc; None; INDEXED]?;
        let free = Ring::new(alloc)?;
        let resident = Ring::new(alloc)?;
        Ok(Table {
            order,
            index,
            spare,
            free,
            resident,
            under: 0,
            held: 0,
        })
    }

    /// How many pools there are.
    pub(crate) fn len(&self) -> u32
        ensures { result ≡ length self.now }
    {
        SLOTS as u32 - self.spare.len() as u32
    }

    /// The pool `pid`; `None` exactly where it is absent.
    pub(crate) fn get(&self, pid: u32) -> Option<Pool>
        ensures { result ≡ pool_at self.now pid }
    {
        let (_, pool) = found_at(&self.order, self.index.as_slice(), pid)?;
        Some(pool)
    }

    /// Whether some of these pools is absent.
    pub(crate) fn misses_any(&self, pids: &[u32]) -> bool
        ensures { result ≡ list_any (λ p. is_none (pool_at self.now p)) pids.now }
    {
        pids.iter().any(|pid| self.get(*pid).is_none())
    }

    /// The bytes that count against the limit.
    pub(crate) fn under(&self) -> u64
        ensures { result ≡ under_sum self.now }
    {
        self.under
    }

    /// The bytes that workers hold.
    pub(crate) fn held(&self) -> u64
        ensures { result ≡ held_sum self.now }
    {
        self.held
    }

    /// The pool that is to leave next; `None` exactly where no pool is free or compacted. It looks at the
    /// last free pool alone; where there is none, it goes over the resident pools from the last one to the
    /// first that is compacted, and passes those that are pinned or being compacted.
    pub(crate) fn victim(&self) -> Option<u32>
        ensures { result ≡ victim self.now }
    {
        let free = last_in(&self.order, &self.free, false);
        if free.is_some() {
            return free;
        }
        last_in(&self.order, &self.resident, true)
    }

    /// Gives the pool `pid` this content, and leaves it in its place. A pool becomes free or resident
    /// elsewhere.
    pub(crate) fn put(&mut self, pid: u32, pool: Pool)
        requires present { IsSome (pool_at self.old pid) }
        requires under_fits { under_sum self.old + under_part pool < 2 ^ 64 }
        requires pinned { is_free pool.stage ≡ false }
        requires resident { is_resident pool.stage ≡ true → option_map_or (λ x. is_resident x.stage) (pool_at self.old pid) false ≡ true }
        requires held_fits { held_sum self.old + held_part pool < 2 ^ 64 }
        ensures { self.new ≡ in_place pid pool self.old }
    {
        let (slot, old) = found_at(&self.order, self.index.as_slice(), pid).unwrap();
        let under = changed(self.under, old.under_part(), pool.under_part());
        let held = changed(self.held, old.held_part(), pool.held_part());
        self.free.leave(slot, old.stage.is_free());
        self.resident
            .keep(slot, old.stage.is_resident(), pool.stage.is_resident());
        *self.order.peek_mut(&slot).unwrap() = Some((pid, pool));
        self.under = under;
        self.held = held;
    }

    /// Gives the pool `pid` this content, and puts it first.
    pub(crate) fn put_first(&mut self, pid: u32, pool: Pool)
        requires present { IsSome (pool_at self.old pid) }
        requires under_fits { under_sum self.old + under_part pool < 2 ^ 64 }
        requires held_fits { held_sum self.old + held_part pool < 2 ^ 64 }
        ensures { self.new ≡ front pid pool self.old }
    {
        let (slot, old) = found_at(&self.order, self.index.as_slice(), pid).unwrap();
        let under = changed(self.under, old.under_part(), pool.under_part());
        let held = changed(self.held, old.held_part(), pool.held_part());
        self.free
            .renew(slot, old.stage.is_free(), pool.stage.is_free());
        self.resident
            .renew(slot, old.stage.is_resident(), pool.stage.is_resident());
        self.order.put(slot, Some((pid, pool))).unwrap();
        self.under = under;
        self.held = held;
    }

    /// Adds the pool `pid`, and puts it first.
    pub(crate) fn add(&mut self, pid: u32, pool: Pool)
        requires absent { pool_at self.old pid ≡ None }
        requires room { length self.old < 4096 }
        requires under_fits { under_sum self.old + under_part pool < 2 ^ 64 }
        requires held_fits { held_sum self.old + held_part pool < 2 ^ 64 }
        ensures { self.new ≡ (pid, pool) ∷ self.old }
    {
        let under = self.under + pool.under_part();
        let held = self.held + pool.held_part();
        let slot = self.spare.pop().unwrap();
        self.free.renew(slot, false, pool.stage.is_free());
        self.resident.renew(slot, false, pool.stage.is_resident());
        self.order.put(slot, Some((pid, pool))).unwrap();
        note(&mut self.index, pid, Some(slot));
        self.under = under;
        self.held = held;
    }

    /// Takes the pool `pid` out.
    pub(crate) fn remove(&mut self, pid: u32)
        requires { IsSome (pool_at self.old pid) }
        ensures { self.new ≡ remove_entry (nat_eq pid) self.old }
    {
        let (slot, old) = found_at(&self.order, self.index.as_slice(), pid).unwrap();
        let under = self.under - old.under_part();
        let held = self.held - old.held_part();
        self.free.leave(slot, old.stage.is_free());
        self.resident.leave(slot, old.stage.is_resident());
        self.spare.push(slot).unwrap();
        self.order.put(slot, None).unwrap();
        note(&mut self.index, pid, None);
        self.under = under;
        self.held = held;
    }
}
