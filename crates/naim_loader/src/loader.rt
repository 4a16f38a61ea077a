//! The loader, and what is told of it.
ghost use Rattle.std.specs.Prelude.{◌≡◌, ◌<◌, ◌≤◌, ◌^◌, ◌*◌, length, true, false, Some, None, IsSome, IfOk, IfErr, MatchOption, option_copied, is_some};
ghost use Rattle.std.specs.Prelude.{option_map};
ghost use Rattle.naim_core.specs.Sound.{IsSound};
ghost use Rattle.naim_core.specs.State.{pool_at, view_of};
ghost use Rattle.naim_loader.specs.Calls.{brief_at};
ghost use Rattle.naim_loader.specs.Contents.{StandsFor};
ghost use Rattle.naim_loader.specs.Paged.{fresh, kept_at};

mod evicts;
mod fails;
mod inserts;
mod moves;
mod reads;
mod reloads;
mod removes;
mod trails;
mod unpins;
mod waves;
mod writes;

use crate::counters::Counters;
use crate::home::Home;
use crate::noted::Noted;
use crate::table::Table;
use naim_core::{CoreState, Failure, PoolView};
use outside::Disk;
use pool_laws::Poolable;
use std::alloc::{AllocError, Global};
use std::marker::Model;
use std::snapshot::Snapshot;

/// Pools by PID, each in memory or on the disk, and the pins and moves of workers. Contracts see the
/// paging core's state, the value and the brief of each pool, and the disk. It must be spent by `close`.
pub struct Loader<T: Poolable, B, D: Disk> {
    limit: u64,
    core: CoreState,
    table: Table<T, B>,
    disk: Home<D>,
    first: Snapshot<D>,
    counters: Counters,
    trail: Noted<T>,
}

impl<T: Poolable, B, D: Disk> Model for Loader<T, B, D> {
    ghost use Rattle.naim_loader.specs.Paged.{Paged};

    ghost Value = { Paged T B D };

    ghost use Rattle.naim_loader.specs.Home.{told, is_home};
    ghost use Rattle.naim_loader.specs.Rows.{kept_in};
    ghost use Rattle.naim_loader.specs.Whole.{IsWhole};

    ghost view = { λ l. record {
      core = l.core;
      kept = kept_in l.table;
      disk = told l.disk;
      home = is_home l.disk;
      first = l.first.value;
      counters = l.counters;
      trail = l.trail.lists;
    } };

    ghost invariant = { λ l. IsWhole T.charge_of T.encoding T.is_value D.bytes D.reach D.honest l.limit l.core l.table l.disk l.first.value l.counters };
}

impl<T: Poolable + Drop, B: Drop, D: Disk + Drop> Loader<T, B, D> {
    /// A loader with no pools, for workers of numbers below `workers`, whose bytes that nobody holds
    /// stay within the limit. It reserves all that it ever takes: no later call takes memory but
    /// `pin_read`, which shares a body. It fails only for want of memory, and gives the disk back.
    pub fn new(
        alloc: Global,
        limit: u64,
        workers: u32,
        disk: D,
    ) -> Result<Loader<T, B, D>, (D, AllocError)>
        requires limit { limit ≤ 2 ^ 30 }
        requires some_worker { 0 < workers }
        requires few_workers { workers ≤ 64 }
        ensures made { IfOk result (λ l. l ≡ fresh limit workers disk) }
        ensures back { IfErr result (λ e. e.0 ≡ disk) }
    {
        let core = match CoreState::new(alloc, limit, workers) {
            Ok(core) => core,
            Err(fault) => return Err((disk, fault)),
        };
        let table = match Table::new(alloc) {
            Ok(table) => table,
            Err(fault) => return Err((disk, fault)),
        };
        let first = Snapshot::of(&disk);
        Ok(Loader {
            limit,
            core,
            table,
            disk: Home::In(disk),
            first,
            counters: Counters::NONE,
            trail: Noted::picked(),
        })
    }

    /// Whether there is a pool of this number. Constant time.
    pub fn has(&self, pid: u32) -> bool
        ensures { result ≡ is_some (kept_at self.now pid) }
    {
        match self.table.get(pid) {
            Some(_) => true,
            None => false,
        }
    }

    /// The brief that came with the pool's last value; `None` exactly where there is no such pool.
    /// Constant time.
    pub fn brief(&self, pid: u32) -> Option<&B>
        ensures { MatchOption result (brief_at self.now pid ≡ None) (λ b. brief_at self.now pid ≡ Some b.now) }
    {
        let entry = self.table.get(pid)?;
        Some(&entry.brief)
    }

    /// The failure that is kept; `None` exactly where there is none. It says too that the loader stands
    /// for its contents. Constant time.
    pub fn failure(&self) -> Option<&Failure>
        ensures failure { option_copied result ≡ self.now.core.failure }
        ensures stands { StandsFor T.charge_of T.encoding T.is_value D.bytes D.reach D.honest self.now }
    {
        self.core.failure()
    }

    /// The peaks and counts so far. Constant time.
    pub fn counters(&self) -> Counters
        ensures value { result ≡ self.now.counters }
        ensures within { result.under_peak ≤ self.now.core.limit }
    {
        self.counters
    }

    /// The charge in bytes of the pool's value. Constant time.
    pub fn charge(&self, pid: u32) -> u64
        requires { IsSome (pool_at self.now.core.pools pid) }
        ensures { option_map (λ x. x.e) (pool_at self.now.core.pools pid) ≡ Some result }
    {
        self.told(pid).e
    }

    /// The limit in bytes that the loader was made with. Constant time.
    pub fn limit(&self) -> u64
        ensures { result ≡ self.now.core.limit }
    {
        self.limit
    }

    /// How many pools there are. Constant time.
    pub fn used(&self) -> u32
        ensures { result ≡ length self.now.core.pools }
    {
        self.core.used()
    }

    /// Whether a failure is kept.
    pub(super) fn is_stopped(&self) -> bool
        ensures kept { result ≡ is_some self.now.core.failure }
        ensures sound { IsSound self.now.core }
    {
        self.core.failure().is_some()
    }

    /// What is told of a pool.
    fn told(&self, pid: u32) -> PoolView
        requires { IsSome (pool_at self.now.core.pools pid) }
        ensures view { option_map view_of (pool_at self.now.core.pools pid) ≡ Some result }
        ensures sound { IsSound self.now.core }
    {
        self.core.pool(pid).unwrap()
    }
}
