//! Room: the pool that goes next begins to move.
ghost use Rattle.std.specs.Prelude.{◌≡◌, ◌<◌, ◌≤◌, ◌+◌, length, true, false, Some, None};
ghost use Rattle.naim_core.specs.Charges.{under_sum};
ghost use Rattle.naim_core.specs.Sound.{IsSound};
ghost use Rattle.naim_core.specs.State.{pool_at, hand_at, victim};
ghost use Rattle.naim_core.specs.declared.pool.Pool.{Pool as PoolData};
ghost use Rattle.naim_core.specs.declared.pool.Stage.TheVariants as stage;
ghost use Rattle.naim_loader.specs.Moves.{AnswersEvict};

use crate::counters::step;
use crate::forms::{Evict, Move};
use crate::home::lend;
use crate::loader::Loader;
use crate::table::Lying;
use naim_core::{Event, PoolForm};
use outside::Disk;
use pool_laws::Poolable;

impl<T: Poolable + Drop, B: Drop, D: Disk + Drop> Loader<T, B, D> {
    /// Begins to compact the victim.
    fn begin_compact(&mut self, worker: u32, pid: u32, wanted: u64) -> Evict<T, D>
        requires running { self.old.core.failure ≡ None }
        requires worker { worker < length self.old.core.hands }
        requires free { (hand_at self.old.core.hands worker).moved ≡ None }
        requires victim { victim self.old.core.pools ≡ Some pid }
        requires pool { (x : PoolData) × (pool_at self.old.core.pools pid ≡ Some x) × (x.stage ≡ stage.Free) }
        requires wanted { self.old.core.limit < under_sum self.old.core.pools + wanted }
        ensures answer { AnswersEvict T.encoding self.old self.new worker wanted result }
        ensures sound { IsSound self.new.core }
    {
        let event = Event::CompactBegin {
            worker,
            pid,
            wanted,
        };
        let Ok(()) = step(&mut self.core, &mut self.counters, event) else {
            unreachable!()
        };
        match self.table.put(pid, Lying::Out) {
            Lying::Whole(body) => Evict::Begun(Move::Compacting { pid, body }),
            _ => unreachable!(),
        }
    }

    /// Begins to write the victim to the disk, if it is at home.
    fn begin_offload(&mut self, worker: u32, pid: u32, wanted: u64) -> Evict<T, D>
        requires running { self.old.core.failure ≡ None }
        requires worker { worker < length self.old.core.hands }
        requires free { (hand_at self.old.core.hands worker).moved ≡ None }
        requires victim { victim self.old.core.pools ≡ Some pid }
        requires pool { (x : PoolData) × (pool_at self.old.core.pools pid ≡ Some x) × (x.stage ≡ stage.Compacted) }
        requires wanted { self.old.core.limit < under_sum self.old.core.pools + wanted }
        ensures answer { AnswersEvict T.encoding self.old self.new worker wanted result }
        ensures sound { IsSound self.new.core }
    {
        let event = Event::OffloadBegin {
            worker,
            pid,
            wanted,
        };
        let Ok(()) = step(&mut self.core, &mut self.counters, event) else {
            return Evict::DiskOut;
        };
        match self.table.put(pid, Lying::Out) {
            Lying::Packed(bytes) => {
                let place = u64::from(pid) * self.limit;
                let disk = lend(&mut self.disk);
                Evict::Begun(Move::Offloading {
                    pid,
                    place,
                    bytes,
                    disk,
                })
            }
            _ => unreachable!(),
        }
    }

    /// Makes room for `wanted` bytes more. `Fits` comes exactly where they fit beside the bytes that
    /// count already. Where they don't, the victim is the free body that was used longest ago, or, where
    /// none is free, the compacted one: `NoVictim` comes exactly where there is neither, `DiskOut` where
    /// it is compacted and a worker has the disk, and `Begun` where its move begins, which the worker is
    /// to end. `Stopped` comes exactly where a failure is kept. Where no body is free it passes those
    /// that are pinned or being compacted; so its time doesn't grow with the pools.
    pub fn evict_begin(&mut self, worker: u32, wanted: u64) -> Evict<T, D>
        requires worker { worker < length self.old.core.hands }
        requires free { (hand_at self.old.core.hands worker).moved ≡ None }
        requires wanted { wanted ≤ self.old.core.limit }
        ensures answer { AnswersEvict T.encoding self.old self.new worker wanted result }
        ensures sound { IsSound self.new.core }
    {
        if self.is_stopped() {
            return Evict::Stopped;
        }
        if self.fits(wanted) {
            return Evict::Fits;
        }
        let Some(pid) = self.victim() else {
            return Evict::NoVictim;
        };
        if self.told(pid).form == PoolForm::Expanded {
            return self.begin_compact(worker, pid, wanted);
        }
        self.begin_offload(worker, pid, wanted)
    }

    /// Whether so many bytes fit beside those that count already.
    fn fits(&self, wanted: u64) -> bool
        requires { wanted ≤ self.now.core.limit }
        ensures yes { result ≡ true → under_sum self.now.core.pools + wanted ≤ self.now.core.limit }
        ensures no { result ≡ false → self.now.core.limit < under_sum self.now.core.pools + wanted }
        ensures sound { IsSound self.now.core }
    {
        self.core.under() + wanted <= self.limit
    }

    /// The pool that goes next.
    fn victim(&self) -> Option<u32>
        ensures value { result ≡ victim self.now.core.pools }
        ensures sound { IsSound self.now.core }
    {
        self.core.victim()
    }
}
