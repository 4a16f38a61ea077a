//! The ends of compactions and offloads.
ghost use Rattle.std.specs.Prelude.{◌≡◌, ◌<◌, ◌*◌, length, true, Some, None, is_some};
ghost use Rattle.outside.specs.Places.{Overwrites};
ghost use Rattle.repository.specs.Filing.{record_of};
ghost use Rattle.naim_core.specs.Sound.{IsSound};
ghost use Rattle.naim_core.specs.declared.event.Event.TheVariants as event;
ghost use Rattle.naim_core.specs.declared.pool.Stage.TheVariants as stage;
ghost use Rattle.naim_loader.specs.Calls.{Back, ComesBack, disk_of};
ghost use Rattle.naim_loader.specs.Moves.{EndsCompaction, EndsOffload, IsMoving, Offloads, OffloadsFrom, pid_of};
ghost use Rattle.naim_loader.specs.Paged.{content_at, IsTrusted, Steps};

use crate::counters::step;
use crate::forms::Move;
use crate::home::bring;
use crate::loader::Loader;
use crate::table::Lying;
use naim_core::Event;
use outside::Disk;
use pool_laws::Poolable;
use repository::Filed;

impl<T: Poolable + Drop, B: Drop, D: Disk + Drop> Loader<T, B, D> {
    /// Ends a compaction: the pool lies packed in those bytes, the compact spelling of its body. Once a
    /// failure is kept, the move is taken back and nothing else changes. Constant time.
    pub fn compact_end(&mut self, worker: u32, m: Move<T, D>, bytes: Vec<u8>)
        requires worker { worker < length self.old.core.hands }
        requires ends { EndsCompaction T.encoding self.old worker m bytes.items }
        ensures stopped { is_some self.old.core.failure ≡ true → self.new ≡ self.old }
        ensures ends { self.old.core.failure ≡ None → Steps self.old (event.CompactEnd worker (pid_of m)) self.new }
        ensures sound { IsSound self.new.core }
    {
        let Move::Compacting { pid, body: _ } = m else {
            unreachable!()
        };
        let event = Event::CompactEnd { worker, pid };
        let Ok(()) = step(&mut self.core, &mut self.counters, event) else {
            return;
        };
        let _ = self.table.put(pid, Lying::Packed(bytes));
    }

    /// Ends an offload while no failure is kept: the record lies on the disk, which is home.
    fn end_offload(&mut self, worker: u32, pid: u32, filed: Filed, disk: D)
        requires running { self.old.core.failure ≡ None }
        requires worker { worker < length self.old.core.hands }
        requires moving { IsMoving self.old.core worker pid (λ st. st ≡ stage.Offloading) }
        requires filed { (k : T) × (content_at self.old pid ≡ Some k) × (filed ≡ record_of (pid * self.old.core.limit) (T.encoding k))
            × (IsTrusted D.reach D.honest self.old → Overwrites (D.bytes self.old.disk) (D.bytes disk) (pid * self.old.core.limit) (length (T.encoding k)) (T.encoding k)) }
        requires disk { ComesBack D.reach D.honest self.old (Some disk) }
        ensures offloads { Offloads self.old self.new worker pid disk }
        ensures sound { IsSound self.new.core }
    {
        let event = Event::OffloadEnd { worker, pid };
        let Ok(()) = step(&mut self.core, &mut self.counters, event) else {
            unreachable!()
        };
        let _ = self.table.put(pid, Lying::Stored(filed));
        bring(&mut self.disk, disk);
    }

    /// Ends an offload: the pool lies on the disk, which comes home, and its record is kept. Once a
    /// failure is kept, the move is taken back, the disk comes home and nothing else changes. Constant
    /// time.
    pub fn offload_end(&mut self, worker: u32, m: Move<T, D>, filed: Filed)
        requires worker { worker < length self.old.core.hands }
        requires ends { EndsOffload T.encoding D.bytes D.reach D.honest self.old worker m filed }
        requires disk { ComesBack D.reach D.honest self.old (disk_of m) }
        ensures stopped { is_some self.old.core.failure ≡ true → Back self.old (disk_of m) self.new }
        ensures ends { self.old.core.failure ≡ None → OffloadsFrom self.old self.new worker m }
        ensures sound { IsSound self.new.core }
    {
        if self.is_stopped() {
            self.take_back(m);
            return;
        }
        let Move::Offloading {
            pid,
            place: _,
            bytes: _,
            disk,
        } = m
        else {
            unreachable!()
        };
        self.end_offload(worker, pid, filed, disk);
    }
}
