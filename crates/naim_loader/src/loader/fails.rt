//! Failures, and what comes home after one.
ghost use Rattle.std.specs.Prelude.{◌≡◌, ◌<◌, length, true, is_some};
ghost use Rattle.naim_core.specs.Sound.{IsSound};
ghost use Rattle.naim_core.specs.declared.event.Failure.TheVariants as failure;
ghost use Rattle.naim_loader.specs.Calls.{Back, ComesBack, Fails, brought, disk_of, disk_with};

use crate::counters::step;
use crate::forms::Move;
use crate::home::bring_with;
use crate::loader::Loader;
use naim_core::{Event, Failure};
use outside::Disk;
use pool_laws::Poolable;

impl<T: Poolable + Drop, B: Drop, D: Disk + Drop> Loader<T, B, D> {
    /// Keeps it as the failure that a compact spelling is longer than the limit, which it tells.
    pub(super) fn refuse(&mut self, worker: u32, pid: u32, need: u32) -> u64
        requires worker { worker < length self.old.core.hands }
        ensures limit { result ≡ self.old.core.limit }
        ensures failed { Fails self.old worker (failure.TooSmall pid need result) self.new }
        ensures sound { IsSound self.new.core }
    {
        let limit = self.limit;
        let failure = Failure::TooSmall { pid, need, limit };
        let event = Event::Fail { worker, failure };
        let _ = step(&mut self.core, &mut self.counters, event);
        limit
    }

    /// Tells a failure; the first one is kept.
    fn note_failure(&mut self, worker: u32, failure: Failure)
        requires worker { worker < length self.old.core.hands }
        ensures failed { Fails self.old worker failure self.new }
        ensures sound { IsSound self.new.core }
    {
        let event = Event::Fail { worker, failure };
        let _ = step(&mut self.core, &mut self.counters, event);
    }

    /// Takes a move back once a failure is kept: its disk comes home.
    pub(super) fn take_back(&mut self, m: Move<T, D>)
        requires kept { is_some self.old.core.failure ≡ true }
        requires disk { ComesBack D.reach D.honest self.old (disk_of m) }
        ensures back { Back self.old (disk_of m) self.new }
        ensures sound { IsSound self.new.core }
    {
        bring_with(&mut self.disk, m);
    }

    /// Tells a failure, of which the first one is kept, and takes back the move that the worker had: its
    /// disk comes home. No event follows a failure; each call takes back what it is handed, brings a disk
    /// home and changes nothing else. Constant time.
    pub fn fail(&mut self, worker: u32, failure: Failure, m: Option<Move<T, D>>)
        requires worker { worker < length self.old.core.hands }
        requires disk { ComesBack D.reach D.honest self.old (disk_with m) }
        ensures failed { Fails (brought self.old (disk_with m)) worker failure self.new }
        ensures sound { IsSound self.new.core }
    {
        self.note_failure(worker, failure);
        let Some(m) = m else {
            return;
        };
        self.take_back(m);
    }
}
