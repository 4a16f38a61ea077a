//! Pins for reading.
ghost use Rattle.std.specs.Prelude.{◌≡◌, ◌<◌, length, true, false, Some, None, Ok, IsSome, IfOk, MatchResult, is_some};
ghost use Rattle.std.specs.Arc.{arc_value};
ghost use Rattle.naim_core.specs.Sound.{IsSound};
ghost use Rattle.naim_core.specs.State.{pool_at, hand_at, is_away};
ghost use Rattle.naim_core.specs.declared.event.Event.TheVariants as event;
ghost use Rattle.naim_core.specs.declared.pool.Pool.{Pool as PoolData};
ghost use Rattle.naim_core.proofs.Effects.{is_shared};
ghost use Rattle.naim_loader.specs.Calls.{AnswersPin, Allows};
ghost use Rattle.naim_loader.specs.Paged.{content_at, Steps};

use crate::counters::step;
use crate::forms::{Move, Pin, PinAnswer, ReadPin};
use crate::home::lend;
use crate::loader::Loader;
use crate::table::Lying;
use naim_core::{Event, Mode, PoolForm};
use outside::Disk;
use pool_laws::Poolable;
use std::alloc::{AllocError, Global};
use std::sync::Arc;

impl<T: Poolable + Drop, B: Drop, D: Disk + Drop> Loader<T, B, D> {
    /// Shares a body that lies whole.
    fn share(&self, pid: u32) -> Result<Arc<T, Global>, AllocError>
        requires running { self.now.core.failure ≡ None }
        requires pool { (x : PoolData) × (pool_at self.now.core.pools pid ≡ Some x) × (is_shared x.stage ≡ true) }
        ensures { IfOk result (λ a. content_at self.now pid ≡ Some (arc_value a)) }
    {
        let Some(entry) = self.table.get(pid) else {
            unreachable!()
        };
        match &entry.body {
            Lying::Whole(body) => Arc::try_clone(body),
            _ => unreachable!(),
        }
    }

    /// One more reader.
    fn note_reader(&mut self, worker: u32, pid: u32)
        requires running { self.old.core.failure ≡ None }
        requires worker { worker < length self.old.core.hands }
        requires pool { (x : PoolData) × (pool_at self.old.core.pools pid ≡ Some x) × (is_shared x.stage ≡ true) }
        requires hand { (hand_at self.old.core.hands worker).read ≡ None }
        ensures step { Steps self.old (event.PinRead worker pid) self.new }
        ensures sound { IsSound self.new.core }
    {
        let event = Event::PinRead { worker, pid };
        let Ok(()) = step(&mut self.core, &mut self.counters, event) else {
            unreachable!()
        };
    }

    /// Begins to bring a pool back.
    pub(super) fn begin_reload(
        &mut self,
        worker: u32,
        pid: u32,
        mode: Mode,
        charge: u64,
    ) -> PinAnswer<T, D>
        requires running { self.old.core.failure ≡ None }
        requires worker { worker < length self.old.core.hands }
        requires pool { (x : PoolData) × (pool_at self.old.core.pools pid ≡ Some x) × (is_away x.stage ≡ true) × (charge ≡ x.e) }
        requires allowed { Allows self.old.core worker pid mode }
        ensures answer { AnswersPin T.charge_of T.encoding D.bytes D.reach D.honest self.old self.new worker pid mode result }
        ensures sound { IsSound self.new.core }
    {
        let event = Event::ReloadBegin { worker, pid, mode };
        let Ok(()) = step(&mut self.core, &mut self.counters, event) else {
            return PinAnswer::DiskOut;
        };
        match self.table.put(pid, Lying::Out) {
            Lying::Packed(bytes) => PinAnswer::Reload(Move::FromBytes { pid, bytes }),
            Lying::Stored(filed) => {
                let disk = lend(&mut self.disk);
                PinAnswer::Reload(Move::FromDisk {
                    pid,
                    filed,
                    charge,
                    disk,
                })
            }
            _ => unreachable!(),
        }
    }

    /// Pins a body for reading. `Ready` hands out the body that the contents have. `Reload` comes exactly
    /// where the pool is compacted, or offloaded with the disk at home; `Moving` where it is on its way,
    /// `InUse` where a worker writes it, `DiskOut` where it is offloaded and a worker has the disk,
    /// `Stopped` where a failure is kept. `Memory` comes only where the body could be pinned, and changes
    /// nothing. It takes constant time.
    pub fn pin_read(&mut self, worker: u32, pid: u32) -> PinAnswer<T, D>
        requires worker { worker < length self.old.core.hands }
        requires present { IsSome (pool_at self.old.core.pools pid) }
        requires allowed { Allows self.old.core worker pid Mode.Read }
        ensures answer { AnswersPin T.charge_of T.encoding D.bytes D.reach D.honest self.old self.new worker pid Mode.Read result }
        ensures sound { IsSound self.new.core }
    {
        if self.is_stopped() {
            return PinAnswer::Stopped;
        }
        let seen = self.told(pid);
        if seen.form == PoolForm::Compacted || seen.form == PoolForm::Offloaded {
            return self.begin_reload(worker, pid, Mode::Read, seen.e);
        }
        if seen.form != PoolForm::Expanded {
            return PinAnswer::Moving;
        }
        if seen.writer {
            return PinAnswer::InUse;
        }
        let Ok(body) = self.share(pid) else {
            return PinAnswer::Memory;
        };
        self.note_reader(worker, pid);
        PinAnswer::Ready(Pin::Read(ReadPin { pid, body }))
    }
}
