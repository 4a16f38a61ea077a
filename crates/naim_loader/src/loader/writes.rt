//! Pins for writing.
ghost use Rattle.std.specs.Prelude.{◌≡◌, ◌<◌, ◌≤◌, ◌+◌, length, true, false, Some, None, Ok, IsSome, is_some};
ghost use Rattle.naim_core.specs.Rows.{stated_room};
ghost use Rattle.naim_core.specs.Sound.{IsSound};
ghost use Rattle.naim_core.specs.State.{pool_at, hand_at, is_written};
ghost use Rattle.naim_core.specs.declared.pool.Pool.{Pool as PoolData};
ghost use Rattle.naim_core.specs.declared.pool.Stage.TheVariants as stage;
ghost use Rattle.naim_loader.specs.Calls.{AnswersPin, AnswersWrite, Allows};
ghost use Rattle.naim_loader.specs.Drafts.{IsDraft, draft_value};

use crate::counters::step;
use crate::forms::{Draft, Pin, PinAnswer, Put, WritePin};
use crate::loader::Loader;
use crate::table::{Entry, Lying};
use naim_core::{Event, Mode, PoolForm, Refusal};
use outside::Disk;
use pool_laws::Poolable;

impl<T: Poolable + Drop, B: Drop, D: Disk + Drop> Loader<T, B, D> {
    /// Hands out a body that nobody holds.
    fn hand_out(&mut self, worker: u32, pid: u32, room: u64) -> PinAnswer<T, D>
        requires running { self.old.core.failure ≡ None }
        requires worker { worker < length self.old.core.hands }
        requires pool { (x : PoolData) × (pool_at self.old.core.pools pid ≡ Some x) × (x.stage ≡ stage.Free) }
        requires allowed { Allows self.old.core worker pid (Mode.Write room) }
        ensures answer { AnswersPin T.charge_of T.encoding D.bytes D.reach D.honest self.old self.new worker pid (Mode.Write room) result }
        ensures sound { IsSound self.new.core }
    {
        let event = Event::PinWrite { worker, pid, room };
        let Ok(()) = step(&mut self.core, &mut self.counters, event) else {
            unreachable!()
        };
        match self.table.put(pid, Lying::Out) {
            Lying::Whole(body) => PinAnswer::Ready(Pin::Write(WritePin { pid, body })),
            _ => unreachable!(),
        }
    }

    /// Pins a body for writing; the new value may take `room` bytes, its compact spelling counted.
    /// `Ready` hands out the body that the contents have. `Reload` comes exactly where the pool is
    /// compacted, or offloaded with the disk at home; `Moving` where it is on its way, `InUse` where a
    /// worker reads or writes it, `DiskOut` where it is offloaded and a worker has the disk, `Stopped`
    /// where a failure is kept. It takes constant time and no memory.
    pub fn pin_write(&mut self, worker: u32, pid: u32, room: u64) -> PinAnswer<T, D>
        requires worker { worker < length self.old.core.hands }
        requires present { IsSome (pool_at self.old.core.pools pid) }
        requires allowed { Allows self.old.core worker pid (Mode.Write room) }
        ensures answer { AnswersPin T.charge_of T.encoding D.bytes D.reach D.honest self.old self.new worker pid (Mode.Write room) result }
        ensures sound { IsSound self.new.core }
    {
        if self.is_stopped() {
            return PinAnswer::Stopped;
        }
        let seen = self.told(pid);
        if seen.form == PoolForm::Compacted || seen.form == PoolForm::Offloaded {
            return self.begin_reload(worker, pid, Mode::Write { room }, seen.e);
        }
        if seen.form != PoolForm::Expanded {
            return PinAnswer::Moving;
        }
        if seen.writer || seen.readers > 0 {
            return PinAnswer::InUse;
        }
        self.hand_out(worker, pid, room)
    }

    /// Ends a pin for writing: the pool has the draft's value and the brief from now on, and the task
    /// whose target it is, if there is one, is done. The error is `NeedsRoom`, which gives the pin, the
    /// draft and the brief back where the draft doesn't fit now. `TooSmall` comes exactly where a packed
    /// draft is longer than the limit, which is the failure from then on, and `Stopped` exactly where one
    /// is kept. It takes constant time, and what the draft's charge and length take.
    pub fn unpin_write(
        &mut self,
        worker: u32,
        pin: WritePin<T>,
        draft: Draft<T>,
        brief: B,
    ) -> Result<Put<T, B>, (WritePin<T>, Put<T, B>)>
        requires worker { worker < length self.old.core.hands }
        requires held { (hand_at self.old.core.hands worker).written ≡ Some pin.pid }
        requires pool { (x : PoolData) × (pool_at self.old.core.pools pin.pid ≡ Some x) × (is_written x.stage ≡ true) ×
            (T.charge_of (draft_value draft) + length (T.encoding (draft_value draft)) ≤ stated_room x.stage) }
        requires draft { IsDraft T.charge_of T.encoding T.is_value draft }
        ensures answer { AnswersWrite T.charge_of T.encoding self.old self.new worker pin draft brief result }
        ensures sound { IsSound self.new.core }
    {
        if self.is_stopped() {
            let WritePin { pid: _, body: _ } = pin;
            return Ok(Put::Stopped);
        }
        self.write(worker, pin, draft, brief)
    }

    /// Ends a pin for writing while no failure is kept.
    fn write(
        &mut self,
        worker: u32,
        pin: WritePin<T>,
        draft: Draft<T>,
        brief: B,
    ) -> Result<Put<T, B>, (WritePin<T>, Put<T, B>)>
        requires running { self.old.core.failure ≡ None }
        requires worker { worker < length self.old.core.hands }
        requires held { (hand_at self.old.core.hands worker).written ≡ Some pin.pid }
        requires pool { (x : PoolData) × (pool_at self.old.core.pools pin.pid ≡ Some x) × (is_written x.stage ≡ true) ×
            (T.charge_of (draft_value draft) + length (T.encoding (draft_value draft)) ≤ stated_room x.stage) }
        requires draft { IsDraft T.charge_of T.encoding T.is_value draft }
        ensures answer { AnswersWrite T.charge_of T.encoding self.old self.new worker pin draft brief result }
        ensures sound { IsSound self.new.core }
    {
        let WritePin { pid, body } = pin;
        let form = draft.form();
        let e = draft.charge();
        let c = draft.compact_len();
        let event = Event::UnpinWrite {
            worker,
            pid,
            form,
            e,
            c,
        };
        match step(&mut self.core, &mut self.counters, event) {
            Ok(()) => {
                let (body, value) = draft.into_parts();
                self.table.renew(pid, Entry { body, value, brief });
                Ok(Put::Done)
            }
            Err(refusal) => match refusal {
                Refusal::NeedsRoom(bytes) => {
                    let pin = WritePin { pid, body };
                    Err((
                        pin,
                        Put::NeedsRoom {
                            bytes,
                            draft,
                            brief,
                        },
                    ))
                }
                Refusal::TooSmall(need) => {
                    let limit = self.refuse(worker, pid, need);
                    Ok(Put::TooSmall { pid, need, limit })
                }
                _ => unreachable!(),
            },
        }
    }
}
