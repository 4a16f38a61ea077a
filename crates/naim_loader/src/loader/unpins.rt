//! The end of a pin for reading.
ghost use Rattle.std.specs.Prelude.{◌≡◌, ◌<◌, ◌⊎◌, length, true, false, Some, None, Ok, IsOk, is_some};
ghost use Rattle.std.specs.Arc.{arc_value};
ghost use Rattle.naim_core.specs.Rows.{is_last_reader};
ghost use Rattle.naim_core.specs.Sound.{IsSound};
ghost use Rattle.naim_core.specs.State.{pool_at, hand_at, is_read};
ghost use Rattle.naim_core.specs.declared.pool.Pool.{Pool as PoolData};
ghost use Rattle.naim_loader.specs.Calls.{AnswersUnpin, IsPacked, unpin_form};
ghost use Rattle.naim_loader.specs.Paged.{content_at};

use crate::counters::step;
use crate::forms::ReadPin;
use crate::loader::Loader;
use crate::table::Lying;
use naim_core::{Event, Form, Refusal};
use outside::Disk;
use pool_laws::Poolable;

impl<T: Poolable + Drop, B: Drop, D: Disk + Drop> Loader<T, B, D> {
    /// One reader less, where the body stays whole.
    fn leave(&mut self, worker: u32, pin: ReadPin<T>, form: Form) -> Result<(), (ReadPin<T>, u64)>
        requires running { self.old.core.failure ≡ None }
        requires worker { worker < length self.old.core.hands }
        requires held { (hand_at self.old.core.hands worker).read ≡ Some pin.pid }
        requires pool { (x : PoolData) × (pool_at self.old.core.pools pin.pid ≡ Some x) × (is_read x.stage ≡ true) ×
            ((form ≡ Form.Expanded) ⊎ (is_last_reader x.stage ≡ false)) }
        ensures answer { AnswersUnpin self.old self.new worker pin form result }
        ensures sound { IsSound self.new.core }
    {
        let ReadPin { pid, body } = pin;
        let event = Event::UnpinRead { worker, pid, form };
        let Err(refusal) = step(&mut self.core, &mut self.counters, event) else {
            return Ok(());
        };
        let Refusal::NeedsRoom(bytes) = refusal else {
            unreachable!()
        };
        Err((ReadPin { pid, body }, bytes))
    }

    /// One reader less, the last one, who leaves the pool packed.
    fn leave_packed(
        &mut self,
        worker: u32,
        pin: ReadPin<T>,
        bytes: Vec<u8>,
    ) -> Result<(), (ReadPin<T>, u64)>
        requires running { self.old.core.failure ≡ None }
        requires worker { worker < length self.old.core.hands }
        requires held { (hand_at self.old.core.hands worker).read ≡ Some pin.pid }
        requires pool { (x : PoolData) × (pool_at self.old.core.pools pin.pid ≡ Some x) × (is_read x.stage ≡ true) × (is_last_reader x.stage ≡ true) }
        requires content { content_at self.old pin.pid ≡ Some (arc_value pin.body) }
        requires spelled { bytes.items ≡ T.encoding (arc_value pin.body) }
        ensures answer { AnswersUnpin self.old self.new worker pin Form.Compacted result }
        ensures sound { IsSound self.new.core }
    {
        let ReadPin { pid, body } = pin;
        let form = Form::Compacted;
        let event = Event::UnpinRead { worker, pid, form };
        match step(&mut self.core, &mut self.counters, event) {
            Ok(()) => {
                let _ = self.table.put(pid, Lying::Packed(bytes));
                Ok(())
            }
            Err(refusal) => match refusal {
                Refusal::NeedsRoom(wanted) => Err((ReadPin { pid, body }, wanted)),
                _ => unreachable!(),
            },
        }
    }

    /// Ends a pin for reading. The last reader leaves the pool packed where `packed` has the body's
    /// compact spelling, and whole otherwise. The error gives the pin back with the bytes of that form; it
    /// comes exactly where the form of the last reader doesn't fit. Once a failure is kept, the pin is
    /// taken back and nothing else changes. It takes constant time.
    pub fn unpin_read(
        &mut self,
        worker: u32,
        pin: ReadPin<T>,
        packed: Option<Vec<u8>>,
    ) -> Result<(), (ReadPin<T>, u64)>
        requires worker { worker < length self.old.core.hands }
        requires held { (hand_at self.old.core.hands worker).read ≡ Some pin.pid }
        requires pool { (x : PoolData) × (pool_at self.old.core.pools pin.pid ≡ Some x) × (is_read x.stage ≡ true) }
        requires content { content_at self.old pin.pid ≡ Some (arc_value pin.body) }
        requires packed { IsPacked T.encoding packed (arc_value pin.body) }
        ensures stopped { is_some self.old.core.failure ≡ true → (self.new ≡ self.old) × IsOk result }
        ensures answer { self.old.core.failure ≡ None → AnswersUnpin self.old self.new worker pin (unpin_form packed) result }
        ensures sound { IsSound self.new.core }
    {
        if self.is_stopped() {
            let ReadPin { pid: _, body: _ } = pin;
            return Ok(());
        }
        let Some(bytes) = packed else {
            return self.leave(worker, pin, Form::Expanded);
        };
        let readers = self.told(pin.pid).readers;
        if readers == 1 {
            return self.leave_packed(worker, pin, bytes);
        }
        self.leave(worker, pin, Form::Compacted)
    }
}
