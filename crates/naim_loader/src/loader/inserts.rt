//! New pools.
ghost use Rattle.std.specs.Prelude.{◌≡◌, ◌<◌, length, None};
ghost use Rattle.naim_core.specs.Sound.{IsSound};
ghost use Rattle.naim_loader.specs.Calls.{AnswersInsert};
ghost use Rattle.naim_loader.specs.Drafts.{IsDraft};
ghost use Rattle.naim_loader.specs.Paged.{kept_at};

use crate::counters::step;
use crate::forms::{Draft, Put};
use crate::loader::Loader;
use crate::noted::Noted;
use crate::table::Entry;
use naim_core::{Event, Refusal};
use outside::Disk;
use pool_laws::Poolable;

impl<T: Poolable + Drop, B: Drop, D: Disk + Drop> Loader<T, B, D> {
    /// Puts a new pool in, whole or packed. `NeedsRoom` gives the draft back where it doesn't fit now.
    /// `TooSmall` comes exactly where a packed draft is longer than the limit, which is the failure from
    /// then on, and `Stopped` exactly where one is kept. It takes constant time, and what the draft's
    /// charge and length take.
    pub fn insert(&mut self, pid: u32, draft: Draft<T>, brief: B) -> Put<T, B>
        requires absent { kept_at self.old pid ≡ None }
        requires below { pid < 131072 }
        requires room { length self.old.core.pools < 4096 }
        requires draft { IsDraft T.charge_of T.encoding T.is_value draft }
        ensures answer { AnswersInsert T.charge_of T.encoding self.old self.new pid draft brief result }
        ensures sound { IsSound self.new.core }
    {
        if self.is_stopped() {
            return Put::Stopped;
        }
        let form = draft.form();
        let e = draft.charge();
        let c = draft.compact_len();
        let event = Event::Insert { pid, form, e, c };
        match step(&mut self.core, &mut self.counters, event) {
            Ok(()) => {
                let (body, value) = draft.into_parts();
                self.table.add(pid, Entry { body, value, brief });
                self.trail = Noted::after(&self.trail, &pid);
                Put::Done
            }
            Err(refusal) => match refusal {
                Refusal::NeedsRoom(bytes) => Put::NeedsRoom {
                    bytes,
                    draft,
                    brief,
                },
                Refusal::TooSmall(need) => {
                    let limit = self.refuse(0, pid, need);
                    Put::TooSmall { pid, need, limit }
                }
                _ => unreachable!(),
            },
        }
    }
}
