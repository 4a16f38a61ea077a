//! Waves and their tasks.
ghost use Rattle.std.specs.Prelude.{◌≡◌, ◌<◌, length, true, false, None, is_some, is_none};
ghost use Rattle.std.specs.List.{list_all, list_any};
ghost use Rattle.naim_core.specs.Sound.{IsSound};
ghost use Rattle.naim_core.specs.State.{pool_at, hand_at, has_repeat, is_empty_hand, is_in};
ghost use Rattle.naim_core.specs.declared.event.Event.TheVariants as event;
ghost use Rattle.naim_loader.specs.Calls.{AnswersClaim};
ghost use Rattle.naim_loader.specs.Paged.{Steps};

use crate::counters::step;
use crate::loader::Loader;
use hlo_num::Seq;
use naim_core::Event;
use outside::Disk;
use pool_laws::Poolable;

impl<T: Poolable + Drop, B: Drop, D: Disk + Drop> Loader<T, B, D> {
    /// Begins a wave of these tasks, each the number of a pool. Once a failure is kept, nothing changes.
    /// It takes linear time in the tasks, sorted once.
    pub fn begin_wave(&mut self, tasks: Vec<u32>)
        requires present { list_any (λ t. is_none (pool_at self.old.core.pools t)) tasks.items ≡ false }
        requires differ { has_repeat tasks.items ≡ false }
        requires closed { self.old.core.in_wave ≡ false }
        requires free { list_all is_empty_hand self.old.core.hands ≡ true }
        ensures stopped { is_some self.old.core.failure ≡ true → self.new ≡ self.old }
        ensures begins { self.old.core.failure ≡ None → Steps self.old (event.BeginWave tasks.items) self.new }
        ensures sound { IsSound self.new.core }
    {
        let tasks = Seq::from_vec(tasks);
        let _ = step(
            &mut self.core,
            &mut self.counters,
            Event::BeginWave { tasks },
        );
    }

    /// Ends the wave, whose tasks are done. Once a failure is kept, nothing changes. It takes linear time
    /// in the tasks.
    pub fn end_wave(&mut self)
        requires opened { self.old.core.in_wave ≡ true }
        requires free { list_all is_empty_hand self.old.core.hands ≡ true }
        requires done { list_all (λ t. is_in t self.old.core.done) self.old.core.tasks ≡ true }
        ensures stopped { is_some self.old.core.failure ≡ true → self.new ≡ self.old }
        ensures ends { self.old.core.failure ≡ None → Steps self.old event.EndWave self.new }
        ensures sound { IsSound self.new.core }
    {
        let _ = step(&mut self.core, &mut self.counters, Event::EndWave);
    }

    /// The worker takes the first task that nobody claimed; `None` exactly where all are claimed, or a
    /// failure is kept. Constant time.
    pub fn claim(&mut self, worker: u32) -> Option<u32>
        requires worker { worker < length self.old.core.hands }
        requires free { (hand_at self.old.core.hands worker).task ≡ None }
        ensures answer { AnswersClaim self.old self.new worker result }
        ensures sound { IsSound self.new.core }
    {
        match step(&mut self.core, &mut self.counters, Event::Claim { worker }) {
            Ok(()) => self.core.task(worker),
            Err(_) => None,
        }
    }
}
