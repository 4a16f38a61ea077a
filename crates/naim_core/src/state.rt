//! The state and its events.
ghost use Rattle.std.specs.Prelude.{◌≡◌, ◌+◌, ◌<◌, ◌≤◌, ◌^◌, ◌++◌, ◌∷◌, [], length, slice_get, slice_set, option_map, option_copied, true, false};
ghost use Rattle.std.specs.Prelude.{is_none, IfOk, IsSome, Some, None};
ghost use Rattle.std.specs.List.{list_any, list_all};
ghost use Rattle.naim_core.specs.Charges.{under_sum, held_sum};
ghost use Rattle.naim_core.specs.Sound.{IsSound, RecordsApart};
ghost use Rattle.naim_core.specs.State.{start, pool_at, hand_at, has_repeat, is_empty_hand, record_place, victim, view_of, is_free};
ghost use Rattle.naim_core.specs.Table.{is_resident};
ghost use Rattle.std.specs.Option.{option_map_or};
ghost use Rattle.naim_core.specs.Steps.{front, in_place, take_pin, failed, Follows, NamesWorker, step_of, step_running, begin_wave_step, end_wave_step};
ghost use Rattle.naim_core.specs.Steps.{insert_step, remove_step, claim_step, pin_read_step, pin_write_step, reload_begin_step, reload_end_step};
ghost use Rattle.naim_core.specs.Steps.{unpin_read_step, unpin_write_step, compact_begin_step, compact_end_step, offload_begin_step, offload_end_step};

use crate::checks;
use crate::event::{Event, Failure, Form, Mode, Refusal};
use crate::pool::{Pool, PoolView, Stage};
use crate::scratch::Scratch;
use crate::table::Table;
use hlo_num::Seq;
use std::alloc::{AllocError, Global};
use std::marker::Model;

/// What a worker holds: at most one task, one pool that it writes, one that it reads and one that it
/// moves. A reload holds the moved place and that of its pin.
#[derive(Clone, Copy, Debug, PartialEq, Eq)]
pub struct Hand {
    pub task: Option<u32>,
    pub written: Option<u32>,
    pub read: Option<u32>,
    pub moved: Option<u32>,
}

/// The state of the paging core. Contracts see it as the record of its pools in the use order, of the
/// hands, the wave, the disk's place and the first failure. Under every list of events it stays sound.
#[derive(Drop)]
pub struct CoreState {
    limit: u64,
    pools: Table,
    hands: Vec<Hand>,
    in_wave: bool,
    tasks: Vec<u32>,
    /// How many tasks were claimed.
    next: usize,
    done: Vec<u32>,
    scratch: Scratch,
    /// The worker that has the disk.
    disk: Option<u32>,
    failure: Option<Failure>,
}

impl Model for CoreState {
    ghost use Rattle.std.specs.Prelude.{vec_capacity};
    ghost use Rattle.naim_core.specs.State.{Core, IsKept};
    ghost use Rattle.naim_core.specs.Sound.{IsSound};

    ghost Value = { Core };

    ghost use Rattle.naim_core.specs.View.{core_of};

    ghost view = { core_of };

    ghost invariant = { λ s. IsSound (core_of s) × IsKept (core_of s) s.next (vec_capacity s.done) };
}

/// A hand that holds nothing.
const EMPTY: Hand = Hand {
    task: None,
    written: None,
    read: None,
    moved: None,
};

/// The largest limit, 2^30 bytes.
const MAX_LIMIT: u64 = 1 << 30;

impl Hand {
    /// Whether it holds nothing.
    fn is_empty(self) -> bool
        ensures { result ≡ is_empty_hand self }
    {
        self.task.is_none() && self.written.is_none() && self.read.is_none() && self.moved.is_none()
    }

    /// The hand with the pool in the moved place and in that of the pin.
    fn with_pin(self, mode: Mode, pid: u32) -> Hand
        ensures { result ≡ take_pin mode pid self }
    {
        match mode {
            Mode::Read => Hand {
                read: Some(pid),
                moved: Some(pid),
                ..self
            },
            Mode::Write { .. } => Hand {
                written: Some(pid),
                moved: Some(pid),
                ..self
            },
        }
    }
}

impl CoreState {
    /// Gives a pool that is there its new content and puts it first, and gives the worker its new hand.
    fn change_first(&mut self, worker: u32, pid: u32, pool: Pool, hand: Hand, disk: Option<u32>)
        requires worker { worker < length self.old.hands }
        requires present { IsSome (pool_at self.old.pools pid) }
        requires task { hand.task ≡ (hand_at self.old.hands worker).task }
        requires sound { IsSound (record self.old { pools = front pid pool self.old.pools; hands = slice_set self.old.hands worker hand; disk = disk }) }
        ensures { self.new ≡ record self.old { pools = front pid pool self.old.pools; hands = slice_set self.old.hands worker hand; disk = disk } }
    {
        self.pools.put_first(pid, pool);
        self.hands[worker as usize] = hand;
        self.disk = disk;
    }

    /// The same, where the pool keeps its place.
    fn change_in_place(&mut self, worker: u32, pid: u32, pool: Pool, hand: Hand, disk: Option<u32>)
        requires worker { worker < length self.old.hands }
        requires present { IsSome (pool_at self.old.pools pid) }
        requires task { hand.task ≡ (hand_at self.old.hands worker).task }
        requires pinned { is_free pool.stage ≡ false }
        requires resident { is_resident pool.stage ≡ true → option_map_or (λ x. is_resident x.stage) (pool_at self.old.pools pid) false ≡ true }
        requires sound { IsSound (record self.old { pools = in_place pid pool self.old.pools; hands = slice_set self.old.hands worker hand; disk = disk }) }
        ensures { self.new ≡ record self.old { pools = in_place pid pool self.old.pools; hands = slice_set self.old.hands worker hand; disk = disk } }
    {
        self.pools.put(pid, pool);
        self.hands[worker as usize] = hand;
        self.disk = disk;
    }

    /// As `change_first`, where the pool was the worker's task, which is done then.
    fn finish_task(&mut self, worker: u32, pid: u32, pool: Pool, hand: Hand)
        requires worker { worker < length self.old.hands }
        requires present { IsSome (pool_at self.old.pools pid) }
        requires task { (hand_at self.old.hands worker).task ≡ Some pid }
        requires left { hand.task ≡ None }
        requires sound { IsSound (record self.old {
          pools = front pid pool self.old.pools;
          hands = slice_set self.old.hands worker hand;
          done = self.old.done ++ pid ∷ [];
        }) }
        ensures { self.new ≡ record self.old {
          pools = front pid pool self.old.pools;
          hands = slice_set self.old.hands worker hand;
          done = self.old.done ++ pid ∷ [];
        } }
    {
        self.pools.put_first(pid, pool);
        self.hands[worker as usize] = hand;
        self.done.push(pid).unwrap();
    }

    /// One more reader.
    fn pin_read(&mut self, worker: u32, pid: u32) -> Result<(), Refusal>
        requires { worker < length self.old.hands }
        ensures { Follows (pin_read_step self.old worker pid) self.old result self.new }
    {
        let Some(pool) = self.pools.get(pid) else {
            return Err(Refusal::Absent);
        };
        let hand = self.hands[worker as usize];
        let disk = self.disk;
        let next = checks::pin_read(pool, hand)?;
        let hand = Hand {
            read: Some(pid),
            ..hand
        };
        self.change_first(worker, pid, next, hand, disk);
        Ok(())
    }

    /// A writer.
    fn pin_write(&mut self, worker: u32, pid: u32, room: u64) -> Result<(), Refusal>
        requires { worker < length self.old.hands }
        ensures { Follows (pin_write_step self.old worker pid room) self.old result self.new }
    {
        let Some(pool) = self.pools.get(pid) else {
            return Err(Refusal::Absent);
        };
        let hand = self.hands[worker as usize];
        let disk = self.disk;
        let next = checks::pin_write(pool, hand, self.in_wave, pid, room)?;
        let hand = Hand {
            written: Some(pid),
            ..hand
        };
        self.change_first(worker, pid, next, hand, disk);
        Ok(())
    }

    /// The pool is on its way to be expanded; from the disk, the worker has the disk.
    fn reload_begin(&mut self, worker: u32, pid: u32, mode: Mode) -> Result<(), Refusal>
        requires { worker < length self.old.hands }
        ensures { Follows (reload_begin_step self.old worker pid mode) self.old result self.new }
    {
        let Some(pool) = self.pools.get(pid) else {
            return Err(Refusal::Absent);
        };
        let hand = self.hands[worker as usize];
        let disk = self.disk;
        let next = checks::reload_begin(pool, hand, self.in_wave, pid, mode, disk)?;
        let hand = hand.with_pin(mode, pid);
        let disk = checks::lent(pool.stage, worker, disk);
        self.change_in_place(worker, pid, next, hand, disk);
        Ok(())
    }

    /// The pool is expanded and pinned; the disk is home.
    fn reload_end(&mut self, worker: u32, pid: u32) -> Result<(), Refusal>
        requires { worker < length self.old.hands }
        ensures { Follows (reload_end_step self.old worker pid) self.old result self.new }
    {
        let Some(pool) = self.pools.get(pid) else {
            return Err(Refusal::Absent);
        };
        let hand = self.hands[worker as usize];
        let disk = self.disk;
        let next = checks::reload_end(pool, hand, pid)?;
        let disk = checks::returned(pool.stage, disk);
        let hand = Hand {
            moved: None,
            ..hand
        };
        self.change_first(worker, pid, next, hand, disk);
        Ok(())
    }

    /// One reader less.
    fn unpin_read(&mut self, worker: u32, pid: u32, form: Form) -> Result<(), Refusal>
        requires { worker < length self.old.hands }
        ensures { Follows (unpin_read_step self.old worker pid form) self.old result self.new }
    {
        let Some(pool) = self.pools.get(pid) else {
            return Err(Refusal::Absent);
        };
        let hand = self.hands[worker as usize];
        let disk = self.disk;
        let next = checks::unpin_read(self.limit, self.pools.under(), pool, hand, pid, form)?;
        let hand = Hand { read: None, ..hand };
        self.change_first(worker, pid, next, hand, disk);
        Ok(())
    }

    /// A writer's new value; in a wave the worker's task is done.
    fn unpin_write(
        &mut self,
        worker: u32,
        pid: u32,
        form: Form,
        e: u64,
        c: u32,
    ) -> Result<(), Refusal>
        requires { worker < length self.old.hands }
        ensures { Follows (unpin_write_step self.old worker pid form e c) self.old result self.new }
    {
        let Some(pool) = self.pools.get(pid) else {
            return Err(Refusal::Absent);
        };
        let hand = self.hands[worker as usize];
        let disk = self.disk;
        let next = checks::unpin_write(
            self.limit,
            self.pools.under(),
            pool,
            hand,
            pid,
            form,
            e,
            c,
        )?;
        let hand = Hand {
            written: None,
            ..hand
        };
        if hand.task == Some(pid) {
            self.finish_task(worker, pid, next, Hand { task: None, ..hand });
        } else {
            self.change_first(worker, pid, next, hand, disk);
        }
        Ok(())
    }

    /// The victim is on its way to its compact form.
    fn compact_begin(&mut self, worker: u32, pid: u32, wanted: u64) -> Result<(), Refusal>
        requires { worker < length self.old.hands }
        ensures { Follows (compact_begin_step self.old worker pid wanted) self.old result self.new }
    {
        let Some(pool) = self.pools.get(pid) else {
            return Err(Refusal::Absent);
        };
        let hand = self.hands[worker as usize];
        let disk = self.disk;
        let next = checks::compact_begin(
            self.limit,
            self.pools.under(),
            self.pools.victim(),
            pool,
            hand,
            pid,
            wanted,
        )?;
        let hand = Hand {
            moved: Some(pid),
            ..hand
        };
        self.change_in_place(worker, pid, next, hand, disk);
        Ok(())
    }

    /// The pool is compacted.
    fn compact_end(&mut self, worker: u32, pid: u32) -> Result<(), Refusal>
        requires { worker < length self.old.hands }
        ensures { Follows (compact_end_step self.old worker pid) self.old result self.new }
    {
        let Some(pool) = self.pools.get(pid) else {
            return Err(Refusal::Absent);
        };
        let hand = self.hands[worker as usize];
        let disk = self.disk;
        let next = checks::compact_end(pool, hand, pid)?;
        let hand = Hand {
            moved: None,
            ..hand
        };
        self.change_in_place(worker, pid, next, hand, disk);
        Ok(())
    }

    /// The victim is on its way to the disk, which the worker has.
    fn offload_begin(&mut self, worker: u32, pid: u32, wanted: u64) -> Result<(), Refusal>
        requires { worker < length self.old.hands }
        ensures { Follows (offload_begin_step self.old worker pid wanted) self.old result self.new }
    {
        let Some(pool) = self.pools.get(pid) else {
            return Err(Refusal::Absent);
        };
        let hand = self.hands[worker as usize];
        let disk = self.disk;
        let next = checks::offload_begin(
            self.limit,
            self.pools.under(),
            self.pools.victim(),
            pool,
            hand,
            pid,
            wanted,
            disk,
        )?;
        let hand = Hand {
            moved: Some(pid),
            ..hand
        };
        self.change_in_place(worker, pid, next, hand, Some(worker));
        Ok(())
    }

    /// The pool lies on the disk, which is home.
    fn offload_end(&mut self, worker: u32, pid: u32) -> Result<(), Refusal>
        requires { worker < length self.old.hands }
        ensures { Follows (offload_end_step self.old worker pid) self.old result self.new }
    {
        let Some(pool) = self.pools.get(pid) else {
            return Err(Refusal::Absent);
        };
        let hand = self.hands[worker as usize];
        let disk = self.disk;
        let next = checks::offload_end(pool, hand, pid)?;
        let hand = Hand {
            moved: None,
            ..hand
        };
        self.change_in_place(worker, pid, next, hand, None);
        Ok(())
    }

    /// A new pool.
    fn insert(&mut self, pid: u32, form: Form, e: u64, c: u32) -> Result<(), Refusal>
        ensures { Follows (insert_step self.old pid form e c) self.old result self.new }
    {
        let present = self.pools.get(pid).is_some();
        let pool = checks::insert(
            self.limit,
            self.pools.under(),
            present,
            self.pools.len(),
            form,
            e,
            c,
        )?;
        self.pools.add(pid, pool);
        Ok(())
    }

    /// A pool goes.
    fn remove(&mut self, pid: u32) -> Result<(), Refusal>
        ensures { Follows (remove_step self.old pid) self.old result self.new }
    {
        let Some(pool) = self.pools.get(pid) else {
            return Err(Refusal::Absent);
        };
        if pool.stage.is_moving() {
            return Err(Refusal::Moving);
        }
        let in_wave = self.in_wave;
        if pool.stage.is_pinned() || in_wave {
            return Err(Refusal::InUse);
        }
        self.pools.remove(pid);
        Ok(())
    }

    /// The worker takes the first unclaimed task.
    fn claim(&mut self, worker: u32) -> Result<(), Refusal>
        requires { worker < length self.old.hands }
        ensures { Follows (claim_step self.old worker) self.old result self.new }
    {
        let hand = self.hands[worker as usize];
        if hand.task.is_some() {
            return Err(Refusal::HandFull);
        }
        if self.next >= self.tasks.len() {
            return Err(Refusal::NoTask);
        }
        let task = self.tasks[self.next];
        self.next += 1;
        self.hands[worker as usize] = Hand {
            task: Some(task),
            ..hand
        };
        Ok(())
    }

    /// The first failure is kept.
    fn fail(&mut self, failure: Failure)
        ensures { self.new ≡ failed self.old failure }
    {
        if self.failure.is_none() {
            self.failure = Some(failure);
        }
    }

    /// Whether no hand holds anything. It goes over the hands.
    fn hands_are_empty(&self) -> bool
        ensures { result ≡ list_all is_empty_hand self.now.hands }
    {
        self.hands.iter().all(|hand| hand.is_empty())
    }

    /// Whether some task stands twice, where all of them are present.
    fn has_repeat(&mut self, tasks: &[u32]) -> bool
        requires { list_any (λ t. is_none (pool_at self.old.pools t)) tasks.now ≡ false }
        ensures same { self.new ≡ self.old }
        ensures value { result ≡ has_repeat tasks.now }
    {
        let used = self.pools.len() as usize;
        if used < tasks.len() {
            return true;
        }
        self.scratch.has_repeat(tasks)
    }

    /// A wave with these tasks.
    fn begin_wave(&mut self, tasks: Seq<u32>) -> Result<(), Refusal>
        ensures { Follows (begin_wave_step self.old tasks) self.old result self.new }
    {
        if self.pools.misses_any(tasks.as_slice()) {
            return Err(Refusal::Absent);
        }
        if self.has_repeat(tasks.as_slice()) {
            return Err(Refusal::Present);
        }
        if self.in_wave || !self.hands_are_empty() {
            return Err(Refusal::InUse);
        }
        self.in_wave = true;
        self.tasks = tasks.into_vec();
        self.next = 0;
        self.done.clear();
        Ok(())
    }

    /// The wave is over.
    fn end_wave(&mut self) -> Result<(), Refusal>
        ensures { Follows (end_wave_step self.old) self.old result self.new }
    {
        if !self.in_wave {
            return Err(Refusal::NoTask);
        }
        if !self.hands_are_empty() {
            return Err(Refusal::InUse);
        }
        if self.done.len() < self.tasks.len() {
            return Err(Refusal::InUse);
        }
        self.in_wave = false;
        self.tasks.clear();
        self.next = 0;
        self.done.clear();
        Ok(())
    }

    /// No pools, empty hands, no wave and the disk at home. It reserves all that the state ever takes:
    /// 4,096 slots, and an index of PIDs. No later call takes memory.
    pub fn new(alloc: Global, limit: u64, workers: u32) -> Result<CoreState, AllocError>
        requires limit { limit ≤ 2 ^ 30 }
        requires some_worker { 0 < workers }
        requires few_workers { workers ≤ 64 }
        ensures made { IfOk result (λ s. s ≡ start limit workers) }
        ensures sound { IfOk result IsSound }
    {
        let pools = Table::new(alloc)?;
        let hands = vec![in alloc; EMPTY; workers as usize]?;
        let done = Vec::with_capacity(alloc, 4096)?;
        let scratch = Scratch::new(alloc)?;
        Ok(CoreState {
            limit,
            pools,
            hands,
            in_wave: false,
            tasks: Vec::new(alloc),
            next: 0,
            done,
            scratch,
            disk: None,
            failure: None,
        })
    }

    /// An event where no failure is kept.
    fn run(&mut self, event: Event) -> Result<(), Refusal>
        requires { NamesWorker (length self.old.hands) event }
        ensures { Follows (step_running self.old event) self.old result self.new }
    {
        match event {
            Event::Insert { pid, form, e, c } => self.insert(pid, form, e, c),
            Event::Remove { pid } => self.remove(pid),
            Event::BeginWave { tasks } => self.begin_wave(tasks),
            Event::EndWave => self.end_wave(),
            Event::Claim { worker } => self.claim(worker),
            Event::PinRead { worker, pid } => self.pin_read(worker, pid),
            Event::PinWrite { worker, pid, room } => self.pin_write(worker, pid, room),
            Event::ReloadBegin { worker, pid, mode } => self.reload_begin(worker, pid, mode),
            Event::ReloadEnd { worker, pid } => self.reload_end(worker, pid),
            Event::UnpinRead { worker, pid, form } => self.unpin_read(worker, pid, form),
            Event::UnpinWrite {
                worker,
                pid,
                form,
                e,
                c,
            } => self.unpin_write(worker, pid, form, e, c),
            Event::CompactBegin {
                worker,
                pid,
                wanted,
            } => self.compact_begin(worker, pid, wanted),
            Event::CompactEnd { worker, pid } => self.compact_end(worker, pid),
            Event::OffloadBegin {
                worker,
                pid,
                wanted,
            } => self.offload_begin(worker, pid, wanted),
            Event::OffloadEnd { worker, pid } => self.offload_end(worker, pid),
            Event::Fail { failure, .. } => {
                self.fail(failure);
                Ok(())
            }
        }
    }

    /// An event, which a kept failure stops.
    fn take(&mut self, event: Event) -> Result<(), Refusal>
        requires { NamesWorker (length self.old.hands) event }
        ensures { Follows (step_of self.old event) self.old result self.new }
    {
        if self.failure.is_some() && !event.is_fail() {
            return Err(Refusal::Stopped);
        }
        self.run(event)
    }

    /// Takes the event, or refuses it and changes nothing. It takes no memory, and a time that does not
    /// grow with the number of pools, but for `BeginWave`, which sorts its tasks. `CompactBegin` and
    /// `OffloadBegin` look for the victim as [`CoreState::victim`] does.
    ///
    /// After every event, taken or refused, the state is sound.
    pub fn step(&mut self, event: Event) -> Result<(), Refusal>
        requires { NamesWorker (length self.old.hands) event }
        ensures means { Follows (step_of self.old event) self.old result self.new }
        ensures sound { IsSound self.new }
        ensures apart { RecordsApart self.new }
        ensures limit { self.new.limit ≡ self.old.limit }
        ensures workers { length self.new.hands ≡ length self.old.hands }
    {
        let answer = self.take(event);
        prove!(self.limit <= MAX_LIMIT);
        answer
    }

    /// The bytes that count against the limit, over all pools. Constant time.
    pub fn under(&self) -> u64
        ensures value { result ≡ under_sum self.now.pools }
        ensures within { result ≤ self.now.limit }
    {
        self.pools.under()
    }

    /// The bytes that count against the limit and those that workers hold, over all pools. Constant time.
    pub fn charged(&self) -> u64
        ensures value { result ≡ under_sum self.now.pools + held_sum self.now.pools }
        ensures within { result ≤ self.now.limit + held_sum self.now.pools }
    {
        self.pools.under() + self.pools.held()
    }

    /// How many pools there are. Constant time.
    pub fn used(&self) -> u32
        ensures { result ≡ length self.now.pools }
    {
        self.pools.len()
    }

    /// Whether no worker has the disk. Constant time.
    pub fn disk_home(&self) -> bool
        ensures { result ≡ is_none self.now.disk }
    {
        self.disk.is_none()
    }

    /// What is told of the pool; `None` exactly where it is absent. Constant time for a PID below
    /// 131,072; for another one it goes over the slots.
    pub fn pool(&self, pid: u32) -> Option<PoolView>
        ensures { result ≡ option_map view_of (pool_at self.now.pools pid) }
    {
        let pool = self.pools.get(pid)?;
        Some(pool.view())
    }

    /// Where the pool's record lies; `None` exactly where the pool is neither offloaded nor on its way
    /// to or from the disk. It costs what [`CoreState::pool`] does.
    pub fn place(&self, pid: u32) -> Option<u64>
        ensures { result ≡ record_place self.now pid }
    {
        let pool = self.pools.get(pid)?;
        if pool.stage.has_record() {
            Some(u64::from(pid) * self.limit)
        } else {
            None
        }
    }

    /// The pool that is to leave next: the free expanded one that is last in the use order, or, where
    /// there is none, the compacted one that is last. `None` exactly where there is neither. It looks at
    /// the last free pool alone; where there is none, it passes those that are pinned or being compacted,
    /// of which each worker has three at most. So its time grows with the workers, and not with the pools.
    pub fn victim(&self) -> Option<u32>
        ensures { result ≡ victim self.now.pools }
    {
        self.pools.victim()
    }

    /// The task in the worker's hand; `None` exactly where there is none. Constant time.
    pub fn task(&self, worker: u32) -> Option<u32>
        requires { worker < length self.now.hands }
        ensures { result ≡ (hand_at self.now.hands worker).task }
    {
        self.hands[worker as usize].task
    }

    /// The first unclaimed task, which `Claim` gives to a worker without a task, a kept failure left
    /// aside; `None` exactly where there is none. Constant time.
    pub fn next_task(&self) -> Option<u32>
        ensures { result ≡ slice_get self.now.unclaimed 0 }
    {
        self.tasks.get(self.next).copied()
    }

    /// The failure that is kept; `None` exactly where there is none. Constant time.
    pub fn failure(&self) -> Option<&Failure>
        ensures { option_copied result ≡ self.now.failure }
    {
        self.failure.as_ref()
    }
}
