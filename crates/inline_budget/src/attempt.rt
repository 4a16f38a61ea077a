//! Whether a call may be inlined beside those that are accepted: its callee's numbers come to its caller, and from each
//! routine to the callers of the calls to it.
ghost use Rattle.std.specs.Prelude.{◌≡◌, ◌+◌, ◌<◌, ◌≤◌, ℕ, [], true, false, IfOk, Some, None, length, replicate, slice_index_or, slice_set};
ghost use Rattle.std.specs.List.{AllByRecursion};
ghost use Rattle.il_core.specs.Limits.{max_size};
ghost use Rattle.inline_budget.specs.Attempts.{AreFew, IsWithin, grown, numbers_at, room_after};
ghost use Rattle.inline_budget.specs.Calls.{has_number, number_at};
ghost use Rattle.inline_budget.specs.Following.{AreBrief, Follows, FollowsNot, Grows, GrowsNot, Hands, HandsNot, HasCalls, IsIdle, IsReady, Raises};
ghost use Rattle.inline_budget.specs.Following.{Refuses, Spreads, SpreadsNot};

use crate::buckets::Buckets;
use crate::choice::Choice;
use crate::numbers::{Numbers, grown, is_within, rise};
use std::alloc::{AllocError, Global};

/// A call that may be inlined, and what it brings: its callee's numbers, and what a call adds to its caller's size.
#[derive(Clone, Copy, Drop)]
pub(crate) struct Candidate {
    pub caller: u32,
    pub site: u32,
    pub callee: u32,
    pub by: Numbers,
}

impl Candidate {
    pub(crate) fn choice(&self) -> Choice
        ensures { result ≡ record { caller = self.now.caller; site = self.now.site; callee = self.now.callee } }
    {
        Choice {
            caller: self.caller,
            site: self.site,
            callee: self.callee,
        }
    }
}

/// Room to follow the callers of a call.
#[derive(Drop)]
pub(crate) struct Attempt {
    /// How often the numbers have come to each routine.
    times: Vec<u64>,
    /// How often each routine has handed them on to its callers.
    handed: Vec<u64>,
    /// The routines to which they came.
    queue: Vec<u32>,
    /// How much the cost may still rise.
    room: u64,
}

impl Attempt {
    /// Nothing has come to a routine.
    pub(crate) fn new(alloc: Global, bound: usize, room: u64) -> Result<Attempt, AllocError>
        ensures times { IfOk result (λ a. a.times.items ≡ replicate bound 0) }
        ensures handed { IfOk result (λ a. a.handed.items ≡ replicate bound 0) }
        ensures queue { IfOk result (λ a. a.queue.items ≡ []) }
        ensures room { IfOk result (λ a. a.room ≡ room) }
    {
        let times = vec![in alloc; 0; bound]?;
        let handed = vec![in alloc; 0; bound]?;
        Ok(Attempt {
            times,
            handed,
            queue: Vec::new(alloc),
            room,
        })
    }

    /// Takes a call, where it may be inlined beside those to which the callers belong: gives its callee's numbers to all
    /// routines to which they come. Tells whether it did; else nothing changes.
    pub(crate) fn decide(
        &mut self,
        numbers: &mut [Numbers],
        callers: &Buckets,
        call: &Candidate,
    ) -> Result<bool, AllocError>
        requires idle { IsIdle numbers.old self.old.times.items self.old.handed.items self.old.queue.items }
        requires calls { HasCalls callers.now }
        requires caller { call.now.caller < length numbers.old }
        requires lists { length callers.now ≡ length numbers.old }
        requires inside { (y : ℕ) → AllByRecursion (λ x. x < length numbers.old) (slice_index_or callers.now y []) }
        requires by { AreBrief call.now.by }
        ensures idle { IfOk result (λ _. IsIdle numbers.new self.new.times.items self.new.handed.items self.new.queue.items) }
        ensures taken { IfOk result (λ b. b ≡ true
            → Grows numbers.old call.now.caller call.now.callee call.now.by callers.now self.old.room numbers.new self.new.room) }
        ensures refused { IfOk result (λ b. b ≡ false → GrowsNot numbers.old call.now.caller call.now.callee call.now.by callers.now self.old.room) }
        ensures kept { IfOk result (λ b. b ≡ false → numbers.new ≡ numbers.old) }
        ensures room { IfOk result (λ b. b ≡ false → self.new.room ≡ self.old.room) }
    {
        let room = self.room;
        if self.spread(numbers, callers, call)? {
            self.give(numbers, call.by);
            return Ok(true);
        }
        self.clear();
        self.room = room;
        Ok(false)
    }

    /// Gives the numbers to the routines to which they came, and empties the tables.
    fn give(&mut self, numbers: &mut [Numbers], by: Numbers)
        requires ready { IsReady numbers.old self.old.times.items self.old.handed.items self.old.queue.items }
        requires grown { (x : ℕ) → IsWithin (grown (numbers_at numbers.old x) by (number_at self.old.times.items x)) }
        requires by { AreFew by }
        ensures numbers { (x : ℕ) → numbers_at numbers.new x ≡ grown (numbers_at numbers.old x) by (number_at self.old.times.items x) }
        ensures long { length numbers.new ≡ length numbers.old }
        ensures times { (x : ℕ) → number_at self.new.times.items x ≡ 0 }
        ensures handed { (x : ℕ) → number_at self.new.handed.items x ≡ 0 }
        ensures queue { self.new.queue.items ≡ [] }
        ensures sized { length self.new.times.items ≡ length numbers.old }
        ensures same { length self.new.handed.items ≡ length numbers.old }
        ensures room { self.new.room ≡ self.old.room }
    {
        for next in 0..self.queue.len() {
            let at = self.queue[next] as usize;
            numbers[at] = grown(numbers[at], by, self.times[at]);
            self.times[at] = 0;
            self.handed[at] = 0;
        }
        self.queue.clear();
    }

    /// Lets the numbers come to the caller, and follows the callers from it on. Tells whether they all stay within the
    /// limits.
    fn spread(
        &mut self,
        numbers: &[Numbers],
        callers: &Buckets,
        call: &Candidate,
    ) -> Result<bool, AllocError>
        requires ready { IsReady numbers.now self.old.times.items self.old.handed.items self.old.queue.items }
        requires caller { call.now.caller < length numbers.now }
        requires lists { length callers.now ≡ length numbers.now }
        requires inside { (y : ℕ) → AllByRecursion (λ x. x < length numbers.now) (slice_index_or callers.now y []) }
        requires by { AreBrief call.now.by }
        ensures ready { IfOk result (λ _. IsReady numbers.now self.new.times.items self.new.handed.items self.new.queue.items) }
        ensures taken { IfOk result (λ b. b ≡ true
            → Spreads numbers.now call.now.caller call.now.callee call.now.by callers.now self.old.times.items self.old.handed.items self.old.queue.items
            self.old.room self.new.times.items self.new.room) }
        ensures refused { IfOk result (λ b. b ≡ false
            → SpreadsNot numbers.now call.now.caller call.now.callee call.now.by callers.now self.old.times.items self.old.handed.items
            self.old.queue.items self.old.room) }
    {
        if !self.raise_all(numbers, call, &[call.caller], 1)? {
            return Ok(false);
        }
        self.follow(numbers, callers, call)
    }

    /// Empties the tables where the numbers came.
    fn clear(&mut self)
        requires handed { length self.old.handed.items ≡ length self.old.times.items }
        requires inside { AllByRecursion (λ x. x < length self.old.times.items) self.old.queue.items }
        requires times { (x : ℕ) → has_number self.old.queue.items x ≡ false → number_at self.old.times.items x ≡ 0 }
        requires below { (x : ℕ) → number_at self.old.handed.items x ≤ number_at self.old.times.items x }
        ensures times { (x : ℕ) → number_at self.new.times.items x ≡ 0 }
        ensures handed { (x : ℕ) → number_at self.new.handed.items x ≡ 0 }
        ensures queue { self.new.queue.items ≡ [] }
        ensures sized { length self.new.times.items ≡ length self.old.times.items }
        ensures same { length self.new.handed.items ≡ length self.old.times.items }
        ensures room { self.new.room ≡ self.old.room }
    {
        for next in 0..self.queue.len() {
            let at = self.queue[next] as usize;
            self.times[at] = 0;
            self.handed[at] = 0;
        }
        self.queue.clear();
    }

    /// Follows the callers of the routines in the queue, and of those that come to it. Tells whether they all stay within
    /// the limits.
    fn follow(
        &mut self,
        numbers: &[Numbers],
        callers: &Buckets,
        call: &Candidate,
    ) -> Result<bool, AllocError>
        requires ready { IsReady numbers.now self.old.times.items self.old.handed.items self.old.queue.items }
        requires lists { length callers.now ≡ length numbers.now }
        requires inside { (y : ℕ) → AllByRecursion (λ x. x < length numbers.now) (slice_index_or callers.now y []) }
        requires by { AreBrief call.now.by }
        ensures ready { IfOk result (λ _. IsReady numbers.now self.new.times.items self.new.handed.items self.new.queue.items) }
        ensures taken { IfOk result (λ b. b ≡ true
            → Follows numbers.now call.now.callee call.now.by callers.now self.old.times.items self.old.handed.items self.old.queue.items self.old.room
            self.new.times.items self.new.room) }
        ensures refused { IfOk result (λ b. b ≡ false
            → FollowsNot numbers.now call.now.callee call.now.by callers.now self.old.times.items self.old.handed.items self.old.queue.items self.old.room) }
    {
        let mut next = 0;
        while next < self.queue.len() {
            let at = self.queue[next] as usize;
            if !self.hand_on(numbers, call, at, callers.list(at))? {
                return Ok(false);
            }
            next += 1;
        }
        Ok(true)
    }

    /// Hands on what has come to a routine to its callers. Tells whether they stay within the limits.
    fn hand_on(
        &mut self,
        numbers: &[Numbers],
        call: &Candidate,
        at: usize,
        callers: &[u32],
    ) -> Result<bool, AllocError>
        requires at { at < length numbers.now }
        requires ready { IsReady numbers.now self.old.times.items self.old.handed.items self.old.queue.items }
        requires inside { AllByRecursion (λ x. x < length numbers.now) callers.now }
        requires by { AreBrief call.now.by }
        ensures ready { IfOk result (λ _. IsReady numbers.now self.new.times.items self.new.handed.items self.new.queue.items) }
        ensures handed { IfOk result (λ b. b ≡ true
            → Hands numbers.now call.now.callee call.now.by self.old.times.items self.old.handed.items self.old.queue.items self.old.room at callers.now
            self.new.times.items self.new.handed.items self.new.queue.items self.new.room) }
        ensures refused { IfOk result (λ b. b ≡ false
            → HandsNot numbers.now call.now.callee call.now.by self.old.times.items self.old.handed.items self.old.queue.items self.old.room at callers.now) }
        ensures less { IfOk result (λ b. b ≡ true → self.new.room + length self.new.queue.items ≤ self.old.room + length self.old.queue.items) }
        ensures longer { IfOk result (λ _. length self.old.queue.items ≤ length self.new.queue.items) }
    {
        let times = self.times[at];
        let more = times - self.handed[at];
        self.handed[at] = times;
        if more == 0 {
            return Ok(true);
        }
        self.raise_all(numbers, call, callers, more)
    }

    /// Lets the numbers come so many times more to routines. Tells whether they stay within the limits.
    fn raise_all(
        &mut self,
        numbers: &[Numbers],
        call: &Candidate,
        callers: &[u32],
        more: u64,
    ) -> Result<bool, AllocError>
        requires ready { IsReady numbers.now self.old.times.items self.old.handed.items self.old.queue.items }
        requires inside { AllByRecursion (λ x. x < length numbers.now) callers.now }
        requires some { 1 ≤ more }
        requires few { more ≤ max_size }
        requires by { AreBrief call.now.by }
        ensures ready { IfOk result (λ _. IsReady numbers.now self.new.times.items self.new.handed.items self.new.queue.items) }
        ensures handed { IfOk result (λ _. self.new.handed.items ≡ self.old.handed.items) }
        ensures raised { IfOk result (λ b. b ≡ true
            → Raises numbers.now call.now.callee call.now.by self.old.times.items self.old.handed.items self.old.queue.items self.old.room more callers.now
            self.new.times.items self.new.queue.items self.new.room) }
        ensures refused { IfOk result (λ b. b ≡ false
            → Refuses numbers.now call.now.callee call.now.by self.old.times.items self.old.handed.items self.old.queue.items self.old.room more callers.now) }
        ensures less { IfOk result (λ b. b ≡ true → self.new.room + length self.new.queue.items ≤ self.old.room + length self.old.queue.items) }
        ensures longer { IfOk result (λ _. length self.old.queue.items ≤ length self.new.queue.items) }
    {
        for caller in callers {
            if !self.raise(numbers, call, *caller, more) {
                return Ok(false);
            }
            self.queue.push(*caller)?;
        }
        Ok(true)
    }

    /// Lets the numbers come so many times more to a routine, where it isn't their callee and where the routine and the
    /// cost then stay within the limits; tells whether they do.
    fn raise(&mut self, numbers: &[Numbers], call: &Candidate, caller: u32, more: u64) -> bool
        requires inside { caller < length numbers.now }
        requires sized { length self.old.times.items ≡ length numbers.now }
        requires times { number_at self.old.times.items caller ≤ max_size }
        requires more { more ≤ max_size }
        requires by { AreBrief call.now.by }
        requires within { IsWithin (numbers_at numbers.now caller) }
        ensures refused { result ≡ false → room_after numbers.now call.now.by call.now.callee self.old.times.items self.old.room caller more ≡ None }
        ensures room { result ≡ true → room_after numbers.now call.now.by call.now.callee self.old.times.items self.old.room caller more ≡ Some self.new.room }
        ensures times { result ≡ true → self.new.times.items ≡ slice_set self.old.times.items caller (number_at self.old.times.items caller + more) }
        ensures kept { result ≡ false → self.new.times.items ≡ self.old.times.items }
        ensures handed { self.new.handed.items ≡ self.old.handed.items }
        ensures queue { self.new.queue.items ≡ self.old.queue.items }
    {
        match self.room_after(numbers, call, caller, more) {
            Some(room) => {
                self.times[caller as usize] += more;
                self.room = room;
                true
            }
            None => false,
        }
    }

    /// The room that the cost then has left, if it may be.
    fn room_after(
        &self,
        numbers: &[Numbers],
        call: &Candidate,
        caller: u32,
        more: u64,
    ) -> Option<u64>
        requires inside { caller < length numbers.now }
        requires sized { length self.now.times.items ≡ length numbers.now }
        requires times { number_at self.now.times.items caller ≤ max_size }
        requires more { more ≤ max_size }
        requires by { AreBrief call.now.by }
        requires within { IsWithin (numbers_at numbers.now caller) }
        ensures { result ≡ room_after numbers.now call.now.by call.now.callee self.now.times.items self.now.room caller more }
    {
        let numbers = numbers[caller as usize];
        let times = self.times[caller as usize];
        let now = grown(numbers, call.by, times + more);
        if caller == call.callee || !is_within(now) {
            return None;
        }
        let old = grown(numbers, call.by, times);
        self.room.checked_sub(rise(old.size, now.size))
    }
}
