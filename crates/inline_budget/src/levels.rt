//! The levels of routines, from those without accepted calls on.
ghost use Rattle.std.specs.Prelude.{◌≡◌, ◌<◌, ◌≤◌, ◌^◌, ℕ, suc, [], IfOk, OnOk, length, max, replicate, true};
ghost use Rattle.std.specs.List.{AllByRecursion};
ghost use Rattle.plan_laws.specs.Levels.{is_acyclic, level};
ghost use Rattle.inline_budget.specs.Calls.{calls_of, number_at};
ghost use Rattle.inline_budget.specs.Levelling.{bound_of, counted, filed, lowered, lowered_all, noted, noted_all, risen, risen_all, zeros};

use crate::buckets::Buckets;
use crate::choice::Choice;
use std::alloc::{AllocError, Global};

/// What is known of levels.
#[derive(Drop)]
struct Levels {
    /// The level of each routine, as far as its callees are known.
    levels: Vec<usize>,
    /// How many calls of each routine go to one whose level isn't known.
    left: Vec<usize>,
    /// The routines whose levels are known, in the order in which they were found.
    known: Vec<u32>,
}

/// The level of each routine up to the greatest PID.
pub(crate) fn levels_of(alloc: Global, calls: &[Choice]) -> Result<Vec<usize>, AllocError>
    requires { is_acyclic (calls_of calls.now) ≡ true }
    ensures size { IfOk result (λ v. length v.items ≡ bound_of (calls_of calls.now)) }
    ensures few { bound_of (calls_of calls.now) ≤ 2 ^ 32 }
    ensures levels { IfOk result (λ v. (x : ℕ) → x < bound_of (calls_of calls.now) → number_at v.items x ≡ level (calls_of calls.now) x) }
{
    let bound = bound_of(calls);
    let mut callers = Buckets::new(alloc, bound)?;
    let mut found = Levels::new(alloc, bound)?;
    put_calls(&mut callers, &mut found.left, calls)?;
    found.note_known()?;
    let mut next = 0;
    while next < found.known.len() {
        let at = found.known[next] as usize;
        let level = found.levels[at] + 1;
        found.pass_on(callers.list(at), level)?;
        next += 1;
    }
    Ok(found.levels)
}

impl Levels {
    /// Nothing is known, and no call is left.
    fn new(alloc: Global, bound: usize) -> Result<Levels, AllocError>
        ensures levels { IfOk result (λ l. l.levels.items ≡ replicate bound 0) }
        ensures left { IfOk result (λ l. l.left.items ≡ replicate bound 0) }
        ensures known { IfOk result (λ l. l.known.items ≡ []) }
    {
        let levels = vec![in alloc; 0; bound]?;
        let left = vec![in alloc; 0; bound]?;
        let known = Vec::with_capacity(alloc, bound)?;
        Ok(Levels {
            levels,
            left,
            known,
        })
    }

    /// Notes the routines that have no call left.
    fn note_known(&mut self) -> Result<(), AllocError>
        requires few { length self.old.left.items ≤ 2 ^ 32 }
        requires none { self.old.known.items ≡ [] }
        ensures known { OnOk result (self.new.known.items ≡ zeros 0 self.old.left.items) }
        ensures left { self.new.left.items ≡ self.old.left.items }
        ensures levels { self.new.levels.items ≡ self.old.levels.items }
    {
        for pid in 0..self.left.len() {
            if self.left[pid] == 0 {
                self.known.push(pid as u32)?;
            }
        }
        Ok(())
    }

    /// Passes on that a routine's level is known: to each call of it, with the level that its caller then has at least.
    fn pass_on(&mut self, callers: &[u32], level: usize) -> Result<(), AllocError>
        requires inside { AllByRecursion (λ x. x < length self.old.left.items) callers.now }
        requires size { length self.old.levels.items ≡ length self.old.left.items }
        ensures levels { OnOk result (self.new.levels.items ≡ risen_all self.old.levels.items level callers.now) }
        ensures left { OnOk result (self.new.left.items ≡ lowered_all self.old.left.items callers.now) }
        ensures known { OnOk result (self.new.known.items ≡ noted_all self.old.left.items self.old.known.items callers.now) }
    {
        for caller in callers {
            self.pass_to(*caller, level)?;
        }
        Ok(())
    }

    fn pass_to(&mut self, caller: u32, level: usize) -> Result<(), AllocError>
        requires left { caller < length self.old.left.items }
        requires levels { caller < length self.old.levels.items }
        ensures levels { OnOk result (self.new.levels.items ≡ risen self.old.levels.items level caller) }
        ensures left { OnOk result (self.new.left.items ≡ lowered self.old.left.items caller) }
        ensures known { OnOk result (self.new.known.items ≡ noted (lowered self.old.left.items caller) self.old.known.items caller) }
    {
        let at = caller as usize;
        self.levels[at] = self.levels[at].max(level);
        let left = self.left[at].saturating_sub(1);
        self.left[at] = left;
        if left == 0 {
            self.known.push(caller)?;
        }
        Ok(())
    }
}

/// One more than the greatest PID.
fn bound_of(calls: &[Choice]) -> usize
    ensures bound { result ≡ bound_of (calls_of calls.now) }
    ensures few { result ≤ 2 ^ 32 }
    ensures calls { length calls.now < 2 ^ 63 }
{
    let mut bound = 0;
    for call in calls {
        bound = bound.max(past(call));
    }
    bound
}

fn past(call: &Choice) -> usize
    ensures past { result ≡ max (suc call.now.caller) (suc call.now.callee) }
    ensures few { result ≤ 2 ^ 32 }
{
    (call.caller as usize + 1).max(call.callee as usize + 1)
}

/// Puts callers to their callees, and counts each routine's calls.
fn put_calls(
    callers: &mut Buckets,
    left: &mut Vec<usize>,
    calls: &[Choice],
) -> Result<(), AllocError>
    requires callers { AllByRecursion (λ c. c.caller < length left.old.items) calls.now }
    requires callees { AllByRecursion (λ c. c.callee < length callers.old) calls.now }
    requires none { (x : ℕ) → number_at left.old.items x ≡ 0 }
    ensures callers { OnOk result (callers.new ≡ filed callers.old (calls_of calls.now)) }
    ensures left { OnOk result (left.new.items ≡ counted left.old.items (calls_of calls.now)) }
{
    for call in calls {
        callers.put(call.callee as usize, call.caller)?;
        left[call.caller as usize] += 1;
    }
    Ok(())
}
