//! Which calls are accepted, by their callers and numbers.
ghost use Rattle.std.specs.Prelude.{◌≡◌, ◌<◌, ◌||◌, ◌&&◌, ℕ, [], IfOk, OnOk, false, length, nat_eq, replicate, slice_index_or, suc};
ghost use Rattle.inline_budget.specs.Calls.{calls_of};
ghost use Rattle.plan_laws.specs.Numbers.{is_chosen};
ghost use Rattle.plan_laws.specs.Orders.{greatest};
ghost use Rattle.plan_pools.specs.Accepting.{is_accepted};

use inline_budget::Choice;
use std::alloc::{AllocError, Global};
use std::marker::Model;

/// The accepted calls: for each caller a row that tells which of its calls are. Contracts see the rows.
#[derive(Drop)]
pub(crate) struct Accepted {
    rows: Vec<Vec<bool>>,
}

impl Model for Accepted {
    ghost use Rattle.std.specs.Prelude.{List, Bool, map};

    ghost Value = { List (List Bool) };

    ghost view = { λ a. map (λ row. row.items) a.rows.items };
}

impl Accepted {
    /// These calls. It takes time in proportion to them, and to the greatest PID and number of a call in them.
    pub(crate) fn new(alloc: Global, calls: &[Choice]) -> Result<Accepted, AllocError>
        ensures { IfOk result (λ a. (p k : ℕ) → is_accepted a p k ≡ is_chosen (calls_of calls.now) p k) }
    {
        let mut accepted = Accepted::none(alloc, bound_of(calls))?;
        for call in calls {
            accepted.accept(call)?;
        }
        Ok(accepted)
    }

    /// None, with rows for so many callers.
    fn none(alloc: Global, bound: usize) -> Result<Accepted, AllocError>
        ensures { IfOk result (λ a. a ≡ replicate bound []) }
    {
        let mut rows = Vec::with_capacity(alloc, bound)?;
        for _ in 0..bound {
            rows.push(Vec::new(alloc))?;
        }
        Ok(Accepted { rows })
    }

    /// One more.
    fn accept(&mut self, call: &Choice) -> Result<(), AllocError>
        requires { call.now.caller < length self.old }
        ensures rows { OnOk result (length self.new ≡ length self.old) }
        ensures calls { OnOk result ((p k : ℕ)
            → is_accepted self.new p k ≡ (is_accepted self.old p k || (nat_eq call.now.caller p && nat_eq call.now.site k))) }
    {
        set(&mut self.rows[call.caller as usize], call.site)?;
        Ok(())
    }

    /// Whether a call of a caller is accepted. Constant time.
    pub(crate) fn has(&self, caller: u32, number: usize) -> bool
        ensures { result ≡ is_accepted self.now caller number }
    {
        match self.rows.get(caller as usize) {
            Some(row) => is_set(row.as_slice(), number),
            None => false,
        }
    }
}

/// Sets an entry of a row, which grows as far.
fn set(row: &mut Vec<bool>, at: u32) -> Result<(), AllocError>
    ensures { OnOk result ((k : ℕ) → slice_index_or row.new.items k false ≡ (slice_index_or row.old.items k false || nat_eq at k)) }
{
    reach(row, at)?;
    row[at as usize] = true;
    Ok(())
}

/// Lets a row reach a number.
fn reach(row: &mut Vec<bool>, at: u32) -> Result<(), AllocError>
    ensures long { OnOk result (at < length row.new.items) }
    ensures same { OnOk result ((k : ℕ) → slice_index_or row.new.items k false ≡ slice_index_or row.old.items k false) }
{
    for _ in row.len()..at as usize + 1 {
        row.push(false)?;
    }
    Ok(())
}

/// Whether a number of a row is set.
fn is_set(row: &[bool], at: usize) -> bool
    ensures { result ≡ slice_index_or row.now at false }
{
    match row.get(at) {
        Some(set) => *set,
        None => false,
    }
}

/// One more than the greatest PID of a caller.
fn bound_of(calls: &[Choice]) -> usize
    ensures { result ≡ greatest (λ c. suc c.caller) (calls_of calls.now) }
{
    let mut bound = 0;
    for call in calls {
        bound = bound.max(call.caller as usize + 1);
    }
    bound
}
