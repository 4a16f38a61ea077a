//! Tables by PID that are filled from summaries.
ghost use Rattle.std.specs.Prelude.{◌≡◌, ◌+◌, ◌<◌, ◌≤◌, ◌^◌, ℕ, suc, length, map, replicate, IfNone, IfOk, IfSome};
ghost use Rattle.std.specs.List.{AllByRecursion};
ghost use Rattle.plan_laws.specs.Orders.{greatest};
ghost use Rattle.plan_laws.specs.Summary.{cost_of};
ghost use Rattle.call_graph.specs.Summaries.{summary_of};
ghost use Rattle.inline_budget.specs.Attempts.{AreFew, IsWithin, no_numbers, numbers_at};
ghost use Rattle.inline_budget.specs.Calls.{number_at};
ghost use Rattle.inline_budget.specs.Tables.{brought, extra_of, own_of, written};

use crate::numbers::Numbers;
use call_graph::Summary;
use std::alloc::{AllocError, Global};

/// One more than the greatest PID.
pub(crate) fn past_pids(routines: &[Summary]) -> usize
    ensures past { result ≡ greatest (λ r. suc r.pid) routines.now }
    ensures few { result ≤ 2 ^ 32 }
{
    let mut past = 0;
    for routine in routines {
        past = past.max(routine.pid as usize + 1);
    }
    past
}

/// Each routine's own numbers, by PID.
pub(crate) fn own_numbers(
    alloc: Global,
    routines: &[Summary],
    bound: usize,
) -> Result<Vec<Numbers>, AllocError>
    requires { AllByRecursion (λ r. r.pid < bound) routines.now }
    ensures { IfOk result (λ v. v.items ≡ written own_of (replicate bound no_numbers) (map summary_of routines.now)) }
{
    let none = Numbers {
        size: 0,
        regs: 0,
        arrays: 0,
        elements: 0,
    };
    let mut numbers = vec![in alloc; none; bound]?;
    for routine in routines {
        numbers[routine.pid as usize] = own(routine);
    }
    Ok(numbers)
}

fn own(routine: &Summary) -> Numbers
    ensures { result ≡ own_of (summary_of routine.now) }
{
    Numbers {
        size: u64::from(routine.size),
        regs: u64::from(routine.regs),
        arrays: u64::from(routine.arrays),
        elements: u64::from(routine.elements),
    }
}

/// What a call of each routine adds to its caller's size beside the callee's, by PID.
pub(crate) fn extras(
    alloc: Global,
    routines: &[Summary],
    bound: usize,
) -> Result<Vec<u64>, AllocError>
    requires { AllByRecursion (λ r. r.pid < bound) routines.now }
    ensures extras { IfOk result (λ v. v.items ≡ written extra_of (replicate bound 0) (map summary_of routines.now)) }
    ensures few { IfOk result (λ v. (x : ℕ) → number_at v.items x ≤ 2 ^ 34) }
{
    let mut extras = vec![in alloc; 0; bound]?;
    for routine in routines {
        extras[routine.pid as usize] = extra(routine);
    }
    Ok(extras)
}

fn extra(routine: &Summary) -> u64
    ensures extra { result ≡ extra_of (summary_of routine.now) }
    ensures few { result ≤ 2 ^ 34 }
{
    extra_by(routine.params, routine.returns)
}

fn extra_by(params: u32, returns: u32) -> u64
    ensures extra { result ≡ 2 + params + returns }
    ensures few { result ≤ 2 ^ 34 }
{
    2 + u64::from(params) + u64::from(returns)
}

/// What a call of a routine brings to its caller.
pub(crate) fn brought(numbers: &[Numbers], extras: &[u64], callee: u32) -> Numbers
    requires numbers { callee < length numbers.now }
    requires extras { callee < length extras.now }
    requires within { IsWithin (numbers_at numbers.now callee) }
    requires few { number_at extras.now callee ≤ 2 ^ 34 }
    ensures brought { result ≡ brought numbers.now extras.now callee }
    ensures few { AreFew result }
{
    let numbers = numbers[callee as usize];
    Numbers {
        size: numbers.size + extras[callee as usize],
        ..numbers
    }
}

#[tactic(auto, using(crate::proofs::Seen::cost_next))]
/// How much the cost may rise above that of routines, if they cost no more than the limit.
pub(crate) fn room_of(routines: &[Summary], limit: u64) -> Option<u64>
    ensures some { IfSome result (λ room. room + cost_of (map summary_of routines.now) ≡ limit) }
    ensures none { IfNone result (limit < cost_of (map summary_of routines.now)) }
{
    let mut room = limit;
    for routine in routines {
        let square = square(routine.size);
        if room < square {
            return None;
        }
        room -= square;
    }
    Some(room)
}

fn square(size: u32) -> u64
    ensures { result ≡ size ^ 2 }
{
    u64::from(size) * u64::from(size)
}
