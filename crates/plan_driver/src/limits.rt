//! What a program costs, and how much it may cost in each pass.
ghost use Rattle.std.specs.Prelude.{◌≡◌, ◌<◌, ◌≤◌, ◌^◌, map};
ghost use Rattle.call_graph.specs.Summaries.{summary_of};
ghost use Rattle.plan_laws.specs.Plan.{limit_of};
ghost use Rattle.plan_laws.specs.Summary.{cost_of};

use call_graph::Summary;

/// No program within the limits of the language costs more: 4096 routines of a size of 65536.
const MOST_COST: u64 = 17_592_186_044_416;

/// The sum of the squares of the sizes, or the greatest cost there is, if that is less.
pub(crate) fn cost_within(routines: &[Summary]) -> u64
    ensures same { cost_of (map summary_of routines.now) ≤ 2 ^ 44 → result ≡ cost_of (map summary_of routines.now) }
    ensures most { result ≤ 2 ^ 44 }
{
    cost_in_word(routines).min(MOST_COST)
}

/// The sum of the squares of the sizes, where 64 bits can tell it.
fn cost_in_word(routines: &[Summary]) -> u64
    ensures { cost_of (map summary_of routines.now) < 2 ^ 64 → result ≡ cost_of (map summary_of routines.now) }
{
    let mut cost: u64 = 0;
    for routine in routines {
        cost = cost.saturating_add(square(routine.size));
    }
    cost
}

/// The square of a size.
fn square(size: u32) -> u64
    ensures { result ≡ size ^ 2 }
{
    u64::from(size) * u64::from(size)
}

/// What the program may cost in pass k of so many, which spend the budget in equal parts.
pub(crate) fn limit_of(cost: u64, budget: u32, passes: u32, k: u32) -> u64
    requires cost { cost ≤ 2 ^ 44 }
    requires budget { budget ≤ 1000 }
    requires passes { 0 < passes }
    requires few { passes ≤ 8 }
    requires k { k ≤ 8 }
    ensures { result ≡ limit_of cost budget passes k }
{
    cost + cost * u64::from(budget) * u64::from(k) / (100 * u64::from(passes))
}
