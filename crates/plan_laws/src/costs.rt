//! The laws of sizes and costs.

ghost use Rattle.plan_laws.specs.PlanLaws.{PassesWithin, BudgetKept, NumbersKnown, CostKnown, LimitsKept};

/// Each program of a pass costs at most that pass's limit.
pub fn passes_within()
    ensures { PassesWithin }
{}

/// The last program costs at most so many percent more than the first one as the budget says.
pub fn budget_kept()
    ensures { BudgetKept }
{}

/// A routine with all its accepted callees has exactly the size, registers, arrays and elements that the
/// choice computes, and the program exactly the cost.
pub fn numbers_known()
    ensures numbers { NumbersKnown }
    ensures cost { CostKnown }
{}

/// Every routine of every program of the plan is within the limits of the language.
pub fn limits_kept()
    ensures { LimitsKept }
{}
