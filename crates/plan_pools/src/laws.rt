//! Laws of the plan where nothing may be spent, and of calls that go elsewhere.
ghost use Rattle.plan_pools.specs.BudgetLaws.{FinalIsAsGood, PassAtZero, PlanAtZero, TableAtZero};
ghost use Rattle.plan_pools.specs.MoveLaws.{MovesRetarget};

/// A pass of budget 0 makes no clone, sends no call elsewhere and splices nothing in: it simplifies all routines twice, and
/// the dead ones go.
pub fn pass_at_zero()
    ensures pass { PassAtZero }
    ensures table { TableAtZero }
{}

/// The plan of budget 0 is the program and the six programs of each pass in turn, and its last program is as good as its first
/// one: it is valid, has the same runs, and costs no more.
pub fn plan_at_zero()
    ensures plan { PlanAtZero }
    ensures good { FinalIsAsGood }
{}

/// In each pass of the plan, once the clones of the accepted groups are added, the moves of these groups give the plan's
/// retargeted program.
pub fn moves_retarget()
    ensures { MovesRetarget }
{}
