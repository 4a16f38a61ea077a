//! The laws of passes that clone, and of what the plan is worth.
ghost use Rattle.pass_laws.specs.PassLaws.{PassesClone};
ghost use Rattle.pass_laws.specs.Worth.{PlanIsWorth};

/// In each pass of the plan, with a budget of one percent at least, the clones of the accepted groups may be added one after the
/// other and calls sent to them, as plan_pools asks it (`MayClone`); the pass's programs are those that this gives and the plan's
/// own of each next one; and `main` keeps its PID.
pub fn passes_clone()
    ensures { PassesClone }
{}

/// The plan's last program, within the budget that names without `$` leave to spend, is valid, has the first program's main and
/// runs, and costs at most so many percent more.
pub fn plan_is_worth()
    ensures { PlanIsWorth }
{}
