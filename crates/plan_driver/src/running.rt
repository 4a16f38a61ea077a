//! All passes of a plan.
ghost use Rattle.std.specs.Prelude.{◌≡◌, ◌<◌, ◌≤◌, ◌^◌, IfErr, IfOk};
ghost use Rattle.clone_pools.specs.States.{HoldsState, IsReady, StateMade, StateStops};
ghost use Rattle.plan_driver.specs.Running.{FitsPasses, left_after, passes_states};
ghost use Rattle.plan_laws.specs.Plan.{State};
ghost use Rattle.plan_pools.specs.Planning.{IsCost};

use crate::limits::limit_of;
use crate::passing::{Passed, one_pass};
use clone_pools::Progress;
use il_core::Shapes;
use naim_core::Failure;
use outside::Disk;
use plan_pools::PlanLoader;
use std::alloc::Global;

/// So many passes one after another, which spend a budget in equal parts of a first cost.
pub(crate) fn run_passes<D: Disk + Drop>(
    alloc: Global,
    loader: &mut PlanLoader<D>,
    names: &Shapes,
    main: u32,
    cost: u64,
    budget: u32,
    passes: u32,
    progress: Progress,
) -> Result<Passed, Failure>
    requires ready { IsReady loader.old progress }
    requires cost { cost ≤ 2 ^ 44 }
    requires some { 0 < budget }
    requires budget { budget ≤ 1000 }
    requires few { passes ≤ 8 }
    ensures made { IfOk result (λ x. StateMade D.reach D.honest D.faults main (FitsPasses names.now main cost budget passes)
        (passes_states names.now cost budget passes) (left_after names.now cost budget passes) loader.old progress loader.new x.progress) }
    ensures cost { 0 < passes → (st : State) → FitsPasses names.now main cost budget passes st
        → HoldsState D.reach D.honest D.faults main loader.old progress st
        → IfOk result (λ x. IsCost x.cost (left_after names.now cost budget passes st).program) }
    ensures err { IfErr result (λ f. StateStops D.reach D.honest D.faults main (FitsPasses names.now main cost budget passes)
        (passes_states names.now cost budget passes) loader.old progress loader.new f) }
{
    let mut passed = Passed { progress, cost };
    for pass in 0..passes {
        let limit = limit_of(cost, budget, passes, pass + 1);
        let Passed { progress, cost: _ } = passed;
        passed = match one_pass(alloc, loader, names, main, limit, progress) {
            Ok(next) => next,
            Err(failure) => return Err(failure),
        };
    }
    Ok(passed)
}
