//! The plan of a program in pools.
ghost use Rattle.std.specs.Prelude.{◌≡◌, ◌<◌, ◌≤◌, IfErr, IfOk};
ghost use Rattle.std.specs.List.{AllByRecursion};
ghost use Rattle.il_core.specs.declared.program.IlProgram.{IlProgram as ProgramData};
ghost use Rattle.one_owner.specs.Alone.{IsResting};
ghost use Rattle.pass_laws.specs.Worth.{spendable};
ghost use Rattle.plan_driver.specs.Optimising.{Optimises, StopsOptimising};
ghost use Rattle.plan_laws.specs.Plan.{final, plan};
ghost use Rattle.plan_laws.specs.PlanLaws.{HasNoDollar};
ghost use Rattle.plan_pools.specs.Contents.{HavePools};
ghost use Rattle.plan_pools.specs.Planning.{Holds, IsCost};

use crate::names::spends;
use crate::passing::Passed;
use crate::running::run_passes;
use crate::starting::{Start, start_plan};
use il_core::Shapes;
use naim_core::Failure;
use outside::Disk;
use pass_laws::passes_clone;
use plan_pools::{PlanLoader, Planned, optimise_at_zero};
use std::alloc::Global;

/// Makes the plan of a program in pools, within a budget in percent of its cost: in each pass clones are made and calls sent to
/// them, all routines are simplified, calls are inlined, all are simplified again, and the dead ones go. Where a name has a `$`
/// nothing is spent, since a clone's name might be taken. The trail gains a note of each program of the plan, in order.
///
/// Over a trusted disk, where the pools hold a valid program with these shapes and this main, they hold the plan's last
/// program from then on, with the shapes and the cost that are answered. The error is the failure that the loader keeps from
/// then on: `Repository` where the disk's count rose, `Damaged`, `Unreadable` and `Unfit` never over a trusted disk that
/// holds such a program, `TooSmall` where the compact form of a routine of the plan is longer than the limit, or `Memory`.
/// For each pass it takes what its steps take: time in proportion to the routines, and what bringing them back and making room
/// takes, a few times; what the choices of groups and of inlined calls take; and memory for what the plan knows of each
/// routine, for tables up to the greatest PID, and for one routine beside the pools.
pub fn optimise<D: Disk + Drop>(
    alloc: Global,
    loader: &mut PlanLoader<D>,
    shapes: Shapes,
    main: u32,
    budget: u32,
    passes: u32,
) -> Result<Planned, Failure>
    requires rests { IsResting loader.old }
    requires pools { HavePools loader.old shapes }
    requires budget { budget ≤ 1000 }
    requires passes { passes ≤ 8 }
    ensures made { IfOk result (λ x. Optimises D.reach D.honest D.faults (λ p. plan p (spendable shapes budget) passes)
        (λ p. final p (spendable shapes budget) passes) shapes main loader.old loader.new x.shapes) }
    ensures cost { 0 < passes → (p : ProgramData) → Holds D.reach D.honest D.faults loader.old shapes main p
        → IfOk result (λ x. IsCost x.cost (final p (spendable shapes budget) passes)) }
    ensures err { IfErr result (λ f. StopsOptimising D.reach D.honest D.faults (λ p. plan p (spendable shapes budget) passes) shapes main
        loader.old loader.new f) }
{
    if spends(&shapes, budget) {
        optimise_within(alloc, loader, shapes, main, budget, passes)
    } else {
        optimise_at_zero(alloc, loader, shapes, main, passes)
    }
}

/// The same where the whole budget is spent.
fn optimise_within<D: Disk + Drop>(
    alloc: Global,
    loader: &mut PlanLoader<D>,
    shapes: Shapes,
    main: u32,
    budget: u32,
    passes: u32,
) -> Result<Planned, Failure>
    requires rests { IsResting loader.old }
    requires pools { HavePools loader.old shapes }
    requires names { AllByRecursion HasNoDollar shapes }
    requires some { 0 < budget }
    requires budget { budget ≤ 1000 }
    requires passes { passes ≤ 8 }
    ensures made { IfOk result (λ x. Optimises D.reach D.honest D.faults (λ p. plan p budget passes) (λ p. final p budget passes) shapes main
        loader.old loader.new x.shapes) }
    ensures cost { 0 < passes → (p : ProgramData) → Holds D.reach D.honest D.faults loader.old shapes main p
        → IfOk result (λ x. IsCost x.cost (final p budget passes)) }
    ensures err { IfErr result (λ f. StopsOptimising D.reach D.honest D.faults (λ p. plan p budget passes) shapes main loader.old loader.new f) }
{
    passes_clone();
    match start_plan(alloc, loader, shapes) {
        Ok(begun) => {
            let Start {
                names,
                cost,
                progress,
            } = begun;
            match run_passes(alloc, loader, &names, main, cost, budget, passes, progress) {
                Ok(passed) => Ok(planned(passed)),
                Err(failure) => Err(failure),
            }
        }
        Err(failure) => Err(failure),
    }
}

/// What passes leave, as it is answered.
fn planned(passed: Passed) -> Planned
    ensures shapes { result.shapes ≡ passed.progress.shapes }
    ensures cost { result.cost ≡ passed.cost }
{
    let Passed { progress, cost } = passed;
    Planned {
        shapes: progress.shapes,
        cost,
    }
}
