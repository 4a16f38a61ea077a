//! The plan of budget 0, made in pools.
ghost use Rattle.std.specs.Prelude.{◌<◌, ◌∷◌, [], ℕ, IfErr, IfOk};
ghost use Rattle.il_core.specs.declared.program.IlProgram.{IlProgram as ProgramData};
ghost use Rattle.one_owner.specs.Alone.{IsResting};
ghost use Rattle.plan_laws.specs.Plan.{final, plan};
ghost use Rattle.plan_pools.specs.Budgetless.{pass_programs, passed, simplified};
ghost use Rattle.plan_pools.specs.Contents.{HavePools};
ghost use Rattle.plan_pools.specs.Planning.{Holds, IsCost, IsMade, StopsMaking};

use crate::laws::plan_at_zero;
use crate::noting::note;
use crate::planned::Planned;
use crate::pools::PlanLoader;
use crate::pruning::prune_noted;
use crate::simplifying::simplify_program;
use il_core::Shapes;
use il_laws::simplify_keeps;
use naim_core::Failure;
use outside::Disk;
use std::alloc::Global;

/// Makes the plan of budget 0 in the pools: in each pass all routines are simplified, simplified again, and the dead ones go.
/// The trail gains a note of each program of the plan, in order.
///
/// Over a trusted disk, where the pools hold a valid program with these shapes and this main, they hold the plan's last
/// program from then on, with the shapes and the cost that are answered. The error is the failure that the loader keeps from
/// then on: `Repository` where the disk's count rose, `Damaged`, `Unreadable` and `Unfit` never over a trusted disk that
/// holds such a program, `TooSmall` where the compact form of a routine of the plan is longer than the limit, or `Memory`.
/// For each pass it takes time in proportion to the routines, three times, what bringing them back and making room takes,
/// a search by halves for each call, and memory for one routine beside the pools, and for the PIDs and calls.
pub fn optimise_at_zero<D: Disk + Drop>(
    alloc: Global,
    loader: &mut PlanLoader<D>,
    shapes: Shapes,
    main: u32,
    passes: u32,
) -> Result<Planned, Failure>
    requires rests { IsResting loader.old }
    requires pools { HavePools loader.old shapes }
    ensures made { IfOk result (λ x. IsMade D.reach D.honest D.faults (λ p. plan p 0 passes) (λ p. final p 0 passes) shapes main loader.old
        loader.new x.shapes) }
    ensures cost { 0 < passes → (p : ProgramData) → Holds D.reach D.honest D.faults loader.old shapes main p
        → IfOk result (λ x. IsCost x.cost (final p 0 passes)) }
    ensures err { IfErr result (λ f. StopsMaking D.reach D.honest D.faults (λ p. plan p 0 passes) shapes main loader.old loader.new f) }
{
    plan_at_zero();
    note(loader);
    let mut planned = Planned { shapes, cost: 0 };
    'passes: for _ in 0..passes {
        let Planned { shapes, cost: _ } = planned;
        planned = match one_pass(alloc, loader, shapes, main) {
            Ok(next) => next,
            Err(failure) => return Err(failure),
        };
    }
    Ok(planned)
}

/// One pass of budget 0.
fn one_pass<D: Disk + Drop>(
    alloc: Global,
    loader: &mut PlanLoader<D>,
    shapes: Shapes,
    main: u32,
) -> Result<Planned, Failure>
    requires rests { IsResting loader.old }
    requires pools { HavePools loader.old shapes }
    ensures made { IfOk result (λ x. IsMade D.reach D.honest D.faults pass_programs passed shapes main loader.old loader.new x.shapes) }
    ensures cost { (p : ProgramData) → Holds D.reach D.honest D.faults loader.old shapes main p → IfOk result (λ x. IsCost x.cost (passed p)) }
    ensures err { IfErr result (λ f. StopsMaking D.reach D.honest D.faults pass_programs shapes main loader.old loader.new f) }
{
    match begin_pass(alloc, loader, &shapes) {
        Ok(()) => {}
        Err(failure) => return Err(failure),
    }
    match simplify_noted(alloc, loader, &shapes) {
        Ok(()) => prune_noted(alloc, loader, shapes, main),
        Err(failure) => Err(failure),
    }
}

/// The first half of a pass: without a budget no clone is made, no call goes elsewhere, and nothing is inlined once all
/// routines are simplified.
fn begin_pass<D: Disk + Drop>(
    alloc: Global,
    loader: &mut PlanLoader<D>,
    shapes: &Shapes,
) -> Result<(), Failure>
    requires rests { IsResting loader.old }
    requires pools { HavePools loader.old shapes.now }
    ensures made { (main : ℕ) → IfOk result (λ _. IsMade D.reach D.honest D.faults (λ p. p ∷ p ∷ simplified p ∷ simplified p ∷ []) simplified shapes.now main
        loader.old loader.new shapes.now) }
    ensures err { (main : ℕ) → IfErr result (λ f. StopsMaking D.reach D.honest D.faults (λ p. p ∷ p ∷ simplified p ∷ simplified p ∷ []) shapes.now main
        loader.old loader.new f) }
{
    note(loader);
    note(loader);
    match simplify_noted(alloc, loader, shapes) {
        Ok(()) => {
            note(loader);
            Ok(())
        }
        Err(failure) => Err(failure),
    }
}

/// Simplifies all routines of a program, and notes it.
pub fn simplify_noted<D: Disk + Drop>(
    alloc: Global,
    loader: &mut PlanLoader<D>,
    shapes: &Shapes,
) -> Result<(), Failure>
    requires rests { IsResting loader.old }
    requires pools { HavePools loader.old shapes.now }
    ensures made { (main : ℕ) → IfOk result (λ _. IsMade D.reach D.honest D.faults (λ p. simplified p ∷ []) simplified shapes.now main loader.old
        loader.new shapes.now) }
    ensures err { (main : ℕ) → IfErr result (λ f. StopsMaking D.reach D.honest D.faults (λ p. simplified p ∷ []) shapes.now main loader.old loader.new f) }
{
    simplify_keeps();
    match simplify_program(alloc, loader, shapes) {
        Ok(()) => {
            note(loader);
            Ok(())
        }
        Err(failure) => Err(failure),
    }
}
