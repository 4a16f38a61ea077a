//! One pass.
ghost use Rattle.std.specs.Prelude.{◌≡◌, ◌∷◌, [], IfErr, IfOk};
ghost use Rattle.clone_pools.specs.States.{HoldsState, IsReady, StateMade, StateStops};
ghost use Rattle.naim_core.specs.declared.event.Failure.TheVariants as failure;
ghost use Rattle.naim_loader.specs.Calls.{Fails};
ghost use Rattle.one_owner.specs.Alone.{IsResting};
ghost use Rattle.plan_driver.specs.Passing.{AnyState, KeepsLive, finish_states, finished, pass_states, passed, rewritten, rewritten_programs};
ghost use Rattle.plan_laws.specs.Plan.{State, prune};
ghost use Rattle.plan_pools.specs.Cloning.{MayClone};
ghost use Rattle.plan_pools.specs.Contents.{HavePools};
ghost use Rattle.plan_pools.specs.Planning.{IsCost, IsMade, StopsMaking};

use clone_pools::Progress;
use clone_steps::clone_program;
use il_core::Shapes;
use inline_steps::inline_noted;
use naim_core::Failure;
use outside::Disk;
use plan_pools::{PlanLoader, Planned, pids_of, prune_noted, simplify_noted, stop};
use std::alloc::Global;

/// What a pass leaves: the plan on its way, and what its program costs, where 64 bits can tell it.
pub(crate) struct Passed {
    pub(crate) progress: Progress,
    pub(crate) cost: u64,
}

/// One pass under a limit of the cost: clones are made and calls sent to them, then `finish_pass`.
pub(crate) fn one_pass<D: Disk + Drop>(
    alloc: Global,
    loader: &mut PlanLoader<D>,
    names: &Shapes,
    main: u32,
    limit: u64,
    progress: Progress,
) -> Result<Passed, Failure>
    requires ready { IsReady loader.old progress }
    ensures made { IfOk result (λ x. StateMade D.reach D.honest D.faults main (MayClone names.now main limit) (pass_states names.now main limit)
        (passed names.now main limit) loader.old progress loader.new x.progress) }
    ensures cost { (st : State) → MayClone names.now main limit st → HoldsState D.reach D.honest D.faults main loader.old progress st
        → IfOk result (λ x. IsCost x.cost (passed names.now main limit st).program) }
    ensures err { IfErr result (λ f. StateStops D.reach D.honest D.faults main (MayClone names.now main limit) (pass_states names.now main limit)
        loader.old progress loader.new f) }
{
    match clone_program(alloc, loader, names, main, limit, progress) {
        Ok(cloned) => finish_pass(alloc, loader, main, limit, cloned),
        Err(failure) => Err(failure),
    }
}

/// What is done once clones were made: all routines are simplified, calls are inlined, all are simplified, and the dead ones go.
fn finish_pass<D: Disk + Drop>(
    alloc: Global,
    loader: &mut PlanLoader<D>,
    main: u32,
    limit: u64,
    progress: Progress,
) -> Result<Passed, Failure>
    requires ready { IsReady loader.old progress }
    ensures made { IfOk result (λ x. StateMade D.reach D.honest D.faults main AnyState (finish_states main limit) (finished main limit)
        loader.old progress loader.new x.progress) }
    ensures cost { (st : State) → HoldsState D.reach D.honest D.faults main loader.old progress st
        → IfOk result (λ x. IsCost x.cost (finished main limit st).program) }
    ensures err { IfErr result (λ f. StateStops D.reach D.honest D.faults main AnyState (finish_states main limit) loader.old progress loader.new f) }
{
    match rewrite_noted(alloc, loader, &progress.shapes, main, limit) {
        Ok(()) => prune_state(alloc, loader, main, progress),
        Err(failure) => Err(failure),
    }
}

/// All routines are simplified, calls are inlined, and all are simplified again.
fn rewrite_noted<D: Disk + Drop>(
    alloc: Global,
    loader: &mut PlanLoader<D>,
    shapes: &Shapes,
    main: u32,
    limit: u64,
) -> Result<(), Failure>
    requires rests { IsResting loader.old }
    requires pools { HavePools loader.old shapes.now }
    ensures made { IfOk result (λ _. IsMade D.reach D.honest D.faults (rewritten_programs main limit) (rewritten main limit) shapes.now main
        loader.old loader.new shapes.now) }
    ensures err { IfErr result (λ f. StopsMaking D.reach D.honest D.faults (rewritten_programs main limit) shapes.now main loader.old loader.new f) }
{
    match simplify_noted(alloc, loader, shapes) {
        Ok(()) => {}
        Err(failure) => return Err(failure),
    }
    match inline_noted(alloc, loader, shapes, main, limit) {
        Ok(()) => simplify_noted(alloc, loader, shapes),
        Err(failure) => Err(failure),
    }
}

/// The dead routines go, and with them the rows of dead clones.
fn prune_state<D: Disk + Drop>(
    alloc: Global,
    loader: &mut PlanLoader<D>,
    main: u32,
    progress: Progress,
) -> Result<Passed, Failure>
    requires ready { IsReady loader.old progress }
    ensures made { IfOk result (λ x. StateMade D.reach D.honest D.faults main AnyState (λ st. prune st ∷ []) prune loader.old progress loader.new x.progress) }
    ensures cost { (st : State) → HoldsState D.reach D.honest D.faults main loader.old progress st → IfOk result (λ x. IsCost x.cost (prune st).program) }
    ensures err { IfErr result (λ f. StateStops D.reach D.honest D.faults main AnyState (λ st. prune st ∷ []) loader.old progress loader.new f) }
{
    let Progress {
        shapes,
        next,
        made,
        table,
    } = progress;
    match prune_noted(alloc, loader, shapes, main) {
        Ok(planned) => {
            let Planned { shapes, cost } = planned;
            keep_live(
                alloc,
                loader,
                Progress {
                    shapes,
                    next,
                    made,
                    table,
                },
                cost,
            )
        }
        Err(failure) => Err(failure),
    }
}

/// The rows of clones that aren't among the routines leave the table.
fn keep_live<D: Disk + Drop>(
    alloc: Global,
    loader: &mut PlanLoader<D>,
    progress: Progress,
    cost: u64,
) -> Result<Passed, Failure>
    requires rests { IsResting loader.old }
    ensures same { IfOk result (λ _. loader.new ≡ loader.old) }
    ensures kept { IfOk result (λ x. KeepsLive progress x.progress) }
    ensures cost { IfOk result (λ x. x.cost ≡ cost) }
    ensures err { IfErr result (λ f. Fails loader.old 0 f loader.new) }
    ensures memory { IfErr result (λ f. f ≡ failure.Memory) }
{
    let Progress {
        shapes,
        next,
        made,
        table,
    } = progress;
    match pids_of(alloc, &shapes) {
        Ok(live) => {
            let mut table = table;
            table.keep(live.as_slice());
            Ok(Passed {
                progress: Progress {
                    shapes,
                    next,
                    made,
                    table,
                },
                cost,
            })
        }
        Err(_) => Err(stop(loader, Failure::Memory)),
    }
}
