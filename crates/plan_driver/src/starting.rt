//! The beginning of a plan.
ghost use Rattle.std.specs.Prelude.{◌≡◌, ◌∷◌, [], ◌≤◌, ◌^◌, ℕ, IfErr, IfOk};
ghost use Rattle.std.specs.List.{AllByRecursion};
ghost use Rattle.il_core.specs.Limits.{IsWithinLimits};
ghost use Rattle.il_core.specs.Size.{cost};
ghost use Rattle.il_core.specs.declared.program.IlProgram.{IlProgram as ProgramData};
ghost use Rattle.naim_loader.specs.Calls.{Fails};
ghost use Rattle.one_owner.specs.Alone.{IsResting};
ghost use Rattle.plan_driver.specs.Optimising.{first_free};
ghost use Rattle.plan_driver.specs.Starting.{BeginCause, Begins, Starts};
ghost use Rattle.plan_pools.specs.Contents.{HavePools};
ghost use Rattle.plan_pools.specs.Planning.{Holds, IsMade, StopsMaking};

use crate::limits::cost_within;
use crate::names::{copied, first_free};
use clone_groups::CloneTable;
use clone_names::MadeClones;
use clone_pools::Progress;
use il_core::Shapes;
use inline_steps::summarise_linked;
use naim_core::Failure;
use outside::Disk;
use plan_pools::{PlanLoader, note, stands, stop};
use std::alloc::{AllocError, Global};

/// A plan that begins: the first program's shapes, what it costs, and the plan on its way.
pub(crate) struct Start {
    pub(crate) names: Shapes,
    pub(crate) cost: u64,
    pub(crate) progress: Progress,
}

/// Notes the first program, measures it, and begins its plan.
pub(crate) fn start_plan<D: Disk + Drop>(
    alloc: Global,
    loader: &mut PlanLoader<D>,
    shapes: Shapes,
) -> Result<Start, Failure>
    requires rests { IsResting loader.old }
    requires pools { HavePools loader.old shapes }
    ensures made { (main : ℕ) → IfOk result (λ s. Starts D.reach D.honest D.faults shapes main loader.old loader.new s.names s.cost s.progress) }
    ensures err { (main : ℕ) → IfErr result (λ f. StopsMaking D.reach D.honest D.faults (λ p. p ∷ []) shapes main loader.old loader.new f) }
{
    note(loader);
    match first_cost(alloc, loader, &shapes) {
        Ok(cost) => begin(alloc, loader, shapes, cost),
        Err(failure) => Err(failure),
    }
}

/// What a program in pools costs.
fn first_cost<D: Disk + Drop>(
    alloc: Global,
    loader: &mut PlanLoader<D>,
    shapes: &Shapes,
) -> Result<u64, Failure>
    requires rests { IsResting loader.old }
    requires pools { HavePools loader.old shapes.now }
    ensures made { (main : ℕ) → IfOk result (λ _. IsMade D.reach D.honest D.faults (λ p. []) (λ p. p) shapes.now main loader.old loader.new shapes.now) }
    ensures same { (main : ℕ) (p : ProgramData) → Holds D.reach D.honest D.faults loader.old shapes.now main p → IfOk result (λ n. n ≡ cost p.routines) }
    ensures most { IfOk result (λ n. n ≤ 2 ^ 44) }
    ensures within { (main : ℕ) (p : ProgramData) → Holds D.reach D.honest D.faults loader.old shapes.now main p → AllByRecursion IsWithinLimits p.routines }
    ensures err { (main : ℕ) → IfErr result (λ f. StopsMaking D.reach D.honest D.faults (λ p. []) shapes.now main loader.old loader.new f) }
{
    stands(loader);
    match summarise_linked(alloc, loader, shapes) {
        Ok(graph) => Ok(cost_within(graph.summaries())),
        Err(failure) => Err(failure),
    }
}

/// Begins the plan of a program of that cost.
fn begin<D: Disk + Drop>(
    alloc: Global,
    loader: &mut PlanLoader<D>,
    shapes: Shapes,
    cost: u64,
) -> Result<Start, Failure>
    requires rests { IsResting loader.old }
    ensures same { IfOk result (λ _. loader.new ≡ loader.old) }
    ensures begins { IfOk result (λ s. Begins shapes cost s.names s.cost s.progress) }
    ensures err { IfErr result (λ f. Fails loader.old 0 f loader.new) }
    ensures cause { IfErr result (λ f. BeginCause shapes f) }
{
    match first_free(shapes.rows.as_slice()) {
        Some(first) => match begun(alloc, shapes, cost, first) {
            Ok(start) => Ok(start),
            Err(_) => Err(stop(loader, Failure::Memory)),
        },
        None => Err(stop(loader, Failure::Unfit { pid: 0 })),
    }
}

/// The same, where the first clone gets that PID.
fn begun(alloc: Global, shapes: Shapes, cost: u64, first: u32) -> Result<Start, AllocError>
    requires { first ≡ first_free shapes }
    ensures { IfOk result (λ s. Begins shapes cost s.names s.cost s.progress) }
{
    let names = copied(alloc, &shapes)?;
    let made = MadeClones::new(alloc, first)?;
    let table = CloneTable::new(alloc);
    let progress = Progress {
        shapes,
        next: first,
        made,
        table,
    };
    Ok(Start {
        names,
        cost,
        progress,
    })
}
