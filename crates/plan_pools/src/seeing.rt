//! What the plan knows of routines that lie in pools.
ghost use Rattle.std.specs.Prelude.{◌≡◌, map, nat_eq, Err, IfErr, IfOk, IsSome, Some};
ghost use Rattle.std.specs.Arc.{arc_value};
ghost use Rattle.std.specs.List.{AllByRecursion};
ghost use Rattle.call_graph.specs.Summaries.{put, summary_of};
ghost use Rattle.const_prop.specs.Tables.{IsValidRoutine};
ghost use Rattle.il_core.specs.Routine.{RoutineParts};
ghost use Rattle.il_core.specs.Valid.{IsProgram, IsValid};
ghost use Rattle.il_core.specs.declared.program.IlProgram.{IlProgram as ProgramData};
ghost use Rattle.il_laws.specs.Reach.{is_in};
ghost use Rattle.naim_loader.specs.Paged.{content_at, kept_at, IsTrusted};
ghost use Rattle.one_owner.specs.Alone.{IsReading, IsResting};
ghost use Rattle.one_owner.specs.Answers.{GivesBack};
ghost use Rattle.one_owner.specs.Going.{Stops};
ghost use Rattle.plan_pools.specs.Contents.{HavePools, IsContents, routine_in, routine_pids};
ghost use Rattle.plan_pools.specs.Printing.{Rests};
ghost use Rattle.plan_pools.specs.Seeing.{SeenCause, StopsSeeing};
ghost use Rattle.plan_laws.specs.Summary.{summaries, summary};

use crate::pools::PlanLoader;
use crate::simplifying::{Unmade, pids_of, stop};
use call_graph::{CallGraph, Summary, summarise};
use compact_form::RoutineBody;
use const_prop::site_constants;
use il_check::validate;
use il_core::Shapes;
use naim_core::Failure;
use naim_loader::ReadPin;
use one_owner::{give_back, take};
use outside::Disk;
use pool_laws::Poolable;
use std::alloc::{AllocError, Global};

/// What the plan knows of each routine of a program in pools, by rising PID. Over a trusted disk it is what it knows of the
/// program that the pools hold. The error is the failure that the loader keeps from then on: `Unfit` where a routine isn't
/// valid with the shapes, or one of the disk or of memory. It takes time in proportion to the routines, what bringing them back
/// and making room takes, and memory for the summaries and one routine.
pub fn summarise_program<D: Disk + Drop>(
    alloc: Global,
    loader: &mut PlanLoader<D>,
    shapes: &Shapes,
) -> Result<CallGraph, Failure>
    requires rests { IsResting loader.old }
    requires pools { HavePools loader.old shapes.now }
    ensures ok { IfOk result (λ _. Rests D.reach D.honest D.faults loader.old loader.new) }
    ensures graph { (p : ProgramData) → IsTrusted D.reach D.honest loader.old → IsProgram p → p.shapes ≡ shapes.now → IsContents loader.old p
        → IfOk result (λ g. g ≡ summaries p) }
    ensures err { IfErr result (λ f. StopsSeeing D.reach D.honest D.faults shapes.now (is_in (routine_pids shapes.now)) loader.old loader.new f) }
{
    match pids_of(alloc, shapes) {
        Ok(pids) => summarise_all(alloc, loader, shapes, pids.as_slice()),
        Err(_) => Err(stop(loader, 0, Unmade::Memory)),
    }
}

/// What the plan knows of the routines of these PIDs, which rise.
fn summarise_all<D: Disk + Drop>(
    alloc: Global,
    loader: &mut PlanLoader<D>,
    shapes: &Shapes,
    pids: &[u32],
) -> Result<CallGraph, Failure>
    requires rests { IsResting loader.old }
    requires present { AllByRecursion (λ p. IsSome (kept_at loader.old p)) pids.now }
    ensures ok { IfOk result (λ _. Rests D.reach D.honest D.faults loader.old loader.new) }
    ensures graph { (p : ProgramData) → IsTrusted D.reach D.honest loader.old → IsProgram p → IsContents loader.old p → pids.now ≡ map (λ r. r.pid) p.routines
        → IfOk result (λ g. g ≡ summaries p) }
    ensures err { IfErr result (λ f. StopsSeeing D.reach D.honest D.faults shapes.now (is_in pids.now) loader.old loader.new f) }
{
    let mut graph = CallGraph::new(alloc);
    for pid in pids {
        match add_summary(alloc, loader, shapes, *pid, &mut graph) {
            Ok(()) => {}
            Err(failure) => return Err(failure),
        }
    }
    Ok(graph)
}

/// Adds what the plan knows of a routine.
fn add_summary<D: Disk + Drop>(
    alloc: Global,
    loader: &mut PlanLoader<D>,
    shapes: &Shapes,
    pid: u32,
    graph: &mut CallGraph,
) -> Result<(), Failure>
    requires rests { IsResting loader.old }
    requires present { IsSome (kept_at loader.old pid) }
    ensures ok { IfOk result (λ _. Rests D.reach D.honest D.faults loader.old loader.new) }
    ensures graph { IsTrusted D.reach D.honest loader.old → (r : RoutineParts) → routine_in loader.old pid ≡ Some r
        → IfOk result (λ _. graph.new ≡ put (summary r) graph.old) }
    ensures err { IfErr result (λ f. StopsSeeing D.reach D.honest D.faults shapes.now (nat_eq pid) loader.old loader.new f) }
{
    match see(alloc, loader, shapes, pid) {
        Ok(summary) => match graph.replace(summary.pid, summary) {
            Ok(()) => Ok(()),
            Err(_) => Err(stop(loader, pid, Unmade::Memory)),
        },
        Err(failure) => Err(failure),
    }
}

/// What the plan knows of the routine of a PID.
fn see<D: Disk + Drop>(
    alloc: Global,
    loader: &mut PlanLoader<D>,
    shapes: &Shapes,
    pid: u32,
) -> Result<Summary, Failure>
    requires rests { IsResting loader.old }
    requires present { IsSome (kept_at loader.old pid) }
    ensures ok { IfOk result (λ _. Rests D.reach D.honest D.faults loader.old loader.new) }
    ensures summary { IsTrusted D.reach D.honest loader.old → (r : RoutineParts) → routine_in loader.old pid ≡ Some r
        → IfOk result (λ s. summary_of s ≡ summary r) }
    ensures err { IfErr result (λ f. StopsSeeing D.reach D.honest D.faults shapes.now (nat_eq pid) loader.old loader.new f) }
{
    match take(alloc, loader, pid) {
        Ok(pin) => see_pin(alloc, loader, shapes, pin),
        Err(failure) => Err(failure),
    }
}

/// What the plan knows of a routine that is read, which is given back.
fn see_pin<D: Disk + Drop>(
    alloc: Global,
    loader: &mut PlanLoader<D>,
    shapes: &Shapes,
    pin: ReadPin<RoutineBody>,
) -> Result<Summary, Failure>
    requires reads { IsReading loader.old pin.pid }
    requires content { content_at loader.old pin.pid ≡ Some (arc_value pin.body) }
    ensures ok { IfOk result (λ _. GivesBack D.faults loader.old loader.new) }
    ensures summary { IfOk result (λ s. summary_of s ≡ summary (arc_value pin.body).routine) }
    ensures err { IfErr result (λ f. Stops D.faults (SeenCause shapes.now pin.pid (arc_value pin.body).routine (D.faults loader.old.disk)
        (D.faults loader.new.disk)) loader.old loader.new f) }
{
    match seen(alloc, &pin.body, shapes) {
        Ok(summary) => match give_back(alloc, loader, pin) {
            Ok(()) => Ok(summary),
            Err(failure) => Err(failure),
        },
        Err(unmade) => {
            let ReadPin { pid, body: _ } = pin;
            Err(stop(loader, pid, unmade))
        }
    }
}

/// What the plan knows of a body's routine, if that is valid with the shapes.
fn seen(alloc: Global, body: &RoutineBody, shapes: &Shapes) -> Result<Summary, Unmade>
    ensures ok { IfOk result (λ s. summary_of s ≡ summary body.now.routine) }
    ensures err { result ≡ Err Unmade.Unfit → IsValid shapes.now body.now.routine → ⊥ }
{
    if validate(&body.routine, shapes).is_some() {
        return Err(Unmade::Unfit);
    }
    match told(alloc, body) {
        Ok(summary) => Ok(summary),
        Err(_) => Err(Unmade::Memory),
    }
}

/// What the plan knows of a body's valid routine.
fn told(alloc: Global, body: &RoutineBody) -> Result<Summary, AllocError>
    requires { IsValidRoutine body.now.routine }
    ensures { IfOk result (λ s. summary_of s ≡ summary body.now.routine) }
{
    let known = site_constants(alloc, &body.routine)?;
    summarise(alloc, &body.routine, known, body.compact_len())
}
