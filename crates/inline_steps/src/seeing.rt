//! What the plan knows of a program in pools, fit for the choice and for the groups.
ghost use Rattle.std.specs.Prelude.{◌≡◌, [], ℕ, List, true, IfErr, IfOk};
ghost use Rattle.il_core.specs.Valid.{IsProgram};
ghost use Rattle.il_core.specs.declared.program.IlProgram.{IlProgram as ProgramData};
ghost use Rattle.naim_loader.specs.Calls.{Fails};
ghost use Rattle.naim_loader.specs.Paged.{IsTrusted};
ghost use Rattle.one_owner.specs.Alone.{IsResting};
ghost use Rattle.plan_pools.specs.Contents.{HavePools, IsContents};
ghost use Rattle.plan_pools.specs.Planning.{StopsMaking};
ghost use Rattle.plan_pools.specs.Printing.{Rests};
ghost use Rattle.plan_laws.specs.Summary.{summaries};
ghost use Rattle.inline_steps.specs.Linking.{AreUsable};
ghost use Rattle.inline_steps.specs.Steps.{CheckCause};

use crate::linking::are_usable;
use call_graph::CallGraph;
use il_core::Shapes;
use naim_core::Failure;
use outside::Disk;
use plan_pools::{PlanLoader, stands, stop, summarise_program};
use std::alloc::Global;

/// What the plan knows of each routine of a program in pools, by rising PID; whatever the disk, the choice of the calls that are
/// inlined and that of the groups may be asked of it. Over a trusted disk it is what it knows of the program that the pools
/// hold. The error is the failure that the loader keeps from then on: as for `summarise_program`, and `Unfit` where what is known
/// isn't fit for a choice, which never comes over a trusted disk that holds a valid program with these shapes. It takes
/// time in proportion to the routines, the greatest PID, what bringing them back and making room takes, and memory for the
/// summaries, a table up to the greatest PID, and one routine.
pub fn summarise_linked<D: Disk + Drop>(
    alloc: Global,
    loader: &mut PlanLoader<D>,
    shapes: &Shapes,
) -> Result<CallGraph, Failure>
    requires rests { IsResting loader.old }
    requires pools { HavePools loader.old shapes.now }
    ensures ok { IfOk result (λ _. Rests D.reach D.honest D.faults loader.old loader.new) }
    ensures usable { IfOk result (λ g. AreUsable g) }
    ensures graph { (p : ProgramData) → IsTrusted D.reach D.honest loader.old → IsProgram p → p.shapes ≡ shapes.now → IsContents loader.old p
        → IfOk result (λ g. g ≡ summaries p) }
    ensures err { (main : ℕ) → IfErr result (λ f. StopsMaking D.reach D.honest D.faults (λ p. []) shapes.now main loader.old loader.new f) }
{
    stands(loader);
    match summarise_program(alloc, loader, shapes) {
        Ok(graph) => checked(alloc, loader, graph),
        Err(failure) => Err(failure),
    }
}

/// The graph, if the choice and the groups may be asked of it.
fn checked<D: Disk + Drop>(
    alloc: Global,
    loader: &mut PlanLoader<D>,
    graph: CallGraph,
) -> Result<CallGraph, Failure>
    requires rests { IsResting loader.old }
    ensures same { IfOk result (λ _. loader.new ≡ loader.old) }
    ensures graph { IfOk result (λ g. g ≡ graph) }
    ensures usable { IfOk result (λ g. AreUsable g) }
    ensures err { IfErr result (λ f. Fails loader.old 0 f loader.new) }
    ensures cause { IfErr result (λ f. CheckCause graph f) }
{
    match are_usable(alloc, graph.summaries()) {
        Ok(usable) => {
            if usable {
                Ok(graph)
            } else {
                Err(stop(loader, Failure::Unfit { pid: 0 }))
            }
        }
        Err(_) => Err(stop(loader, Failure::Memory)),
    }
}
