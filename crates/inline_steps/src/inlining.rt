//! The calls of the choice, inlined in their pools and noted.
ghost use Rattle.std.specs.Prelude.{◌≡◌, ◌∷◌, [], ℕ, true, IfErr, IfOk};
ghost use Rattle.il_core.specs.declared.program.IlProgram.{IlProgram as ProgramData};
ghost use Rattle.inline_budget.specs.Calls.{calls_of};
ghost use Rattle.one_owner.specs.Alone.{IsResting};
ghost use Rattle.plan_laws.specs.Choosing.{choice};
ghost use Rattle.plan_laws.specs.Levels.{is_acyclic};
ghost use Rattle.plan_laws.specs.Summary.{summaries};
ghost use Rattle.plan_pools.specs.Contents.{HavePools};
ghost use Rattle.plan_pools.specs.Planning.{Holds, IsMade, StopsMaking};
ghost use Rattle.inline_steps.specs.Linking.{AreUsable};
ghost use Rattle.inline_steps.specs.Steps.{inlined};

use crate::seeing::summarise_linked;
use call_graph::CallGraph;
use il_core::Shapes;
use inline_budget::{Choice, choose};
use naim_core::Failure;
use outside::Disk;
use plan_pools::{PlanLoader, inline_program, note, stands, stop};
use std::alloc::Global;

/// Inlines the calls that are chosen under this limit of the cost, and notes the program. Over a trusted disk, where the pools
/// hold a valid program with these shapes and this main, they hold it with each routine inlined by the choice from then on. The
/// error is the failure that the loader keeps from then on: `Repository` where the disk's count rose, `Damaged`, `Unreadable` and
/// `Unfit` never over a trusted disk that holds such a program, `TooSmall` where the compact form of a routine with its callees is
/// longer than the limit of the loader, or `Memory`. It takes what `summarise_linked`, `choose` and `inline_program` take.
pub fn inline_noted<D: Disk + Drop>(
    alloc: Global,
    loader: &mut PlanLoader<D>,
    shapes: &Shapes,
    main: u32,
    limit: u64,
) -> Result<(), Failure>
    requires rests { IsResting loader.old }
    requires pools { HavePools loader.old shapes.now }
    ensures made { IfOk result (λ _. IsMade D.reach D.honest D.faults (λ p. inlined main limit p ∷ []) (inlined main limit) shapes.now main
        loader.old loader.new shapes.now) }
    ensures err { IfErr result (λ f. StopsMaking D.reach D.honest D.faults (λ p. inlined main limit p ∷ []) shapes.now main loader.old loader.new f) }
{
    match summarise_linked(alloc, loader, shapes) {
        Ok(graph) => inline_known(alloc, loader, shapes, &graph, main, limit),
        Err(failure) => Err(failure),
    }
}

/// The same over what is known of the program.
fn inline_known<D: Disk + Drop>(
    alloc: Global,
    loader: &mut PlanLoader<D>,
    shapes: &Shapes,
    graph: &CallGraph,
    main: u32,
    limit: u64,
) -> Result<(), Failure>
    requires rests { IsResting loader.old }
    requires pools { HavePools loader.old shapes.now }
    requires usable { AreUsable graph.now }
    ensures made { ((p : ProgramData) → Holds D.reach D.honest D.faults loader.old shapes.now main p → graph.now ≡ summaries p)
        → IfOk result (λ _. IsMade D.reach D.honest D.faults (λ p. inlined main limit p ∷ []) (inlined main limit) shapes.now main
        loader.old loader.new shapes.now) }
    ensures err { ((p : ProgramData) → Holds D.reach D.honest D.faults loader.old shapes.now main p → graph.now ≡ summaries p)
        → IfErr result (λ f. StopsMaking D.reach D.honest D.faults (λ p. inlined main limit p ∷ []) shapes.now main loader.old loader.new f) }
{
    match choose(alloc, graph.summaries(), main, limit) {
        Ok(choices) => inline_choices(alloc, loader, shapes, choices.as_slice()),
        Err(_) => Err(stop(loader, Failure::Memory)),
    }
}

/// Inlines chosen calls, and notes the program.
fn inline_choices<D: Disk + Drop>(
    alloc: Global,
    loader: &mut PlanLoader<D>,
    shapes: &Shapes,
    choices: &[Choice],
) -> Result<(), Failure>
    requires rests { IsResting loader.old }
    requires pools { HavePools loader.old shapes.now }
    requires acyclic { is_acyclic (calls_of choices.now) ≡ true }
    ensures made { (main limit : ℕ) → ((p : ProgramData) → Holds D.reach D.honest D.faults loader.old shapes.now main p → calls_of choices.now ≡ choice (summaries p) main limit)
        → IfOk result (λ _. IsMade D.reach D.honest D.faults (λ p. inlined main limit p ∷ []) (inlined main limit) shapes.now main
        loader.old loader.new shapes.now) }
    ensures err { (main limit : ℕ) → ((p : ProgramData) → Holds D.reach D.honest D.faults loader.old shapes.now main p → calls_of choices.now ≡ choice (summaries p) main limit)
        → IfErr result (λ f. StopsMaking D.reach D.honest D.faults (λ p. inlined main limit p ∷ []) shapes.now main loader.old loader.new f) }
{
    stands(loader);
    match inline_program(alloc, loader, shapes, choices) {
        Ok(()) => {
            note(loader);
            Ok(())
        }
        Err(failure) => Err(failure),
    }
}
