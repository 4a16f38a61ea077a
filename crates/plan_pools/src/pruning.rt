//! Dead routines, which go from the pools and from the shapes.
ghost use Rattle.std.specs.Prelude.{◌≡◌, ◌<◌, ◌^◌, ◌∷◌, [], ℕ, nat_eq, not, filter, map, IfErr, IfOk};
ghost use Rattle.std.specs.List.{AllByRecursion, IsDistinct};
ghost use Rattle.il_core.specs.Program.{main_pid};
ghost use Rattle.il_core.specs.Shapes.{IsRising};
ghost use Rattle.il_core.specs.declared.program.IlProgram.{IlProgram as ProgramData};
ghost use Rattle.il_laws.specs.Reach.{is_in, pruned, stays};
ghost use Rattle.one_owner.specs.Alone.{IsResting};
ghost use Rattle.call_graph.specs.Summaries.{summary_of};
ghost use Rattle.plan_laws.specs.Dead.{reachable};
ghost use Rattle.plan_laws.specs.Summary.{cost_of, summaries};
ghost use Rattle.plan_pools.specs.Contents.{HavePools, routine_pids};
ghost use Rattle.plan_pools.specs.Planning.{Holds, IsCost, IsMade, StopsMaking};

use crate::dropping::drop_all;
use crate::noting::note;
use crate::planned::Planned;
use crate::pools::PlanLoader;
use crate::seeing::summarise_program;
use crate::simplifying::{Unmade, pids_of, stop};
use call_graph::{CallGraph, Summary};
use hlo_num::Seq;
use il_core::{Shape, ShapeRow, Shapes};
use naim_core::Failure;
use outside::Disk;
use std::alloc::{AllocError, Global};

/// Whether a PID is among these, which rise. It takes time for a search by halves.
fn is_among(pids: &[u32], pid: u32) -> bool
    requires { IsRising (λ p. p) pids.now }
    ensures { result ≡ is_in pids.now pid }
{
    pids.binary_search(&pid).is_ok()
}

/// Those of these PIDs, which rise, that aren't among others, which rise too.
fn others(alloc: Global, pids: &[u32], live: &[u32]) -> Result<Vec<u32>, AllocError>
    requires { IsRising (λ p. p) live.now }
    ensures { IfOk result (λ v. v.items ≡ filter (λ p. not (is_in live.now p)) pids.now) }
{
    let mut dead = Vec::new(alloc);
    for pid in pids {
        if !is_among(live, *pid) {
            dead.push(*pid)?;
        }
    }
    Ok(dead)
}

/// The rows that stay where these routines do, whose PIDs rise.
fn rows_left(alloc: Global, rows: Vec<ShapeRow>, live: &[u32]) -> Result<Vec<ShapeRow>, AllocError>
    requires { IsRising (λ p. p) live.now }
    ensures { IfOk result (λ v. v.items ≡ filter (stays (is_in live.now)) rows.items) }
{
    let mut left = Vec::with_capacity(alloc, rows.len())?;
    for row in rows {
        if is_left(&row, live) {
            left.push(row)?;
        }
    }
    Ok(left)
}

/// Whether a row stays where these routines do.
fn is_left(row: &ShapeRow, live: &[u32]) -> bool
    requires { IsRising (λ p. p) live.now }
    ensures { result ≡ stays (is_in live.now) row.now }
{
    match row.shape {
        Shape::Routine { .. } => is_among(live, row.pid),
        Shape::Object { .. } => true,
    }
}

/// The sum of the squares of the sizes of those routines, whose PIDs rise, where 64 bits can tell it.
fn cost_left(routines: &[Summary], live: &[u32]) -> u64
    requires { IsRising (λ p. p) live.now }
    ensures { cost_of (filter (λ s. is_in live.now s.pid) (map summary_of routines.now)) < 2 ^ 64
        → result ≡ cost_of (filter (λ s. is_in live.now s.pid) (map summary_of routines.now)) }
{
    let mut cost: u64 = 0;
    for routine in routines {
        if is_among(live, routine.pid) {
            cost = cost.saturating_add(square(routine.size));
        }
    }
    cost
}

/// The square of a size.
fn square(size: u32) -> u64
    ensures { result ≡ size ^ 2 }
{
    u64::from(size) * u64::from(size)
}

/// What stays of a program, what goes, and what stays costs.
struct Sorted {
    shapes: Shapes,
    dead: Vec<u32>,
    cost: u64,
}

/// Sorts a program by what `main` reaches.
fn sort_out(
    alloc: Global,
    shapes: Shapes,
    graph: &CallGraph,
    main: u32,
) -> Result<Sorted, AllocError>
    ensures left { IfOk result (λ s. s.shapes ≡ filter (stays (is_in (reachable graph.now main))) shapes) }
    ensures dead { IfOk result (λ s. s.dead.items ≡ filter (λ p. not (is_in (reachable graph.now main) p)) (routine_pids shapes)) }
    ensures differ { IfOk result (λ s. IsDistinct nat_eq s.dead.items) }
    ensures cost { cost_of (filter (λ s. is_in (reachable graph.now main) s.pid) graph.now) < 2 ^ 64
        → IfOk result (λ s. s.cost ≡ cost_of (filter (λ s. is_in (reachable graph.now main) s.pid) graph.now)) }
{
    let pids = pids_of(alloc, &shapes)?;
    let live = graph.reachable(alloc, main)?;
    let dead = others(alloc, pids.as_slice(), live.as_slice())?;
    let cost = cost_left(graph.summaries(), live.as_slice());
    let Shapes { rows } = shapes;
    let rows = rows_left(alloc, rows.into_vec(), live.as_slice())?;
    let shapes = Shapes {
        rows: Seq::from_vec(rows),
    };
    Ok(Sorted { shapes, dead, cost })
}

/// Takes the routines away that `main` doesn't reach, by these summaries, and notes the program that is left.
fn prune_known<D: Disk + Drop>(
    alloc: Global,
    loader: &mut PlanLoader<D>,
    shapes: Shapes,
    graph: &CallGraph,
    main: u32,
) -> Result<Planned, Failure>
    requires rests { IsResting loader.old }
    requires pools { HavePools loader.old shapes }
    ensures made { ((p : ProgramData) → Holds D.reach D.honest D.faults loader.old shapes main p → graph.now ≡ summaries p)
        → IfOk result (λ x. IsMade D.reach D.honest D.faults (λ p. pruned p ∷ []) pruned shapes main loader.old loader.new x.shapes) }
    ensures below { (n : ℕ) → AllByRecursion (λ row. row.pid < n) shapes → IfOk result (λ x. AllByRecursion (λ row. row.pid < n) x.shapes) }
    ensures cost { (p : ProgramData) → p.shapes ≡ shapes → main_pid p.shapes ≡ main → graph.now ≡ summaries p → IfOk result (λ x. IsCost x.cost (pruned p)) }
    ensures err { IfErr result (λ f. StopsMaking D.reach D.honest D.faults (λ p. []) shapes main loader.old loader.new f) }
{
    match sort_out(alloc, shapes, graph, main) {
        Ok(sorted) => {
            let Sorted { shapes, dead, cost } = sorted;
            drop_all(loader, dead.as_slice());
            note(loader);
            Ok(Planned { shapes, cost })
        }
        Err(_) => Err(stop(loader, 0, Unmade::Memory)),
    }
}

/// Takes the routines away that `main` doesn't reach, and notes the program that is left. It takes what `summarise_program`
/// takes, and a search by halves for each routine.
pub fn prune_noted<D: Disk + Drop>(
    alloc: Global,
    loader: &mut PlanLoader<D>,
    shapes: Shapes,
    main: u32,
) -> Result<Planned, Failure>
    requires rests { IsResting loader.old }
    requires pools { HavePools loader.old shapes }
    ensures made { IfOk result (λ x. IsMade D.reach D.honest D.faults (λ p. pruned p ∷ []) pruned shapes main loader.old loader.new x.shapes) }
    ensures below { (n : ℕ) → AllByRecursion (λ row. row.pid < n) shapes → IfOk result (λ x. AllByRecursion (λ row. row.pid < n) x.shapes) }
    ensures cost { (p : ProgramData) → Holds D.reach D.honest D.faults loader.old shapes main p → IfOk result (λ x. IsCost x.cost (pruned p)) }
    ensures err { IfErr result (λ f. StopsMaking D.reach D.honest D.faults (λ p. []) shapes main loader.old loader.new f) }
{
    match summarise_program(alloc, loader, &shapes) {
        Ok(graph) => prune_known(alloc, loader, shapes, &graph, main),
        Err(failure) => Err(failure),
    }
}
