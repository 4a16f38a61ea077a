//! Where the summary of a PID stands.
ghost use Rattle.std.specs.Prelude.{◌≡◌, ◌<◌, ◌≤◌, ℕ, length, map, slice_index_or, None, IfOk};
ghost use Rattle.std.specs.Option.{option_map};
ghost use Rattle.std.specs.List.{AllByRecursion};
ghost use Rattle.plan_laws.specs.Summary.{summary_at};
ghost use Rattle.call_graph.specs.Summaries.{summary_of};
ghost use Rattle.clone_groups.specs.Places.{Finds};

use call_graph::Summary;
use std::alloc::{AllocError, Global};

/// By PID, where the first summary with it stands. It takes time and memory in proportion to the summaries and the
/// greatest PID.
pub(crate) fn places_of(
    alloc: Global,
    routines: &[Summary],
) -> Result<Vec<Option<usize>>, AllocError>
    ensures { IfOk result (λ v. Finds v.items (map summary_of routines.now)) }
{
    let mut places = vec![in alloc; None; past_pids(routines)]?;
    note(places.as_mut_slice(), routines);
    Ok(places)
}

/// A number that is above all PIDs.
fn past_pids(routines: &[Summary]) -> usize
    ensures { AllByRecursion (λ r. r.pid < result) routines.now }
{
    let mut past = 0;
    for routine in routines {
        past = above(past, routine.pid);
    }
    past
}

/// A number that is at least this one, and above a PID.
fn above(past: usize, pid: u32) -> usize
    ensures kept { past ≤ result }
    ensures above { pid < result }
{
    let next = pid as usize + 1;
    if past < next { next } else { past }
}

/// Notes where summaries stand, the last one first.
fn note(places: &mut [Option<usize>], routines: &[Summary])
    requires room { AllByRecursion (λ r. r.pid < length places.old) routines.now }
    requires empty { (pid : ℕ) → slice_index_or places.old pid None ≡ None }
    ensures { Finds places.new (map summary_of routines.now) }
{
    let mut left = routines;
    while let Some((routine, before)) = left.split_last() {
        places[routine.pid as usize] = Some(before.len());
        left = before;
    }
}

/// The first summary with a PID.
pub(crate) fn find<'a>(
    routines: &'a [Summary],
    places: &[Option<usize>],
    pid: u32,
) -> Option<&'a Summary>
    requires { Finds places.now (map summary_of routines.now) }
    ensures { option_map (λ r. summary_of r.now) result ≡ summary_at (map summary_of routines.now) pid }
{
    let pid = pid as usize;
    if pid >= places.len() {
        return None;
    }
    let place = places[pid]?;
    routines.get(place)
}
