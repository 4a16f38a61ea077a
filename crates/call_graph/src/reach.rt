//! Which routines are reached by calls.
ghost use Rattle.std.specs.Prelude.{◌≡◌, ◌<◌, length, replicate, slice_get, slice_set, true, false, IfOk, OnOk};
ghost use Rattle.il_core.specs.Shapes.{IsRising};
ghost use Rattle.plan_laws.specs.Dead.{reachable, dead_routines};
ghost use Rattle.call_graph.specs.Reach.{place_of, noted, seen_all, noted_all, AreReached, marked_pids, other_pids};

use crate::graph::{CallGraph, has, place};
use crate::summary::{Site, Summary};
use std::alloc::{AllocError, Global};

impl CallGraph {
    /// The PIDs of the routines that calls from one reach, itself too, in rising order. It takes time in proportion to
    /// the routines, and a search by halves for each site. The only error is want of memory.
    pub fn reachable(&self, alloc: Global, from: u32) -> Result<Vec<u32>, AllocError>
        ensures pids { IfOk result (λ v. v.items ≡ reachable self.now from) }
        ensures rising { IfOk result (λ v. IsRising (λ pid. pid) v.items) }
    {
        let marks = reach(alloc, self.routines.as_slice(), from)?;
        pids_of_marked(alloc, self.routines.as_slice(), marks.as_slice())
    }

    /// The PIDs of the other routines, in rising order. It takes what `reachable` takes.
    pub fn dead_routines(&self, alloc: Global, main: u32) -> Result<Vec<u32>, AllocError>
        ensures { IfOk result (λ v. v.items ≡ dead_routines self.now main) }
    {
        let marks = reach(alloc, self.routines.as_slice(), main)?;
        pids_of_others(alloc, self.routines.as_slice(), marks.as_slice())
    }
}

fn pids_of_marked(
    alloc: Global,
    routines: &[Summary],
    marks: &[bool],
) -> Result<Vec<u32>, AllocError>
    requires { length marks.now ≡ length routines.now }
    ensures { IfOk result (λ v. v.items ≡ marked_pids marks.now routines.now) }
{
    let mut pids = Vec::new(alloc);
    for (i, routine) in routines.iter().enumerate() {
        if marks[i] {
            pids.push(routine.pid)?;
        }
    }
    Ok(pids)
}

fn pids_of_others(
    alloc: Global,
    routines: &[Summary],
    marks: &[bool],
) -> Result<Vec<u32>, AllocError>
    requires { length marks.now ≡ length routines.now }
    ensures { IfOk result (λ v. v.items ≡ other_pids marks.now routines.now) }
{
    let mut pids = Vec::new(alloc);
    for (i, routine) in routines.iter().enumerate() {
        if !marks[i] {
            pids.push(routine.pid)?;
        }
    }
    Ok(pids)
}

/// Marks of the routines that calls from one reach.
fn reach(alloc: Global, routines: &[Summary], from: u32) -> Result<Vec<bool>, AllocError>
    requires { IsRising (λ s. s.pid) routines.now }
    ensures { IfOk result (λ v. AreReached routines.now from v.items) }
{
    let mut marks = vec![in alloc; false; routines.len()]?;
    spread(alloc, routines, marks.as_mut_slice(), from)?;
    Ok(marks)
}

/// Marks the routines that calls from one reach, each when it is found; each that was found is looked at once.
fn spread(
    alloc: Global,
    routines: &[Summary],
    marks: &mut [bool],
    from: u32,
) -> Result<(), AllocError>
    requires rising { IsRising (λ s. s.pid) routines.now }
    requires marks { marks.old ≡ replicate (length routines.now) false }
    ensures { OnOk result (AreReached routines.now from marks.new) }
{
    let mut found = Vec::with_capacity(alloc, routines.len())?;
    find(routines, marks, &mut found, from)?;
    let mut next = 0;
    while next < found.len() {
        let at = found[next];
        find_callees(routines, marks, &mut found, sites_at(routines, at))?;
        next += 1;
    }
    Ok(())
}

/// Marks the callees of sites, and notes those that weren't marked.
fn find_callees(
    routines: &[Summary],
    marks: &mut [bool],
    found: &mut Vec<usize>,
    sites: &[Site],
) -> Result<(), AllocError>
    requires rising { IsRising (λ s. s.pid) routines.now }
    requires size { length marks.old ≡ length routines.now }
    ensures marks { OnOk result (marks.new ≡ seen_all routines.now sites.now marks.old) }
    ensures found { OnOk result (found.new.items ≡ noted_all routines.now sites.now marks.old found.old.items) }
{
    for site in sites {
        find(routines, marks, found, site.callee)?;
    }
    Ok(())
}

/// Marks a routine, and notes it where it wasn't marked.
fn find(
    routines: &[Summary],
    marks: &mut [bool],
    found: &mut Vec<usize>,
    pid: u32,
) -> Result<(), AllocError>
    requires rising { IsRising (λ s. s.pid) routines.now }
    requires size { length marks.old ≡ length routines.now }
    ensures marks { OnOk result (marks.new ≡ slice_set marks.old (place_of routines.now pid) true) }
    ensures found { OnOk result (found.new.items ≡ noted (place_of routines.now pid) marks.old found.old.items) }
{
    let at = place(routines, pid);
    if has(routines, at, pid) {
        return note(marks, found, at);
    }
    Ok(())
}

/// Marks a place, and notes it where it wasn't marked.
fn note(marks: &mut [bool], found: &mut Vec<usize>, at: usize) -> Result<(), AllocError>
    requires { at < length marks.old }
    ensures marks { OnOk result (marks.new ≡ slice_set marks.old at true) }
    ensures found { OnOk result (found.new.items ≡ noted at marks.old found.old.items) }
{
    let was = marks[at];
    marks[at] = true;
    if was {
        return Ok(());
    }
    found.push(at)?;
    Ok(())
}

/// The sites of the summary at a place.
fn sites_at(routines: &[Summary], at: usize) -> &[Site]
    requires { at < length routines.now }
    ensures { (s : Summary) → slice_get routines.now at ≡ Some s → result.now ≡ s.sites }
{
    routines[at].sites.as_slice()
}
