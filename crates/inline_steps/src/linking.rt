//! Whether the choice and the groups may be asked of summaries.
ghost use Rattle.std.specs.Prelude.{◌≡◌, ◌<◌, ◌≤◌, ◌^◌, ℕ, suc, length, map, is_some, IfOk};
ghost use Rattle.std.specs.List.{AllByRecursion, list_all};
ghost use Rattle.call_graph.specs.Summaries.{site_of, summary_of};
ghost use Rattle.plan_laws.specs.Orders.{greatest};
ghost use Rattle.plan_laws.specs.Summary.{summary_at};
ghost use Rattle.inline_steps.specs.Linking.{are_usable, is_small, mark_at, rise_from};

use call_graph::{Site, Summary};
use il_core::limits;
use std::alloc::{AllocError, Global};

/// Whether PIDs rise, each site's callee has a summary, and the numbers are within the limits. It takes time in proportion to
/// the routines, their sites and the greatest PID, and memory for a table up to that.
pub(crate) fn are_usable(alloc: Global, routines: &[Summary]) -> Result<bool, AllocError>
    ensures { IfOk result (λ b. b ≡ are_usable (map summary_of routines.now)) }
{
    if !rise(routines) {
        return Ok(false);
    }
    if !are_small(routines) {
        return Ok(false);
    }
    let marks = marks(alloc, routines, past_pids(routines))?;
    Ok(are_known(marks.as_slice(), routines))
}

/// Whether the PIDs rise.
fn rise(routines: &[Summary]) -> bool
    ensures { result ≡ rise_from 0 (map summary_of routines.now) }
{
    let mut past: u64 = 0;
    for routine in routines {
        if u64::from(routine.pid) < past {
            return false;
        }
        past = u64::from(routine.pid) + 1;
    }
    true
}

/// Whether the numbers of summaries are within the limits.
fn are_small(routines: &[Summary]) -> bool
    ensures { result ≡ list_all is_small (map summary_of routines.now) }
{
    for routine in routines {
        if !is_small(routine) {
            return false;
        }
    }
    true
}

/// Whether a summary's numbers are within the limits, with a mark for each parameter.
fn is_small(s: &Summary) -> bool
    ensures { result ≡ is_small (summary_of s.now) }
{
    s.size <= limits::SIZE
        && s.regs <= limits::REGISTERS
        && s.arrays <= limits::ARRAYS
        && s.elements <= limits::ELEMENTS
        && s.sites.len() <= limits::SIZE as usize
        && s.params <= limits::PARAMETERS
        && s.reads.len() == s.params as usize
}

/// One more than the greatest PID.
fn past_pids(routines: &[Summary]) -> usize
    ensures { result ≡ greatest (λ r. suc r.pid) routines.now }
{
    let mut past = 0;
    for routine in routines {
        past = past.max(routine.pid as usize + 1);
    }
    past
}

/// For each PID whether it has a summary.
fn marks(alloc: Global, routines: &[Summary], bound: usize) -> Result<Vec<bool>, AllocError>
    requires { AllByRecursion (λ r. r.pid < bound) routines.now }
    ensures { IfOk result (λ v. (q : ℕ) → mark_at v.items q ≡ is_some (summary_at (map summary_of routines.now) q)) }
{
    let mut marks = vec![in alloc; false; bound]?;
    for routine in routines {
        marks[routine.pid as usize] = true;
    }
    Ok(marks)
}

/// Whether the callees of all sites are marked.
fn are_known(marks: &[bool], routines: &[Summary]) -> bool
    ensures { result ≡ list_all (λ s. list_all (λ x. mark_at marks.now x.callee) s.sites) (map summary_of routines.now) }
{
    for routine in routines {
        if !has_known(marks, routine.sites.as_slice()) {
            return false;
        }
    }
    true
}

/// Whether the callees of these sites are marked.
fn has_known(marks: &[bool], sites: &[Site]) -> bool
    ensures { result ≡ list_all (λ x. mark_at marks.now x.callee) (map site_of sites.now) }
{
    for site in sites {
        if !is_marked(marks, site.callee) {
            return false;
        }
    }
    true
}

/// Whether a PID is marked.
fn is_marked(marks: &[bool], pid: u32) -> bool
    ensures { result ≡ mark_at marks.now pid }
{
    (pid as usize) < marks.len() && marks[pid as usize]
}
