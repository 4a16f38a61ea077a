//! Which calls are inlined.
ghost use Rattle.std.specs.Prelude.{◌≡◌, ◌<◌, ◌≤◌, ◌^◌, IfOk, length, map};
ghost use Rattle.plan_laws.specs.Choosing.{choice, is_candidate};
ghost use Rattle.call_graph.specs.Summaries.{summary_of};
ghost use Rattle.inline_budget.specs.Attempts.{AreFew, IsWithin, numbers_at};
ghost use Rattle.inline_budget.specs.Calls.{calls_of, number_at};
ghost use Rattle.inline_budget.specs.Linked.{AreLinked};
ghost use Rattle.inline_budget.specs.Ranking.{placed};
ghost use Rattle.inline_budget.specs.Tables.{brought};

use crate::attempt::{Attempt, Candidate};
use crate::buckets::Buckets;
use crate::choice::Choice;
use crate::filling::{brought, extras, own_numbers, past_pids, room_of};
use crate::numbers::Numbers;
use crate::ranking::{PlacedSite, ranked};
use call_graph::Summary;
use std::alloc::{AllocError, Global};

/// The calls that are inlined, for the routines of a program, the PID of `main` and the limit of the program's cost.
///
/// Sites that don't call `main` and that were passed rank by falling count, then by caller, then by number. Each in its
/// turn is accepted where with those accepted before the calls stay free of cycles, each routine with all that is inlined
/// into it stays within the limits of a routine, and the cost, the sum of the squares of these sizes, is at most the
/// limit; sums beyond 2^64 are not accepted. The PIDs are different, each site's callee is one of the routines, and the
/// routines' numbers are within the limits.
///
/// The only error is want of memory. It takes time for one sort of the sites and in proportion to the routines and the
/// greatest PID; and for each site that of the routines that inline its caller, as far as they stay within the limits,
/// and of their accepted calls. Memory: tables up to the greatest PID, and the sites.
pub fn choose(
    alloc: Global,
    routines: &[Summary],
    main: u32,
    limit: u64,
) -> Result<Vec<Choice>, AllocError>
    requires { AreLinked (map summary_of routines.now) }
    ensures { IfOk result (λ v. calls_of v.items ≡ choice (map summary_of routines.now) main limit) }
{
    let Some(room) = room_of(routines, limit) else {
        return Ok(Vec::new(alloc));
    };
    let sites = ranked(alloc, routines)?;
    let bound = past_pids(routines);
    let mut numbers = own_numbers(alloc, routines, bound)?;
    let extras = extras(alloc, routines, bound)?;
    let mut callers = Buckets::new(alloc, bound)?;
    let mut attempt = Attempt::new(alloc, bound, room)?;
    let mut choices = Vec::new(alloc);
    for site in &sites {
        if !is_candidate(main, site) {
            continue;
        }
        let call = candidate(site, numbers.as_slice(), extras.as_slice());
        if !attempt.decide(numbers.as_mut_slice(), &callers, &call)? {
            continue;
        }
        callers.put(call.callee as usize, call.caller)?;
        choices.push(call.choice())?;
    }
    Ok(choices)
}

/// Whether a site doesn't call `main`, and was ever passed.
fn is_candidate(main: u32, site: &PlacedSite) -> bool
    ensures { result ≡ is_candidate main (placed site.now) }
{
    site.callee != main && site.count > 0
}

/// A site's call, with what it brings.
fn candidate(site: &PlacedSite, numbers: &[Numbers], extras: &[u64]) -> Candidate
    requires numbers { site.now.callee < length numbers.now }
    requires extras { site.now.callee < length extras.now }
    requires within { IsWithin (numbers_at numbers.now site.now.callee) }
    requires few { number_at extras.now site.now.callee ≤ 2 ^ 34 }
    ensures caller { result.caller ≡ site.now.caller }
    ensures site { result.site ≡ site.now.number }
    ensures callee { result.callee ≡ site.now.callee }
    ensures by { result.by ≡ brought numbers.now extras.now site.now.callee }
    ensures few { AreFew result.by }
{
    Candidate {
        caller: site.caller,
        site: site.number,
        callee: site.callee,
        by: brought(numbers, extras, site.callee),
    }
}
