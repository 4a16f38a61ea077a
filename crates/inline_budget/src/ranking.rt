//! All call sites by rank.
ghost use Rattle.std.specs.Prelude.{◌≡◌, ◌++◌, ◌≤◌, length, map, IfOk, OnOk};
ghost use Rattle.std.specs.List.{AllByRecursion};
ghost use Rattle.std.specs.Ordering.{is_lt};
ghost use Rattle.il_core.specs.Limits.{max_size};
ghost use Rattle.plan_laws.specs.Choosing.{ranked_sites};
ghost use Rattle.plan_laws.specs.Summary.{call_sites, numbered};
ghost use Rattle.call_graph.specs.Summaries.{site_of, summary_of};
ghost use Rattle.inline_budget.specs.Linked.{AreLinked, IsSmall};
ghost use Rattle.inline_budget.specs.Ranking.{bare, place_order, placed, rank_order};

use call_graph::Summary;
use std::alloc::{AllocError, Global};
use std::cmp::Ordering;

/// A call site: its caller, its number among the caller's, its callee, and how often it was passed.
#[derive(Clone, Copy, Drop)]
pub(crate) struct PlacedSite {
    pub caller: u32,
    pub number: u32,
    pub callee: u32,
    pub count: u32,
}

/// The call sites of routines by rank: the greater count first, then the lower caller, then the lower number.
pub(crate) fn ranked(alloc: Global, routines: &[Summary]) -> Result<Vec<PlacedSite>, AllocError>
    requires { AreLinked (map summary_of routines.now) }
    ensures { IfOk result (λ v. map placed v.items ≡ map bare (ranked_sites (map summary_of routines.now))) }
{
    let mut sites = all_sites(alloc, routines)?;
    sites.sort_unstable_by(|a, b| rank(a, b));
    Ok(sites)
}

/// How sites rank.
fn rank(a: &PlacedSite, b: &PlacedSite) -> Ordering
    ensures order { result ≡ rank_order a.now b.now }
    ensures first { is_lt result ≡ is_lt (rank_order a.now b.now) }
{
    let by_count = b.count.cmp(&a.count);
    by_count.then_with(|| by_place(a, b))
}

/// How sites stand by caller and number.
fn by_place(a: &PlacedSite, b: &PlacedSite) -> Ordering
    ensures { result ≡ place_order a.now b.now }
{
    let by_caller = a.caller.cmp(&b.caller);
    by_caller.then_with(|| a.number.cmp(&b.number))
}

/// The call sites of routines, by caller and number.
fn all_sites(alloc: Global, routines: &[Summary]) -> Result<Vec<PlacedSite>, AllocError>
    requires { AllByRecursion IsSmall (map summary_of routines.now) }
    ensures { IfOk result (λ v. map placed v.items ≡ map bare (call_sites (map summary_of routines.now))) }
{
    let mut sites = Vec::new(alloc);
    for routine in routines {
        add_sites(&mut sites, routine)?;
    }
    Ok(sites)
}

/// Adds a caller's sites behind the others.
fn add_sites(sites: &mut Vec<PlacedSite>, routine: &Summary) -> Result<(), AllocError>
    requires { length routine.now.sites ≤ max_size }
    ensures { OnOk result (map placed sites.new.items ≡ map placed sites.old.items ++ map bare (numbered routine.now.pid 0 (map site_of routine.now.sites))) }
{
    for (number, site) in routine.sites.as_slice().iter().enumerate() {
        sites.push(PlacedSite {
            caller: routine.pid,
            number: number as u32,
            callee: site.callee,
            count: site.count,
        })?;
    }
    Ok(())
}
