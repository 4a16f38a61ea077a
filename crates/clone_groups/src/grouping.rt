//! Groups of call sites that get a clone.
ghost use Rattle.std.specs.Prelude.{◌≡◌, ◌+◌, ◌^◌, ◌<◌, ◌++◌, if◌then◌else◌, map, IfOk, IfSome, IfNone, OnOk};
ghost use Rattle.il_core.specs.Limits.{max_pids, max_routines, max_size};
ghost use Rattle.std.specs.List.{AllByRecursion};
ghost use Rattle.std.specs.Option.{option_map};
ghost use Rattle.plan_laws.specs.Groups.{at_start, clone_fits, clone_numbers, decided, groups, more_spent};
ghost use Rattle.plan_laws.specs.Numbers.{is_within};
ghost use Rattle.plan_laws.specs.Summary.{cost_of};
ghost use Rattle.call_graph.specs.Summaries.{summary_of};
ghost use Rattle.clone_groups.specs.Gathering.{IsSmall};
ghost use Rattle.clone_groups.specs.Grouping.{accepted, chosen_clone, group_made, spent_on, taken_by};
ghost use Rattle.clone_groups.specs.Keys.{fixed_in};
ghost use Rattle.clone_groups.specs.Places.{Finds};
ghost use Rattle.clone_groups.specs.Ranking.{group_of};

use crate::gathering::gather;
use crate::groups::Group;
use crate::keys::words_of;
use crate::places::{find, places_of};
use crate::ranking::{Candidate, ranked};
use crate::table::CloneTable;
use call_graph::Summary;
use hlo_num::Seq;
use il_core::limits;
use std::alloc::{AllocError, Global};
use std::marker::Model;

/// What groups may still take: the cost of the program with the clones accepted so far, the number of its routines, and
/// the PID of the next clone.
#[derive(Drop)]
struct Spent {
    cost: u128,
    routines: usize,
    next: u32,
}

impl Model for Spent {
    ghost use Rattle.std.specs.Prelude.{◌^◌, ◌<◌};
    ghost use Rattle.plan_laws.specs.Groups.{Spent as Left};

    ghost Value = { Left };

    ghost view = { λ s. record { cost = s.cost; routines = s.routines; next = s.next } };

    ghost invariant = { λ s. s.cost < 2 ^ 127 };
}

/// The groups of call sites that get a clone, by rank, for the routines of a program, the clones that a table has, the
/// PID of `main`, the PID that the next new clone takes, and the limit of the program's cost.
///
/// Sites of one callee, not `main`, at which the same parameters that it reads are known with the same constants make a
/// group; sites that never ran make none. They rank by falling sums of counts, then by callee, then by constants. A
/// group of the table's constants takes its newest clone, at no cost. Another is accepted where the program with a new
/// clone costs no more than the limit, the clone is within the limits of a routine, the program has at most 4,096
/// routines, and the PID is below 131,072; costs beyond 2^64 are not accepted.
///
/// The only error is want of memory. It takes expected time in proportion to the routines, the greatest PID, the sites
/// with their arguments and the rows of the table, and that of one sort of the groups; memory for a place for each PID,
/// the members and the groups.
pub fn group(
    alloc: Global,
    routines: &[Summary],
    table: &CloneTable,
    main: u32,
    next: u32,
    limit: u64,
) -> Result<Vec<Group>, AllocError>
    requires { AllByRecursion IsSmall (map summary_of routines.now) }
    ensures { IfOk result (λ v. v.items ≡ map accepted (groups (map summary_of routines.now) table.now main next limit)) }
{
    let places = places_of(alloc, routines)?;
    let found = gather(alloc, routines, places.as_slice(), main)?;
    let ranked = ranked(alloc, found, table)?;
    accept(alloc, routines, places.as_slice(), ranked, next, limit)
}

/// The accepted ones of ranked groups.
fn accept(
    alloc: Global,
    routines: &[Summary],
    places: &[Option<usize>],
    ranked: Vec<Candidate>,
    next: u32,
    limit: u64,
) -> Result<Vec<Group>, AllocError>
    requires { Finds places.now (map summary_of routines.now) }
    ensures { IfOk result (λ v. v.items ≡ map accepted (taken_by (map summary_of routines.now) limit
        (at_start (map summary_of routines.now) next) ranked.items)) }
{
    let mut spent = Spent::at_start(routines, next);
    let mut groups = Vec::new(alloc);
    for candidate in ranked {
        let callee = find(routines, places, candidate.key.callee);
        accept_one(alloc, &mut groups, &mut spent, limit, candidate, callee)?;
    }
    Ok(groups)
}

/// Adds a group with its clone, where it is accepted.
fn accept_one(
    alloc: Global,
    groups: &mut Vec<Group>,
    spent: &mut Spent,
    limit: u64,
    candidate: Candidate,
    callee: Option<&Summary>,
) -> Result<(), AllocError>
    ensures groups { OnOk result (groups.new.items ≡ groups.old.items ++ map accepted
        (decided limit (group_of candidate) spent.old candidate.old (option_map (λ r. summary_of r.now) callee.entry)).taken) }
    ensures spent { OnOk result (spent.new ≡ spent_on (decided limit (group_of candidate) spent.old candidate.old
        (option_map (λ r. summary_of r.now) callee.entry))) }
{
    let Some(clone) = decide(spent, limit, &candidate, callee) else {
        return Ok(());
    };
    groups.push(made(alloc, candidate, clone)?)?;
    Ok(())
}

/// The group with its clone.
fn made(alloc: Global, candidate: Candidate, clone: u32) -> Result<Group, AllocError>
    ensures { IfOk result (λ g. g ≡ group_made candidate clone) }
{
    let Candidate { key, sites, old } = candidate;
    let fixed = words_of(alloc, key.fixed.as_slice())?;
    Ok(Group {
        callee: key.callee,
        fixed: Seq::from_vec(fixed),
        members: Seq::from_vec(sites.into_members()),
        clone,
        old,
    })
}

/// The clone of a group, where it is accepted: an old one, or a new one that fits.
fn decide(
    spent: &mut Spent,
    limit: u64,
    candidate: &Candidate,
    callee: Option<&Summary>,
) -> Option<u32>
    ensures clone { result ≡ chosen_clone (decided limit (group_of candidate.now) spent.old candidate.now.old
        (option_map (λ r. summary_of r.now) callee.entry)) }
    ensures spent { spent.new ≡ spent_on (decided limit (group_of candidate.now) spent.old candidate.now.old
        (option_map (λ r. summary_of r.now) callee.entry)) }
{
    if let Some(old) = candidate.old {
        return Some(old);
    }
    let callee = callee?;
    spent.take(limit, callee, candidate.key.fixed.as_slice())
}

impl Spent {
    /// The cost and the number of routines before any clone.
    fn at_start(routines: &[Summary], next: u32) -> Spent
        ensures { result ≡ at_start (map summary_of routines.now) next }
    {
        Spent {
            cost: cost_of(routines),
            routines: routines.len(),
            next,
        }
    }

    /// The PID of a callee's new clone with constants, where it fits.
    fn take(&mut self, limit: u64, callee: &Summary, fixed: &[(u32, u32)]) -> Option<u32>
        ensures clone { result ≡ (if clone_fits self.old limit (clone_numbers (summary_of callee.now) (fixed_in fixed.now)) then Some self.old.next else None) }
        ensures spent { self.new ≡ (if clone_fits self.old limit (clone_numbers (summary_of callee.now) (fixed_in fixed.now)) then more_spent self.old
            (clone_numbers (summary_of callee.now) (fixed_in fixed.now)) else self.old) }
    {
        let Some(size) = clone_size(callee, fixed.len()) else {
            return None;
        };
        if !self.fits(limit, size, callee) {
            return None;
        }
        let clone = self.next;
        self.spend(size);
        Some(clone)
    }

    /// Whether a callee's clone of this size fits.
    fn fits(&self, limit: u64, size: u32, callee: &Summary) -> bool
        ensures { result ≡ clone_fits self.now limit (record {
          size = size;
          regs = callee.now.regs;
          arrays = callee.now.arrays;
          elements = callee.now.elements;
        }) }
    {
        let cost = self.cost + u128::from(square(size));
        let is_small = is_within(size, callee);
        cost <= u128::from(limit)
            && is_small
            && self.routines < limits::ROUTINES as usize
            && self.next < limits::PIDS
    }

    /// Counts a clone of this size.
    fn spend(&mut self, size: u32)
        requires cost { self.old.cost + size ^ 2 < 2 ^ 64 }
        requires routines { self.old.routines < max_routines }
        requires next { self.old.next < max_pids }
        ensures { self.new ≡ record { cost = self.old.cost + size ^ 2; routines = self.old.routines + 1; next = self.old.next + 1 } }
    {
        self.cost += u128::from(square(size));
        self.routines += 1;
        self.next += 1;
    }
}

/// Whether a clone of this size has no more registers, arrays and elements than a routine may have, and is no larger.
fn is_within(size: u32, callee: &Summary) -> bool
    ensures { result ≡ is_within (record { size = size; regs = callee.now.regs; arrays = callee.now.arrays; elements = callee.now.elements }) }
{
    size <= limits::SIZE
        && callee.regs <= limits::REGISTERS
        && callee.arrays <= limits::ARRAYS
        && callee.elements <= limits::ELEMENTS
}

/// The size of a callee's clone with so many constants, where it is one that a routine may have.
fn clone_size(callee: &Summary, fixed: usize) -> Option<u32>
    requires { fixed < 2 ^ 62 }
    ensures some { IfSome result (λ size. size ≡ callee.now.size + fixed + (if callee.now.start_loop then 1 else 0)) }
    ensures none { IfNone result (max_size < callee.now.size + fixed + (if callee.now.start_loop then 1 else 0)) }
{
    let block = if callee.start_loop { 1 } else { 0 };
    let size = u64::from(callee.size) + fixed as u64 + block;
    if size > u64::from(limits::SIZE) {
        return None;
    }
    Some(size as u32)
}

/// The sum of the squares of the sizes.
fn cost_of(routines: &[Summary]) -> u128
    ensures value { result ≡ cost_of (map summary_of routines.now) }
    ensures small { result < 2 ^ 127 }
{
    let mut cost = 0;
    for routine in routines {
        cost += u128::from(square(routine.size));
    }
    cost
}

fn square(size: u32) -> u64
    ensures { result ≡ size ^ 2 }
{
    u64::from(size) * u64::from(size)
}
