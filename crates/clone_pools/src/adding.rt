//! The new clones of accepted groups.
ghost use Rattle.std.specs.Prelude.{◌≡◌, ◌<◌, ◌≤◌, ◌∷◌, [], ℕ, map, IfErr, IfOk, List, OnOk, if◌then◌else◌};
ghost use Rattle.clone_groups.specs.Fixing.{fixed_of};
ghost use Rattle.clone_groups.specs.Grouping.{accepted};
ghost use Rattle.clone_names.specs.Made.{next_pid};
ghost use Rattle.clone_pools.specs.Growing.{StopsClone, StopsClones, is_fit, wanted_of, with_made, with_taken};
ghost use Rattle.clone_pools.specs.States.{GrowsOn, HoldsState, IsReady};
ghost use Rattle.il_core.specs.Limits.{max_pids};
ghost use Rattle.plan_laws.specs.Groups.{Taken};
ghost use Rattle.plan_laws.specs.Plan.{add_clones, State};
ghost use Rattle.plan_pools.specs.Adding.{clone_of};
ghost use Rattle.plan_pools.specs.Cloning.{CanAddAll, CanAddIf};

use crate::progress::Progress;
use clone_groups::{CloneTable, Group};
use clone_names::MadeClones;
use hlo_num::Seq;
use il_core::{Shapes, limits};
use naim_core::Failure;
use outside::Disk;
use plan_pools::{NewClone, PlanLoader, add_clone, stands, stop};
use std::alloc::{AllocError, Global};

/// Gives each new group its clone, in their order: a pool, a row of the shapes with its name, a row of the table, and its place
/// among the clones made. Where the pools held the program of a state of the plan over a trusted disk, and the rest was the
/// state's, all are those of the state with these clones added. `names` are the first program's shapes. The error is the failure
/// that the loader keeps from then on: `Repository` where the disk's count rose, `Damaged`, `Unreadable` and `Unfit` never over a
/// trusted disk that holds a state to which the clones can be added, `TooSmall` where a new clone's compact form is longer than the
/// limit, or `Memory`. For each new group it takes time and memory in proportion to the callee's routine and the constants, and what
/// bringing it back and making room takes.
pub fn add_clones<D: Disk + Drop>(
    alloc: Global,
    loader: &mut PlanLoader<D>,
    names: &Shapes,
    progress: Progress,
    groups: &[Group],
) -> Result<Progress, Failure>
    requires ready { IsReady loader.old progress }
    ensures ready { IfOk result (λ y. IsReady loader.new y) }
    ensures grows { IfOk result (λ y. GrowsOn D.faults [] loader.old progress.next loader.new y.next) }
    ensures state { (main : ℕ) (ts : List Taken) (st : State) → map accepted ts ≡ groups.now → CanAddAll names.now ts st
        → HoldsState D.reach D.honest D.faults main loader.old progress st
        → IfOk result (λ y. HoldsState D.reach D.honest D.faults main loader.new y (add_clones names.now ts st)) }
    ensures err { (main : ℕ) → IfErr result (λ f. StopsClones D.reach D.honest D.faults main names.now groups.now loader.old progress loader.new f) }
{
    let mut progress = progress;
    for group in groups {
        progress = match add_group(alloc, loader, names, progress, group) {
            Ok(next) => next,
            Err(failure) => return Err(failure),
        };
    }
    Ok(progress)
}

/// Gives a group its clone, if it is new.
fn add_group<D: Disk + Drop>(
    alloc: Global,
    loader: &mut PlanLoader<D>,
    names: &Shapes,
    progress: Progress,
    group: &Group,
) -> Result<Progress, Failure>
    requires ready { IsReady loader.old progress }
    ensures ready { IfOk result (λ y. IsReady loader.new y) }
    ensures grows { IfOk result (λ y. GrowsOn D.faults [] loader.old progress.next loader.new y.next) }
    ensures state { (main : ℕ) (t : Taken) (st : State) → accepted t ≡ group.now → CanAddIf t.is_new names.now t st
        → HoldsState D.reach D.honest D.faults main loader.old progress st
        → IfOk result (λ y. HoldsState D.reach D.honest D.faults main loader.new y (with_taken names.now t st)) }
    ensures err { (main : ℕ) → IfErr result (λ f. StopsClone D.reach D.honest D.faults main names.now group.now loader.old progress loader.new f) }
{
    if group.old.is_some() {
        return Ok(progress);
    }
    stands(loader);
    if !fits(loader, progress.next, group) {
        return Err(stop(loader, Failure::Unfit { pid: group.clone }));
    }
    let Progress {
        shapes,
        next,
        mut made,
        mut table,
    } = progress;
    match noted(alloc, names, &mut made, &mut table, group) {
        Ok(wanted) => match add_clone(alloc, loader, shapes, wanted) {
            Ok(shapes) => Ok(Progress {
                shapes,
                next: next + 1,
                made,
                table,
            }),
            Err(failure) => Err(failure),
        },
        Err(_) => Err(stop(loader, Failure::Memory)),
    }
}

/// Whether a new group can get its clone: its callee has a pool, the clone has the next PID, which has none, and there is room.
fn fits<D: Disk + Drop>(loader: &PlanLoader<D>, next: u32, group: &Group) -> bool
    ensures { result ≡ is_fit loader.now next group.now }
{
    group.clone == next
        && group.callee < next
        && next < limits::PIDS
        && loader.used() < limits::ROUTINES
        && loader.has(group.callee)
        && !loader.has(next)
}

/// The clone that a new group wants, which is noted in the table and among the clones made.
fn noted(
    alloc: Global,
    names: &Shapes,
    made: &mut MadeClones,
    table: &mut CloneTable,
    group: &Group,
) -> Result<NewClone, AllocError>
    requires known { group.now.callee < next_pid made.old }
    requires room { next_pid made.old < max_pids }
    ensures wanted { IfOk result (λ w. clone_of w ≡ wanted_of names.now made.old group.now) }
    ensures made { OnOk result (made.new ≡ with_made group.now.callee made.old) }
    ensures table { OnOk result (table.new ≡ record { callee = group.now.callee; fixed = fixed_of group.now.fixed; clone = group.now.clone } ∷ table.old) }
{
    let name = made.name(alloc, names, group.callee)?;
    let fixed = Seq::from_vec(Vec::from_slice(alloc, group.fixed.as_slice())?);
    table.add(group.callee, group.fixed.as_slice(), group.clone)?;
    made.add(group.callee)?;
    Ok(NewClone {
        callee: group.callee,
        fixed,
        pid: group.clone,
        name,
    })
}
