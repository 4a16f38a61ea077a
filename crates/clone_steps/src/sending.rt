//! Calls that go to clones.
ghost use Rattle.std.specs.Prelude.{◌≡◌, ◌<◌, ℕ, IfErr, IfOk};
ghost use Rattle.std.specs.List.{AllByRecursion, list_all};
ghost use Rattle.clone_steps.specs.Sending.{have_pools, is_below, MayMove, MaySend, StopsTurning, Turns};
ghost use Rattle.il_core.specs.Shapes.{IsRising};
ghost use Rattle.one_owner.specs.Alone.{IsResting};
ghost use Rattle.plan_pools.specs.Contents.{HavePools};
ghost use Rattle.plan_pools.specs.Retargeting.{AreMoves};

use clone_groups::Group;
use group_moves::caller_moves;
use il_core::{Shapes, limits};
use naim_core::Failure;
use outside::Disk;
use plan_pools::{CallerMoves, PlanLoader, note, retarget_program, stop};
use std::alloc::Global;

/// Sends the calls of accepted groups to their clones, and notes the program. Where the pools held a program over a trusted disk
/// of which the groups' moves make another valid one, they hold that from then on. The error is the failure that the loader keeps
/// from then on: `Repository` where the disk's count rose, `Damaged`, `Unreadable` and `Unfit` never over a trusted disk that
/// holds such a program, `TooSmall` where a sent routine's compact form is longer than the limit, or `Memory`. It takes what
/// `caller_moves` takes, with the next PID for its bound, and what `retarget_program` takes.
pub(crate) fn send_calls<D: Disk + Drop>(
    alloc: Global,
    loader: &mut PlanLoader<D>,
    shapes: &Shapes,
    next: u32,
    groups: &[Group],
) -> Result<(), Failure>
    requires rests { IsResting loader.old }
    requires pools { HavePools loader.old shapes.now }
    requires above { AllByRecursion (λ row. row.pid < next) shapes.now }
    ensures made { (main : ℕ) → IfOk result (λ _. Turns D.reach D.honest D.faults main (MaySend groups.now) shapes.now loader.old loader.new) }
    ensures err { (main : ℕ) → IfErr result (λ f. StopsTurning D.reach D.honest D.faults main (MaySend groups.now) shapes.now loader.old loader.new f) }
{
    if !are_below(groups, next) {
        return Err(stop(loader, Failure::Unfit { pid: 0 }));
    }
    match caller_moves(alloc, groups, next) {
        Ok(callers) => send_noted(alloc, loader, shapes, callers.as_slice()),
        Err(_) => Err(stop(loader, Failure::Memory)),
    }
}

/// Makes moves, and notes the program.
fn send_noted<D: Disk + Drop>(
    alloc: Global,
    loader: &mut PlanLoader<D>,
    shapes: &Shapes,
    callers: &[CallerMoves],
) -> Result<(), Failure>
    requires rests { IsResting loader.old }
    requires pools { HavePools loader.old shapes.now }
    requires rising { IsRising (λ m. m.caller) callers.now }
    requires moves { AreMoves callers.now }
    ensures made { (main : ℕ) → IfOk result (λ _. Turns D.reach D.honest D.faults main (MayMove callers.now) shapes.now loader.old loader.new) }
    ensures err { (main : ℕ) → IfErr result (λ f. StopsTurning D.reach D.honest D.faults main (MayMove callers.now) shapes.now loader.old loader.new f) }
{
    if !have_pools(loader, callers) {
        return Err(stop(loader, Failure::Unfit { pid: 0 }));
    }
    match retarget_program(alloc, loader, shapes, callers) {
        Ok(()) => {
            note(loader);
            Ok(())
        }
        Err(failure) => Err(failure),
    }
}

/// Whether the callers of groups are below a bound, and the clones are PIDs.
fn are_below(groups: &[Group], bound: u32) -> bool
    ensures { result ≡ list_all (is_below bound) groups.now }
{
    for group in groups {
        if !is_below(group, bound) {
            return false;
        }
    }
    true
}

/// Whether a group's callers are below a bound, and its clone is a PID.
fn is_below(group: &Group, bound: u32) -> bool
    ensures { result ≡ is_below bound group.now }
{
    for (caller, _) in group.members.as_slice() {
        if *caller >= bound {
            return false;
        }
    }
    group.clone < limits::PIDS
}

/// Whether each caller has a pool.
fn have_pools<D: Disk + Drop>(loader: &PlanLoader<D>, callers: &[CallerMoves]) -> bool
    ensures { result ≡ have_pools loader.now callers.now }
{
    for entry in callers {
        if !loader.has(entry.caller) {
            return false;
        }
    }
    true
}
