//! Calls that go elsewhere, in the pools of their routines.
ghost use Rattle.std.specs.Prelude.{◌≡◌, ◌<◌, ◌≤◌, ◌*◌, ◌^◌, ℕ, Some, IfErr, IfOk, IsSome, nat_eq};
ghost use Rattle.std.specs.Arc.{arc_value};
ghost use Rattle.std.specs.List.{AllByRecursion};
ghost use Rattle.clone_groups.specs.Moves.{moves_of};
ghost use Rattle.plan_pools.specs.Retargeting.{AreMoves, callers_of, moved, moves_for};
ghost use Rattle.il_core.specs.Limits.{max_pids};
ghost use Rattle.il_core.specs.Shapes.{IsRising};
ghost use Rattle.il_core.specs.Size.{charge as charge_in_bytes};
ghost use Rattle.il_core.specs.declared.program.IlProgram.{IlProgram as ProgramData};
ghost use Rattle.il_laws.specs.Keeping.{with_each};
ghost use Rattle.il_laws.specs.Reach.{is_in};
ghost use Rattle.naim_loader.specs.Paged.{kept_at, IsTrusted};
ghost use Rattle.one_owner.specs.Alone.{IsResting, IsWriting, charge_at};
ghost use Rattle.one_owner.specs.Answers.{HasStated};
ghost use Rattle.one_owner.specs.Going.{Stops};
ghost use Rattle.plan_pools.specs.Contents.{IsContents};
ghost use Rattle.plan_pools.specs.Passes.{ChangesAll, ChangesOne, StopsChanging};
ghost use Rattle.plan_pools.specs.Rewriting.{RewriteCause, Rewritten};

use crate::moves::CallerMoves;
use crate::pools::PlanLoader;
use crate::simplifying::{charge_in, stands};
use crate::stopping::stop;
use clone_groups::retarget;
use compact_form::RoutineBody;
use il_check::validate;
use il_core::{Routine, Shapes};
use naim_core::Failure;
use naim_loader::WritePin;
use one_owner::{put_back, take_to_write};
use outside::Disk;
use std::alloc::{AllocError, Global};
use std::sync::Arc;

/// Changes the calls of these routines, which come by rising PID, in their pools, one routine after another. Over a trusted
/// disk each is what `moved` makes of it from then on, no other has changed, and where the pools held a program, they hold
/// it with each routine so changed. The error is the failure that the loader keeps from then on: `Unfit` where a routine
/// isn't valid with the shapes, `TooSmall` where the compact form of a changed one is longer than the limit, or one of the
/// disk or of memory. It takes time in proportion to the routines and their moves, a search by halves for each, what
/// bringing them back and making room takes, and memory for one routine beside the pools.
pub fn retarget_program<D: Disk + Drop>(
    alloc: Global,
    loader: &mut PlanLoader<D>,
    shapes: &Shapes,
    callers: &[CallerMoves],
) -> Result<(), Failure>
    requires rests { IsResting loader.old }
    requires present { AllByRecursion (λ p. IsSome (kept_at loader.old p)) (callers_of callers.now) }
    requires rising { IsRising (λ m. m.caller) callers.now }
    requires moves { AreMoves callers.now }
    ensures ok { IfOk result (λ _. ChangesAll D.reach D.honest D.faults (moved callers.now) (callers_of callers.now) loader.old loader.new) }
    ensures program { (p : ProgramData) → IsTrusted D.reach D.honest loader.old → IsContents loader.old p
        → IfOk result (λ _. IsContents loader.new (with_each p (moved callers.now))) }
    ensures err { IfErr result (λ f. StopsChanging D.reach D.honest D.faults (moved callers.now) shapes.now (is_in (callers_of callers.now))
        loader.old loader.new f) }
{
    for entry in callers {
        match retarget_one(alloc, loader, shapes, callers, entry.caller) {
            Ok(()) => {}
            Err(failure) => return Err(failure),
        }
    }
    Ok(())
}

/// Changes the calls of the routine of a PID in its pool.
fn retarget_one<D: Disk + Drop>(
    alloc: Global,
    loader: &mut PlanLoader<D>,
    shapes: &Shapes,
    callers: &[CallerMoves],
    pid: u32,
) -> Result<(), Failure>
    requires rests { IsResting loader.old }
    requires present { IsSome (kept_at loader.old pid) }
    requires rising { IsRising (λ m. m.caller) callers.now }
    requires moves { AreMoves callers.now }
    ensures ok { IfOk result (λ _. ChangesOne D.reach D.honest D.faults (moved callers.now) pid loader.old loader.new) }
    ensures err { IfErr result (λ f. StopsChanging D.reach D.honest D.faults (moved callers.now) shapes.now (nat_eq pid) loader.old loader.new f) }
{
    let room = 2 * charge_in(loader, pid);
    match take_to_write(alloc, loader, pid, room) {
        Ok(pin) => {
            stands(loader);
            rewrite(alloc, loader, shapes, callers, pin)
        }
        Err(failure) => Err(failure),
    }
}

/// Puts the changed form in the place of a routine that is pinned for writing, with a room of twice its charge.
fn rewrite<D: Disk + Drop>(
    alloc: Global,
    loader: &mut PlanLoader<D>,
    shapes: &Shapes,
    callers: &[CallerMoves],
    pin: WritePin<RoutineBody>,
) -> Result<(), Failure>
    requires writes { IsWriting loader.old pin.pid }
    requires stated { HasStated loader.old pin.pid (2 * charge_in_bytes (arc_value pin.body).routine) }
    requires rising { IsRising (λ m. m.caller) callers.now }
    requires moves { AreMoves callers.now }
    ensures ok { IfOk result (λ _. Rewritten D.faults loader.old loader.new pin.pid (moved callers.now (arc_value pin.body).routine)) }
    ensures err { IfErr result (λ f. Stops D.faults (RewriteCause (moved callers.now) shapes.now pin.pid (arc_value pin.body).routine loader.old.core.limit
        (D.faults loader.old.disk) (D.faults loader.new.disk)) loader.old loader.new f) }
{
    match retargeted(alloc, &pin.body.routine, shapes, callers, pin.pid) {
        Ok(body) => put_back(alloc, loader, pin, body, ()),
        Err(failure) => {
            let WritePin { pid: _, body: _ } = pin;
            Err(stop(loader, failure))
        }
    }
}

/// The changed form of a pool's routine, as a body.
fn retargeted(
    alloc: Global,
    r: &Routine,
    shapes: &Shapes,
    callers: &[CallerMoves],
    pid: u32,
) -> Result<Arc<RoutineBody, Global>, Failure>
    requires rising { IsRising (λ m. m.caller) callers.now }
    requires moves { AreMoves callers.now }
    ensures ok { IfOk result (λ b. (arc_value b).routine ≡ moved callers.now r.now) }
    ensures err { (limit before now : ℕ) → IfErr result (λ f. RewriteCause (moved callers.now) shapes.now pid r.now limit before now f) }
{
    if validate(r, shapes).is_some() {
        return Err(Failure::Unfit { pid });
    }
    match made(alloc, r, callers) {
        Ok(body) => Ok(body),
        Err(_) => Err(Failure::Memory),
    }
}

/// The changed form of a routine, as a body.
fn made(
    alloc: Global,
    r: &Routine,
    callers: &[CallerMoves],
) -> Result<Arc<RoutineBody, Global>, AllocError>
    requires rising { IsRising (λ m. m.caller) callers.now }
    requires moves { AreMoves callers.now }
    ensures { IfOk result (λ b. (arc_value b).routine ≡ moved callers.now r.now) }
{
    let routine = retarget(alloc, r, find_moves(callers, r.pid))?;
    let body = Arc::new(alloc, RoutineBody { routine })?;
    Ok(body)
}

/// The moves of a caller, which has none where it isn't among these.
fn find_moves(callers: &[CallerMoves], pid: u32) -> &[(u32, u32)]
    requires rising { IsRising (λ m. m.caller) callers.now }
    requires moves { AreMoves callers.now }
    ensures are { moves_of result.now ≡ moves_for callers.now pid }
    ensures moves { AllByRecursion (λ x. x.1 < max_pids) result.now }
{
    match callers.binary_search_by_key(&pid, |entry| entry.caller) {
        Ok(at) => callers[at].moves.as_slice(),
        Err(_) => &[],
    }
}
