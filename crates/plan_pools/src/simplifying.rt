//! Routines that are simplified in their pools.
ghost use Rattle.std.specs.Prelude.{◌≡◌, ◌<◌, ◌≤◌, ◌*◌, ◌^◌, length, nat_eq, Err, IfErr, IfOk, IsSome, Some};
ghost use Rattle.std.specs.Arc.{arc_value};
ghost use Rattle.std.specs.List.{AllByRecursion, IsDistinct};
ghost use Rattle.compact_form.specs.Compact.{IsRoutine, compact};
ghost use Rattle.const_prop.specs.Tables.{IsValidRoutine};
ghost use Rattle.il_core.specs.Size.{charge as charge_in_bytes};
ghost use Rattle.il_core.specs.Valid.{IsProgram, IsValid};
ghost use Rattle.il_core.specs.declared.program.IlProgram.{IlProgram as ProgramData};
ghost use Rattle.il_laws.specs.Keeping.{with_each};
ghost use Rattle.il_laws.specs.Reach.{is_in};
ghost use Rattle.il_laws.specs.Simplify.{simplify};
ghost use Rattle.naim_loader.specs.Calls.{Fails};
ghost use Rattle.naim_loader.specs.Contents.{StandsFor};
ghost use Rattle.naim_loader.specs.Paged.{kept_at, IsTrusted};
ghost use Rattle.one_owner.specs.Alone.{IsResting, IsWriting, charge_at};
ghost use Rattle.one_owner.specs.Answers.{HasStated};
ghost use Rattle.one_owner.specs.Going.{Stops};
ghost use Rattle.plan_pools.specs.Contents.{HavePools, IsContents, routine_pids};
ghost use Rattle.plan_pools.specs.Passes.{ChangesAll, ChangesOne, StopsChanging};
ghost use Rattle.plan_pools.specs.Rewriting.{RewriteCause, Rewritten, failure_of};

use crate::pools::PlanLoader;
use crate::printing::rows_of;
use cleanup::simplify;
use compact_form::RoutineBody;
use il_check::validate;
use il_core::{Routine, Shape, Shapes};
use il_laws::simplify_keeps;
use naim_core::Failure;
use naim_loader::WritePin;
use one_owner::{put_back, take_to_write};
use outside::Disk;
use std::alloc::{AllocError, Global};
use std::sync::Arc;

/// Why a routine has no changed form.
#[derive(Clone, Copy, Drop, PartialEq, Eq)]
pub(crate) enum Unmade {
    /// It isn't valid with the shapes, or can't be changed under them.
    Unfit,
    /// Memory is wanting.
    Memory,
}

/// Simplifies all routines of a program in their pools, by rising PID. Over a trusted disk the pools hold the program with each
/// routine simplified from then on, where they held a valid program with these shapes. The errors and the cost are as for
/// `simplify_all`, and memory for the PIDs.
pub fn simplify_program<D: Disk + Drop>(
    alloc: Global,
    loader: &mut PlanLoader<D>,
    shapes: &Shapes,
) -> Result<(), Failure>
    requires rests { IsResting loader.old }
    requires pools { HavePools loader.old shapes.now }
    ensures ok { IfOk result (λ _. ChangesAll D.reach D.honest D.faults simplify (routine_pids shapes.now) loader.old loader.new) }
    ensures program { (p : ProgramData) → IsTrusted D.reach D.honest loader.old → IsProgram p → p.shapes ≡ shapes.now → IsContents loader.old p
        → IfOk result (λ _. IsContents loader.new (with_each p simplify)) }
    ensures err { IfErr result (λ f. StopsChanging D.reach D.honest D.faults simplify shapes.now (is_in (routine_pids shapes.now)) loader.old loader.new f) }
{
    match pids_of(alloc, shapes) {
        Ok(pids) => simplify_all(alloc, loader, shapes, pids.as_slice()),
        Err(_) => Err(stop(loader, 0, Unmade::Memory)),
    }
}

/// The PIDs of the routines, which rise.
pub fn pids_of(alloc: Global, shapes: &Shapes) -> Result<Vec<u32>, AllocError>
    ensures pids { IfOk result (λ v. v.items ≡ routine_pids shapes.now) }
    ensures differ { IsDistinct nat_eq (routine_pids shapes.now) }
{
    let rows = rows_of(shapes);
    let mut pids = Vec::new(alloc);
    for row in rows {
        if let Shape::Routine { .. } = row.shape {
            pids.push(row.pid)?;
        }
    }
    Ok(pids)
}

/// Simplifies the routines of these PIDs in their pools, one after another. Over a trusted disk each is what `simplify` makes
/// of it, and no other has changed. The error is the failure that the loader keeps from then on: `Unfit` where a routine isn't
/// valid with the shapes, `TooSmall` where the compact form of a simplified one is longer than the limit, or one of the disk
/// or of memory. It takes time in proportion to the routines, what bringing them back and making room takes, and memory for
/// one routine beside the pools.
fn simplify_all<D: Disk + Drop>(
    alloc: Global,
    loader: &mut PlanLoader<D>,
    shapes: &Shapes,
    pids: &[u32],
) -> Result<(), Failure>
    requires rests { IsResting loader.old }
    requires present { AllByRecursion (λ p. IsSome (kept_at loader.old p)) pids.now }
    requires differ { IsDistinct nat_eq pids.now }
    ensures ok { IfOk result (λ _. ChangesAll D.reach D.honest D.faults simplify pids.now loader.old loader.new) }
    ensures err { IfErr result (λ f. StopsChanging D.reach D.honest D.faults simplify shapes.now (is_in pids.now) loader.old loader.new f) }
{
    for pid in pids {
        match simplify_one(alloc, loader, shapes, *pid) {
            Ok(()) => {}
            Err(failure) => return Err(failure),
        }
    }
    Ok(())
}

/// Simplifies the routine of a PID in its pool.
fn simplify_one<D: Disk + Drop>(
    alloc: Global,
    loader: &mut PlanLoader<D>,
    shapes: &Shapes,
    pid: u32,
) -> Result<(), Failure>
    requires rests { IsResting loader.old }
    requires present { IsSome (kept_at loader.old pid) }
    ensures ok { IfOk result (λ _. ChangesOne D.reach D.honest D.faults simplify pid loader.old loader.new) }
    ensures err { IfErr result (λ f. StopsChanging D.reach D.honest D.faults simplify shapes.now (nat_eq pid) loader.old loader.new f) }
{
    let room = 2 * charge_in(loader, pid);
    match take_to_write(alloc, loader, pid, room) {
        Ok(pin) => {
            stands(loader);
            rewrite(alloc, loader, shapes, pin)
        }
        Err(failure) => Err(failure),
    }
}

/// The charge of a pool's routine.
pub(crate) fn charge_in<D: Disk + Drop>(loader: &PlanLoader<D>, pid: u32) -> u64
    requires { IsSome (kept_at loader.now pid) }
    ensures charge { charge_at loader.now pid ≡ Some result }
    ensures small { result ≤ 2 ^ 40 }
{
    stands(loader);
    loader.charge(pid)
}

/// Puts the simplified form in the place of a routine that is pinned for writing, with a room of twice its charge.
fn rewrite<D: Disk + Drop>(
    alloc: Global,
    loader: &mut PlanLoader<D>,
    shapes: &Shapes,
    pin: WritePin<RoutineBody>,
) -> Result<(), Failure>
    requires writes { IsWriting loader.old pin.pid }
    requires stated { HasStated loader.old pin.pid (2 * charge_in_bytes (arc_value pin.body).routine) }
    ensures ok { IfOk result (λ _. Rewritten D.faults loader.old loader.new pin.pid (simplify (arc_value pin.body).routine)) }
    ensures err { IfErr result (λ f. Stops D.faults (RewriteCause simplify shapes.now pin.pid (arc_value pin.body).routine loader.old.core.limit
        (D.faults loader.old.disk) (D.faults loader.new.disk)) loader.old loader.new f) }
{
    simplify_keeps();
    match simplified(alloc, &pin.body.routine, shapes) {
        Ok(body) => put_back(alloc, loader, pin, body, ()),
        Err(unmade) => {
            let WritePin { pid, body: _ } = pin;
            Err(stop(loader, pid, unmade))
        }
    }
}

/// At any moment the loader stands for its contents.
pub fn stands<D: Disk + Drop>(loader: &PlanLoader<D>)
    ensures { StandsFor (λ b. charge_in_bytes b.routine) (λ b. compact b.routine) (λ b. IsRoutine b.routine) D.bytes D.reach D.honest loader.now }
{
    let _ = loader.failure();
}

/// Stops the pools for want of a routine's changed form.
pub(crate) fn stop<D: Disk + Drop>(loader: &mut PlanLoader<D>, pid: u32, unmade: Unmade) -> Failure
    requires worker { 0 < length loader.old.core.hands }
    ensures same { result ≡ failure_of pid unmade }
    ensures failed { Fails loader.old 0 (failure_of pid unmade) loader.new }
{
    let failure = match unmade {
        Unmade::Unfit => Failure::Unfit { pid },
        Unmade::Memory => Failure::Memory,
    };
    loader.fail(0, failure, None);
    failure
}

/// The simplified form of a routine, as a body.
fn simplified(
    alloc: Global,
    r: &Routine,
    shapes: &Shapes,
) -> Result<Arc<RoutineBody, Global>, Unmade>
    ensures ok { IfOk result (λ b. (arc_value b).routine ≡ simplify r.now) }
    ensures err { result ≡ Err Unmade.Unfit → IsValid shapes.now r.now → ⊥ }
{
    if validate(r, shapes).is_some() {
        return Err(Unmade::Unfit);
    }
    match made(alloc, r) {
        Ok(body) => Ok(body),
        Err(_) => Err(Unmade::Memory),
    }
}

/// The simplified form of a valid routine, as a body.
fn made(alloc: Global, r: &Routine) -> Result<Arc<RoutineBody, Global>, AllocError>
    requires { IsValidRoutine r.now }
    ensures { IfOk result (λ b. (arc_value b).routine ≡ simplify r.now) }
{
    let routine = simplify(alloc, r)?;
    let body = Arc::new(alloc, RoutineBody { routine })?;
    Ok(body)
}
