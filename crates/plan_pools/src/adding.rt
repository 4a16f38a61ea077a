//! A clone that is added to the routines in pools.
ghost use Rattle.std.specs.Prelude.{◌≡◌, ◌<◌, ◌++◌, ◌∷◌, [], ℕ, length, Err, IfErr, IfOk, IsSome, None, Some};
ghost use Rattle.std.specs.Arc.{arc_value};
ghost use Rattle.std.specs.List.{AllByRecursion};
ghost use Rattle.plan_pools.specs.Adding.{Adds, AddsRow, HasClone, MakeCause, StopsAdding, clone_from, clone_of, refusal_of, row_of};
ghost use Rattle.compact_form.specs.Compact.{compact};
ghost use Rattle.il_core.specs.Limits.{IsWithinLimits};
ghost use Rattle.il_core.specs.Routine.{RoutineParts};
ghost use Rattle.il_core.specs.Valid.{IsValid};
ghost use Rattle.il_core.specs.declared.program.IlProgram.{IlProgram as ProgramData};
ghost use Rattle.naim_loader.specs.Paged.{content_at, kept_at, IsTrusted};
ghost use Rattle.one_owner.specs.Alone.{IsReading, IsResting};
ghost use Rattle.one_owner.specs.Answers.{GivesBack, Places};
ghost use Rattle.one_owner.specs.Causes.{PlaceCause};
ghost use Rattle.one_owner.specs.Going.{Stops};
ghost use Rattle.plan_pools.specs.Contents.{HavePools, IsContents, routine_in};
ghost use Rattle.plan_pools.specs.Printing.{Rests};

use crate::clones::NewClone;
use crate::pools::{PlanLoader, add_routine};
use crate::stopping::stop;
use clone_groups::make_clone;
use compact_form::RoutineBody;
use hlo_num::Name;
use il_check::validate;
use il_core::{Routine, Shape, ShapeRow, Shapes};
use inliner::SpliceFault;
use naim_core::Failure;
use naim_loader::ReadPin;
use one_owner::{give_back, take};
use outside::Disk;
use std::alloc::{AllocError, Global};

/// Adds a clone, whose PID is above all others: a pool that has it, and a row with its name. Over a trusted disk, where the
/// pools held a program with these shapes, they hold it with that clone from then on, and the shapes that are answered are its
/// shapes. The error is the failure that the loader keeps from then on, which has taken no pool: `Unfit` of the callee where
/// its routine isn't valid with the shapes, `Unfit` of the clone where that passes a limit of the language, `TooSmall` where
/// the clone's compact form is longer than the limit, or one of the disk or of memory. It takes time and memory in proportion
/// to the callee's routine and the constants, and what bringing it back and making room takes.
pub fn add_clone<D: Disk + Drop>(
    alloc: Global,
    loader: &mut PlanLoader<D>,
    shapes: Shapes,
    wanted: NewClone,
) -> Result<Shapes, Failure>
    requires rests { IsResting loader.old }
    requires pools { HavePools loader.old shapes }
    requires present { IsSome (kept_at loader.old wanted.callee) }
    requires absent { kept_at loader.old wanted.pid ≡ None }
    requires above { AllByRecursion (λ row. row.pid < wanted.pid) shapes }
    requires room { length loader.old.core.pools < 4096 }
    ensures ok { IfOk result (λ _. Adds D.reach D.honest D.faults (clone_of wanted) loader.old loader.new) }
    ensures row { IfOk result (λ rows. AddsRow wanted.pid wanted.name shapes rows) }
    ensures pools { IfOk result (λ rows. HavePools loader.new rows) }
    ensures program { (p : ProgramData) → IsTrusted D.reach D.honest loader.old → p.shapes ≡ shapes → IsContents loader.old p
        → IfOk result (λ rows. HasClone p (clone_of wanted) loader.new rows) }
    ensures err { IfErr result (λ f. StopsAdding D.reach D.honest D.faults shapes (clone_of wanted) loader.old loader.new f) }
{
    match read_clone(alloc, loader, &shapes, &wanted) {
        Ok(clone) => put_clone(alloc, loader, shapes, clone, wanted),
        Err(failure) => Err(failure),
    }
}

/// The clone, of the callee's routine, which is read and given back.
fn read_clone<D: Disk + Drop>(
    alloc: Global,
    loader: &mut PlanLoader<D>,
    shapes: &Shapes,
    wanted: &NewClone,
) -> Result<Routine, Failure>
    requires rests { IsResting loader.old }
    requires present { IsSome (kept_at loader.old wanted.now.callee) }
    ensures ok { IfOk result (λ _. Rests D.reach D.honest D.faults loader.old loader.new) }
    ensures pid { IfOk result (λ q. q.pid ≡ wanted.now.pid) }
    ensures clone { IsTrusted D.reach D.honest loader.old → (r : RoutineParts) → routine_in loader.old wanted.now.callee ≡ Some r
        → IfOk result (λ q. q ≡ clone_from (clone_of wanted.now) r) }
    ensures err { IfErr result (λ f. StopsAdding D.reach D.honest D.faults shapes.now (clone_of wanted.now) loader.old loader.new f) }
{
    match take(alloc, loader, wanted.callee) {
        Ok(pin) => clone_pin(alloc, loader, shapes, wanted, pin),
        Err(failure) => Err(failure),
    }
}

/// The clone, of the callee's routine that is read, which is given back.
fn clone_pin<D: Disk + Drop>(
    alloc: Global,
    loader: &mut PlanLoader<D>,
    shapes: &Shapes,
    wanted: &NewClone,
    pin: ReadPin<RoutineBody>,
) -> Result<Routine, Failure>
    requires reads { IsReading loader.old pin.pid }
    requires content { content_at loader.old pin.pid ≡ Some (arc_value pin.body) }
    ensures ok { IfOk result (λ _. GivesBack D.faults loader.old loader.new) }
    ensures clone { IfOk result (λ q. q ≡ clone_from (clone_of wanted.now) (arc_value pin.body).routine) }
    ensures err { IfErr result (λ f. Stops D.faults (MakeCause shapes.now (clone_of wanted.now) (arc_value pin.body).routine (D.faults loader.old.disk)
        (D.faults loader.new.disk)) loader.old loader.new f) }
{
    match made(alloc, &pin.body.routine, shapes, wanted) {
        Ok(clone) => match give_back(alloc, loader, pin) {
            Ok(()) => Ok(clone),
            Err(failure) => Err(failure),
        },
        Err(failure) => {
            let ReadPin { pid: _, body: _ } = pin;
            Err(stop(loader, failure))
        }
    }
}

/// The clone of a routine, if that is valid with the shapes and the clone keeps the limits.
fn made(alloc: Global, r: &Routine, shapes: &Shapes, wanted: &NewClone) -> Result<Routine, Failure>
    ensures ok { IfOk result (λ q. q ≡ clone_from (clone_of wanted.now) r.now) }
    ensures err { (before now : ℕ) → IfErr result (λ f. MakeCause shapes.now (clone_of wanted.now) r.now before now f) }
{
    if validate(r, shapes).is_some() {
        return Err(Failure::Unfit { pid: wanted.callee });
    }
    match make_clone(alloc, r, wanted.pid, wanted.fixed.as_slice()) {
        Ok(clone) => Ok(clone),
        Err(fault) => Err(refusal_of(fault, wanted.pid)),
    }
}

/// What it is to the pools that a clone isn't made.
fn refusal_of(fault: SpliceFault, pid: u32) -> Failure
    ensures { result ≡ refusal_of fault pid }
{
    match fault {
        SpliceFault::TooLarge => Failure::Unfit { pid },
        SpliceFault::Memory => Failure::Memory,
    }
}

/// Puts a clone in, as a pool and as a row.
fn put_clone<D: Disk + Drop>(
    alloc: Global,
    loader: &mut PlanLoader<D>,
    shapes: Shapes,
    clone: Routine,
    wanted: NewClone,
) -> Result<Shapes, Failure>
    requires rests { IsResting loader.old }
    requires pid { clone.pid ≡ wanted.pid }
    requires absent { kept_at loader.old wanted.pid ≡ None }
    requires above { AllByRecursion (λ row. row.pid < wanted.pid) shapes }
    requires room { length loader.old.core.pools < 4096 }
    ensures ok { IfOk result (λ _. Places D.faults loader.old loader.new wanted.pid (record { routine = clone }) tt) }
    ensures shapes { IfOk result (λ rows. rows ≡ shapes ++ row_of wanted.name clone ∷ []) }
    ensures err { IfErr result (λ f. Stops D.faults (PlaceCause (D.faults loader.old.disk) (D.faults loader.new.disk) wanted.pid (length (compact clone))
        loader.old.core.limit) loader.old loader.new f) }
{
    let NewClone { name, .. } = wanted;
    match with_row(shapes, row_of(&clone, name)) {
        Ok(shapes) => match add_routine(alloc, loader, clone) {
            Ok(()) => Ok(shapes),
            Err(failure) => Err(failure),
        },
        Err(_) => Err(stop(loader, Failure::Memory)),
    }
}

/// The row of a routine with that name.
fn row_of(r: &Routine, name: Name) -> ShapeRow
    ensures { result ≡ row_of name r.now }
{
    let shape = Shape::Routine {
        params: r.params,
        value: r.value,
    };
    ShapeRow {
        pid: r.pid,
        name,
        shape,
    }
}

/// The shapes with one row more, whose PID is above all others.
fn with_row(shapes: Shapes, row: ShapeRow) -> Result<Shapes, AllocError>
    requires { AllByRecursion (λ other. other.pid < row.pid) shapes }
    ensures { IfOk result (λ rows. rows ≡ shapes ++ row ∷ []) }
{
    let Shapes { mut rows } = shapes;
    rows.push(row)?;
    Ok(Shapes { rows })
}
