//! Routines with the callees of their accepted calls in them, made from what the pools have.
ghost use Rattle.std.specs.Prelude.{◌≡◌, Err, IfErr, IfOk, IsSome, Some};
ghost use Rattle.std.specs.Arc.{arc_value};
ghost use Rattle.il_core.specs.Routine.{RoutineParts};
ghost use Rattle.il_core.specs.Valid.{IsValid};
ghost use Rattle.naim_loader.specs.Paged.{content_at, kept_at, IsTrusted};
ghost use Rattle.one_owner.specs.Alone.{IsReading, IsResting};
ghost use Rattle.one_owner.specs.Answers.{GivesBack};
ghost use Rattle.plan_pools.specs.Contents.{routine_in};
ghost use Rattle.plan_pools.specs.Printing.{Rests};
ghost use Rattle.plan_pools.specs.Accepting.{bodies_at, is_accepted, sites_of, taken_in};
ghost use Rattle.plan_pools.specs.Fitting.{AreFit};
ghost use Rattle.plan_pools.specs.Stopping.{StopsInlining};

use crate::accepted::Accepted;
use crate::pools::PlanLoader;
use crate::simplifying::{Unmade, stop};
use crate::sites::{CalledSite, accepted_sites};
use crate::splices::splice_all;
use compact_form::RoutineBody;
use const_prop::copy_routine;
use il_check::validate;
use il_core::{Routine, Shapes};
use naim_core::Failure;
use naim_loader::ReadPin;
use one_owner::{give_back, take};
use outside::Disk;
use std::alloc::{AllocError, Global};

/// A copy of a caller, and its accepted sites.
#[derive(Drop)]
struct Caller {
    routine: Routine,
    sites: Vec<CalledSite>,
}

/// The routine of a PID with what stands at the callees of its accepted calls. Over a trusted disk the pools have what they had.
/// The errors are those of `splice_all`, and `Unfit` where the routine isn't valid with the shapes. It takes what bringing the
/// routine back and making room takes, a copy of it, and what `splice_all` takes.
pub(crate) fn grown<D: Disk + Drop>(
    alloc: Global,
    loader: &mut PlanLoader<D>,
    shapes: &Shapes,
    accepted: &Accepted,
    pid: u32,
) -> Result<Routine, Failure>
    requires rests { IsResting loader.old }
    requires present { IsSome (kept_at loader.old pid) }
    ensures ok { IfOk result (λ _. Rests D.reach D.honest D.faults loader.old loader.new) }
    ensures routine { IsTrusted D.reach D.honest loader.old → (r : RoutineParts) → routine_in loader.old pid ≡ Some r
        → IfOk result (λ x. x ≡ taken_in (is_accepted accepted.now) (routine_in loader.old) r) }
    ensures err { IfErr result (λ f. StopsInlining D.reach D.honest D.faults
        (λ q. IsTrusted D.reach D.honest loader.old → (r : RoutineParts) → routine_in loader.old pid ≡ Some r → IsValid shapes.now r
        → AreFit shapes.now r (bodies_at (routine_in loader.old) (sites_of (is_accepted accepted.now) r)) → ⊥) (λ q n. ⊥) loader.old loader.new f) }
{
    match caller_of(alloc, loader, shapes, accepted, pid) {
        Ok(caller) => {
            let Caller { routine, sites } = caller;
            splice_all(alloc, loader, shapes, routine, sites)
        }
        Err(failure) => Err(failure),
    }
}

/// A copy of the routine of a PID.
fn caller_of<D: Disk + Drop>(
    alloc: Global,
    loader: &mut PlanLoader<D>,
    shapes: &Shapes,
    accepted: &Accepted,
    pid: u32,
) -> Result<Caller, Failure>
    requires rests { IsResting loader.old }
    requires present { IsSome (kept_at loader.old pid) }
    ensures ok { IfOk result (λ _. Rests D.reach D.honest D.faults loader.old loader.new) }
    ensures valid { IfOk result (λ c. IsValid shapes.now c.routine) }
    ensures routine { IsTrusted D.reach D.honest loader.old → (r : RoutineParts) → routine_in loader.old pid ≡ Some r → IfOk result (λ c. c.routine ≡ r) }
    ensures sites { IfOk result (λ c. c.sites.items ≡ sites_of (is_accepted accepted.now) c.routine) }
    ensures err { IfErr result (λ f. StopsInlining D.reach D.honest D.faults
        (λ q. IsTrusted D.reach D.honest loader.old → (r : RoutineParts) → routine_in loader.old pid ≡ Some r → IsValid shapes.now r → ⊥) (λ q n. ⊥)
        loader.old loader.new f) }
{
    match take(alloc, loader, pid) {
        Ok(pin) => caller_in(alloc, loader, shapes, accepted, pin),
        Err(failure) => Err(failure),
    }
}

/// A copy of a routine that is read, which is given back.
fn caller_in<D: Disk + Drop>(
    alloc: Global,
    loader: &mut PlanLoader<D>,
    shapes: &Shapes,
    accepted: &Accepted,
    pin: ReadPin<RoutineBody>,
) -> Result<Caller, Failure>
    requires reads { IsReading loader.old pin.pid }
    requires content { content_at loader.old pin.pid ≡ Some (arc_value pin.body) }
    ensures ok { IfOk result (λ _. GivesBack D.faults loader.old loader.new) }
    ensures valid { IfOk result (λ c. IsValid shapes.now c.routine) }
    ensures routine { IfOk result (λ c. c.routine ≡ (arc_value pin.body).routine) }
    ensures sites { IfOk result (λ c. c.sites.items ≡ sites_of (is_accepted accepted.now) c.routine) }
    ensures err { IfErr result (λ f. StopsInlining D.reach D.honest D.faults (λ q. IsValid shapes.now (arc_value pin.body).routine → ⊥) (λ q n. ⊥)
        loader.old loader.new f) }
{
    match copied(alloc, &pin.body.routine, shapes, accepted) {
        Ok(caller) => match give_back(alloc, loader, pin) {
            Ok(()) => Ok(caller),
            Err(failure) => Err(failure),
        },
        Err(unmade) => {
            let ReadPin { pid, body: _ } = pin;
            Err(stop(loader, pid, unmade))
        }
    }
}

/// A copy of a routine, if it is valid with the shapes.
fn copied(
    alloc: Global,
    r: &Routine,
    shapes: &Shapes,
    accepted: &Accepted,
) -> Result<Caller, Unmade>
    ensures valid { IfOk result (λ c. IsValid shapes.now c.routine) }
    ensures routine { IfOk result (λ c. c.routine ≡ r.now) }
    ensures sites { IfOk result (λ c. c.sites.items ≡ sites_of (is_accepted accepted.now) c.routine) }
    ensures unfit { result ≡ Err Unmade.Unfit → IsValid shapes.now r.now → ⊥ }
{
    if validate(r, shapes).is_some() {
        return Err(Unmade::Unfit);
    }
    match copy_of(alloc, r, accepted) {
        Ok(caller) => Ok(caller),
        Err(_) => Err(Unmade::Memory),
    }
}

/// A copy of a routine, and its accepted sites.
fn copy_of(alloc: Global, r: &Routine, accepted: &Accepted) -> Result<Caller, AllocError>
    ensures routine { IfOk result (λ c. c.routine ≡ r.now) }
    ensures sites { IfOk result (λ c. c.sites.items ≡ sites_of (is_accepted accepted.now) r.now) }
{
    let sites = accepted_sites(alloc, r, accepted)?;
    let routine = copy_routine(alloc, r)?;
    Ok(Caller { routine, sites })
}
