//! Callees that are read from their pools and spliced into a caller.
ghost use Rattle.std.specs.Prelude.{◌≡◌, [], Err, IfErr, IfOk, Some};
ghost use Rattle.std.specs.Arc.{arc_value};
ghost use Rattle.il_core.specs.Valid.{IsValid};
ghost use Rattle.il_laws.specs.Inline.{inlined};
ghost use Rattle.il_laws.specs.Splice.{splice};
ghost use Rattle.naim_loader.specs.Paged.{content_at, IsTrusted};
ghost use Rattle.one_owner.specs.Alone.{IsReading, IsResting};
ghost use Rattle.one_owner.specs.Answers.{GivesBack};
ghost use Rattle.plan_pools.specs.Contents.{routine_in};
ghost use Rattle.plan_pools.specs.Printing.{Rests};
ghost use Rattle.plan_laws.specs.Inlining.{body_for};
ghost use Rattle.plan_pools.specs.Accepting.{bodies_at};
ghost use Rattle.plan_pools.specs.Fitting.{AreFit, FitsAt};
ghost use Rattle.plan_pools.specs.Stopping.{StopsInlining};

use crate::pools::PlanLoader;
use crate::simplifying::{Unmade, stop};
use crate::sites::CalledSite;
use compact_form::RoutineBody;
use il_check::validate;
use il_core::{Routine, Shapes};
use inliner::{SpliceFault, splice_owned};
use naim_core::Failure;
use naim_loader::ReadPin;
use one_owner::{give_back, take};
use outside::Disk;
use std::alloc::Global;

/// The caller with what stands at the callees of these sites, from the last one to the first. Over a trusted disk the pools
/// have what they had. The error is the failure that the loader keeps from then on: `Unfit` with the caller's PID where a callee
/// or the caller with it isn't valid with the shapes or passes a limit of the language, or one of the disk or of memory. For each
/// site it takes time in proportion to the caller as it is by then and to the callee, and what bringing the callee back and making
/// room takes.
pub(crate) fn splice_all<D: Disk + Drop>(
    alloc: Global,
    loader: &mut PlanLoader<D>,
    shapes: &Shapes,
    caller: Routine,
    sites: Vec<CalledSite>,
) -> Result<Routine, Failure>
    requires rests { IsResting loader.old }
    requires valid { IsValid shapes.now caller }
    ensures ok { IfOk result (λ _. Rests D.reach D.honest D.faults loader.old loader.new) }
    ensures routine { IsTrusted D.reach D.honest loader.old → IfOk result (λ r. r ≡ inlined caller (bodies_at (routine_in loader.old) sites.items)) }
    ensures err { IfErr result (λ f. StopsInlining D.reach D.honest D.faults
        (λ q. IsTrusted D.reach D.honest loader.old → AreFit shapes.now caller (bodies_at (routine_in loader.old) sites.items) → ⊥) (λ q n. ⊥)
        loader.old loader.new f) }
{
    let mut routine = caller;
    let mut left = sites;
    while let Some(called) = left.pop() {
        routine = match splice_in(alloc, loader, shapes, routine, called) {
            Ok(next) => next,
            Err(failure) => return Err(failure),
        };
    }
    Ok(routine)
}

/// The caller with what stands at the callee of a site.
fn splice_in<D: Disk + Drop>(
    alloc: Global,
    loader: &mut PlanLoader<D>,
    shapes: &Shapes,
    caller: Routine,
    called: CalledSite,
) -> Result<Routine, Failure>
    requires rests { IsResting loader.old }
    requires valid { IsValid shapes.now caller }
    ensures ok { IfOk result (λ _. Rests D.reach D.honest D.faults loader.old loader.new) }
    ensures valid { IfOk result (λ r. IsValid shapes.now r) }
    ensures routine { IsTrusted D.reach D.honest loader.old
        → IfOk result (λ r. r ≡ inlined caller (body_for (λ q. q) called.site (routine_in loader.old called.callee) [])) }
    ensures err { IfErr result (λ f. StopsInlining D.reach D.honest D.faults
        (λ q. IsTrusted D.reach D.honest loader.old → AreFit shapes.now caller (body_for (λ q. q) called.site (routine_in loader.old called.callee) []) → ⊥)
        (λ q n. ⊥) loader.old loader.new f) }
{
    if !loader.has(called.callee) {
        return Ok(caller);
    }
    match take(alloc, loader, called.callee) {
        Ok(pin) => splice_pin(alloc, loader, shapes, caller, called.site, pin),
        Err(failure) => Err(failure),
    }
}

/// The caller with a callee that is read, which is given back.
fn splice_pin<D: Disk + Drop>(
    alloc: Global,
    loader: &mut PlanLoader<D>,
    shapes: &Shapes,
    caller: Routine,
    site: u32,
    pin: ReadPin<RoutineBody>,
) -> Result<Routine, Failure>
    requires reads { IsReading loader.old pin.pid }
    requires content { content_at loader.old pin.pid ≡ Some (arc_value pin.body) }
    requires valid { IsValid shapes.now caller }
    ensures ok { IfOk result (λ _. GivesBack D.faults loader.old loader.new) }
    ensures valid { IfOk result (λ r. IsValid shapes.now r) }
    ensures routine { IfOk result (λ r. r ≡ splice caller site (arc_value pin.body).routine) }
    ensures err { IfErr result (λ f. StopsInlining D.reach D.honest D.faults
        (λ q. FitsAt shapes.now caller (record { site = site; body = (arc_value pin.body).routine }) → ⊥) (λ q n. ⊥) loader.old loader.new f) }
{
    let pid = caller.pid;
    match spliced(alloc, caller, site, &pin.body.routine, shapes) {
        Ok(routine) => match give_back(alloc, loader, pin) {
            Ok(()) => Ok(routine),
            Err(failure) => Err(failure),
        },
        Err(unmade) => {
            let ReadPin { pid: _, body: _ } = pin;
            Err(stop(loader, pid, unmade))
        }
    }
}

/// The caller with a callee at a site, if both it and the callee are valid with the shapes.
fn spliced(
    alloc: Global,
    caller: Routine,
    site: u32,
    callee: &Routine,
    shapes: &Shapes,
) -> Result<Routine, Unmade>
    requires { IsValid shapes.now caller }
    ensures routine { IfOk result (λ r. r ≡ splice caller site callee.now) }
    ensures valid { IfOk result (λ r. IsValid shapes.now r) }
    ensures unfit { result ≡ Err Unmade.Unfit → FitsAt shapes.now caller (record { site = site; body = callee.now }) → ⊥ }
{
    if validate(callee, shapes).is_some() {
        return Err(Unmade::Unfit);
    }
    match splice_owned(alloc, caller, site, callee) {
        Ok(routine) => valid_one(routine, shapes),
        Err(fault) => Err(unmade_for(fault)),
    }
}

/// The routine, if it is valid with the shapes.
fn valid_one(routine: Routine, shapes: &Shapes) -> Result<Routine, Unmade>
    ensures routine { IfOk result (λ r. r ≡ routine) }
    ensures valid { IfOk result (λ r. IsValid shapes.now r) }
    ensures unfit { result ≡ Err Unmade.Unfit → IsValid shapes.now routine → ⊥ }
    ensures memory { result ≡ Err Unmade.Memory → ⊥ }
{
    if validate(&routine, shapes).is_some() {
        return Err(Unmade::Unfit);
    }
    Ok(routine)
}

/// Why a callee isn't spliced, as why the routine isn't made.
fn unmade_for(fault: SpliceFault) -> Unmade
    ensures { result ≡ Unmade.Unfit → fault ≡ SpliceFault.TooLarge }
{
    match fault {
        SpliceFault::TooLarge => Unmade::Unfit,
        SpliceFault::Memory => Unmade::Memory,
    }
}
