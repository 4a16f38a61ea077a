//! Routines that take the place of others in their pools.
ghost use Rattle.std.specs.Prelude.{◌≡◌, ◌≤◌, ◌^◌, length, IfErr, IfOk, IsSome};
ghost use Rattle.std.specs.Arc.{arc_value};
ghost use Rattle.compact_form.specs.Compact.{compact};
ghost use Rattle.il_core.specs.Size.{charge as charge_in_bytes};
ghost use Rattle.naim_loader.specs.Paged.{kept_at};
ghost use Rattle.one_owner.specs.Alone.{IsResting};
ghost use Rattle.plan_pools.specs.Passes.{ChangesOne};
ghost use Rattle.plan_pools.specs.Stopping.{StopsInlining};

use crate::pools::PlanLoader;
use crate::simplifying::{Unmade, stop};
use compact_form::RoutineBody;
use il_core::Routine;
use naim_core::Failure;
use one_owner::{put_back, take_to_write};
use outside::Disk;
use pool_laws::Poolable;
use std::alloc::Global;
use std::sync::Arc;

/// Puts a routine in the place of a pool's. The error is the failure that the loader keeps from then on: `TooSmall` where its compact
/// form is longer than the limit, or one of the disk or of memory. It takes what bringing the old one back and making room takes, and
/// time in proportion to the routine.
pub(crate) fn replace<D: Disk + Drop>(
    alloc: Global,
    loader: &mut PlanLoader<D>,
    pid: u32,
    routine: Routine,
) -> Result<(), Failure>
    requires rests { IsResting loader.old }
    requires present { IsSome (kept_at loader.old pid) }
    ensures ok { IfOk result (λ _. ChangesOne D.reach D.honest D.faults (λ _. routine) pid loader.old loader.new) }
    ensures err { IfErr result (λ f. StopsInlining D.reach D.honest D.faults (λ q. ⊥) (λ q n. (q ≡ pid) × (n ≡ length (compact routine)))
        loader.old loader.new f) }
{
    match Arc::new(alloc, RoutineBody { routine }) {
        Ok(body) => put_in(alloc, loader, pid, body),
        Err(_) => Err(stop(loader, pid, Unmade::Memory)),
    }
}

/// Puts a body in the place of a pool's, with a room of twice its charge.
fn put_in<D: Disk + Drop>(
    alloc: Global,
    loader: &mut PlanLoader<D>,
    pid: u32,
    body: Arc<RoutineBody, Global>,
) -> Result<(), Failure>
    requires rests { IsResting loader.old }
    requires present { IsSome (kept_at loader.old pid) }
    ensures ok { IfOk result (λ _. ChangesOne D.reach D.honest D.faults (λ _. (arc_value body).routine) pid loader.old loader.new) }
    ensures err { IfErr result (λ f. StopsInlining D.reach D.honest D.faults (λ q. ⊥) (λ q n. (q ≡ pid) × (n ≡ length (compact (arc_value body).routine)))
        loader.old loader.new f) }
{
    let room = 2 * charge_of(&body);
    match take_to_write(alloc, loader, pid, room) {
        Ok(pin) => put_back(alloc, loader, pin, body, ()),
        Err(failure) => Err(failure),
    }
}

/// The charge of a body.
fn charge_of(body: &RoutineBody) -> u64
    ensures charge { result ≡ charge_in_bytes body.now.routine }
    ensures small { result ≤ 2 ^ 40 }
    ensures form { length (compact body.now.routine) ≤ result }
{
    body.charge()
}
