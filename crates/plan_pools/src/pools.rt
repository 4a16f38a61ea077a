//! Routines in pools.
ghost use Rattle.std.specs.Prelude.{◌≡◌, ◌<◌, length, None, Err, IfErr, IfOk};
ghost use Rattle.naim_core.specs.declared.event.Failure.TheVariants as failure;
ghost use Rattle.naim_loader.specs.Paged.{kept_at};
ghost use Rattle.compact_form.specs.Compact.{compact};
ghost use Rattle.one_owner.specs.Alone.{IsResting};
ghost use Rattle.one_owner.specs.Answers.{Places};
ghost use Rattle.one_owner.specs.Causes.{PlaceCause};
ghost use Rattle.one_owner.specs.Going.{Stops};

use compact_form::RoutineBody;
use il_core::Routine;
use naim_core::Failure;
use naim_loader::Loader;
use one_owner::place;
use outside::Disk;
use std::alloc::Global;

/// A loader of routines.
pub type PlanLoader<D> = Loader<RoutineBody, (), D>;

/// Adds a routine: a pool of its PID that has it. The error is the failure that the loader keeps from then on, which has
/// taken no pool: `TooSmall` exactly where the routine's compact form is longer than the limit, `Repository` where the
/// disk failed, or `Memory`. It takes time in proportion to the routine, and what making room takes.
pub fn add_routine<D: Disk + Drop>(
    alloc: Global,
    loader: &mut PlanLoader<D>,
    r: Routine,
) -> Result<(), Failure>
    requires rests { IsResting loader.old }
    requires absent { kept_at loader.old r.pid ≡ None }
    requires room { length loader.old.core.pools < 4096 }
    ensures ok { IfOk result (λ _. Places D.faults loader.old loader.new r.pid (record { routine = r }) tt) }
    ensures err { IfErr result (λ f. Stops D.faults (PlaceCause (D.faults loader.old.disk) (D.faults loader.new.disk) r.pid (length (compact r))
        loader.old.core.limit) loader.old loader.new f) }
    ensures too_small { loader.old.core.limit < length (compact r) → result ≡ Err (failure.TooSmall r.pid (length (compact r)) loader.old.core.limit) }
{
    let pid = r.pid;
    place(alloc, loader, pid, RoutineBody { routine: r }, ())
}
