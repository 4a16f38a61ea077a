//! The routines of a program, on their way to the pools of a loader.
ghost use Rattle.std.specs.Prelude.{◌≡◌, ◌≤◌, ◌^◌, ℕ, [], true};
ghost use Rattle.il_core.specs.Limits.{max_size};
ghost use Rattle.naim_loader.specs.Paged.{IsGood, IsTrusted, fresh};
ghost use Rattle.hlo_cmd.specs.Pools.{IsReady, inserted};
ghost use Rattle.hlo_cmd.specs.Reports.{report_of};

use crate::report::Report;
use c_module::{Refused, RoutineTaker};
use il_core::Routine;
use naim_core::Failure;
use outside::Disk;
use plan_driver::{PlanLoader, add_routine};
use std::alloc::Global;

/// A loader that takes the routines of a program as they are lowered, with their PIDs and their cost so far, and the cost of
/// the program that is planned of them.
pub(crate) struct Paging<D: Disk + Drop> {
    alloc: Global,
    pub(crate) loader: PlanLoader<D>,
    pub(crate) pids: Vec<u32>,
    pub(crate) cost: u64,
    pub(crate) planned: u64,
}

impl<D: Disk + Drop> Paging<D> {
    /// A loader that has taken none yet.
    pub(crate) fn new(alloc: Global, loader: PlanLoader<D>) -> Paging<D>
        requires { (limit : ℕ) × ((disk : D) × (loader ≡ fresh limit 1 disk)) }
        ensures loader { result.loader ≡ loader }
        ensures ready { IsReady result.loader result.pids.items result.cost }
        ensures none { inserted result.loader ≡ [] }
    {
        Paging {
            alloc,
            loader,
            pids: Vec::new(alloc),
            cost: 0,
            planned: 0,
        }
    }

    /// Ends the loader: the disk, and the report of what it did and of the programs' costs.
    pub(crate) fn close(self) -> (D, Report)
        requires home { self.loader.home ≡ true }
        ensures disk { result.0 ≡ self.loader.disk }
        ensures report { result.1 ≡ report_of self.loader.counters self.cost self.planned }
        ensures within { result.1.under_peak ≤ self.loader.core.limit }
        ensures good { IsTrusted D.reach D.honest self.loader → IsGood D.reach D.honest self.loader.core.limit result.0 }
    {
        let Paging {
            alloc: _,
            loader,
            pids: _,
            cost,
            planned,
        } = self;
        let report = Report::of(loader.counters(), cost, planned);
        let (disk, _) = loader.close();
        (disk, report)
    }
}

impl<D: Disk + Drop> RoutineTaker for Paging<D> {
    ghost use Rattle.hlo_cmd.specs.Pools.{GoesOn, IsReady, RefusesRoutine, inserted};
    ghost use Rattle.hlo_cmd.specs.Keeping.{goes_on, stays};

    ghost taken = { λ p. inserted p.loader };

    ghost ready = { λ p. IsReady p.loader p.pids.items p.cost };

    ghost keeps = { λ a b. GoesOn D.faults a.loader b.loader };

    ghost refuses = { λ a b r. RefusesRoutine D.faults a.loader b.loader r };

    ghost stays = { λ p. stays D.faults p.loader };

    ghost goes_on = { λ a b c h k. goes_on D.faults a.loader b.loader c.loader h k };

    fn take(&mut self, routine: Routine) -> Result<(), Refused> {
        let size = routine.size();
        match self.pids.push(routine.pid) {
            Ok(()) => match add_routine(self.alloc, &mut self.loader, routine) {
                Ok(()) => {
                    self.cost += square(size);
                    Ok(())
                }
                Err(_) => Err(Refused),
            },
            Err(_) => {
                self.loader.fail(0, Failure::Memory, None);
                Err(Refused)
            }
        }
    }
}

/// The square of a routine's size.
fn square(size: u32) -> u64
    requires { size ≤ max_size }
    ensures value { result ≡ size ^ 2 }
    ensures bound { result ≤ 2 ^ 32 }
{
    u64::from(size) * u64::from(size)
}
