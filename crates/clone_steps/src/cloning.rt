//! Clones of accepted groups, with the calls sent to them.
ghost use Rattle.std.specs.Prelude.{◌≡◌, ◌∷◌, [], ℕ, IfErr, IfOk};
ghost use Rattle.clone_pools.specs.States.{IsReady, StateMade, StateStops};
ghost use Rattle.clone_steps.specs.Sending.{AreGroupsOf};
ghost use Rattle.plan_pools.specs.Cloning.{cloning_states, MayClone, sent, with_clones};

use crate::grouping::accepted_groups;
use crate::sending::send_calls;
use clone_groups::Group;
use clone_pools::{Progress, add_clones};
use il_core::Shapes;
use naim_core::Failure;
use outside::Disk;
use plan_pools::{PlanLoader, note};
use std::alloc::Global;

/// Gives the groups that are accepted under this limit of the cost their clones, and sends their calls there; the program is noted
/// once the clones are added, and again once the calls are sent. Where the pools held a state of the plan over a trusted disk, of
/// which clones may be made (`MayClone`), they hold the plan's state with the calls sent from then on. `names` are the first
/// program's shapes. The error is the failure that the loader keeps from then on: `Repository` where the disk's count rose,
/// `Damaged`, `Unreadable` and `Unfit` never over a trusted disk that holds such a state, `TooSmall` where the compact form of a new
/// clone or of a routine with calls sent is longer than the limit of the loader, or `Memory`. It takes what `summarise_linked`,
/// `group`, `add_clones`, `caller_moves` (with the next PID for its bound) and `retarget_program` take.
pub fn clone_program<D: Disk + Drop>(
    alloc: Global,
    loader: &mut PlanLoader<D>,
    names: &Shapes,
    main: u32,
    limit: u64,
    progress: Progress,
) -> Result<Progress, Failure>
    requires ready { IsReady loader.old progress }
    ensures made { IfOk result (λ y. StateMade D.reach D.honest D.faults main (MayClone names.now main limit) (cloning_states names.now main limit)
        (sent names.now main limit) loader.old progress loader.new y) }
    ensures err { IfErr result (λ f. StateStops D.reach D.honest D.faults main (MayClone names.now main limit) (cloning_states names.now main limit)
        loader.old progress loader.new f) }
{
    match accepted_groups(alloc, loader, &progress, main, limit) {
        Ok(groups) => clone_groups(alloc, loader, names, progress, groups.as_slice()),
        Err(failure) => Err(failure),
    }
}

/// Gives groups their clones, and sends their calls there.
fn clone_groups<D: Disk + Drop>(
    alloc: Global,
    loader: &mut PlanLoader<D>,
    names: &Shapes,
    progress: Progress,
    groups: &[Group],
) -> Result<Progress, Failure>
    requires ready { IsReady loader.old progress }
    ensures made { (main limit : ℕ) → AreGroupsOf D.reach D.honest D.faults main limit groups.now loader.old progress
        → IfOk result (λ y. StateMade D.reach D.honest D.faults main (MayClone names.now main limit) (cloning_states names.now main limit)
        (sent names.now main limit) loader.old progress loader.new y) }
    ensures err { (main limit : ℕ) → AreGroupsOf D.reach D.honest D.faults main limit groups.now loader.old progress
        → IfErr result (λ f. StateStops D.reach D.honest D.faults main (MayClone names.now main limit) (cloning_states names.now main limit)
        loader.old progress loader.new f) }
{
    match add_noted(alloc, loader, names, progress, groups) {
        Ok(added) => match send_calls(alloc, loader, &added.shapes, added.next, groups) {
            Ok(()) => Ok(added),
            Err(failure) => Err(failure),
        },
        Err(failure) => Err(failure),
    }
}

/// Gives groups their clones, and notes the program.
fn add_noted<D: Disk + Drop>(
    alloc: Global,
    loader: &mut PlanLoader<D>,
    names: &Shapes,
    progress: Progress,
    groups: &[Group],
) -> Result<Progress, Failure>
    requires ready { IsReady loader.old progress }
    ensures ready { IfOk result (λ y. IsReady loader.new y) }
    ensures made { (main limit : ℕ) → AreGroupsOf D.reach D.honest D.faults main limit groups.now loader.old progress
        → IfOk result (λ y. StateMade D.reach D.honest D.faults main (MayClone names.now main limit) (λ st. with_clones names.now main limit st ∷ [])
        (with_clones names.now main limit) loader.old progress loader.new y) }
    ensures err { (main limit : ℕ) → AreGroupsOf D.reach D.honest D.faults main limit groups.now loader.old progress
        → IfErr result (λ f. StateStops D.reach D.honest D.faults main (MayClone names.now main limit) (λ st. with_clones names.now main limit st ∷ [])
        loader.old progress loader.new f) }
{
    match add_clones(alloc, loader, names, progress, groups) {
        Ok(added) => {
            note(loader);
            Ok(added)
        }
        Err(failure) => Err(failure),
    }
}
