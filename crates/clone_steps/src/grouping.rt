//! The groups that are accepted in a program in pools.
ghost use Rattle.std.specs.Prelude.{◌≡◌, [], ℕ, map, IfErr, IfOk};
ghost use Rattle.clone_steps.specs.Sending.{AreGroupsOf};
ghost use Rattle.one_owner.specs.Alone.{IsResting};
ghost use Rattle.plan_pools.specs.Contents.{HavePools};
ghost use Rattle.plan_pools.specs.Planning.{StopsMaking};
ghost use Rattle.plan_pools.specs.Printing.{Rests};

use clone_groups::{Group, group};
use clone_pools::Progress;
use inline_steps::summarise_linked;
use naim_core::Failure;
use outside::Disk;
use plan_pools::{PlanLoader, stop};
use std::alloc::Global;

/// The groups that are accepted under this limit of the cost. Over a trusted disk that holds a state of the plan they are that
/// state's. The error is the failure that the loader keeps from then on: as for `summarise_linked`, or `Memory`. It takes what
/// `summarise_linked` and `group` take.
pub(crate) fn accepted_groups<D: Disk + Drop>(
    alloc: Global,
    loader: &mut PlanLoader<D>,
    progress: &Progress,
    main: u32,
    limit: u64,
) -> Result<Vec<Group>, Failure>
    requires rests { IsResting loader.old }
    requires pools { HavePools loader.old progress.now.shapes }
    ensures seen { IfOk result (λ _. Rests D.reach D.honest D.faults loader.old loader.new) }
    ensures groups { IfOk result (λ v. AreGroupsOf D.reach D.honest D.faults main limit v.items loader.new progress.now) }
    ensures err { IfErr result (λ f. StopsMaking D.reach D.honest D.faults (λ p. []) progress.now.shapes main loader.old loader.new f) }
{
    match summarise_linked(alloc, loader, &progress.shapes) {
        Ok(graph) => {
            match group(
                alloc,
                graph.summaries(),
                &progress.table,
                main,
                progress.next,
                limit,
            ) {
                Ok(groups) => Ok(groups),
                Err(_) => Err(stop(loader, Failure::Memory)),
            }
        }
        Err(failure) => Err(failure),
    }
}
