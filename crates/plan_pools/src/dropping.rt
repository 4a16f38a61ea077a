//! Dead routines, whose pools go.
ghost use Rattle.std.specs.Prelude.{◌≡◌, nat_eq, IsSome};
ghost use Rattle.std.specs.List.{AllByRecursion, IsDistinct};
ghost use Rattle.il_core.specs.Program.{main_pid};
ghost use Rattle.il_core.specs.declared.program.IlProgram.{IlProgram as ProgramData};
ghost use Rattle.il_laws.specs.Reach.{pruned};
ghost use Rattle.naim_loader.specs.Paged.{kept_at};
ghost use Rattle.one_owner.specs.Alone.{IsResting};
ghost use Rattle.plan_pools.specs.Contents.{IsContents};
ghost use Rattle.plan_pools.specs.Passes.{Drops};
ghost use Rattle.plan_laws.specs.Dead.{dead_routines};
ghost use Rattle.plan_laws.specs.Summary.{summaries};

use crate::pools::PlanLoader;
use one_owner::remove_pool;
use outside::Disk;
use plan_laws::dead_known;

/// Takes the pools of these PIDs away. Where they are the dead routines of the program that the pools hold, the pruned program
/// is left. It can't fail, and takes constant time for each.
pub fn drop_all<D: Disk + Drop>(loader: &mut PlanLoader<D>, pids: &[u32])
    requires rests { IsResting loader.old }
    requires present { AllByRecursion (λ p. IsSome (kept_at loader.old p)) pids.now }
    requires differ { IsDistinct nat_eq pids.now }
    ensures drops { Drops D.faults pids.now loader.old loader.new }
    ensures pruned { (p : ProgramData) → IsContents loader.old p → pids.now ≡ dead_routines (summaries p) (main_pid p.shapes)
        → IsContents loader.new (pruned p) }
{
    dead_known();
    for pid in pids {
        remove_pool(loader, *pid);
    }
}
