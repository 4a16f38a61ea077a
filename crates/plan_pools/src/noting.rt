//! Notes of what the pools have, in the trail.
ghost use Rattle.std.specs.Prelude.{◌∷◌, [], ℕ, List};
ghost use Rattle.il_core.specs.declared.shape.ShapeRow.{ShapeRow as RowData};
ghost use Rattle.one_owner.specs.Alone.{IsResting};
ghost use Rattle.plan_pools.specs.Contents.{HavePools};
ghost use Rattle.plan_pools.specs.Planning.{IsMade};

use crate::pools::PlanLoader;
use outside::Disk;

/// Notes the program that the pools have. It takes constant time and no memory.
pub fn note<D: Disk + Drop>(loader: &mut PlanLoader<D>)
    requires rests { IsResting loader.old }
    ensures made { (rows : List RowData) (main : ℕ) → HavePools loader.old rows
        → IsMade D.reach D.honest D.faults (λ p. p ∷ []) (λ p. p) rows main loader.old loader.new rows }
    ensures rests { IsResting loader.new }
    ensures pools { (rows : List RowData) → HavePools loader.old rows → HavePools loader.new rows }
{
    loader.mark();
}
