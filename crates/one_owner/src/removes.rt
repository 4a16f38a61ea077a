//! Pools that go.
ghost use Rattle.std.specs.Prelude.{IsSome};
ghost use Rattle.naim_loader.specs.Paged.{kept_at};
ghost use Rattle.one_owner.specs.Alone.{IsResting};
ghost use Rattle.one_owner.specs.Answers.{TakesAway};

use crate::stops::stands;
use naim_loader::Loader;
use outside::Disk;
use pool_laws::Poolable;

/// Takes a pool away, with its value and its brief. It can't fail, and takes constant time.
pub fn remove_pool<T: Poolable + Drop, B: Drop, D: Disk + Drop>(
    loader: &mut Loader<T, B, D>,
    pid: u32,
)
    requires rests { IsResting loader.old }
    requires present { IsSome (kept_at loader.old pid) }
    ensures { TakesAway D.faults loader.old loader.new pid }
{
    stands(loader);
    loader.remove(pid);
}
