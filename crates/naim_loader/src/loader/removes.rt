//! Pools that go.
ghost use Rattle.std.specs.Prelude.{◌≡◌, true, false, Some, None, is_some};
ghost use Rattle.naim_core.specs.Sound.{IsSound};
ghost use Rattle.naim_core.specs.State.{pool_at, is_moving, is_pinned};
ghost use Rattle.naim_core.specs.declared.pool.Pool.{Pool as PoolData};
ghost use Rattle.naim_loader.specs.Calls.{Removes};

use crate::counters::step;
use crate::loader::Loader;
use naim_core::Event;
use outside::Disk;
use pool_laws::Poolable;

impl<T: Poolable + Drop, B: Drop, D: Disk + Drop> Loader<T, B, D> {
    /// Removes a pool that nobody holds, outside a wave. Once a failure is kept, nothing changes.
    /// Constant time.
    pub fn remove(&mut self, pid: u32)
        requires pool { (x : PoolData) × (pool_at self.old.core.pools pid ≡ Some x) × (is_moving x.stage ≡ false) × (is_pinned x.stage ≡ false) }
        requires closed { self.old.core.in_wave ≡ false }
        ensures stopped { is_some self.old.core.failure ≡ true → self.new ≡ self.old }
        ensures removes { self.old.core.failure ≡ None → Removes self.old self.new pid }
        ensures sound { IsSound self.new.core }
    {
        let Ok(()) = step(&mut self.core, &mut self.counters, Event::Remove { pid }) else {
            return;
        };
        self.table.remove(pid);
    }
}
