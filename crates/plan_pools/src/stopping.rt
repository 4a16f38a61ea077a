//! Pools that stop.
ghost use Rattle.std.specs.Prelude.{◌≡◌, ◌<◌, length};
ghost use Rattle.naim_loader.specs.Calls.{Fails};

use crate::pools::PlanLoader;
use naim_core::Failure;
use outside::Disk;

/// Stops the pools with a failure, which it answers.
pub fn stop<D: Disk + Drop>(loader: &mut PlanLoader<D>, failure: Failure) -> Failure
    requires worker { 0 < length loader.old.core.hands }
    ensures same { result ≡ failure }
    ensures failed { Fails loader.old 0 failure loader.new }
{
    loader.fail(0, failure, None);
    failure
}
