//! Failures, and what is known of a loader at any moment.
ghost use Rattle.std.specs.Prelude.{◌≡◌, ◌<◌, length};
ghost use Rattle.naim_core.specs.Sound.{IsSound};
ghost use Rattle.naim_loader.specs.Calls.{ComesBack, Fails, brought, disk_with};
ghost use Rattle.naim_loader.specs.Contents.{StandsFor};

use naim_core::Failure;
use naim_loader::{Loader, Move};
use outside::Disk;
use pool_laws::Poolable;

/// Tells the loader a failure, and gives back the move that was under way. It answers the failure.
pub(crate) fn stop<T: Poolable + Drop, B: Drop, D: Disk + Drop>(
    loader: &mut Loader<T, B, D>,
    failure: Failure,
    m: Option<Move<T, D>>,
) -> Failure
    requires worker { 0 < length loader.old.core.hands }
    requires disk { ComesBack D.reach D.honest loader.old (disk_with m) }
    ensures same { result ≡ failure }
    ensures failed { Fails (brought loader.old (disk_with m)) 0 failure loader.new }
{
    loader.fail(0, failure, m);
    failure
}

/// At any moment the loader stands for its contents.
pub(crate) fn stands<T: Poolable + Drop, B: Drop, D: Disk + Drop>(loader: &Loader<T, B, D>)
    ensures { StandsFor T.charge_of T.encoding T.is_value D.bytes D.reach D.honest loader.now }
{
    let _ = loader.failure();
}
