//! Room for bytes that are about to be placed: pools go one form further, the one used longest ago first.
ghost use Rattle.std.specs.Prelude.{◌≡◌, ◌<◌, ◌≤◌, ◌+◌, ◌*◌, true, false, length, IfErr, IfOk, MatchResult};
ghost use Rattle.naim_loader.specs.Paged.{content_at, kept_at};
ghost use Rattle.one_owner.specs.Alone.{IsIdle, idle};
ghost use Rattle.one_owner.specs.Causes.{RoomCause};
ghost use Rattle.one_owner.specs.Going.{MakesRoom, Stops};
ghost use Rattle.one_owner.specs.Rounds.{Begins, IsCompacting, IsOffloading, Round, Turn};

use crate::stops::{stands, stop};
use naim_core::Failure;
use naim_loader::{Evict, Loader, Move};
use outside::Disk;
use pool_laws::Poolable;
use repository::file;
use std::alloc::Global;
use std::sync::Arc;

/// Makes room for `wanted` bytes beside those that nobody holds: free bodies are compacted, the one used longest ago
/// first, and then compact spellings are written to the disk. The error is the failure that the loader keeps from then
/// on: `Repository` where the disk failed, or `Memory`. It takes at most two rounds for each pool, each in a time that
/// doesn't grow with the pools, and what the spelling or the writing of those that go takes; where the bytes fit,
/// constant time.
pub fn make_room<T: Poolable + Drop, B: Drop, D: Disk + Drop>(
    alloc: Global,
    loader: &mut Loader<T, B, D>,
    wanted: u64,
) -> Result<(), Failure>
    requires idle { IsIdle loader.old }
    requires wanted { wanted ≤ loader.old.core.limit }
    ensures ok { IfOk result (λ _. MakesRoom D.faults loader.old loader.new (idle loader.old.core) wanted) }
    ensures err { IfErr result (λ f. Stops D.faults (RoomCause (D.faults loader.old.disk) (D.faults loader.new.disk)) loader.old loader.new f) }
{
    'room: loop {
        match evict_once(alloc, loader, wanted) {
            Ok(fits) => {
                if fits {
                    return Ok(());
                }
            }
            Err(failure) => return Err(failure),
        }
    }
}

/// One round: whether the bytes fit, or else a pool has gone one form further.
fn evict_once<T: Poolable + Drop, B: Drop, D: Disk + Drop>(
    alloc: Global,
    loader: &mut Loader<T, B, D>,
    wanted: u64,
) -> Result<bool, Failure>
    requires idle { IsIdle loader.old }
    requires wanted { wanted ≤ loader.old.core.limit }
    ensures ok { IfOk result (λ fits. Round D.faults loader.old loader.new wanted fits) }
    ensures err { IfErr result (λ f. Stops D.faults (RoomCause (D.faults loader.old.disk) (D.faults loader.new.disk)) loader.old loader.new f) }
{
    stands(loader);
    match loader.evict_begin(0, wanted) {
        Evict::Fits => Ok(true),
        Evict::Begun(m) => end_move(alloc, loader, m),
        _ => unreachable!(),
    }
}

/// Ends the move that has begun. It answers that the bytes may not fit yet.
fn end_move<T: Poolable + Drop, B: Drop, D: Disk + Drop>(
    alloc: Global,
    loader: &mut Loader<T, B, D>,
    m: Move<T, D>,
) -> Result<bool, Failure>
    requires begun { Begins T.encoding D.reach D.honest loader.old m }
    ensures ok { IfOk result (λ fits. (fits ≡ false) × Turn D.faults loader.old loader.new) }
    ensures err { IfErr result (λ f. Stops D.faults (RoomCause (D.faults loader.old.disk) (D.faults loader.new.disk)) loader.old loader.new f) }
{
    match m {
        Move::Compacting { pid, body } => compact(alloc, loader, pid, body),
        Move::Offloading {
            pid,
            place,
            bytes,
            disk,
        } => offload(loader, pid, place, bytes, disk),
        _ => unreachable!(),
    }
}

/// Compacts the pool, whose body this is.
fn compact<T: Poolable + Drop, B: Drop, D: Disk + Drop>(
    alloc: Global,
    loader: &mut Loader<T, B, D>,
    pid: u32,
    body: Arc<T, Global>,
) -> Result<bool, Failure>
    requires begun { IsCompacting loader.old pid body }
    ensures ok { IfOk result (λ fits. (fits ≡ false) × Turn D.faults loader.old loader.new) }
    ensures err { IfErr result (λ f. Stops D.faults (RoomCause (D.faults loader.old.disk) (D.faults loader.new.disk)) loader.old loader.new f) }
{
    match body.encode(alloc) {
        Ok(bytes) => {
            loader.compact_end(0, Move::Compacting { pid, body }, bytes);
            Ok(false)
        }
        Err(_) => {
            let m = Move::Compacting { pid, body };
            Err(stop(loader, Failure::Memory, Some(m)))
        }
    }
}

/// Writes the pool's compact spelling to the disk.
fn offload<T: Poolable + Drop, B: Drop, D: Disk + Drop>(
    loader: &mut Loader<T, B, D>,
    pid: u32,
    place: u64,
    bytes: Vec<u8>,
    disk: D,
) -> Result<bool, Failure>
    requires begun { IsOffloading T.encoding D.reach D.honest loader.old pid place bytes.items disk }
    ensures ok { IfOk result (λ fits. (fits ≡ false) × Turn D.faults loader.old loader.new) }
    ensures err { IfErr result (λ f. Stops D.faults (RoomCause (D.faults loader.old.disk) (D.faults loader.new.disk)) loader.old loader.new f) }
{
    let mut disk = disk;
    match file(&mut disk, place, bytes.as_slice()) {
        Ok(filed) => {
            let m = Move::Offloading {
                pid,
                place,
                bytes,
                disk,
            };
            loader.offload_end(0, m, filed);
            Ok(false)
        }
        Err(_) => {
            let m = Move::Offloading {
                pid,
                place,
                bytes,
                disk,
            };
            Err(stop(loader, Failure::Repository, Some(m)))
        }
    }
}
