//! Pools that are brought back for a pin.
ghost use Rattle.std.specs.Prelude.{◌≡◌, ◌<◌, ◌≤◌, ◌+◌, ◌*◌, true, false, length, IfErr, IfOk, is_some};
ghost use Rattle.std.specs.Arc.{arc_value};
ghost use Rattle.naim_loader.specs.Calls.{disk_of};
ghost use Rattle.naim_loader.specs.Moves.{pid_of};
ghost use Rattle.one_owner.specs.Causes.{TakeCause};
ghost use Rattle.one_owner.specs.Going.{Stops};
ghost use Rattle.one_owner.specs.Reloading.{EndsBy, IsAgain, IsFetched, IsReload, IsRestored, IsUnderway, IsUnpacked, Reloaded, failure_of};

use crate::stops::{stands, stop};
use naim_core::{Failure, Mode};
use naim_loader::{Loader, Move, Pin, PinAnswer};
use outside::Disk;
use pool_laws::Poolable;
use repository::{Filed, RepoFault, fetch};
use std::alloc::{AllocError, Global};
use std::sync::Arc;

/// Ends a reload, for a pin of that mode.
pub(crate) fn reload<T: Poolable + Drop, B: Drop, D: Disk + Drop>(
    alloc: Global,
    loader: &mut Loader<T, B, D>,
    mode: Mode,
    m: Move<T, D>,
) -> Result<Pin<T>, Failure>
    requires underway { IsUnderway D.reach D.honest D.faults loader.old mode m }
    requires reload { IsReload T.charge_of T.encoding T.is_value D.bytes D.reach D.honest D.faults loader.old m }
    ensures ok { IfOk result (λ x. Reloaded D.reach D.honest D.faults loader.old loader.new mode (pid_of m) (is_some (disk_of m)) x) }
    ensures err { IfErr result (λ f. Stops D.faults (TakeCause T.charge_of T.encoding T.is_value D.reach D.honest loader.old (pid_of m)
        (D.faults loader.old.disk) (D.faults loader.new.disk)) loader.old loader.new f) }
{
    match m {
        Move::FromBytes { pid, bytes } => unpack(alloc, loader, mode, pid, bytes),
        Move::FromDisk {
            pid,
            filed,
            charge,
            disk,
        } => restore(alloc, loader, mode, pid, filed, charge, disk),
        _ => unreachable!(),
    }
}

/// Ends a reload from the compact spelling in memory.
fn unpack<T: Poolable + Drop, B: Drop, D: Disk + Drop>(
    alloc: Global,
    loader: &mut Loader<T, B, D>,
    mode: Mode,
    pid: u32,
    bytes: Vec<u8>,
) -> Result<Pin<T>, Failure>
    requires underway { IsUnderway D.reach D.honest D.faults loader.old mode (Move.FromBytes pid bytes) }
    requires reload { IsUnpacked T.charge_of T.encoding T.is_value D.bytes D.reach D.honest D.faults loader.old pid bytes.items }
    ensures ok { IfOk result (λ x. Reloaded D.reach D.honest D.faults loader.old loader.new mode pid false x) }
    ensures err { IfErr result (λ f. Stops D.faults (TakeCause T.charge_of T.encoding T.is_value D.reach D.honest loader.old pid (D.faults loader.old.disk)
        (D.faults loader.new.disk)) loader.old loader.new f) }
{
    let Ok(found) = T::decode(alloc, bytes.as_slice()) else {
        let m = Move::FromBytes { pid, bytes };
        return Err(stop(loader, Failure::Memory, Some(m)));
    };
    let Some(body) = found else { unreachable!() };
    finish(alloc, loader, mode, Move::FromBytes { pid, bytes }, body)
}

/// Ends a reload from the disk.
fn restore<T: Poolable + Drop, B: Drop, D: Disk + Drop>(
    alloc: Global,
    loader: &mut Loader<T, B, D>,
    mode: Mode,
    pid: u32,
    filed: Filed,
    charge: u64,
    disk: D,
) -> Result<Pin<T>, Failure>
    requires underway { IsUnderway D.reach D.honest D.faults loader.old mode (Move.FromDisk pid filed charge disk) }
    requires reload { IsRestored T.charge_of T.encoding T.is_value D.bytes D.reach D.honest D.faults loader.old pid filed charge disk }
    ensures ok { IfOk result (λ x. Reloaded D.reach D.honest D.faults loader.old loader.new mode pid true x) }
    ensures err { IfErr result (λ f. Stops D.faults (TakeCause T.charge_of T.encoding T.is_value D.reach D.honest loader.old pid (D.faults loader.old.disk)
        (D.faults loader.new.disk)) loader.old loader.new f) }
{
    let mut disk = disk;
    match fetch(alloc, &mut disk, &filed) {
        Ok(bytes) => read_back(alloc, loader, mode, pid, filed, charge, disk, bytes),
        Err(fault) => {
            let failure = told_failure(filed.place, fault);
            let m = Move::FromDisk {
                pid,
                filed,
                charge,
                disk,
            };
            Err(stop(loader, failure, Some(m)))
        }
    }
}

/// What a fetch's fault is to the loader.
fn told_failure(place: u64, fault: RepoFault) -> Failure
    ensures { result ≡ failure_of place fault }
{
    match fault {
        RepoFault::Failed => Failure::Repository,
        RepoFault::Damaged { kept, found } => Failure::Damaged { place, kept, found },
        RepoFault::Memory => Failure::Memory,
    }
}

/// Reads the record's bytes as a body of the charge that was kept, and ends the reload.
fn read_back<T: Poolable + Drop, B: Drop, D: Disk + Drop>(
    alloc: Global,
    loader: &mut Loader<T, B, D>,
    mode: Mode,
    pid: u32,
    filed: Filed,
    charge: u64,
    disk: D,
    bytes: Vec<u8>,
) -> Result<Pin<T>, Failure>
    requires underway { IsUnderway D.reach D.honest D.faults loader.old mode (Move.FromDisk pid filed charge disk) }
    requires reload { IsRestored T.charge_of T.encoding T.is_value D.bytes D.reach D.honest D.faults loader.old pid filed charge disk }
    requires fetched { IsFetched T.charge_of T.encoding T.is_value D.bytes D.reach D.honest D.faults loader.old pid filed bytes.items }
    ensures ok { IfOk result (λ x. Reloaded D.reach D.honest D.faults loader.old loader.new mode pid true x) }
    ensures err { IfErr result (λ f. Stops D.faults (TakeCause T.charge_of T.encoding T.is_value D.reach D.honest loader.old pid (D.faults loader.old.disk)
        (D.faults loader.new.disk)) loader.old loader.new f) }
{
    let place = filed.place;
    let m = Move::FromDisk {
        pid,
        filed,
        charge,
        disk,
    };
    let Ok(found) = T::decode(alloc, bytes.as_slice()) else {
        return Err(stop(loader, Failure::Memory, Some(m)));
    };
    let Some(body) = found else {
        return Err(stop(loader, Failure::Unreadable { place }, Some(m)));
    };
    if body.charge() != charge {
        return Err(stop(loader, Failure::Unreadable { place }, Some(m)));
    }
    finish(alloc, loader, mode, m, body)
}

/// A body that is shared, and its second share where it is to be read.
fn shares<T: Drop>(
    alloc: Global,
    mode: Mode,
    body: T,
) -> Result<(Arc<T, Global>, Option<Arc<T, Global>>), AllocError>
    ensures { IfOk result (λ both. (arc_value both.0 ≡ body) × IsAgain mode body both.1) }
{
    let body = Arc::new(alloc, body)?;
    match mode {
        Mode::Read => {
            let again = Arc::try_clone(&body)?;
            Ok((body, Some(again)))
        }
        Mode::Write { .. } => Ok((body, None)),
    }
}

/// Ends a reload with that body.
fn finish<T: Poolable + Drop, B: Drop, D: Disk + Drop>(
    alloc: Global,
    loader: &mut Loader<T, B, D>,
    mode: Mode,
    m: Move<T, D>,
    body: T,
) -> Result<Pin<T>, Failure>
    requires underway { IsUnderway D.reach D.honest D.faults loader.old mode m }
    requires ends { EndsBy T.charge_of T.encoding T.is_value D.bytes D.reach D.honest D.faults loader.old mode m body }
    ensures ok { IfOk result (λ x. Reloaded D.reach D.honest D.faults loader.old loader.new mode (pid_of m) (is_some (disk_of m)) x) }
    ensures err { IfErr result (λ f. Stops D.faults (TakeCause T.charge_of T.encoding T.is_value D.reach D.honest loader.old (pid_of m)
        (D.faults loader.old.disk) (D.faults loader.new.disk)) loader.old loader.new f) }
{
    stands(loader);
    match shares(alloc, mode, body) {
        Ok((body, again)) => match loader.reload_end(0, m, body, again) {
            PinAnswer::Ready(pin) => Ok(pin),
            _ => unreachable!(),
        },
        Err(_) => Err(stop(loader, Failure::Memory, Some(m))),
    }
}
