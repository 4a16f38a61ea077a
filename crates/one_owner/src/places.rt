//! New pools.
ghost use Rattle.std.specs.Prelude.{◌≡◌, ◌<◌, ◌≤◌, ◌+◌, length, None, Err, IfErr, IfOk};
ghost use Rattle.naim_core.specs.Charges.{under_sum};
ghost use Rattle.naim_core.specs.Rows.{bytes_of};
ghost use Rattle.naim_core.specs.declared.event.Failure.TheVariants as failure;
ghost use Rattle.naim_loader.specs.Drafts.{IsDraft, draft_form, draft_value};
ghost use Rattle.naim_loader.specs.Paged.{kept_at};
ghost use Rattle.one_owner.specs.Alone.{IsResting};
ghost use Rattle.one_owner.specs.Answers.{Places};
ghost use Rattle.one_owner.specs.Causes.{PlaceCause};
ghost use Rattle.one_owner.specs.Going.{Stops};
ghost use Rattle.one_owner.specs.Rounds.{HasRoom};

use crate::room::make_room;
use crate::stops::{stands, stop};
use naim_core::Failure;
use naim_loader::{Draft, Loader, Put};
use outside::Disk;
use pool_laws::Poolable;
use std::alloc::Global;
use std::snapshot::Snapshot;
use std::sync::Arc;

/// Places a new pool with that value and that brief: whole where its charge is at most the limit, and packed
/// otherwise; other pools go to make room for it. The error is the failure that the loader keeps from then on, which has
/// taken no pool: `TooSmall` exactly where the compact spelling is longer than the limit, `Repository` where the disk
/// failed, or `Memory`. It takes what the charge and the room take, and a packed value is spelled once.
pub fn place<T: Poolable + Drop, B: Drop, D: Disk + Drop>(
    alloc: Global,
    loader: &mut Loader<T, B, D>,
    pid: u32,
    body: T,
    brief: B,
) -> Result<(), Failure>
    requires rests { IsResting loader.old }
    requires absent { kept_at loader.old pid ≡ None }
    requires below { pid < 131072 }
    requires room { length loader.old.core.pools < 4096 }
    ensures ok { IfOk result (λ _. Places D.faults loader.old loader.new pid body brief) }
    ensures err { IfErr result (λ f. Stops D.faults (PlaceCause (D.faults loader.old.disk) (D.faults loader.new.disk) pid (length (T.encoding body))
        loader.old.core.limit) loader.old loader.new f) }
    ensures too_small { loader.old.core.limit < length (T.encoding body)
        → result ≡ Err (failure.TooSmall pid (length (T.encoding body)) loader.old.core.limit) }
{
    let limit = loader.limit();
    let need = body.compact_len();
    if u64::from(need) > limit {
        return Err(stop(loader, Failure::TooSmall { pid, need, limit }, None));
    }
    let charge = body.charge();
    if charge <= limit {
        return place_whole(alloc, loader, pid, body, charge, brief);
    }
    place_packed(alloc, loader, pid, body, charge, brief)
}

/// Places a new pool whole.
fn place_whole<T: Poolable + Drop, B: Drop, D: Disk + Drop>(
    alloc: Global,
    loader: &mut Loader<T, B, D>,
    pid: u32,
    body: T,
    charge: u64,
    brief: B,
) -> Result<(), Failure>
    requires rests { IsResting loader.old }
    requires absent { kept_at loader.old pid ≡ None }
    requires below { pid < 131072 }
    requires room { length loader.old.core.pools < 4096 }
    requires value { T.is_value body }
    requires charge { charge ≡ T.charge_of body }
    requires fits { charge ≤ loader.old.core.limit }
    ensures ok { IfOk result (λ _. Places D.faults loader.old loader.new pid body brief) }
    ensures err { IfErr result (λ f. Stops D.faults (PlaceCause (D.faults loader.old.disk) (D.faults loader.new.disk) pid (length (T.encoding body))
        loader.old.core.limit) loader.old loader.new f) }
{
    let Ok(body) = Arc::new(alloc, body) else {
        return Err(stop(loader, Failure::Memory, None));
    };
    match make_room(alloc, loader, charge) {
        Ok(()) => {
            put_in(loader, pid, Draft::Whole(body), brief);
            Ok(())
        }
        Err(failure) => Err(failure),
    }
}

/// Places a new pool packed.
fn place_packed<T: Poolable + Drop, B: Drop, D: Disk + Drop>(
    alloc: Global,
    loader: &mut Loader<T, B, D>,
    pid: u32,
    body: T,
    charge: u64,
    brief: B,
) -> Result<(), Failure>
    requires rests { IsResting loader.old }
    requires absent { kept_at loader.old pid ≡ None }
    requires below { pid < 131072 }
    requires room { length loader.old.core.pools < 4096 }
    requires value { T.is_value body }
    requires charge { charge ≡ T.charge_of body }
    requires fits { length (T.encoding body) ≤ loader.old.core.limit }
    ensures ok { IfOk result (λ _. Places D.faults loader.old loader.new pid body brief) }
    ensures err { IfErr result (λ f. Stops D.faults (PlaceCause (D.faults loader.old.disk) (D.faults loader.new.disk) pid (length (T.encoding body))
        loader.old.core.limit) loader.old loader.new f) }
{
    stands(loader);
    let Ok(bytes) = body.encode(alloc) else {
        return Err(stop(loader, Failure::Memory, None));
    };
    let value = Snapshot::of(&body);
    match make_room(alloc, loader, bytes.len() as u64) {
        Ok(()) => {
            let draft = Draft::Packed {
                bytes,
                charge,
                value,
            };
            put_in(loader, pid, draft, brief);
            Ok(())
        }
        Err(failure) => Err(failure),
    }
}

/// Puts a new pool in where there is room for it.
fn put_in<T: Poolable + Drop, B: Drop, D: Disk + Drop>(
    loader: &mut Loader<T, B, D>,
    pid: u32,
    draft: Draft<T>,
    brief: B,
)
    requires rests { IsResting loader.old }
    requires absent { kept_at loader.old pid ≡ None }
    requires below { pid < 131072 }
    requires room { length loader.old.core.pools < 4096 }
    requires draft { IsDraft T.charge_of T.encoding T.is_value draft }
    requires value { T.is_value (draft_value draft) }
    requires fits { HasRoom loader.old (draft_form draft) (T.charge_of (draft_value draft)) (length (T.encoding (draft_value draft))) }
    ensures { Places D.faults loader.old loader.new pid (draft_value draft) brief }
{
    stands(loader);
    match loader.insert(pid, draft, brief) {
        Put::Done => {}
        _ => unreachable!(),
    }
}
