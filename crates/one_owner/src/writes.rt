//! New values in the place of bodies that were pinned for writing.
ghost use Rattle.std.specs.Prelude.{◌≡◌, ◌<◌, ◌≤◌, ◌+◌, length, Err, IfErr, IfOk};
ghost use Rattle.std.specs.Arc.{arc_value};
ghost use Rattle.naim_core.specs.declared.event.Failure.TheVariants as failure;
ghost use Rattle.naim_loader.specs.Drafts.{IsDraft, draft_form, draft_value};
ghost use Rattle.one_owner.specs.Alone.{IsWriting};
ghost use Rattle.one_owner.specs.Answers.{HasStated, Rewrites};
ghost use Rattle.one_owner.specs.Causes.{PlaceCause};
ghost use Rattle.one_owner.specs.Going.{Stops};
ghost use Rattle.one_owner.specs.Rounds.{HasRoom};

use crate::room::make_room;
use crate::stops::{stands, stop};
use naim_core::Failure;
use naim_loader::{Draft, Loader, Put, WritePin};
use outside::Disk;
use pool_laws::Poolable;
use std::alloc::Global;
use std::snapshot::Snapshot;
use std::sync::Arc;

/// Ends a pin for writing, whose room has to hold the new value's charge and compact length: the pool has that body and that
/// brief from now on, whole where the body's charge is at most the limit and packed otherwise; other pools go to make room
/// for it. The error is the failure that the loader keeps from then on, and the pool has what it had: `TooSmall` exactly
/// where the compact spelling is longer than the limit, `Repository` where the disk failed, or `Memory`. It takes what the
/// charge and the room take, and a packed body is spelled once.
pub fn put_back<T: Poolable + Drop, B: Drop, D: Disk + Drop>(
    alloc: Global,
    loader: &mut Loader<T, B, D>,
    pin: WritePin<T>,
    body: Arc<T, Global>,
    brief: B,
) -> Result<(), Failure>
    requires writes { IsWriting loader.old pin.pid }
    requires stated { T.is_value (arc_value body) → HasStated loader.old pin.pid (T.charge_of (arc_value body) + length (T.encoding (arc_value body))) }
    ensures ok { IfOk result (λ _. Rewrites D.faults loader.old loader.new pin.pid (arc_value body) brief) }
    ensures err { IfErr result (λ f. Stops D.faults (PlaceCause (D.faults loader.old.disk) (D.faults loader.new.disk) pin.pid
        (length (T.encoding (arc_value body))) loader.old.core.limit) loader.old loader.new f) }
    ensures too_small { loader.old.core.limit < length (T.encoding (arc_value body))
        → result ≡ Err (failure.TooSmall pin.pid (length (T.encoding (arc_value body))) loader.old.core.limit) }
{
    let limit = loader.limit();
    let need = body.compact_len();
    if u64::from(need) > limit {
        let WritePin { pid, body: _ } = pin;
        return Err(stop(loader, Failure::TooSmall { pid, need, limit }, None));
    }
    let charge = body.charge();
    if charge <= limit {
        return put_whole(alloc, loader, pin, body, charge, brief);
    }
    put_packed(alloc, loader, pin, body, charge, brief)
}

/// Puts it back whole.
fn put_whole<T: Poolable + Drop, B: Drop, D: Disk + Drop>(
    alloc: Global,
    loader: &mut Loader<T, B, D>,
    pin: WritePin<T>,
    body: Arc<T, Global>,
    charge: u64,
    brief: B,
) -> Result<(), Failure>
    requires writes { IsWriting loader.old pin.pid }
    requires stated { HasStated loader.old pin.pid (T.charge_of (arc_value body) + length (T.encoding (arc_value body))) }
    requires value { T.is_value (arc_value body) }
    requires charge { charge ≡ T.charge_of (arc_value body) }
    requires fits { charge ≤ loader.old.core.limit }
    ensures ok { IfOk result (λ _. Rewrites D.faults loader.old loader.new pin.pid (arc_value body) brief) }
    ensures err { IfErr result (λ f. Stops D.faults (PlaceCause (D.faults loader.old.disk) (D.faults loader.new.disk) pin.pid
        (length (T.encoding (arc_value body))) loader.old.core.limit) loader.old loader.new f) }
{
    match make_room(alloc, loader, charge) {
        Ok(()) => {
            rewrite(loader, pin, Draft::Whole(body), brief);
            Ok(())
        }
        Err(failure) => {
            let WritePin { pid: _, body: _ } = pin;
            Err(failure)
        }
    }
}

/// Puts it back packed.
fn put_packed<T: Poolable + Drop, B: Drop, D: Disk + Drop>(
    alloc: Global,
    loader: &mut Loader<T, B, D>,
    pin: WritePin<T>,
    body: Arc<T, Global>,
    charge: u64,
    brief: B,
) -> Result<(), Failure>
    requires writes { IsWriting loader.old pin.pid }
    requires stated { HasStated loader.old pin.pid (T.charge_of (arc_value body) + length (T.encoding (arc_value body))) }
    requires value { T.is_value (arc_value body) }
    requires charge { charge ≡ T.charge_of (arc_value body) }
    requires fits { length (T.encoding (arc_value body)) ≤ loader.old.core.limit }
    ensures ok { IfOk result (λ _. Rewrites D.faults loader.old loader.new pin.pid (arc_value body) brief) }
    ensures err { IfErr result (λ f. Stops D.faults (PlaceCause (D.faults loader.old.disk) (D.faults loader.new.disk) pin.pid
        (length (T.encoding (arc_value body))) loader.old.core.limit) loader.old loader.new f) }
{
    stands(loader);
    let Ok(bytes) = body.encode(alloc) else {
        let WritePin { pid: _, body: _ } = pin;
        return Err(stop(loader, Failure::Memory, None));
    };
    let value = Snapshot::of(&*body);
    match make_room(alloc, loader, bytes.len() as u64) {
        Ok(()) => {
            let draft = Draft::Packed {
                bytes,
                charge,
                value,
            };
            rewrite(loader, pin, draft, brief);
            Ok(())
        }
        Err(failure) => {
            let WritePin { pid: _, body: _ } = pin;
            Err(failure)
        }
    }
}

/// Ends a pin for writing where there is room for the new value.
fn rewrite<T: Poolable + Drop, B: Drop, D: Disk + Drop>(
    loader: &mut Loader<T, B, D>,
    pin: WritePin<T>,
    draft: Draft<T>,
    brief: B,
)
    requires writes { IsWriting loader.old pin.pid }
    requires stated { HasStated loader.old pin.pid (T.charge_of (draft_value draft) + length (T.encoding (draft_value draft))) }
    requires draft { IsDraft T.charge_of T.encoding T.is_value draft }
    requires value { T.is_value (draft_value draft) }
    requires fits { HasRoom loader.old (draft_form draft) (T.charge_of (draft_value draft)) (length (T.encoding (draft_value draft))) }
    ensures { Rewrites D.faults loader.old loader.new pin.pid (draft_value draft) brief }
{
    stands(loader);
    match loader.unpin_write(0, pin, draft, brief) {
        Ok(put) => match put {
            Put::Done => {}
            _ => unreachable!(),
        },
        Err(_) => unreachable!(),
    }
}
