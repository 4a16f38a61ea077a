//! Bodies that were read go back.
ghost use Rattle.std.specs.Prelude.{◌≡◌, ◌<◌, ◌≤◌, ◌+◌, length, Some, Ok, IfErr, IfOk};
ghost use Rattle.std.specs.Arc.{arc_value};
ghost use Rattle.naim_core.specs.Charges.{under_sum};
ghost use Rattle.naim_core.specs.Rows.{bytes_of};
ghost use Rattle.naim_loader.specs.Calls.{IsPacked, unpin_form};
ghost use Rattle.naim_loader.specs.Paged.{content_at};
ghost use Rattle.one_owner.specs.Alone.{IsReading};
ghost use Rattle.one_owner.specs.Answers.{GivesBack};
ghost use Rattle.one_owner.specs.Causes.{RoomCause};
ghost use Rattle.one_owner.specs.Going.{Stops};

use crate::room::make_room;
use crate::stops::{stands, stop};
use naim_core::Failure;
use naim_loader::{Loader, ReadPin};
use outside::Disk;
use pool_laws::Poolable;
use std::alloc::Global;

/// Gives back a body that was read: it stays whole where its charge is at most the limit, and is packed otherwise;
/// other pools go to make room for it. The error is the failure that the loader keeps from then on, which takes the pin
/// back: `Repository` where the disk failed, or `Memory`. It takes what the charge and the room take, and a packed body
/// is spelled once.
pub fn give_back<T: Poolable + Drop, B: Drop, D: Disk + Drop>(
    alloc: Global,
    loader: &mut Loader<T, B, D>,
    pin: ReadPin<T>,
) -> Result<(), Failure>
    requires reads { IsReading loader.old pin.pid }
    requires content { content_at loader.old pin.pid ≡ Some (arc_value pin.body) }
    ensures ok { IfOk result (λ _. GivesBack D.faults loader.old loader.new) }
    ensures err { IfErr result (λ f. Stops D.faults (RoomCause (D.faults loader.old.disk) (D.faults loader.new.disk)) loader.old loader.new f) }
{
    let charge = pin.body.charge();
    if charge <= loader.limit() {
        return leave_whole(alloc, loader, pin, charge);
    }
    leave_packed(alloc, loader, pin)
}

/// Gives it back whole.
fn leave_whole<T: Poolable + Drop, B: Drop, D: Disk + Drop>(
    alloc: Global,
    loader: &mut Loader<T, B, D>,
    pin: ReadPin<T>,
    charge: u64,
) -> Result<(), Failure>
    requires reads { IsReading loader.old pin.pid }
    requires content { content_at loader.old pin.pid ≡ Some (arc_value pin.body) }
    requires charge { charge ≡ T.charge_of (arc_value pin.body) }
    requires fits { charge ≤ loader.old.core.limit }
    ensures ok { IfOk result (λ _. GivesBack D.faults loader.old loader.new) }
    ensures err { IfErr result (λ f. Stops D.faults (RoomCause (D.faults loader.old.disk) (D.faults loader.new.disk)) loader.old loader.new f) }
{
    match make_room(alloc, loader, charge) {
        Ok(()) => {
            leave(loader, pin, None);
            Ok(())
        }
        Err(failure) => {
            let ReadPin { pid: _, body: _ } = pin;
            Err(failure)
        }
    }
}

/// Gives it back packed.
fn leave_packed<T: Poolable + Drop, B: Drop, D: Disk + Drop>(
    alloc: Global,
    loader: &mut Loader<T, B, D>,
    pin: ReadPin<T>,
) -> Result<(), Failure>
    requires reads { IsReading loader.old pin.pid }
    requires content { content_at loader.old pin.pid ≡ Some (arc_value pin.body) }
    ensures ok { IfOk result (λ _. GivesBack D.faults loader.old loader.new) }
    ensures err { IfErr result (λ f. Stops D.faults (RoomCause (D.faults loader.old.disk) (D.faults loader.new.disk)) loader.old loader.new f) }
{
    stands(loader);
    let Ok(bytes) = pin.body.encode(alloc) else {
        let ReadPin { pid: _, body: _ } = pin;
        return Err(stop(loader, Failure::Memory, None));
    };
    match make_room(alloc, loader, bytes.len() as u64) {
        Ok(()) => {
            leave(loader, pin, Some(bytes));
            Ok(())
        }
        Err(failure) => {
            let ReadPin { pid: _, body: _ } = pin;
            Err(failure)
        }
    }
}

/// Gives it back where there is room for it.
fn leave<T: Poolable + Drop, B: Drop, D: Disk + Drop>(
    loader: &mut Loader<T, B, D>,
    pin: ReadPin<T>,
    packed: Option<Vec<u8>>,
)
    requires reads { IsReading loader.old pin.pid }
    requires content { content_at loader.old pin.pid ≡ Some (arc_value pin.body) }
    requires packed { IsPacked T.encoding packed (arc_value pin.body) }
    requires fits { under_sum loader.old.core.pools + bytes_of (unpin_form packed) (T.charge_of (arc_value pin.body)) (length (T.encoding (arc_value pin.body)))
        ≤ loader.old.core.limit }
    ensures { GivesBack D.faults loader.old loader.new }
{
    stands(loader);
    match loader.unpin_read(0, pin, packed) {
        Ok(()) => {}
        Err(_) => unreachable!(),
    }
}
