//! Bodies that are pinned, for reading or for writing.
ghost use Rattle.std.specs.Prelude.{◌≡◌, ◌≤◌, ◌^◌, length, IsSome, IfErr, IfOk};
ghost use Rattle.naim_loader.specs.Paged.{kept_at};
ghost use Rattle.one_owner.specs.Alone.{IsResting};
ghost use Rattle.one_owner.specs.Answers.{Takes, TakesToWrite};
ghost use Rattle.one_owner.specs.Causes.{TakeCause};
ghost use Rattle.one_owner.specs.Going.{Stops};
ghost use Rattle.one_owner.specs.Reloading.{IsReadPin, IsWritePin};

use crate::reloads::reload;
use crate::stops::{stands, stop};
use naim_core::{Failure, Mode};
use naim_loader::{Loader, Pin, PinAnswer, ReadPin, WritePin};
use outside::Disk;
use pool_laws::Poolable;
use std::alloc::Global;

/// Pins a body for reading, which `give_back` ends; a pool that is packed or on the disk is brought back first. Where
/// it was in memory, or the disk is trusted, the body is the value that the contents have; over another disk the pool
/// has the pin's body from then on, of the same charge and compact length. The error is the failure that the loader
/// keeps from then on: `Repository` where the disk failed, `Damaged` where the record has another SHA-256 than the one
/// that was kept, `Unreadable` where it spells no body of the charge that was kept, neither of which comes over a trusted
/// disk, or `Memory`. It takes constant time for a whole body, and else what reading the record and the spelling takes.
pub fn take<T: Poolable + Drop, B: Drop, D: Disk + Drop>(
    alloc: Global,
    loader: &mut Loader<T, B, D>,
    pid: u32,
) -> Result<ReadPin<T>, Failure>
    requires rests { IsResting loader.old }
    requires present { IsSome (kept_at loader.old pid) }
    ensures ok { IfOk result (λ x. Takes D.reach D.honest D.faults loader.old loader.new pid x) }
    ensures err { IfErr result (λ f. Stops D.faults (TakeCause T.charge_of T.encoding T.is_value D.reach D.honest loader.old pid (D.faults loader.old.disk)
        (D.faults loader.new.disk)) loader.old loader.new f) }
{
    stands(loader);
    match loader.pin_read(0, pid) {
        PinAnswer::Ready(pin) => Ok(read_pin(pin)),
        PinAnswer::Reload(m) => match reload(alloc, loader, Mode::Read, m) {
            Ok(pin) => Ok(read_pin(pin)),
            Err(failure) => Err(failure),
        },
        PinAnswer::Memory => Err(stop(loader, Failure::Memory, None)),
        _ => unreachable!(),
    }
}

/// The pin, which is for reading.
fn read_pin<T>(pin: Pin<T>) -> ReadPin<T>
    requires { IsReadPin pin }
    ensures { pin ≡ Pin.Read result }
{
    match pin {
        Pin::Read(pin) => pin,
        Pin::Write(_pin) => unreachable!(),
    }
}

/// Pins a body for writing, which `put_back` ends: its new value may take `room` bytes, charge and compact spelling together.
/// A pool that is packed or on the disk is brought back first. What is said of the body, the errors and the cost is as for
/// `take`, but that a whole body takes no memory.
pub fn take_to_write<T: Poolable + Drop, B: Drop, D: Disk + Drop>(
    alloc: Global,
    loader: &mut Loader<T, B, D>,
    pid: u32,
    room: u64,
) -> Result<WritePin<T>, Failure>
    requires rests { IsResting loader.old }
    requires present { IsSome (kept_at loader.old pid) }
    requires room { room ≤ 2 ^ 41 }
    ensures ok { IfOk result (λ x. TakesToWrite D.reach D.honest D.faults loader.old loader.new pid room x) }
    ensures err { IfErr result (λ f. Stops D.faults (TakeCause T.charge_of T.encoding T.is_value D.reach D.honest loader.old pid (D.faults loader.old.disk)
        (D.faults loader.new.disk)) loader.old loader.new f) }
{
    stands(loader);
    match loader.pin_write(0, pid, room) {
        PinAnswer::Ready(pin) => Ok(write_pin(pin)),
        PinAnswer::Reload(m) => match reload(alloc, loader, Mode::Write { room }, m) {
            Ok(pin) => Ok(write_pin(pin)),
            Err(failure) => Err(failure),
        },
        _ => unreachable!(),
    }
}

/// The pin, which is for writing.
fn write_pin<T>(pin: Pin<T>) -> WritePin<T>
    requires { IsWritePin pin }
    ensures { pin ≡ Pin.Write result }
{
    match pin {
        Pin::Read(_pin) => unreachable!(),
        Pin::Write(pin) => pin,
    }
}
