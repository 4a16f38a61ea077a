//! Rows of the loader, over bodies that are routines.
ghost use Rattle.std.specs.Prelude.{◌≡◌, ◌<◌, ◌≤◌, ◌^◌, length, None, Some, true, IfOk, IfSome};
ghost use Rattle.naim_core.specs.State.{hand_at};
ghost use Rattle.naim_core.specs.declared.event.Form.TheVariants as form;
ghost use Rattle.naim_core.specs.declared.pool.Stage.TheVariants as stage;
ghost use Rattle.naim_loader.specs.Drafts.{IsDraft, draft_form};
ghost use Rattle.naim_loader.specs.Paged.{fresh, kept_at};
ghost use Rattle.paging_rows.specs.Loads.{CanFail, IsCalm, OneOfTwo, Puts};

use crate::compact::ZERO;
use compact_form::RoutineBody;
use naim_core::Failure;
use naim_loader::{Draft, Evict, Loader, Move, Pin, PinAnswer, Put, ReadPin, WritePin};
use outside::{Disk, MemDisk};
use pool_laws::Poolable;
use std::alloc::{AllocError, Global};
use std::snapshot::Snapshot;
use std::sync::Arc;
use std::test::Fail;

/// `int main(void){return f()*10+g();}`, where `f` is routine 0 and `g` routine 1.
const MAIN: [u8; 37] = [
    0x02, 0x00, 0x01, 0x06, 0x01, 0x00, 0x02, 0x05, 0x0c, 0x00, 0x00, 0x01, 0x00, 0x00, 0x01, 0x0a,
    0x14, 0x02, 0x00, 0x01, 0x0c, 0x03, 0x01, 0x01, 0x00, 0x10, 0x04, 0x02, 0x03, 0x44, 0x04, 0x01,
    0x00, 0x05, 0x00, 0x44, 0x05,
];

/// What a call answered.
#[derive(Clone, Copy, Debug, PartialEq, Eq)]
enum Told {
    Done,
    NeedsRoom(u64),
    Offloading(u32),
    Fits,
    ReadyTwice,
    Other,
}

/// The value with these bytes, packed.
fn packed<T: Poolable + Drop>(alloc: Global, bytes: &[u8]) -> Result<Option<Draft<T>>, AllocError>
    ensures { IfOk result (λ r. IfSome r (λ d. IsDraft T.charge_of T.encoding T.is_value d)) }
{
    let Some(body) = T::decode(alloc, bytes)? else {
        return Ok(None);
    };
    let charge = body.charge();
    let _ = body.compact_len();
    let value = Snapshot::of(&body);
    let bytes = body.encode(alloc)?;
    Ok(Some(Draft::Packed {
        bytes,
        charge,
        value,
    }))
}

/// The value with these bytes, whole.
fn whole<T: Poolable + Drop>(alloc: Global, bytes: &[u8]) -> Result<Option<Draft<T>>, AllocError>
    ensures { IfOk result (λ r. IfSome r (λ d. IsDraft T.charge_of T.encoding T.is_value d × (draft_form d ≡ form.Expanded))) }
{
    let Some(body) = T::decode(alloc, bytes)? else {
        return Ok(None);
    };
    Ok(Some(Draft::Whole(Arc::new(alloc, body)?)))
}

/// Ends a loader.
fn end<T: Poolable + Drop, D: Disk + Drop>(loader: Loader<T, (), D>)
    requires { loader.home ≡ true }
{
    let _ = loader.close();
}

/// Puts a pool in; where another answer than `Done` comes, the loader ends.
fn put<T: Poolable + Drop, D: Disk + Drop>(
    loader: Loader<T, (), D>,
    pid: u32,
    draft: Draft<T>,
) -> Result<Loader<T, (), D>, Told>
    requires calm { IsCalm loader }
    requires absent { kept_at loader pid ≡ None }
    requires below { pid < 131072 }
    requires room { length loader.core.pools < 4096 }
    requires draft { IsDraft T.charge_of T.encoding T.is_value draft }
    ensures { IfOk result (λ l. Puts T.charge_of T.encoding loader l pid draft) }
{
    let mut loader = loader;
    match loader.insert(pid, draft, ()) {
        Put::Done => Ok(loader),
        Put::NeedsRoom {
            bytes,
            draft: _,
            brief: _,
        } => {
            end(loader);
            Err(Told::NeedsRoom(bytes))
        }
        _ => {
            end(loader);
            Err(Told::Other)
        }
    }
}

/// Wishes for room, and ends the loader.
fn wish<T: Poolable + Drop, D: Disk + Drop>(loader: Loader<T, (), D>, wanted: u64) -> Told
    requires calm { IsCalm loader }
    requires worker { 0 < length loader.core.hands }
    requires free { (hand_at loader.core.hands 0).moved ≡ None }
    requires wanted { wanted ≤ loader.core.limit }
{
    let mut loader = loader;
    let _ = loader.failure();
    match loader.evict_begin(0, wanted) {
        Evict::Begun(m) => stop(loader, m),
        Evict::Fits => {
            end(loader);
            Told::Fits
        }
        Evict::NoVictim | Evict::DiskOut | Evict::Stopped => {
            end(loader);
            Told::Other
        }
    }
}

/// Tells a move that has begun, and ends the loader.
fn stop<T: Poolable + Drop, D: Disk + Drop>(loader: Loader<T, (), D>, m: Move<T, D>) -> Told
    requires { CanFail D.reach D.honest loader m }
{
    let mut loader = loader;
    let told = match &m {
        Move::Offloading {
            pid,
            place: _,
            bytes: _,
            disk: _,
        } => Told::Offloading(*pid),
        _ => Told::Other,
    };
    loader.fail(0, Failure::Memory, Some(m));
    end(loader);
    told
}

/// Lets a pin go, whose loader ends.
fn spend<T: Drop>(pin: Pin<T>) {
    match pin {
        Pin::Read(pin) => {
            let ReadPin { pid: _, body: _ } = pin;
        }
        Pin::Write(pin) => {
            let WritePin { pid: _, body: _ } = pin;
        }
    }
}

/// The first of two workers reads pool 0; for want of memory the loader ends.
fn read_first<T: Poolable + Drop, D: Disk + Drop>(
    loader: Loader<T, (), D>,
) -> Result<Loader<T, (), D>, Told>
    requires home { loader.home ≡ true }
    requires there { OneOfTwo loader.core stage.Free None }
    ensures { IfOk result (λ l. (l.home ≡ true) × OneOfTwo l.core (stage.Read 1) (Some 0)) }
{
    let mut loader = loader;
    match loader.pin_read(0, 0) {
        PinAnswer::Ready(pin) => {
            spend(pin);
            Ok(loader)
        }
        PinAnswer::Memory => {
            end(loader);
            Err(Told::Other)
        }
        _ => unreachable!(),
    }
}

/// The other worker reads it too, and the loader ends.
fn read_again<T: Poolable + Drop, D: Disk + Drop>(loader: Loader<T, (), D>) -> Told
    requires home { loader.home ≡ true }
    requires there { OneOfTwo loader.core (stage.Read 1) (Some 0) }
{
    let mut loader = loader;
    match loader.pin_read(1, 0) {
        PinAnswer::Ready(pin) => {
            spend(pin);
            end(loader);
            Told::ReadyTwice
        }
        PinAnswer::Memory => {
            end(loader);
            Told::Other
        }
        _ => unreachable!(),
    }
}

/// Two pools come into a loader of 37 bytes; what the last insertion answered.
fn two_come<T: Poolable + Drop>(alloc: Global, first: Draft<T>, second: Draft<T>) -> Told
    requires first { IsDraft T.charge_of T.encoding T.is_value first }
    requires second { IsDraft T.charge_of T.encoding T.is_value second }
{
    let disk = MemDisk::new(Vec::new(alloc), Vec::new(alloc));
    let Ok(loader) = Loader::new(alloc, 37, 1, disk) else {
        return Told::Other;
    };
    let loader = match put(loader, 0, first) {
        Ok(loader) => loader,
        Err(told) => return told,
    };
    match put(loader, 2, second) {
        Ok(loader) => {
            end(loader);
            Told::Done
        }
        Err(told) => told,
    }
}

/// One pool comes into a loader of 37 bytes; what the wish for room answers then.
fn one_goes<T: Poolable + Drop>(alloc: Global, first: Draft<T>, wanted: u64) -> Told
    requires first { IsDraft T.charge_of T.encoding T.is_value first }
    requires wanted { wanted ≤ 37 }
{
    let disk = MemDisk::new(Vec::new(alloc), Vec::new(alloc));
    let Ok(loader) = Loader::new(alloc, 37, 1, disk) else {
        return Told::Other;
    };
    match put(loader, 0, first) {
        Ok(loader) => wish(loader, wanted),
        Err(told) => told,
    }
}

/// Two workers read the one pool of a loader of 300 bytes.
fn two_read<T: Poolable + Drop>(alloc: Global, first: Draft<T>) -> Told
    requires first { IsDraft T.charge_of T.encoding T.is_value first }
    requires whole { draft_form first ≡ form.Expanded }
{
    let disk = MemDisk::new(Vec::new(alloc), Vec::new(alloc));
    let Ok(loader) = Loader::new(alloc, 300, 2, disk) else {
        return Told::Other;
    };
    let loader = match put(loader, 0, first) {
        Ok(loader) => loader,
        Err(told) => return told,
    };
    match read_first(loader) {
        Ok(loader) => read_again(loader),
        Err(told) => told,
    }
}

#[test]
fn main_needs_room_beside_zero(rt: HostRuntime) -> Result<(), Fail> {
    let zero = packed::<RoutineBody>(rt.alloc(), &ZERO)?.expect(&rt, "a form");
    let main = packed::<RoutineBody>(rt.alloc(), &MAIN)?.expect(&rt, "a form");
    assert_eq!(rt; two_come(rt.alloc(), zero, main), Told::NeedsRoom(37));
    Ok(())
}

#[test]
fn zero_goes_to_the_disk(rt: HostRuntime) -> Result<(), Fail> {
    let zero = packed::<RoutineBody>(rt.alloc(), &ZERO)?.expect(&rt, "a form");
    assert_eq!(rt; one_goes(rt.alloc(), zero, 37), Told::Offloading(0));
    Ok(())
}

#[test]
fn eighteen_bytes_fit_beside_zero(rt: HostRuntime) -> Result<(), Fail> {
    let zero = packed::<RoutineBody>(rt.alloc(), &ZERO)?.expect(&rt, "a form");
    assert_eq!(rt; one_goes(rt.alloc(), zero, 18), Told::Fits);
    Ok(())
}

#[test]
fn two_workers_read_zero(rt: HostRuntime) -> Result<(), Fail> {
    let zero = whole::<RoutineBody>(rt.alloc(), &ZERO)?.expect(&rt, "a form");
    assert_eq!(rt; two_read(rt.alloc(), zero), Told::ReadyTwice);
    Ok(())
}
