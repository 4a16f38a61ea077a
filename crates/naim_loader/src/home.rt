//! The disk, at home or lent.
ghost use Rattle.std.specs.Prelude.{◌≡◌, ◌||◌, true, false, is_some, unwrap_or, MatchOption};
ghost use Rattle.naim_loader.specs.Calls.{disk_of};
ghost use Rattle.naim_loader.specs.Home.{told, is_home};

use crate::forms::Move;
use std::mem;
use std::snapshot::Snapshot;

/// The disk, or how it was when it was lent.
#[derive(Drop)]
pub(crate) enum Home<D> {
    In(D),
    Lent(Snapshot<D>),
}

/// Lends the disk.
pub(crate) fn lend<D>(home: &mut Home<D>) -> D
    requires { is_home home.old ≡ true }
    ensures disk { result ≡ told home.old }
    ensures same { told home.new ≡ told home.old }
    ensures out { is_home home.new ≡ false }
{
    let seen = match home {
        Home::In(disk) => Snapshot::of(disk),
        Home::Lent(_) => unreachable!(),
    };
    match mem::replace(home, Home::Lent(seen)) {
        Home::In(disk) => disk,
        Home::Lent(_) => unreachable!(),
    }
}

/// The disk, which is at home.
pub(crate) fn home_disk<D>(home: Home<D>) -> D
    requires { is_home home ≡ true }
    ensures { result ≡ told home }
{
    match home {
        Home::In(disk) => disk,
        Home::Lent(_) => unreachable!(),
    }
}

/// Brings the disk home.
pub(crate) fn bring<D: Drop>(home: &mut Home<D>, disk: D)
    requires { is_home home.old ≡ false }
    ensures disk { told home.new ≡ disk }
    ensures home { is_home home.new ≡ true }
{
    match mem::replace(home, Home::In(disk)) {
        Home::In(_) => unreachable!(),
        Home::Lent(_) => {}
    }
}

/// Brings the disk home that a move carries, if it carries one; what else it carries goes.
pub(crate) fn bring_with<T: Drop, D: Drop>(home: &mut Home<D>, m: Move<T, D>)
    requires { is_some (disk_of m) ≡ true → is_home home.old ≡ false }
    ensures disk { told home.new ≡ unwrap_or (disk_of m) (told home.old) }
    ensures home { is_home home.new ≡ (is_some (disk_of m) || is_home home.old) }
{
    match m {
        Move::Compacting { pid: _, body: _ } => {}
        Move::Offloading {
            pid: _,
            place: _,
            bytes: _,
            disk,
        } => bring(home, disk),
        Move::FromBytes { pid: _, bytes: _ } => {}
        Move::FromDisk {
            pid: _,
            filed: _,
            charge: _,
            disk,
        } => bring(home, disk),
    }
}

/// Brings the disk home, if one comes.
pub(crate) fn bring_if<D: Drop>(home: &mut Home<D>, disk: Option<D>)
    requires { is_some disk ≡ true → is_home home.old ≡ false }
    ensures disk { told home.new ≡ unwrap_or disk (told home.old) }
    ensures home { is_home home.new ≡ (is_some disk || is_home home.old) }
{
    if let Some(disk) = disk {
        bring(home, disk);
    }
}
