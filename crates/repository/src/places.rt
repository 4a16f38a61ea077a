//! Reading and writing whole ranges of a disk, by as many calls as that takes.
ghost use Rattle.std.specs.Prelude.{◌≡◌, ◌+◌, ◌^◌, ◌<◌, ◌≤◌, IsTrue, length};
ghost use Rattle.outside.specs.Faults.{HasCause};
ghost use Rattle.repository.specs.Record.{ReadsRange, WritesRange};

use outside::{Disk, Failed};

/// Fills `b` with the bytes from `place` on. It asks the disk for those places alone.
pub fn read_range<D: Disk>(d: &mut D, place: u64, b: &mut [u8]) -> Result<(), Failed>
    requires { place + length b.old < 2 ^ 64 }
    ensures kept_length { length b.new ≡ length b.old }
    ensures cause { HasCause (D.faults d.old) (D.faults d.new) result }
    ensures kept_reach { D.reach d.new ≡ D.reach d.old }
    ensures places { IsTrue (D.honest d.old) → place + length b.old ≤ D.reach d.old
        → ReadsRange (D.bytes d.old) (D.bytes d.new) (D.honest d.new) place result b.new }
{
    let mut at = 0;
    while at < b.len() {
        at += d.read_at(place + at as u64, &mut b[at..])?;
    }
    Ok(())
}

/// Puts `bytes` at the places from `place` on. It asks the disk for those places alone.
pub fn write_range<D: Disk>(d: &mut D, place: u64, bytes: &[u8]) -> Result<(), Failed>
    requires { place + length bytes.now < 2 ^ 64 }
    ensures cause { HasCause (D.faults d.old) (D.faults d.new) result }
    ensures kept_reach { D.reach d.new ≡ D.reach d.old }
    ensures places { IsTrue (D.honest d.old) → place + length bytes.now ≤ D.reach d.old
        → WritesRange (D.bytes d.old) (D.bytes d.new) (D.honest d.new) place result bytes.now }
{
    let mut at = 0;
    while at < bytes.len() {
        at += d.write_at(place + at as u64, &bytes[at..])?;
    }
    Ok(())
}
