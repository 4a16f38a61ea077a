//! Bytes by place.
ghost use Rattle.std.specs.Prelude.{◌≡◌, ◌+◌, ◌-◌, ◌<◌, ℕ, OnErr, OnOk, Some, length, max, min, slice_index};
ghost use Rattle.outside.specs.Places.{GivesPlaces, Overwrites, SamePlaces, turned_at};

use crate::files::give;
use std::alloc::AllocError;

/// Fills `b` with the bytes from place `at` on, and with zeros past the end.
pub fn fill_from(bytes: &[u8], at: u64, b: &mut [u8])
    ensures { GivesPlaces (Some bytes.now) at (length b.new) b.new }
{
    let n = give(bytes, at, b);
    b[n..].fill(0);
}

/// Puts the front of `b` that lies before the end at the places from `at` on.
pub fn put_within(bytes: &mut [u8], at: u64, b: &[u8])
    ensures { Overwrites (Some bytes.old) (Some bytes.new) at (min (length b.now) (length bytes.old - at)) b.now }
{
    if at >= bytes.len() as u64 {
        return;
    }
    let at = at as usize;
    let n = (bytes.len() - at).min(b.len());
    bytes[at..at + n].copy_from_slice(&b[..n]);
}

/// Makes the bytes reach to `end` by zeros, where they don't. A refused call leaves them as they were.
pub fn lengthen(bytes: &mut Vec<u8>, end: u64) -> Result<(), AllocError>
    ensures ok { OnOk result (length bytes.new.items ≡ max (length bytes.old.items) end) }
    ensures same { SamePlaces (Some bytes.old.items) (Some bytes.new.items) }
    ensures err { OnErr result (bytes.new.items ≡ bytes.old.items) }
{
    let end = end as usize;
    if bytes.len() < end {
        bytes.resize(end, 0)?;
    }
    Ok(())
}

/// Puts `b` at the places from `at` on, and makes the bytes reach so far where they don't. A refused
/// call leaves them as they were.
pub fn put(bytes: &mut Vec<u8>, at: u64, b: &[u8]) -> Result<(), AllocError>
    ensures puts { OnOk result (Overwrites (Some bytes.old.items) (Some bytes.new.items) at (length b.now) b.now) }
    ensures grown { OnOk result (length bytes.new.items ≡ max (length bytes.old.items) (at + length b.now)) }
    ensures err { OnErr result (bytes.new.items ≡ bytes.old.items) }
{
    let end = at.checked_add(b.len() as u64).ok_or(AllocError)?;
    lengthen(bytes, end)?;
    put_within(bytes, at, b);
    Ok(())
}

/// Turns one bit over, bit 0 being the low bit of the first byte. Past the last bit nothing is
/// turned.
pub fn turn(b: &mut [u8], bit: u32)
    ensures { (k : ℕ) → k < length b.old → slice_index b.new k ≡ turned_at bit k (slice_index b.old k) }
{
    let at = (bit / 8) as usize;
    if at < b.len() {
        b[at] ^= 1 << (bit % 8);
    }
}
