//! The objects that never fail.
ghost use Rattle.std.specs.Prelude.{◌≡◌, ◌+◌, ◌-◌, ◌<◌, ◌≤◌, ◌++◌, ◌↔◌, [], Some, List, ℕ, IfOk, IsOkAnd, IsTrue, true, length, min, refl, replicate};
ghost use Rattle.std.specs.Io.{WritesAtMost};
ghost use Rattle.std.specs.Io.KnownBytes.{WriteAppends};
ghost use Rattle.outside.specs.Faults.{HasCause, NoneFalls};
ghost use Rattle.outside.specs.Files.{told_or_empty};
ghost use Rattle.outside.specs.Places.{ReadsPlaces, WritesPlaces, GivesPlaces, Overwrites};
ghost use Rattle.outside.specs.Told.{FillsBuffer, ReadsTold, SameFiles};

use crate::disk::Disk;
use crate::fault::Failed;
use crate::files::{find, give};
use crate::gate::{Gate, Moment};
use crate::places::{fill_from, put_within};
use crate::shelf::Shelf;
use crate::sink::Sink;
use crate::unkept::Unkept;
use std::alloc::{AllocError, Global};
use std::collections::LinkedList;
use std::marker::Model;

/// Takes each piece whole and keeps no byte: contracts alone see what it took.
#[derive(Drop)]
pub struct SureSink {
    taken: Unkept<LinkedList<u8>>,
}

impl Model for SureSink {
    ghost use Rattle.std.specs.Prelude.{List, ℕ};

    ghost Value = { List ℕ };

    ghost view = { λ s. s.taken.value };
}

impl SureSink {
    /// It has taken nothing.
    pub fn new() -> SureSink
        ensures { result ≡ [] }
    {
        SureSink {
            taken: Unkept::picked(),
        }
    }
}

impl Sink for SureSink {
    ghost taken = { λ s. Some s };

    ghost faults = { λ _. 0 };

    /// Takes the whole piece, in constant time.
    fn write(&mut self, b: &[u8]) -> Result<usize, Failed>
        ensures bound { WritesAtMost result b.now }
        ensures progress { 0 < length b.now → IfOk result (λ n. 0 < n) }
        ensures bytes { WriteAppends (Some self.old) (Some self.new) result b.now }
        ensures cause { HasCause 0 0 result }

        ensures whole { IsOkAnd result (λ n. n ≡ length b.now) }
        ensures taken { self.new ≡ self.old ++ b.now }
    {
        self.taken = Unkept::after(&self.taken, &b);
        Ok(b.len())
    }
}

/// Has files; a name without a file has an empty one.
#[derive(Drop)]
pub struct SureShelf {
    files: Vec<(String, Vec<u8>)>,
}

impl Model for SureShelf {
    ghost use Rattle.std.specs.Prelude.{List};
    ghost use Rattle.outside.specs.Files.{File};

    ghost Value = { List File };

    ghost view = { λ s. s.files.items };
}

impl SureShelf {
    /// A shelf of these files; of two of one name it gives the first. It takes no memory.
    pub fn new(files: Vec<(String, Vec<u8>)>) -> SureShelf
        ensures { result ≡ files.items }
    {
        SureShelf { files }
    }
}

impl Shelf for SureShelf {
    ghost tells = { λ s. told_or_empty s };

    ghost faults = { λ _ _. 0 };

    /// Fills the buffer as far as bytes are left, in time linear in the files and those bytes.
    fn read(&mut self, name: &str, at: u64, b: &mut [u8]) -> Result<usize, Failed>
        ensures bound { IfOk result (λ n. n ≤ length b.new) }
        ensures kept_length { length b.new ≡ length b.old }
        ensures same { SameFiles (told_or_empty self.old) (told_or_empty self.new) }
        ensures contents { ReadsTold (told_or_empty self.old name.now) at result b.new }
        ensures counts { NoneFalls (λ _. 0) (λ _. 0) }
        ensures cause { HasCause 0 0 result }

        ensures fills { FillsBuffer (told_or_empty self.old name.now) at result b.old }
        ensures files { self.new ≡ self.old }
    {
        match find(&self.files, name) {
            Some(bytes) => Ok(give(bytes, at, b)),
            None => Ok(0),
        }
    }
}

/// A disk of a fixed length. Each call gives or takes its whole piece; bytes written past the end are
/// lost, and from then on the disk isn't honest.
#[derive(Drop)]
pub struct SureDisk {
    bytes: Vec<u8>,
    honest: bool,
}

impl Model for SureDisk {
    ghost use Rattle.outside.specs.Memory.{FixedBytes};

    ghost Value = { FixedBytes };

    ghost view = { λ d. record { bytes = d.bytes.items; honest = d.honest } };
}

impl SureDisk {
    /// A disk of `len` zeros.
    pub fn new(alloc: Global, len: u64) -> Result<SureDisk, AllocError>
        ensures zeros { IfOk result (λ d. d.bytes ≡ replicate len 0) }
        ensures honest { IfOk result (λ d. d.honest ≡ true) }
    {
        let bytes = vec![in alloc; 0; len as usize]?;
        Ok(SureDisk {
            bytes,
            honest: true,
        })
    }
}

impl Disk for SureDisk {
    ghost bytes = { λ d. Some d.bytes };

    ghost reach = { λ d. length d.bytes };

    ghost honest = { λ d. d.honest };

    ghost faults = { λ _. 0 };

    ghost told = { λ d h. refl };

    /// Fills the whole buffer, with zeros past the end.
    fn read_at(&mut self, at: u64, b: &mut [u8]) -> Result<usize, Failed>
        ensures bound { IfOk result (λ n. n ≤ length b.new) }
        ensures kept_length { length b.new ≡ length b.old }
        ensures progress { 0 < length b.old → IfOk result (λ n. 0 < n) }
        ensures cause { HasCause 0 0 result }
        ensures kept_reach { length self.new.bytes ≡ length self.old.bytes }
        ensures places { IsTrue self.old.honest → at + length b.old ≤ length self.old.bytes
            → ReadsPlaces (Some self.old.bytes) (Some self.new.bytes) self.new.honest at result b.new }

        ensures whole { IsOkAnd result (λ n. n ≡ length b.old) }
        ensures gives { GivesPlaces (Some self.old.bytes) at (length b.new) b.new }
        ensures same { self.new ≡ self.old }
    {
        fill_from(&self.bytes, at, b);
        Ok(b.len())
    }

    /// Takes the whole piece.
    fn write_at(&mut self, at: u64, b: &[u8]) -> Result<usize, Failed>
        ensures bound { WritesAtMost result b.now }
        ensures progress { 0 < length b.now → IfOk result (λ n. 0 < n) }
        ensures cause { HasCause 0 0 result }
        ensures kept_reach { length self.new.bytes ≡ length self.old.bytes }
        ensures places { IsTrue self.old.honest → at + length b.now ≤ length self.old.bytes
            → WritesPlaces (Some self.old.bytes) (Some self.new.bytes) self.new.honest at result b.now }

        ensures whole { IsOkAnd result (λ n. n ≡ length b.now) }
        // What lies before the end is put, and the rest is lost.
        ensures puts { Overwrites (Some self.old.bytes) (Some self.new.bytes) at (min (length b.now) (length self.old.bytes - at)) b.now }
        ensures lost { IsTrue self.new.honest ↔ (IsTrue self.old.honest × (at + length b.now ≤ length self.old.bytes)) }
    {
        let end = at.saturating_add(b.len() as u64);
        if end > self.bytes.len() as u64 {
            self.honest = false;
        }
        put_within(&mut self.bytes, at, b);
        Ok(b.len())
    }
}

/// Does nothing.
#[derive(Clone, Copy, Debug)]
pub struct QuietGate;

impl Gate for QuietGate {
    fn at(&self, _worker: u32, _m: Moment) {}
}
