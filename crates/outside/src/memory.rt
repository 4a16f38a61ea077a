//! The objects in memory that fail where they are told to.
ghost use Rattle.std.specs.Prelude.{◌≡◌, ◌<◌, ◌≤◌, ◌⊎◌, [], Some, List, ℕ, IfOk, IsErr, OnErr, length};
ghost use Rattle.std.specs.Io.{WritesAtMost};
ghost use Rattle.std.specs.Io.KnownBytes.{WriteAppends};
ghost use Rattle.outside.specs.Calls.{FailsNext, CountsCall};
ghost use Rattle.outside.specs.Faults.{HasCause, NoneFalls};
ghost use Rattle.outside.specs.Files.{told_of};
ghost use Rattle.outside.specs.Told.{Absent, FillsBuffer, ReadsTold, SameFiles};

use crate::calls::Calls;
use crate::fault::Failed;
use crate::files::{find, give};
use crate::shelf::Shelf;
use crate::sink::Sink;
use std::alloc::Global;
use std::marker::Model;

/// Keeps what it takes, and fails at the calls of its list.
#[derive(Drop)]
pub struct MemSink {
    taken: Vec<u8>,
    calls: Calls,
}

impl Model for MemSink {
    ghost use Rattle.outside.specs.Memory.{KeptBytes};

    ghost Value = { KeptBytes };

    ghost view = { λ s. record { bytes = s.taken.items; calls = s.calls } };
}

impl MemSink {
    /// It has taken nothing. `fail` lists the numbers of the calls that fail, counted from 1. It
    /// takes no memory.
    pub fn new(alloc: Global, fail: Vec<u32>) -> MemSink
        ensures empty { result.bytes ≡ [] }
        ensures list { result.calls.failing ≡ fail.items }
        ensures first { result.calls.made ≡ 0 }
        ensures faultless { result.calls.faults ≡ 0 }
    {
        let calls = Calls::new(fail);
        MemSink {
            taken: Vec::new(alloc),
            calls,
        }
    }

    /// The bytes taken.
    pub fn bytes(&self) -> &[u8]
        ensures { result.now ≡ self.now.bytes }
    {
        self.taken.as_slice()
    }
}

impl Sink for MemSink {
    ghost taken = { λ s. Some s.bytes };

    ghost faults = { λ s. s.calls.faults };

    /// Takes the whole piece. It fails where this call is in the list, and where the vector is
    /// refused more memory.
    fn write(&mut self, b: &[u8]) -> Result<usize, Failed>
        ensures bound { WritesAtMost result b.now }
        ensures progress { 0 < length b.now → IfOk result (λ n. 0 < n) }
        ensures bytes { WriteAppends (Some self.old.bytes) (Some self.new.bytes) result b.now }
        ensures cause { HasCause self.old.calls.faults self.new.calls.faults result }

        ensures whole { IfOk result (λ n. n ≡ length b.now) }
        ensures counted { CountsCall self.old.calls self.new.calls result }
        ensures listed { FailsNext self.old.calls → IsErr result }
    {
        self.calls.count()?;
        match self.taken.extend_from_slice(b) {
            Ok(()) => Ok(b.len()),
            Err(_) => Err(self.calls.fault()),
        }
    }
}

/// Has files, and fails at the calls of its list and at names that it has no file of.
#[derive(Drop)]
pub struct MemShelf {
    files: Vec<(String, Vec<u8>)>,
    calls: Calls,
}

impl Model for MemShelf {
    ghost use Rattle.outside.specs.Memory.{KeptFiles};

    ghost Value = { KeptFiles };

    ghost view = { λ s. record { files = s.files.items; calls = s.calls } };
}

impl MemShelf {
    /// A shelf of these files; of two of one name it gives the first. `fail` lists the numbers of the
    /// calls that fail, counted from 1. It takes no memory.
    pub fn new(files: Vec<(String, Vec<u8>)>, fail: Vec<u32>) -> MemShelf
        ensures files { result.files ≡ files.items }
        ensures list { result.calls.failing ≡ fail.items }
        ensures first { result.calls.made ≡ 0 }
        ensures faultless { result.calls.faults ≡ 0 }
    {
        MemShelf {
            files,
            calls: Calls::new(fail),
        }
    }
}

impl Shelf for MemShelf {
    ghost tells = { λ s. told_of s.files };

    ghost faults = { λ s _. s.calls.faults };

    /// Fills the buffer as far as bytes are left, in time linear in the files and those bytes.
    fn read(&mut self, name: &str, at: u64, b: &mut [u8]) -> Result<usize, Failed>
        ensures bound { IfOk result (λ n. n ≤ length b.new) }
        ensures kept_length { length b.new ≡ length b.old }
        ensures same { SameFiles (told_of self.old.files) (told_of self.new.files) }
        ensures contents { ReadsTold (told_of self.old.files name.now) at result b.new }
        ensures counts { NoneFalls (λ _. self.old.calls.faults) (λ _. self.new.calls.faults) }
        ensures cause { HasCause self.old.calls.faults self.new.calls.faults result }

        ensures fills { FillsBuffer (told_of self.old.files name.now) at result b.old }
        ensures files { self.new.files ≡ self.old.files }
        ensures counted { CountsCall self.old.calls self.new.calls result }
        ensures listed { FailsNext self.old.calls → IsErr result }
        ensures nothing { OnErr result (b.new ≡ b.old) }
        ensures why { OnErr result (FailsNext self.old.calls ⊎ (told_of self.old.files name.now ≡ Absent)) }
    {
        self.calls.count()?;
        match find(&self.files, name) {
            Some(bytes) => Ok(give(bytes, at, b)),
            None => Err(self.calls.fault()),
        }
    }
}
