//! The disks in memory: one that fails where it is told to, and one that lies once.
ghost use Rattle.std.specs.Prelude.{◌≡◌, ◌+◌, ◌-◌, ◌^◌, ◌<◌, ◌≤◌, ◌↔◌, ◌==◌, Some, ℕ, IfOk, IsErr, IsTrue, MatchResult, OnErr, false, length, max, refl, true};
ghost use Rattle.std.specs.Io.{WritesAtMost};
ghost use Rattle.outside.specs.Calls.{CountsCall, FailsNext, one_more};
ghost use Rattle.outside.specs.Faults.{HasCause};
ghost use Rattle.outside.specs.Places.{GivesBent, GivesPlaces, Overwrites, ReadsPlaces, WritesPlaces};

use crate::calls::Calls;
use crate::disk::Disk;
use crate::fault::Failed;
use crate::places::{fill_from, put, turn};
use std::marker::Model;

/// Keeps its bytes, grows by zeros where a write lies past its end, and fails at the calls of its
/// list. A refused growth is a fault.
#[derive(Drop)]
pub struct MemDisk {
    bytes: Vec<u8>,
    calls: Calls,
}

impl Model for MemDisk {
    ghost use Rattle.outside.specs.Memory.{KeptBytes};

    ghost Value = { KeptBytes };

    ghost view = { λ d. record { bytes = d.bytes.items; calls = d.calls } };
}

impl MemDisk {
    /// A disk of these bytes. `fail` lists the numbers of the calls that fail, counted from 1 over
    /// reads and writes. It takes no memory.
    pub fn new(bytes: Vec<u8>, fail: Vec<u32>) -> MemDisk
        ensures bytes { result.bytes ≡ bytes.items }
        ensures list { result.calls.failing ≡ fail.items }
        ensures first { result.calls.made ≡ 0 }
        ensures faultless { result.calls.faults ≡ 0 }
    {
        MemDisk {
            bytes,
            calls: Calls::new(fail),
        }
    }

    /// Its bytes, as many as it has grown to.
    pub fn bytes(&self) -> &[u8]
        ensures { result.now ≡ self.now.bytes }
    {
        self.bytes.as_slice()
    }
}

impl Disk for MemDisk {
    ghost bytes = { λ d. Some d.bytes };

    ghost reach = { λ _. 2 ^ 64 - 1 };

    ghost honest = { λ _. true };

    ghost faults = { λ d. d.calls.faults };

    ghost told = { λ d h. refl };

    /// Fills the whole buffer, with zeros past the end.
    fn read_at(&mut self, at: u64, b: &mut [u8]) -> Result<usize, Failed>
        ensures bound { IfOk result (λ n. n ≤ length b.new) }
        ensures kept_length { length b.new ≡ length b.old }
        ensures progress { 0 < length b.old → IfOk result (λ n. 0 < n) }
        ensures cause { HasCause self.old.calls.faults self.new.calls.faults result }
        ensures kept_reach { 2 ^ 64 - 1 ≡ 2 ^ 64 - 1 }
        ensures places { IsTrue true → at + length b.old ≤ 2 ^ 64 - 1
            → ReadsPlaces (Some self.old.bytes) (Some self.new.bytes) true at result b.new }

        ensures whole { IfOk result (λ n. n ≡ length b.old) }
        ensures gives { IfOk result (λ n. GivesPlaces (Some self.old.bytes) at n b.new) }
        ensures nothing { OnErr result (b.new ≡ b.old) }
        ensures same { self.new.bytes ≡ self.old.bytes }
        ensures counted { CountsCall self.old.calls self.new.calls result }
        ensures listed { IsErr result ↔ FailsNext self.old.calls }
    {
        self.calls.count()?;
        fill_from(&self.bytes, at, b);
        Ok(b.len())
    }

    /// Takes the whole piece. It fails where this call is in the list, and where the disk is refused
    /// the memory to grow.
    fn write_at(&mut self, at: u64, b: &[u8]) -> Result<usize, Failed>
        ensures bound { WritesAtMost result b.now }
        ensures progress { 0 < length b.now → IfOk result (λ n. 0 < n) }
        ensures cause { HasCause self.old.calls.faults self.new.calls.faults result }
        ensures kept_reach { 2 ^ 64 - 1 ≡ 2 ^ 64 - 1 }
        ensures places { IsTrue true → at + length b.now ≤ 2 ^ 64 - 1
            → WritesPlaces (Some self.old.bytes) (Some self.new.bytes) true at result b.now }

        ensures whole { IfOk result (λ n. n ≡ length b.now) }
        ensures puts { MatchResult result (λ n. Overwrites (Some self.old.bytes) (Some self.new.bytes) at n b.now)
            (λ _. self.new.bytes ≡ self.old.bytes) }
        ensures grown { IfOk result (λ n. length self.new.bytes ≡ max (length self.old.bytes) (at + n)) }
        ensures counted { CountsCall self.old.calls self.new.calls result }
        ensures listed { FailsNext self.old.calls → IsErr result }
    {
        self.calls.count()?;
        match put(&mut self.bytes, at, b) {
            Ok(()) => Ok(b.len()),
            Err(_) => Err(self.calls.fault()),
        }
    }
}

/// A [`MemDisk`] that lies: one of its reads gives its bytes with one bit turned over. It isn't
/// honest.
#[derive(Drop)]
pub struct BentDisk {
    inner: MemDisk,
    read: u32,
    bit: u32,
    reads: u64,
}

impl Model for BentDisk {
    ghost use Rattle.outside.specs.Memory.{Bent};

    ghost Value = { Bent };

    ghost view = { λ d. record { inner = d.inner; read = d.read; bit = d.bit; reads = d.reads } };
}

impl BentDisk {
    /// The disk `inner`, whose read of number `read`, counted from 1, gives its bytes with bit `bit`
    /// turned over. Bit 0 is the low bit of the first byte; past the last bit nothing is turned.
    pub fn new(inner: MemDisk, read: u32, bit: u32) -> BentDisk
        ensures inner { result.inner ≡ inner }
        ensures read { result.read ≡ read }
        ensures bit { result.bit ≡ bit }
        ensures first { result.reads ≡ 0 }
    {
        BentDisk {
            inner,
            read,
            bit,
            reads: 0,
        }
    }
}

impl Disk for BentDisk {
    ghost bytes = { λ d. Some d.inner.bytes };

    ghost reach = { λ _. 2 ^ 64 - 1 };

    ghost honest = { λ _. false };

    ghost faults = { λ d. d.inner.calls.faults };

    ghost told = { λ d h. refl };

    /// Fills the whole buffer as the disk within does, but for the one bit at the one read.
    fn read_at(&mut self, at: u64, b: &mut [u8]) -> Result<usize, Failed>
        ensures bound { IfOk result (λ n. n ≤ length b.new) }
        ensures kept_length { length b.new ≡ length b.old }
        ensures progress { 0 < length b.old → IfOk result (λ n. 0 < n) }
        ensures cause { HasCause self.old.inner.calls.faults self.new.inner.calls.faults result }
        ensures kept_reach { 2 ^ 64 - 1 ≡ 2 ^ 64 - 1 }
        ensures places { IsTrue false → at + length b.old ≤ 2 ^ 64 - 1
            → ReadsPlaces (Some self.old.inner.bytes) (Some self.new.inner.bytes) false at result b.new }

        ensures whole { IfOk result (λ n. n ≡ length b.old) }
        ensures nothing { OnErr result (b.new ≡ b.old) }
        ensures bends { IfOk result (λ n. GivesBent (Some self.old.inner.bytes) at n b.new
            (self.new.reads == self.old.read) self.old.bit) }
        ensures next { self.new.reads ≡ one_more self.old.reads }
        ensures read { self.new.read ≡ self.old.read }
        ensures bit { self.new.bit ≡ self.old.bit }
        ensures same { self.new.inner.bytes ≡ self.old.inner.bytes }
        ensures counted { CountsCall self.old.inner.calls self.new.inner.calls result }
        ensures listed { IsErr result ↔ FailsNext self.old.inner.calls }
    {
        self.reads = self.reads.saturating_add(1);
        let n = self.inner.read_at(at, b)?;
        if self.reads == u64::from(self.read) {
            turn(b, self.bit);
        }
        Ok(n)
    }

    /// Takes the whole piece, as the disk within does.
    fn write_at(&mut self, at: u64, b: &[u8]) -> Result<usize, Failed>
        ensures bound { WritesAtMost result b.now }
        ensures progress { 0 < length b.now → IfOk result (λ n. 0 < n) }
        ensures cause { HasCause self.old.inner.calls.faults self.new.inner.calls.faults result }
        ensures kept_reach { 2 ^ 64 - 1 ≡ 2 ^ 64 - 1 }
        ensures places { IsTrue false → at + length b.now ≤ 2 ^ 64 - 1
            → WritesPlaces (Some self.old.inner.bytes) (Some self.new.inner.bytes) false at result b.now }

        ensures whole { IfOk result (λ n. n ≡ length b.now) }
        ensures puts { MatchResult result (λ n. Overwrites (Some self.old.inner.bytes) (Some self.new.inner.bytes) at n b.now)
            (λ _. self.new.inner.bytes ≡ self.old.inner.bytes) }
        ensures reads { self.new.reads ≡ self.old.reads }
        ensures read { self.new.read ≡ self.old.read }
        ensures bit { self.new.bit ≡ self.old.bit }
        ensures counted { CountsCall self.old.inner.calls self.new.inner.calls result }
        ensures listed { FailsNext self.old.inner.calls → IsErr result }
    {
        self.inner.write_at(at, b)
    }
}
