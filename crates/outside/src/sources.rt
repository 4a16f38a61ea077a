//! The sources in memory: one that never fails, and one that fails where it is told to.
ghost use Rattle.std.specs.Prelude.{◌≡◌, ◌↔◌, ◌≤◌, [], Some, IfOk, IsErr, IsOkAnd, OnErr, length, min};
ghost use Rattle.std.specs.Io.KnownBytes.{ReadConsumes};
ghost use Rattle.outside.specs.Asks.{NotesAsk};
ghost use Rattle.outside.specs.Calls.{FailsNext, CountsCall};
ghost use Rattle.outside.specs.Faults.{HasCause};

use crate::calls::Calls;
use crate::fault::Failed;
use crate::files::give;
use crate::source::{Ask, Source};
use crate::unkept::Unkept;
use std::collections::LinkedList;
use std::marker::Model;

/// Gives its bytes, and never fails. Contracts alone see its calls.
#[derive(Drop)]
pub struct SureSource {
    bytes: Vec<u8>,
    at: usize,
    asks: Unkept<LinkedList<Ask>>,
    ghost within: { at ≤ length bytes.items },
}

impl Model for SureSource {
    ghost use Rattle.std.specs.Prelude.{drop};
    ghost use Rattle.outside.specs.Memory.{GivenBytes};

    ghost Value = { GivenBytes };

    ghost view = { λ s. record { left = drop s.at s.bytes.items; asks = s.asks.value } };
}

impl SureSource {
    /// A source of these bytes. It takes no memory.
    pub fn new(b: Vec<u8>) -> SureSource
        ensures bytes { result.left ≡ b.items }
        ensures unasked { result.asks ≡ [] }
    {
        SureSource {
            bytes: b,
            at: 0,
            asks: Unkept::picked(),
        }
    }
}

impl Source for SureSource {
    ghost left = { λ s. Some s.left };

    ghost asks = { λ s. Some s.asks };

    ghost faults = { λ _. 0 };

    /// Fills the buffer as far as bytes are left, in time linear in those bytes.
    fn read(&mut self, b: &mut [u8]) -> Result<usize, Failed>
        ensures bound { IfOk result (λ n. n ≤ length b.new) }
        ensures kept_length { length b.new ≡ length b.old }
        ensures bytes { ReadConsumes (Some self.old.left) (Some self.new.left) result b.new }
        ensures noted { NotesAsk (Some self.old.asks) (Some self.new.asks) result }
        ensures cause { HasCause 0 0 result }

        ensures fills { IsOkAnd result (λ n. n ≡ min (length b.old) (length self.old.left)) }
    {
        let n = give(&self.bytes, self.at as u64, b);
        let given = Ok(n);
        self.at += n;
        self.asks = Unkept::after(&self.asks, &given);
        given
    }
}

/// Gives its bytes, and fails at the calls of its list.
#[derive(Drop)]
pub struct MemSource {
    inner: SureSource,
    asks: Unkept<LinkedList<Ask>>,
    calls: Calls,
}

impl Model for MemSource {
    ghost use Rattle.outside.specs.Memory.{GivenOrFailed};

    ghost Value = { GivenOrFailed };

    ghost view = { λ s. record { left = s.inner.left; asks = s.asks.value; calls = s.calls } };
}

impl MemSource {
    /// A source of these bytes. `fail` lists the numbers of the calls that fail, counted from 1. It
    /// takes no memory.
    pub fn new(b: Vec<u8>, fail: Vec<u32>) -> MemSource
        ensures bytes { result.left ≡ b.items }
        ensures unasked { result.asks ≡ [] }
        ensures list { result.calls.failing ≡ fail.items }
        ensures first { result.calls.made ≡ 0 }
        ensures faultless { result.calls.faults ≡ 0 }
    {
        MemSource {
            inner: SureSource::new(b),
            asks: Unkept::picked(),
            calls: Calls::new(fail),
        }
    }

    /// Fills the buffer as far as bytes are left, or fails where this call is in the list. The call
    /// isn't noted.
    fn give_or_fail(&mut self, b: &mut [u8]) -> Result<usize, Failed>
        ensures bound { IfOk result (λ n. n ≤ length b.new) }
        ensures kept_length { length b.new ≡ length b.old }
        ensures bytes { ReadConsumes (Some self.old.left) (Some self.new.left) result b.new }
        ensures asks { self.new.asks ≡ self.old.asks }
        ensures counted { CountsCall self.old.calls self.new.calls result }
        ensures listed { IsErr result ↔ FailsNext self.old.calls }
        ensures fills { IfOk result (λ n. n ≡ min (length b.old) (length self.old.left)) }
        ensures nothing { OnErr result (b.new ≡ b.old) }
    {
        self.calls.count()?;
        self.inner.read(b)
    }
}

impl Source for MemSource {
    ghost left = { λ s. Some s.left };

    ghost asks = { λ s. Some s.asks };

    ghost faults = { λ s. s.calls.faults };

    /// Fills the buffer as far as bytes are left, in time linear in those bytes and the list. It
    /// fails exactly where this call is in the list.
    fn read(&mut self, b: &mut [u8]) -> Result<usize, Failed>
        ensures bound { IfOk result (λ n. n ≤ length b.new) }
        ensures kept_length { length b.new ≡ length b.old }
        ensures bytes { ReadConsumes (Some self.old.left) (Some self.new.left) result b.new }
        ensures noted { NotesAsk (Some self.old.asks) (Some self.new.asks) result }
        ensures cause { HasCause self.old.calls.faults self.new.calls.faults result }

        ensures fills { IfOk result (λ n. n ≡ min (length b.old) (length self.old.left)) }
        ensures nothing { OnErr result (b.new ≡ b.old) }
        ensures counted { CountsCall self.old.calls self.new.calls result }
        ensures listed { IsErr result ↔ FailsNext self.old.calls }
    {
        let given = self.give_or_fail(b);
        self.asks = Unkept::after(&self.asks, &given);
        given
    }
}
