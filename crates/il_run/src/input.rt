//! The input, some bytes at a time.
ghost use Rattle.std.specs.Prelude.{◌≡◌, ◌<◌, ◌≤◌, ◌∷◌, [], ⊤, IfOk, List, MatchBool, MatchOption, MatchResult, OnErr, Option, true, false};
ghost use Rattle.std.specs.Io.KnownBytes.{IsAtEnd, Keeps, prepend_known};
ghost use Rattle.outside.specs.Faults.{HasCause};
ghost use Rattle.il_run.specs.Streams.{AsksInTurn, AsksOnce, AsksOnceAtMost, AsksSo, FailsAt, GivesNext, IsAhead, ahead};
ghost use Rattle.outside.specs.declared.source.Ask.{Ask};

use outside::{Failed, Source};
use std::alloc::{AllocError, Global};

/// The greatest number of bytes that are asked for at once.
const BLOCK: usize = 4096;

/// What a source gave ahead of the program: the bytes of the block from `next` to `end`, and whether
/// the source has ended.
#[derive(Drop)]
pub struct Ahead {
    pub block: Vec<u8>,
    pub next: usize,
    pub end: usize,
    pub ended: bool,
}

impl Ahead {
    /// Nothing was asked.
    pub fn new(alloc: Global) -> Result<Ahead, AllocError>
        ensures nothing { IfOk result (λ a. ahead a ≡ []) }
        ensures open { IfOk result (λ a. a.ended ≡ false) }
        ensures fits { IfOk result IsAhead }
    {
        Ok(Ahead {
            block: vec![in alloc; 0; BLOCK]?,
            next: 0,
            end: 0,
            ended: false,
        })
    }

    /// The next byte, or none at the end. The source is asked where no byte is ahead, and not after
    /// its end.
    pub fn next<I: Source>(&mut self, input: &mut I) -> Result<Option<u8>, Failed>
        requires fits { IsAhead self.old }
        requires ended { self.old.ended ≡ true → IsAtEnd (I.left input.old) }
        ensures fits { IsAhead self.new }
        ensures ended { self.new.ended ≡ true → IsAtEnd (I.left input.new) }
        ensures shut { self.old.ended ≡ true → self.new.ended ≡ true }
        ensures end { IfOk result (λ o. MatchOption o (self.new.ended ≡ true) (λ b. ⊤)) }
        ensures failed { OnErr result (FailsAt self.old self.new) }
        ensures asked { AsksOnceAtMost self.old (I.left input.old) (I.left input.new) (I.asks input.old) (I.asks input.new) }
        ensures gives { GivesNext (prepend_known (ahead self.old) (I.left input.old)) (prepend_known (ahead self.new) (I.left input.new)) result }
        ensures asks { (start : Option (List Ask)) → AsksSo start (I.asks input.old) self.old.ended
            → MatchResult result (λ _. AsksSo start (I.asks input.new) self.new.ended) (λ _. AsksInTurn start (I.asks input.new)) }
        ensures cause { HasCause (I.faults input.old) (I.faults input.new) result }
    {
        if self.next < self.end {
            return Ok(Some(self.take()));
        }
        if self.ended {
            return Ok(None);
        }
        if !self.refill(input)? {
            return Ok(None);
        }
        Ok(Some(self.take()))
    }

    /// The first byte that is ahead.
    fn take(&mut self) -> u8
        requires fits { IsAhead self.old }
        requires some { self.old.next < self.old.end }
        ensures first { ahead self.old ≡ result ∷ ahead self.new }
        ensures fits { IsAhead self.new }
        ensures ended { self.new.ended ≡ self.old.ended }
    {
        let b = self.block[self.next];
        self.next += 1;
        b
    }

    /// Asks the source for more, where no byte is ahead and it hasn't ended, and answers whether
    /// there was any.
    fn refill<I: Source>(&mut self, input: &mut I) -> Result<bool, Failed>
        requires fits { IsAhead self.old }
        requires empty { self.old.next ≡ self.old.end }
        requires open { self.old.ended ≡ false }
        ensures fits { IsAhead self.new }
        ensures ended { self.new.ended ≡ true → IsAtEnd (I.left input.new) }
        ensures more { IfOk result (λ more. MatchBool more (self.new.next < self.new.end) (self.new.next ≡ self.new.end)) }
        ensures end { IfOk result (λ more. more ≡ false → IsAtEnd (I.left input.new)) }
        ensures met { IfOk result (λ more. more ≡ false → self.new.ended ≡ true) }
        ensures failed { OnErr result (FailsAt self.old self.new) }
        ensures asked { AsksOnce self.old (I.left input.old) (I.left input.new) (I.asks input.old) (I.asks input.new) }
        ensures known { Keeps (prepend_known (ahead self.old) (I.left input.old)) (prepend_known (ahead self.new) (I.left input.new)) }
        ensures asks { (start : Option (List Ask)) → AsksSo start (I.asks input.old) false
            → MatchResult result (λ _. AsksSo start (I.asks input.new) self.new.ended) (λ _. AsksInTurn start (I.asks input.new)) }
        ensures cause { HasCause (I.faults input.old) (I.faults input.new) result }
    {
        let n = input.read(self.block.as_mut_slice())?;
        self.next = 0;
        self.end = n;
        self.ended = n == 0;
        Ok(0 < n)
    }
}
