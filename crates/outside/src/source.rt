//! What gives bytes.
ghost use Rattle.std.specs.Prelude.{◌≡◌, ◌≤◌, ℕ, List, Option, IfOk, length};
ghost use Rattle.std.specs.Io.KnownBytes.{ReadConsumes};
ghost use Rattle.outside.specs.Asks.{NotesAsk};
ghost use Rattle.outside.specs.Faults.{HasCause};
ghost use Rattle.outside.specs.declared.source.Ask.{Ask};

use crate::fault::Failed;

/// One call of a source, as contracts see it.
#[derive(Drop)]
pub struct Ask {
    /// How many bytes the source had given before this call.
    pub before: u64,
    /// How many it gave in this call, or none where the call failed.
    pub gave: Option<u64>,
}

/// Gives bytes, one piece after another.
pub trait Source {
    /// The bytes left, where they are told.
    ghost left: { Self → Option (List ℕ) };
    /// The calls so far in their order, where they are told. No byte stands for it.
    ghost asks: { Self → Option (List Ask) };
    /// How many calls failed.
    ghost faults: { Self → ℕ };

    /// Fills a front of `b` with the next bytes, and answers how many bytes that were: 0 only at the
    /// end, and where `b` is empty. The rest of `b` may hold anything. A call that fails gives
    /// nothing.
    fn read(&mut self, b: &mut [u8]) -> Result<usize, Failed>
        ensures bound { IfOk result (λ n. n ≤ length b.new) }
        ensures kept_length { length b.new ≡ length b.old }
        ensures bytes { ReadConsumes (left self.old) (left self.new) result b.new }
        ensures noted { NotesAsk (asks self.old) (asks self.new) result }
        ensures cause { HasCause (faults self.old) (faults self.new) result };
}
