//! What takes bytes.
ghost use Rattle.std.specs.Prelude.{ℕ, ◌<◌, List, Option, IfOk, length};
ghost use Rattle.std.specs.Io.{WritesAtMost};
ghost use Rattle.std.specs.Io.KnownBytes.{WriteAppends};
ghost use Rattle.outside.specs.Faults.{HasCause};
ghost use Rattle.outside.specs.Taken.{TakesAll};

use crate::fault::Failed;

/// Takes bytes, one piece after another.
pub trait Sink {
    /// The bytes taken so far, where they are told.
    ghost taken: { Self → Option (List ℕ) };
    /// How many calls failed.
    ghost faults: { Self → ℕ };

    /// Takes a front of `b`, and answers how many bytes that were. A call that fails takes nothing.
    fn write(&mut self, b: &[u8]) -> Result<usize, Failed>
        ensures bound { WritesAtMost result b.now }
        ensures progress { 0 < length b.now → IfOk result (λ n. 0 < n) }
        ensures bytes { WriteAppends (taken self.old) (taken self.new) result b.now }
        ensures cause { HasCause (faults self.old) (faults self.new) result };
}

/// Writes all of `b`, by as many calls as that takes. After `Failed`, which comes only where the
/// sink's count rose in this call, a front of `b` was taken. It takes no memory.
pub fn write_all<O: Sink>(o: &mut O, b: &[u8]) -> Result<(), Failed>
    ensures bytes { TakesAll (O.taken o.old) (O.taken o.new) result b.now }
    ensures cause { HasCause (O.faults o.old) (O.faults o.new) result }
{
    let mut at = 0;
    while at < b.len() {
        at += o.write(&b[at..])?;
    }
    Ok(())
}
