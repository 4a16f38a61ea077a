//! The output, some bytes at a time.
ghost use Rattle.std.specs.Prelude.{◌≡◌, ◌≤◌, ◌∷◌, [], IfOk, OnOk, IfErr};
ghost use Rattle.std.specs.Io.KnownBytes.{Appends, append_known};
ghost use Rattle.il_run.specs.Streams.{GainsFront, IsOutputFault};

use crate::ending::RunFault;
use outside::{Sink, write_all};
use std::alloc::{AllocError, Global};

/// How many bytes wait at most before they are written.
const BLOCK: usize = 4096;

/// What the program has put out and no sink has taken.
#[derive(Drop)]
pub struct Pending {
    pub bytes: Vec<u8>,
}

impl Pending {
    /// Nothing waits.
    pub fn new(alloc: Global) -> Result<Pending, AllocError>
        ensures { IfOk result (λ p. p.bytes.items ≡ []) }
    {
        Ok(Pending {
            bytes: Vec::with_capacity(alloc, BLOCK)?,
        })
    }

    /// One more byte waits. Where there are too many, they are written first.
    pub fn put<O: Sink>(&mut self, out: &mut O, b: u8) -> Result<(), RunFault>
        ensures bytes { OnOk result (Appends (append_known (O.taken out.old) self.old.bytes.items)
            (append_known (O.taken out.new) self.new.bytes.items) (b ∷ [])) }
        ensures front { GainsFront (O.taken out.old) (O.taken out.new) self.old.bytes.items }
        ensures cause { IfErr result (λ f. IsOutputFault f (O.faults out.old) (O.faults out.new)) }
        ensures later { O.faults out.old ≤ O.faults out.new }
    {
        if BLOCK <= self.bytes.len() {
            self.flush(out)?;
        }
        match self.bytes.push(b) {
            Ok(()) => Ok(()),
            Err(_) => Err(RunFault::Memory),
        }
    }

    /// Writes all that waits.
    pub fn flush<O: Sink>(&mut self, out: &mut O) -> Result<(), RunFault>
        ensures bytes { OnOk result (Appends (O.taken out.old) (O.taken out.new) self.old.bytes.items) }
        ensures empty { OnOk result (self.new.bytes.items ≡ []) }
        ensures front { GainsFront (O.taken out.old) (O.taken out.new) self.old.bytes.items }
        ensures cause { IfErr result (λ f. IsOutputFault f (O.faults out.old) (O.faults out.new)) }
        ensures later { O.faults out.old ≤ O.faults out.new }
    {
        let written = write_all(out, &self.bytes);
        if written.is_err() {
            return Err(RunFault::Output);
        }
        self.bytes.clear();
        Ok(())
    }
}
