//! A text that is put out.
ghost use Rattle.std.specs.Prelude.{◌≡◌, ◌≤◌, IfErr};
ghost use Rattle.outside.specs.Taken.{TakesAll};
ghost use Rattle.hlo_cmd.specs.Printing.{IsPrintCause};

use outside::{Sink, write_all};

/// Why a text wasn't put out.
#[derive(Clone, Copy, PartialEq, Eq)]
pub(crate) enum PrintFault {
    /// The sink failed.
    Output,
    /// Memory ran out.
    Memory,
}

/// Puts out a piece.
pub(crate) fn put<O: Sink>(out: &mut O, piece: &[u8]) -> Result<(), PrintFault>
    ensures bytes { TakesAll (O.taken out.old) (O.taken out.new) result piece.now }
    ensures cause { IfErr result (λ f. IsPrintCause f (O.faults out.old) (O.faults out.new)) }
    ensures fault { IfErr result (λ f. f ≡ PrintFault.Output) }
    ensures later { O.faults out.old ≤ O.faults out.new }
{
    match write_all(out, piece) {
        Ok(()) => Ok(()),
        Err(_) => Err(PrintFault::Output),
    }
}
