//! How a run ends, or why it stops.
use hlo_num::{Trap, Word};
use outside::Failed;
use std::alloc::AllocError;
use thiserror::Error;

/// How a program ends.
#[derive(Clone, Copy, Debug, PartialEq, Eq)]
pub enum Ending {
    /// It called `exit`, or `main` returned this word.
    Exit(Word),
    /// An instruction trapped.
    Trapped(Trap),
    /// A turn was needed and none was left.
    OutOfTurns,
}

/// Why a run stops before the program's end.
#[derive(Clone, Copy, Debug, Drop, PartialEq, Eq, Error)]
pub enum RunFault {
    /// The source of the input failed.
    #[error("reading the input failed")]
    Input,
    /// The sink of the output failed.
    #[error("writing the output failed")]
    Output,
    /// Memory ran out.
    #[error("out of memory")]
    Memory,
}

impl From<AllocError> for RunFault {
    ghost use Rattle.std.specs.Prelude.{◌≡◌};
    ghost use Rattle.il_run.specs.declared.ending.RunFault.TheVariants.{Memory};

    ghost from_gives = { λ _ e. e ≡ Memory };

    fn from(_fault: AllocError) -> RunFault {
        RunFault::Memory
    }
}
