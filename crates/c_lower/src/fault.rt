//! Why a function isn't lowered.
use std::alloc::{AllocError, AllocFailed};
use thiserror::Error;

/// Why a function isn't lowered.
#[derive(Clone, Copy, Debug, Drop, PartialEq, Eq, Error)]
pub enum LowerFault {
    /// Its routine passes a limit of the language.
    #[error("the routine passes a limit of the language")]
    TooLarge,
    /// There is no memory left.
    #[error("out of memory")]
    Memory,
}

impl From<AllocError> for LowerFault {
    ghost use Rattle.std.specs.Prelude.{◌≡◌};
    ghost use Rattle.c_lower.specs.declared.fault.LowerFault.TheVariants.{Memory};

    ghost from_gives = { λ e f. f ≡ Memory };

    fn from(_: AllocError) -> LowerFault {
        LowerFault::Memory
    }
}

impl<T: Drop> From<AllocFailed<T>> for LowerFault {
    ghost use Rattle.std.specs.Prelude.{◌≡◌};
    ghost use Rattle.c_lower.specs.declared.fault.LowerFault.TheVariants.{Memory};

    ghost from_gives = { λ _ e. e ≡ Memory };

    fn from(_: AllocFailed<T>) -> LowerFault {
        LowerFault::Memory
    }
}
