//! Why a callee isn't spliced.
use std::alloc::{AllocError, AllocFailed};
use thiserror::Error;

/// Why a callee isn't spliced.
#[derive(Clone, Copy, Debug, Drop, PartialEq, Eq, Error)]
pub enum SpliceFault {
    /// The routine with the callee in it passes a limit of the language.
    #[error("the routine passes a limit of the language")]
    TooLarge,
    /// There is no memory left.
    #[error("out of memory")]
    Memory,
}

impl From<AllocError> for SpliceFault {
    ghost use Rattle.std.specs.Prelude.{◌≡◌};
    ghost use Rattle.inliner.specs.declared.fault.SpliceFault.TheVariants.{Memory};

    ghost from_gives = { λ e f. f ≡ Memory };

    fn from(_: AllocError) -> SpliceFault {
        SpliceFault::Memory
    }
}

impl<T: Drop> From<AllocFailed<T>> for SpliceFault {
    ghost use Rattle.std.specs.Prelude.{◌≡◌};
    ghost use Rattle.inliner.specs.declared.fault.SpliceFault.TheVariants.{Memory};

    ghost from_gives = { λ _ e. e ≡ Memory };

    fn from(_: AllocFailed<T>) -> SpliceFault {
        SpliceFault::Memory
    }
}
