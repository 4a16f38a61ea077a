//! Why a text isn't read.
use std::alloc::AllocError;
use thiserror::Error;

/// Why bytes are no text of a profile, or why that isn't known.
#[derive(Clone, Copy, Debug, Drop, PartialEq, Eq, Error)]
pub enum ProfFault {
    /// The first line with which no text goes on, from 1, or the one past the last where lines are missing;
    /// 4294967295 stands for all lines from there on.
    #[error("no profile goes on with line {0}")]
    Line(u32),
    /// Memory ran out.
    #[error("out of memory")]
    Memory,
}

impl From<AllocError> for ProfFault {
    ghost use Rattle.std.specs.Prelude.{◌≡◌};
    ghost use Rattle.profile.specs.declared.fault.ProfFault.TheVariants.{Memory};

    ghost from_gives = { λ _ e. e ≡ Memory };

    fn from(_error: AllocError) -> ProfFault {
        ProfFault::Memory
    }
}
