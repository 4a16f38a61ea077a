//! What the words of a command say.
use crate::file_name::FileName;
use hlo_num::Seq;
use std::alloc::{AllocError, AllocFailed};
use thiserror::Error;

/// What `opt` is to do.
#[derive(Drop)]
pub struct OptSettings {
    /// How many bytes of routines may lie in memory that no worker holds.
    pub limit: u64,
    /// By how many percent the plan may make the program dearer.
    pub budget: u32,
    /// How many passes the plan makes.
    pub passes: u32,
    /// The profile, where the words name one.
    pub profile: Option<FileName>,
    /// Whether the report is told.
    pub stats: bool,
    /// The modules, in the order of the words.
    pub files: Seq<FileName>,
}

/// What `check` is to do.
#[derive(Drop)]
pub struct CheckSettings {
    /// The modules, in the order of the words.
    pub files: Seq<FileName>,
}

/// What `run` and `train` are to do.
#[derive(Drop)]
pub struct RunSettings {
    /// How many turns the program may take.
    pub turns: u64,
    /// The modules, in the order of the words.
    pub files: Seq<FileName>,
}

/// What `runil` is to do.
#[derive(Drop)]
pub struct RunIlSettings {
    /// How many turns the program may take.
    pub turns: u64,
    /// The file with the program's text.
    pub file: FileName,
}

/// Why words give no settings.
#[derive(Clone, Copy, Debug, Drop, PartialEq, Eq, Error)]
pub enum WordsFault {
    /// They are refused, a number is outside its range, or there are no files or too many.
    #[error("the words are no command")]
    Usage,
    /// Memory ran out.
    #[error("out of memory")]
    Memory,
}

impl From<AllocError> for WordsFault {
    ghost use Rattle.std.specs.Prelude.{◌≡◌};
    ghost use Rattle.hlo_words.specs.declared.settings.WordsFault.TheVariants.{Memory};

    ghost from_gives = { λ _ e. e ≡ Memory };

    fn from(_error: AllocError) -> WordsFault {
        WordsFault::Memory
    }
}

impl<T: Drop> From<AllocFailed<T>> for WordsFault {
    ghost use Rattle.std.specs.Prelude.{◌≡◌};
    ghost use Rattle.hlo_words.specs.declared.settings.WordsFault.TheVariants.{Memory};

    ghost from_gives = { λ _ e. e ≡ Memory };

    fn from(_error: AllocFailed<T>) -> WordsFault {
        WordsFault::Memory
    }
}
