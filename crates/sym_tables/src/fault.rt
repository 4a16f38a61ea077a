//! Why a declaration or definition is refused.
use thiserror::Error;

/// Why a declaration or definition is refused. Where several hold, the first of this list is told.
#[derive(Clone, Copy, Debug, Drop, PartialEq, Eq, Error)]
pub enum SymFault {
    /// The entity is incompatible with what is known of the name.
    #[error("the name is known as something else")]
    TypeClash,
    /// A defined name is defined again.
    #[error("the name is defined already")]
    Duplicate,
    /// There would be more than the limits allow: of names, routines, array elements of defined or
    /// tentative arrays, or parameters of a function.
    #[error("a limit would be passed")]
    TooMany,
    /// There is no memory for a new name.
    #[error("out of memory")]
    Memory,
}
