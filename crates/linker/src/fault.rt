//! Why a program isn't linked.
use thiserror::Error;

/// Why a program isn't linked. Where several hold, the first of this list is told.
#[derive(Clone, Copy, Debug, Drop, PartialEq, Eq, Error)]
pub enum LinkFault {
    /// An expression names this PID, and no module defines it (ISO C90, 6.7). It is the least such PID.
    #[error("name {pid} is used and nowhere defined")]
    Undefined { pid: u32 },
    /// No module defines an external `main`. A tentative definition counts as one.
    #[error("no external main is defined")]
    NoMain,
    /// The external `main` isn't `int main(void)` (ISO C90, 5.1.2.2.1).
    #[error("the external main is not int main(void)")]
    MainType,
}
