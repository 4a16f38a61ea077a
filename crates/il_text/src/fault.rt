//! What is wrong with a text.
use il_check::Flaw;
use thiserror::Error;

/// Why bytes are not the text of a valid program, or why that isn't known.
#[derive(Clone, Copy, Debug, Drop, PartialEq, Eq, Error)]
pub enum IlFault {
    /// The first thing that is wrong, with its line. Lines count from 1; from line 4294967295 on, that number
    /// is told.
    #[error("line {line}: {kind}")]
    At { line: u32, kind: IlKind },
    /// Memory ended.
    #[error("out of memory")]
    Memory,
}

/// What is wrong with a text: the first of these that something is wrong with is told.
#[derive(Clone, Copy, Debug, Drop, PartialEq, Eq, Error)]
pub enum IlKind {
    /// The first line with which no text goes on within the limits of the language, or the line that is missing.
    #[error("no IL text goes on with this line")]
    Line,
    /// A PID isn't above the one before in its list, or a PID or a name was used before.
    #[error("a PID out of order, or a PID or a name used before")]
    Order,
    /// A routine has a flaw; told at its first line.
    #[error("a routine that is not valid: {0}")]
    Invalid(Flaw),
    /// There is no routine `main` without parameters that gives a value; told at the last line.
    #[error("no routine main without parameters that gives a value")]
    NoMain,
}
