//! Why tokens are refused.
use thiserror::Error;

/// Why a list of tokens is no module.
#[derive(Clone, Copy, Debug, Drop, PartialEq, Eq, Error)]
pub enum ParseFault {
    /// The first token with which no module goes on, by its line. At the end of the tokens the line is
    /// that of the last one.
    #[error("line {line}: {kind}")]
    At { line: u32, kind: ParseKind },
    /// There was not enough memory.
    #[error("out of memory")]
    Memory,
}

/// Why no module goes on with a token.
#[derive(Clone, Copy, Debug, Drop, PartialEq, Eq, Error)]
pub enum ParseKind {
    /// No module goes on with it.
    #[error("no module goes on with this token")]
    Unexpected,
    /// Each module that goes on with it has a statement or an expression that is higher than 256.
    #[error("a statement or an expression higher than 256")]
    Deep,
}
