//! Why a text is no list of tokens.
use thiserror::Error;

/// A refusal of the scanner.
#[derive(Clone, Copy, Debug, Drop, PartialEq, Eq, Error)]
pub enum LexFault {
    /// No text of the lexical grammar continues at a byte of this line, or at the end.
    #[error("line {line}: {kind}")]
    At {
        /// The line, from 1: that of the byte, or for `OpenComment` that on which the comment begins.
        line: u32,
        /// What is wrong.
        kind: LexKind,
    },
    /// There is no memory left for the tokens.
    #[error("out of memory")]
    Memory,
}

/// What is wrong in a text.
#[derive(Clone, Copy, Debug, Drop, PartialEq, Eq, Error)]
pub enum LexKind {
    /// A byte that begins no token.
    #[error("a byte that begins no token")]
    BadByte,
    /// A line that begins with `#` and is none of the directives.
    #[error("a line with # that is none of the directives")]
    Directive,
    /// A comment without an end.
    #[error("a comment without an end")]
    OpenComment,
    /// No character constant goes on so.
    #[error("a character constant that goes on wrongly")]
    BadChar,
    /// No number goes on so.
    #[error("a number that goes on wrongly")]
    BadNumber,
    /// A number above 4294967295.
    #[error("a number above 4294967295")]
    TooBig,
    /// A reserved word, or `"`, that the profile leaves out.
    #[error("a word or a sign that the profile leaves out")]
    LeftOut,
    /// A name of more than 255 bytes.
    #[error("a name of more than 255 bytes")]
    LongName,
}
