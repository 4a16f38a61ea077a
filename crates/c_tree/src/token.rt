//! What a scanner makes of a module's bytes (ISO C90, 6.1).

use hlo_num::{Name, Ty, Word};

/// A token of a module.
#[derive(Debug, Drop)]
pub struct Token {
    pub kind: TokenKind,
    /// The line on which it begins, from 1.
    pub line: u32,
    /// It has the module's bytes from `from` up to, and without, `to`.
    pub from: u32,
    pub to: u32,
}

/// What a token is.
#[derive(Debug, Drop)]
pub enum TokenKind {
    /// A line `#include <..>`.
    Include(Header),
    /// An identifier that is no reserved word.
    Name(Name),
    /// A reserved word.
    Word(Reserved),
    /// A punctuator or an operator.
    Punct(Punct),
    /// A number or a character constant.
    Constant { value: Word, ty: Ty },
}

/// The headers that may be included.
#[derive(Clone, Copy, Debug, PartialEq, Eq)]
pub enum Header {
    /// `<stdio.h>`
    Stdio,
    /// `<stdlib.h>`
    Stdlib,
}

/// The reserved words of C90 that the profile has.
#[derive(Clone, Copy, Debug, PartialEq, Eq)]
pub enum Reserved {
    Auto,
    Break,
    Case,
    Char,
    Const,
    Continue,
    Default,
    Do,
    Else,
    Enum,
    Extern,
    For,
    If,
    Int,
    Long,
    Register,
    Return,
    Short,
    Signed,
    Static,
    Switch,
    Unsigned,
    Void,
    While,
}

/// Punctuators and operators.
#[derive(Clone, Copy, Debug, PartialEq, Eq)]
pub enum Punct {
    /// `(`
    OpenParen,
    /// `)`
    CloseParen,
    /// `[`
    OpenBracket,
    /// `]`
    CloseBracket,
    /// `{`
    OpenBrace,
    /// `}`
    CloseBrace,
    /// `,`
    Comma,
    /// `;`
    Semicolon,
    /// `:`
    Colon,
    /// `?`
    Question,
    /// `~`
    Tilde,
    /// `+`
    Plus,
    /// `-`
    Minus,
    /// `*`
    Star,
    /// `/`
    Slash,
    /// `%`
    Percent,
    /// `&`
    Ampersand,
    /// `|`
    Bar,
    /// `^`
    Caret,
    /// `!`
    Exclamation,
    /// `<`
    Less,
    /// `>`
    Greater,
    /// `=`
    Equals,
    /// `++`
    Increment,
    /// `--`
    Decrement,
    /// `<<`
    ShiftLeft,
    /// `>>`
    ShiftRight,
    /// `<=`
    LessEqual,
    /// `>=`
    GreaterEqual,
    /// `==`
    EqualEqual,
    /// `!=`
    NotEqual,
    /// `&&`
    AndAnd,
    /// `||`
    OrOr,
    /// `+=`
    AddAssign,
    /// `-=`
    SubtractAssign,
    /// `*=`
    MultiplyAssign,
    /// `/=`
    DivideAssign,
    /// `%=`
    RemainderAssign,
    /// `&=`
    AndAssign,
    /// `|=`
    OrAssign,
    /// `^=`
    XorAssign,
    /// `<<=`
    ShiftLeftAssign,
    /// `>>=`
    ShiftRightAssign,
}
