//! What the scanner knows of the piece of text that it is reading.

use crate::fault::LexKind;
use c_tree::{Header, Punct, Reserved};
use hlo_num::Ty;

/// A place in the text.
#[derive(Clone, Copy)]
pub struct Place {
    /// How many bytes stand before it.
    pub at: u32,
    /// Its line, from 1.
    pub line: u32,
}

/// What stands before a place on its line.
#[derive(Clone, Copy)]
pub enum Context {
    /// Blanks and comments alone.
    Fresh,
    /// A token, on a line that is no directive.
    Used,
    /// The `#` of a directive, which is at this place.
    Hash(Place),
    /// The `#`, at this place, and `include`.
    Include(Place),
    /// A whole directive.
    Closed,
}

/// The bytes by what a piece of text can begin with.
#[derive(Clone, Copy)]
pub enum Class {
    /// Space, tab, vertical tab, form feed and CR.
    Blank,
    /// LF.
    Feed,
    /// A letter or `_`.
    Letter,
    /// `0`
    Zero,
    /// `1` to `9`
    Digit,
    /// `#`
    Hash,
    /// `"`
    Quote,
    /// `'`
    Apostrophe,
    /// `/`
    Slash,
    Other,
}

/// The bases in which numbers are written.
#[derive(Clone, Copy)]
pub enum Base {
    Octal,
    Decimal,
    Hex,
}

/// What a byte behind the digits of a number is.
#[derive(Clone, Copy)]
pub enum Tail {
    /// `u` or `U`
    Unsigned,
    /// `l` or `L`
    Long,
    /// Another letter, digit, `_` or `.`.
    Inside,
    Outside,
}

/// A piece of text that is read to its end.
#[derive(Clone, Copy)]
pub enum Piece {
    Blank,
    Feed,
    Comment,
    /// The `#` of a directive.
    Hash,
    /// The word `include` of a directive.
    IncludeWord,
    /// `<stdio.h>` or `<stdlib.h>` in a directive.
    HeaderName(Header),
    /// A digit behind `#`, and the rest of the line.
    Marker,
    Name,
    Word(Reserved),
    Punct(Punct),
    Number(u32, Ty),
    Character(u8),
}

/// How far a piece is read. Each but `Whole` names what was read of it.
#[derive(Clone, Copy)]
pub enum Phase {
    /// All of a piece that no byte makes longer.
    Whole(Piece),
    /// `/`
    Slash,
    /// `/*` and bytes of a comment; whether the last of them is a star.
    Comment(bool),
    /// A letter, and letters and digits.
    Name,
    /// `0`
    Zero,
    /// The digits of a number so far, and their value.
    Digits(Base, u32),
    /// `0x`
    HexMark,
    /// A number with the suffix `u`, `l` or both.
    Suffix(Base, u32, bool, bool),
    /// `'`
    Quote,
    /// `'\`
    Escape,
    /// `'\x`
    HexEscape,
    /// `'\` and one, two or three octal digits; how many, and their value.
    OctalDigits(u8, u8),
    /// `'\x` and hexadecimal digits, and their value.
    HexDigits(u8),
    /// A character constant without its last `'`.
    Body(u8),
    /// A punctuator other than `/`.
    Punct(Punct),
    /// The first bytes of `include`.
    IncludeWord,
    /// The first bytes of a header's name.
    HeaderName(Header),
    /// A digit behind `#`, and bytes of the line.
    Marker,
}

/// What a byte does to an open piece: the piece goes on, or it ends before the byte, or nothing goes on so.
pub type Step = Result<Option<Phase>, LexKind>;
