//! One more byte of an open piece.
ghost use Rattle.std.specs.Prelude.{◌≡◌, ◌+◌, ◌*◌, ◌<◌, ◌≤◌, ◌^◌, ◌&&◌, length, drop, Some};
ghost use Rattle.c_lex.specs.Bytes.{digit_of};
ghost use Rattle.c_lex.specs.Pieces.{is_code, escape_of};
ghost use Rattle.c_lex.specs.Spelling.{header_spelling, include_spelling, punct_spelling};
ghost use Rattle.c_lex.specs.Machine.{step, slash, comment_byte, name_byte, suffix, digit_byte, zero_byte, quote_byte, escape_byte, octal_byte};
ghost use Rattle.c_lex.specs.Machine.{hex_byte, body_byte, spelled, header_byte, tail_of};

use crate::bytes::{class_of, digit_of, in_word, is_x, tail_of};
use crate::fault::LexKind;
use crate::phase::{Base, Context, Phase, Piece, Step, Tail};
use crate::spelling::joined;
use c_tree::{Header, Punct};

/// Whether a line is no directive.
pub fn is_code(w: Context) -> bool
    ensures { result ≡ is_code w }
{
    match w {
        Context::Fresh | Context::Used => true,
        _ => false,
    }
}

/// What a byte does to a piece of which `read` is read.
pub fn step(w: Context, phase: Phase, read: &[u8], c: u8) -> Step
    ensures { result ≡ step w phase read.now c }
{
    match phase {
        Phase::Whole(_) => Ok(None),
        Phase::Slash => slash(w, c),
        Phase::Comment(star) => comment_byte(w, star, c),
        Phase::Name => name_byte(read, c),
        Phase::Zero => zero_byte(c),
        Phase::Digits(base, value) => digit_byte(base, value, c),
        Phase::HexMark => match digit_of(Base::Hex, c) {
            Some(d) => Ok(Some(Phase::Digits(Base::Hex, d as u32))),
            None => Err(LexKind::BadNumber),
        },
        Phase::Suffix(base, value, u, l) => suffix(base, value, u, l, tail_of(c)),
        Phase::Quote => quote_byte(c),
        Phase::Escape => escape_byte(c),
        Phase::HexEscape => match digit_of(Base::Hex, c) {
            Some(d) => Ok(Some(Phase::HexDigits(d))),
            None => Err(LexKind::BadChar),
        },
        Phase::OctalDigits(n, value) => octal_byte(n, value, c),
        Phase::HexDigits(value) => hex_byte(value, c),
        Phase::Body(value) => body_byte(value, c),
        Phase::Punct(m) => match joined(m, c) {
            Some(longer) => Ok(Some(Phase::Punct(longer))),
            None => Ok(None),
        },
        Phase::IncludeWord => spelled(
            Piece::IncludeWord,
            Phase::IncludeWord,
            b"include",
            read.len(),
            c,
        ),
        Phase::HeaderName(h) => header_byte(h, read.len(), c),
        Phase::Marker => {
            if c == b'\n' {
                Ok(None)
            } else {
                Ok(Some(Phase::Marker))
            }
        }
    }
}

/// A byte behind `/`.
fn slash(w: Context, c: u8) -> Step
    ensures { result ≡ slash w c }
{
    if c == b'*' {
        Ok(Some(Phase::Comment(false)))
    } else if is_code(w) && c == b'=' {
        Ok(Some(Phase::Punct(Punct::DivideAssign)))
    } else {
        Ok(None)
    }
}

/// A byte in a comment.
fn comment_byte(w: Context, star: bool, c: u8) -> Step
    ensures { result ≡ comment_byte w star c }
{
    if star && c == b'/' {
        Ok(Some(Phase::Whole(Piece::Comment)))
    } else if !is_code(w) && c == b'\n' {
        Err(LexKind::Directive)
    } else {
        Ok(Some(Phase::Comment(c == b'*')))
    }
}

/// A byte behind a name.
fn name_byte(read: &[u8], c: u8) -> Step
    ensures { result ≡ name_byte read.now c }
{
    if !in_word(class_of(c)) {
        Ok(None)
    } else if read.len() < 255 {
        Ok(Some(Phase::Name))
    } else {
        Err(LexKind::LongName)
    }
}

/// A byte behind the digits of a number and its suffix so far.
fn suffix(base: Base, value: u32, u: bool, l: bool, t: Tail) -> Step
    ensures { result ≡ suffix base value u l t }
{
    match t {
        Tail::Unsigned => {
            if u {
                Err(LexKind::BadNumber)
            } else {
                Ok(Some(Phase::Suffix(base, value, true, l)))
            }
        }
        Tail::Long => {
            if l {
                Err(LexKind::BadNumber)
            } else {
                Ok(Some(Phase::Suffix(base, value, u, true)))
            }
        }
        Tail::Inside => Err(LexKind::BadNumber),
        Tail::Outside => Ok(None),
    }
}

/// A byte behind the digits of a number.
fn digit_byte(base: Base, value: u32, c: u8) -> Step
    ensures { result ≡ digit_byte base value (digit_of base c) (tail_of c) }
{
    let radix = match base {
        Base::Octal => 8,
        Base::Decimal => 10,
        Base::Hex => 16,
    };
    match digit_of(base, c) {
        Some(d) => {
            let longer = value as u64 * radix + d as u64;
            if longer < 0x1_0000_0000 {
                Ok(Some(Phase::Digits(base, longer as u32)))
            } else {
                Err(LexKind::TooBig)
            }
        }
        None => suffix(base, value, false, false, tail_of(c)),
    }
}

/// A byte behind a first `0`.
fn zero_byte(c: u8) -> Step
    ensures { result ≡ zero_byte c }
{
    if is_x(c) {
        Ok(Some(Phase::HexMark))
    } else {
        digit_byte(Base::Octal, 0, c)
    }
}

/// A byte behind `'`.
fn quote_byte(c: u8) -> Step
    ensures { result ≡ quote_byte c }
{
    match c {
        b'\\' => Ok(Some(Phase::Escape)),
        b'\'' | b'\n' => Err(LexKind::BadChar),
        _ => Ok(Some(Phase::Body(c))),
    }
}

/// A byte behind `'\`.
fn escape_byte(c: u8) -> Step
    ensures { result ≡ escape_byte c }
{
    if c == b'x' {
        return Ok(Some(Phase::HexEscape));
    }
    if let Some(d) = digit_of(Base::Octal, c) {
        return Ok(Some(Phase::OctalDigits(1, d)));
    }
    match escape_of(c) {
        Some(value) => Ok(Some(Phase::Body(value))),
        None => Err(LexKind::BadChar),
    }
}

/// What a byte behind a backslash stands for.
fn escape_of(c: u8) -> Option<u8>
    ensures { result ≡ escape_of c }
{
    match c {
        b'\'' | b'"' | b'?' | b'\\' => Some(c),
        b'a' => Some(7),
        b'b' => Some(8),
        b'f' => Some(12),
        b'n' => Some(10),
        b'r' => Some(13),
        b't' => Some(9),
        b'v' => Some(11),
        _ => None,
    }
}

/// The `'` that ends a character constant.
fn body_byte(value: u8, c: u8) -> Step
    ensures { result ≡ body_byte value c }
{
    if c == b'\'' {
        Ok(Some(Phase::Whole(Piece::Character(value))))
    } else {
        Ok(None)
    }
}

/// A byte behind octal digits of an escape.
fn octal_byte(n: u8, value: u8, c: u8) -> Step
    ensures { result ≡ octal_byte n value c (digit_of Base.Octal c) }
{
    match digit_of(Base::Octal, c) {
        Some(d) => {
            let longer = value as u32 * 8 + d as u32;
            if n < 3 && longer < 256 {
                Ok(Some(Phase::OctalDigits(n + 1, longer as u8)))
            } else {
                Ok(None)
            }
        }
        None => body_byte(value, c),
    }
}

/// A byte behind hexadecimal digits of an escape.
fn hex_byte(value: u8, c: u8) -> Step
    ensures { result ≡ hex_byte value c (digit_of Base.Hex c) }
{
    match digit_of(Base::Hex, c) {
        Some(d) => {
            let longer = value as u32 * 16 + d as u32;
            if longer < 256 {
                Ok(Some(Phase::HexDigits(longer as u8)))
            } else {
                Ok(None)
            }
        }
        None => body_byte(value, c),
    }
}

/// The byte at `at` of a fixed word, of which the bytes before are read.
fn spelled(piece: Piece, phase: Phase, word: &[u8], at: usize, c: u8) -> Step
    requires { length word.now < 256 }
    ensures { result ≡ spelled piece phase (drop at word.now) c }
{
    if at < word.len() && word[at] == c {
        if at + 1 == word.len() {
            Ok(Some(Phase::Whole(piece)))
        } else {
            Ok(Some(phase))
        }
    } else {
        Ok(None)
    }
}

/// A byte of a header's name. The two names part behind `<std`.
fn header_byte(h: Header, at: usize, c: u8) -> Step
    ensures { result ≡ header_byte h at c }
{
    let phase = Phase::HeaderName(h);
    let piece = Piece::HeaderName(h);
    match h {
        Header::Stdio => {
            if at == 4 && c == b'l' {
                Ok(Some(Phase::HeaderName(Header::Stdlib)))
            } else {
                spelled(piece, phase, b"<stdio.h>", at, c)
            }
        }
        Header::Stdlib => spelled(piece, phase, b"<stdlib.h>", at, c),
    }
}
