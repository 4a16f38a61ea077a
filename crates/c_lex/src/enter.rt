//! The first byte of a piece.
ghost use Rattle.std.specs.Prelude.{◌≡◌};
ghost use Rattle.c_lex.specs.Machine.{enter, enter_code, enter_hash, enter_include};

use crate::bytes::{class_of, digit_of};
use crate::fault::LexKind;
use crate::phase::{Base, Class, Context, Phase, Piece};
use crate::spelling::single;
use c_tree::Header;

/// What begins with a byte in a context.
pub fn enter(w: Context, c: u8) -> Result<Phase, LexKind>
    ensures { result ≡ enter w c }
{
    let k = class_of(c);
    match w {
        Context::Fresh => match k {
            Class::Hash => Ok(Phase::Whole(Piece::Hash)),
            _ => enter_code(k, c),
        },
        Context::Used => enter_code(k, c),
        Context::Hash(_) => enter_hash(k, c),
        Context::Include(_) => enter_include(k, c),
        Context::Closed => match k {
            Class::Blank => Ok(Phase::Whole(Piece::Blank)),
            Class::Feed => Ok(Phase::Whole(Piece::Feed)),
            Class::Slash => Ok(Phase::Slash),
            _ => Err(LexKind::Directive),
        },
    }
}

/// What begins on a line that is no directive.
fn enter_code(k: Class, c: u8) -> Result<Phase, LexKind>
    ensures { result ≡ enter_code k c }
{
    match k {
        Class::Blank => Ok(Phase::Whole(Piece::Blank)),
        Class::Feed => Ok(Phase::Whole(Piece::Feed)),
        Class::Letter => Ok(Phase::Name),
        Class::Zero => Ok(Phase::Zero),
        Class::Digit => match digit_of(Base::Decimal, c) {
            Some(d) => Ok(Phase::Digits(Base::Decimal, d as u32)),
            None => Err(LexKind::BadByte),
        },
        Class::Hash => Err(LexKind::BadByte),
        Class::Quote => Err(LexKind::LeftOut),
        Class::Apostrophe => Ok(Phase::Quote),
        Class::Slash => Ok(Phase::Slash),
        Class::Other => match single(c) {
            Some(m) => Ok(Phase::Punct(m)),
            None => Err(LexKind::BadByte),
        },
    }
}

/// What begins behind the `#` of a directive.
fn enter_hash(k: Class, c: u8) -> Result<Phase, LexKind>
    ensures { result ≡ enter_hash k c }
{
    match k {
        Class::Blank => Ok(Phase::Whole(Piece::Blank)),
        Class::Feed => Ok(Phase::Whole(Piece::Feed)),
        Class::Slash => Ok(Phase::Slash),
        Class::Zero | Class::Digit => Ok(Phase::Marker),
        Class::Letter => {
            if c == b'i' {
                Ok(Phase::IncludeWord)
            } else {
                Err(LexKind::Directive)
            }
        }
        _ => Err(LexKind::Directive),
    }
}

/// What begins behind `#include`.
fn enter_include(k: Class, c: u8) -> Result<Phase, LexKind>
    ensures { result ≡ enter_include k c }
{
    match k {
        Class::Blank => Ok(Phase::Whole(Piece::Blank)),
        Class::Slash => Ok(Phase::Slash),
        Class::Other => {
            if c == b'<' {
                Ok(Phase::HeaderName(Header::Stdio))
            } else {
                Err(LexKind::Directive)
            }
        }
        _ => Err(LexKind::Directive),
    }
}
