//! The end of a piece: which it is, and its tokens.
ghost use Rattle.std.specs.Prelude.{◌≡◌, ◌++◌, OnOk, List, ℕ};
ghost use Rattle.c_lex.specs.Pieces.{integer_type, may_end, IsPiece};
ghost use Rattle.c_lex.specs.Text.{past, after, tokens_of, token};
ghost use Rattle.c_lex.specs.Machine.{close, name_piece};
ghost use Rattle.c_lex.specs.Spelling.{word_named, is_left_out};
ghost use Rattle.hlo_num.specs.Words.{convert};

use crate::fault::LexKind;
use crate::phase::{Base, Context, Phase, Piece, Place};
use crate::spelling::{is_left_out, word_named};
use crate::step::is_code;
use c_tree::{Punct, Token, TokenKind};
use hlo_num::{Name, Ty, Word};
use std::alloc::{AllocError, Global};

/// The piece that ends here, if it may.
pub fn close(w: Context, phase: Phase, read: &[u8]) -> Result<Piece, LexKind>
    ensures { result ≡ close w phase read.now }
{
    match phase {
        Phase::Whole(x) => Ok(x),
        Phase::Slash => {
            if is_code(w) {
                Ok(Piece::Punct(Punct::Slash))
            } else {
                Err(LexKind::Directive)
            }
        }
        Phase::Comment(_) => Err(LexKind::OpenComment),
        Phase::Name => name_piece(read),
        Phase::Zero => Ok(Piece::Number(0, Ty::Int)),
        Phase::Digits(base, value) => Ok(Piece::Number(
            value,
            integer_type(base, false, false, value),
        )),
        Phase::HexMark => Err(LexKind::BadNumber),
        Phase::Suffix(base, value, u, l) => Ok(Piece::Number(
            value,
            integer_type(base, u, l, value),
        )),
        Phase::Punct(m) => Ok(Piece::Punct(m)),
        Phase::IncludeWord | Phase::HeaderName(_) => Err(LexKind::Directive),
        Phase::Marker => Ok(Piece::Marker),
        _ => Err(LexKind::BadChar),
    }
}

/// What a whole name is.
fn name_piece(read: &[u8]) -> Result<Piece, LexKind>
    ensures { result ≡ name_piece (word_named read.now) (is_left_out read.now) }
{
    match word_named(read) {
        Some(r) => Ok(Piece::Word(r)),
        None => {
            if is_left_out(read) {
                Err(LexKind::LeftOut)
            } else {
                Ok(Piece::Name)
            }
        }
    }
}

/// The first type of the list for a base and a suffix that holds the value (C90, 6.1.3.2).
fn integer_type(base: Base, u: bool, l: bool, value: u32) -> Ty
    ensures { result ≡ integer_type base u l value }
{
    let small = value < 0x8000_0000;
    if u {
        if l { Ty::ULong } else { Ty::UInt }
    } else if l {
        if small { Ty::Long } else { Ty::ULong }
    } else if small {
        Ty::Int
    } else {
        match base {
            Base::Decimal => Ty::ULong,
            _ => Ty::UInt,
        }
    }
}

/// Whether a text may end in this context.
pub fn may_end(w: Context) -> bool
    ensures { result ≡ may_end w }
{
    match w {
        Context::Include(_) => false,
        _ => true,
    }
}

/// What stands before the place behind a piece.
pub fn after(x: Piece, w: Context, start: Place, here: Place) -> Context
    ensures { (us : List ℕ) → here ≡ past start us → result ≡ after x w start us }
{
    match x {
        Piece::Feed => Context::Fresh,
        Piece::Comment => {
            if here.line == start.line {
                w
            } else {
                Context::Fresh
            }
        }
        Piece::Blank => w,
        Piece::Hash => Context::Hash(start),
        Piece::IncludeWord => match w {
            Context::Hash(h) => Context::Include(h),
            _ => w,
        },
        Piece::HeaderName(_) | Piece::Marker => Context::Closed,
        _ => Context::Used,
    }
}

/// The token from one place to another.
fn token(kind: TokenKind, start: Place, here: Place) -> Token
    ensures { result ≡ token kind start here }
{
    Token {
        kind,
        line: start.line,
        from: start.at,
        to: here.at,
    }
}

/// The value of a character constant: the byte as a signed char.
fn char_value(v: u8) -> u32
    ensures { result ≡ convert Ty.Char v }
{
    if v < 128 {
        v as u32
    } else {
        v as u32 + 0xFFFF_FF00
    }
}

/// Adds the token of a piece, if it has one.
pub fn emit(
    alloc: Global,
    out: &mut Vec<Token>,
    x: Piece,
    w: Context,
    start: Place,
    here: Place,
    read: &[u8],
) -> Result<(), AllocError>
    requires place { here ≡ past start read.now }
    requires piece { IsPiece w x read.now }
    ensures { OnOk result (out.new.items ≡ out.old.items ++ tokens_of x w start read.now) }
{
    let kind = match x {
        Piece::HeaderName(h) => match w {
            Context::Include(o) => {
                out.push(token(TokenKind::Include(h), o, here))?;
                return Ok(());
            }
            _ => return Ok(()),
        },
        Piece::Name => TokenKind::Name(Name::new(alloc, read)?),
        Piece::Word(r) => TokenKind::Word(r),
        Piece::Punct(m) => TokenKind::Punct(m),
        Piece::Number(v, ty) => TokenKind::Constant { value: Word(v), ty },
        Piece::Character(v) => TokenKind::Constant {
            value: Word(char_value(v)),
            ty: Ty::Int,
        },
        _ => return Ok(()),
    };
    out.push(token(kind, start, here))?;
    Ok(())
}
