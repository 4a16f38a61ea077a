//! How words and types are converted.
ghost use Rattle.std.specs.Prelude.{◌≡◌};
ghost use Rattle.hlo_num.specs.Words.{convert, promote, usual};

use crate::word::{Ty, Word};
use byteorder::{ByteOrder, LittleEndian};

/// The word converted to a type (ISO C90, 6.2.1.2), in constant time: a narrow type keeps the low 8 or
/// 16 bits, extended by their sign or by 0, and the other types keep the word.
#[inline]
pub fn convert(to: Ty, w: Word) -> Word
    ensures { result.0 ≡ convert to w.0 }
{
    let bytes = w.0.to_le_bytes();
    match to {
        Ty::Char => Word((bytes[0].cast_signed() as i32).cast_unsigned()),
        Ty::UChar => Word(bytes[0] as u32),
        Ty::Short => Word((LittleEndian::read_i16(&bytes) as i32).cast_unsigned()),
        Ty::UShort => Word(LittleEndian::read_u16(&bytes) as u32),
        Ty::Int | Ty::UInt | Ty::Long | Ty::ULong => w,
    }
}

/// The type after the integral promotions (ISO C90, 6.2.1.1), in constant time: `Int` for the narrow
/// types, the type itself otherwise.
#[inline]
pub fn promote(t: Ty) -> Ty
    ensures { result ≡ promote t }
{
    match t {
        Ty::Char | Ty::UChar | Ty::Short | Ty::UShort | Ty::Int => Ty::Int,
        Ty::UInt => Ty::UInt,
        Ty::Long => Ty::Long,
        Ty::ULong => Ty::ULong,
    }
}

/// The common type of two promoted types by the usual arithmetic conversions (ISO C90, 6.2.1.5), in
/// constant time: `ULong` if either is, or if one is `Long` and the other `UInt`; else `Long` if either
/// is, else `UInt` if either is, else `Int`. A narrow type counts as `Int`.
#[inline]
pub fn usual(a: Ty, b: Ty) -> Ty
    ensures { result ≡ usual a b }
{
    match (a, b) {
        (Ty::ULong, _) | (_, Ty::ULong) => Ty::ULong,
        (Ty::Long, Ty::UInt) | (Ty::UInt, Ty::Long) => Ty::ULong,
        (Ty::Long, _) | (_, Ty::Long) => Ty::Long,
        (Ty::UInt, _) | (_, Ty::UInt) => Ty::UInt,
        _ => Ty::Int,
    }
}
