//! The classes of bytes and digits.
ghost use Rattle.std.specs.Prelude.{◌≡◌};
ghost use Rattle.c_lex.specs.Bytes.{class_of, in_word, digit_of, is_x, letter_value};
ghost use Rattle.c_lex.specs.Machine.{tail_of};

use crate::phase::{Base, Class, Tail};

/// The class of a byte.
#[tactic(auto, unfolding(crate::specs::Bytes::class_of))]
pub fn class_of(c: u8) -> Class
    ensures { result ≡ class_of c }
{
    match c {
        b' ' | b'\t' | 0x0B | 0x0C | b'\r' => Class::Blank,
        b'\n' => Class::Feed,
        b'a'..=b'z' | b'A'..=b'Z' | b'_' => Class::Letter,
        b'0' => Class::Zero,
        b'1'..=b'9' => Class::Digit,
        b'#' => Class::Hash,
        b'"' => Class::Quote,
        b'\'' => Class::Apostrophe,
        b'/' => Class::Slash,
        _ => Class::Other,
    }
}

/// Whether a name goes on with a byte of this class.
pub fn in_word(k: Class) -> bool
    ensures { result ≡ in_word k }
{
    match k {
        Class::Letter | Class::Zero | Class::Digit => true,
        _ => false,
    }
}

/// Whether a byte is `x` or `X`.
pub fn is_x(c: u8) -> bool
    ensures { result ≡ is_x c }
{
    c == b'x' || c == b'X'
}

/// The value of a byte as a digit of the base, where it is one.
pub fn digit_of(base: Base, c: u8) -> Option<u8>
    ensures { result ≡ digit_of base c }
{
    let radix = match base {
        Base::Octal => 8,
        Base::Decimal => 10,
        Base::Hex => 16,
    };
    let value = match class_of(c) {
        Class::Zero => 0,
        Class::Digit => c - b'0',
        Class::Letter => letter_value(c)?,
        _ => return None,
    };
    if value < radix { Some(value) } else { None }
}

/// The value of a letter as a hexadecimal digit, where it is one.
fn letter_value(c: u8) -> Option<u8>
    ensures { result ≡ letter_value c }
{
    match c {
        b'a'..=b'f' => Some(c - b'a' + 10),
        b'A'..=b'F' => Some(c - b'A' + 10),
        _ => None,
    }
}

/// What a byte behind the digits of a number is.
pub fn tail_of(c: u8) -> Tail
    ensures { result ≡ tail_of c }
{
    match class_of(c) {
        Class::Letter => match c {
            b'u' | b'U' => Tail::Unsigned,
            b'l' | b'L' => Tail::Long,
            _ => Tail::Inside,
        },
        Class::Zero | Class::Digit => Tail::Inside,
        _ => {
            if c == b'.' {
                Tail::Inside
            } else {
                Tail::Outside
            }
        }
    }
}
