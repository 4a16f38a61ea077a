//! Bytes as text, with escapes for those that don't print.
use std::alloc::{AllocError, Global};

/// Where reading stands in an escape.
#[derive(Clone, Copy)]
enum Place {
    /// In none.
    Plain,
    /// Behind its `\`.
    Begun,
    /// Behind `\x`.
    High,
    /// Behind `\x` and this digit.
    Low(u8),
}

/// The bytes of a text with escapes.
pub fn unescaped(alloc: Global, text: &str) -> Result<Vec<u8>, AllocError> {
    let mut bytes = Vec::new(alloc);
    let mut place = Place::Plain;
    for b in text.as_bytes() {
        place = match (place, *b) {
            (Place::Plain, b'\\') => Place::Begun,
            (Place::Begun, b'x') => Place::High,
            (Place::High, digit) => Place::Low(value(digit)),
            (Place::Plain, plain) => with(&mut bytes, plain)?,
            (Place::Begun, letter) => with(&mut bytes, named(letter))?,
            (Place::Low(high), digit) => with(&mut bytes, high << 4 | value(digit))?,
        };
    }
    Ok(bytes)
}

/// Adds a byte, behind which no escape is open.
fn with(bytes: &mut Vec<u8>, b: u8) -> Result<Place, AllocError> {
    bytes.push(b)?;
    Ok(Place::Plain)
}

/// The byte that stands behind `\` as this letter.
fn named(letter: u8) -> u8 {
    match letter {
        b'n' => b'\n',
        b'r' => b'\r',
        b't' => b'\t',
        other => other,
    }
}

/// The value of a hexadecimal digit.
fn value(digit: u8) -> u8 {
    match digit {
        b'0'..=b'9' => digit - b'0',
        b'a'..=b'f' => digit - b'a' + 10,
        _ => 0,
    }
}

/// Shows bytes as text, each line behind this mark.
pub fn show(shown: &mut Vec<u8>, mark: &[u8], bytes: &[u8]) -> Result<(), AllocError> {
    let mut begins = true;
    for b in bytes {
        if begins {
            shown.extend_from_slice(mark)?;
        }
        show_byte(shown, *b)?;
        begins = *b == b'\n';
    }
    if !begins {
        shown.extend_from_slice(b"\\\n")?;
    }
    Ok(())
}

fn show_byte(shown: &mut Vec<u8>, b: u8) -> Result<(), AllocError> {
    match b {
        b'\\' => shown.extend_from_slice(b"\\\\"),
        b'\t' => shown.extend_from_slice(b"\\t"),
        b'\n' | b' '..=b'~' => shown.extend_from_slice(&[b]),
        _ => shown.extend_from_slice(&[b'\\', b'x', digit(b >> 4), digit(b & 15)]),
    }
}

/// The hexadecimal digit of a value below 16.
fn digit(value: u8) -> u8 {
    match value {
        0..=9 => b'0' + value,
        10..=15 => b'a' + (value - 10),
        _ => b'?',
    }
}
