//! Numbers in a text: decimal, without leading zeros.
ghost use Rattle.std.specs.Prelude.{◌≡◌, ◌∷◌, ℕ, ◌^◌, ◌<◌, IfSome, false};
ghost use Rattle.std.specs.Fmt.{decimal, signed_decimal};
ghost use Rattle.hlo_num.specs.Words.{signed};
ghost use Rattle.hlo_num.specs.declared.word.Word.{Word};
ghost use Rattle.text_lines.specs.Numerals.{is_padded};

use hlo_num::Word;
use std::str;

/// The number below 2^32 that a word spells, if it spells one.
pub fn number(word: &[u8]) -> Option<u32>
    ensures found { IfSome result (λ n. word.now ≡ decimal n) }
    ensures range { IfSome result (λ n. n < 2 ^ 32) }
    ensures each { (n : ℕ) → n < 2 ^ 32 → word.now ≡ decimal n → result ≡ Some n }
{
    if is_padded(word) {
        return None;
    }
    parsed(word)
}

/// Whether a `+`, or a `0` before further bytes, stands first.
fn is_padded(bytes: &[u8]) -> bool
    ensures { result ≡ is_padded bytes.now }
{
    match bytes {
        [b'+', ..] => true,
        [b'0', others @ ..] => !others.is_empty(),
        _ => false,
    }
}

/// The number below 2^32 that decimal digits, perhaps behind a `+`, stand for.
fn parsed(bytes: &[u8]) -> Option<u32>
    ensures range { IfSome result (λ n. n < 2 ^ 32) }
    ensures digits { IfSome result (λ n. is_padded bytes.now ≡ false → bytes.now ≡ decimal n) }
    ensures each { (n : ℕ) → n < 2 ^ 32 → bytes.now ≡ decimal n → result ≡ Some n }
{
    let Ok(text) = str::from_utf8(bytes) else {
        return None;
    };
    text.parse::<u32>().ok()
}

/// The number below 2^32 that a word spells behind a letter, if it spells one.
pub fn numbered(word: &[u8], letter: u8) -> Option<u32>
    ensures found { IfSome result (λ n. word.now ≡ letter ∷ decimal n) }
    ensures range { IfSome result (λ n. n < 2 ^ 32) }
    ensures each { (n : ℕ) → n < 2 ^ 32 → word.now ≡ letter ∷ decimal n → result ≡ Some n }
{
    let (first, digits) = word.split_first()?;
    if *first == letter {
        number(digits)
    } else {
        None
    }
}

/// The machine word that a word spells as a signed number, if it spells one.
pub fn signed(word: &[u8]) -> Option<Word>
    ensures found { IfSome result (λ w. word.now ≡ signed_decimal (signed w.0)) }
    ensures range { IfSome result (λ w. w.0 < 2 ^ 32) }
    ensures each { (w : Word) → w.0 < 2 ^ 32 → word.now ≡ signed_decimal (signed w.0) → result ≡ Some w }
{
    match numbered(word, b'-') {
        Some(n) => negative(n),
        None => nonnegative(number(word)?),
    }
}

/// The word of a number with a sign, if there is one.
fn negative(n: u32) -> Option<Word>
    ensures found { IfSome result (λ w. signed_decimal (signed w.0) ≡ 45 ∷ decimal n) }
    ensures range { IfSome result (λ w. w.0 < 2 ^ 32) }
    ensures each { (w : Word) → w.0 < 2 ^ 32 → signed_decimal (signed w.0) ≡ 45 ∷ decimal n → result ≡ Some w }
{
    match n {
        1..=0x8000_0000 => Some(Word(n.wrapping_neg())),
        _ => None,
    }
}

/// The word of a number without a sign, if there is one.
fn nonnegative(n: u32) -> Option<Word>
    ensures found { IfSome result (λ w. signed_decimal (signed w.0) ≡ decimal n) }
    ensures range { IfSome result (λ w. w.0 < 2 ^ 32) }
    ensures each { (w : Word) → w.0 < 2 ^ 32 → signed_decimal (signed w.0) ≡ decimal n → result ≡ Some w }
{
    if n < 1 << 31 { Some(Word(n)) } else { None }
}
