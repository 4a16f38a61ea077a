//! The lines of a profile's text.
ghost use Rattle.std.specs.Prelude.{◌≡◌, ◌^◌, ◌<◌, [], ◌∷◌, List, ℕ, IfSome, IfNone};
ghost use Rattle.std.specs.Fmt.{decimal};
ghost use Rattle.hlo_num.specs.Name.{IsName};
ghost use Rattle.text_lines.specs.Words.{words_left, words_of};
ghost use Rattle.profile.specs.Texts as texts;

use text_lines::{Words, after, is_done, next, next_name, number, words_of};

/// A number, and the words behind it.
fn next_number(words: Words<'_>) -> Option<(u32, Words<'_>)>
    ensures found { IfSome result (λ x. words_left words.entry ≡ decimal x.0 ∷ words_left x.1) }
    ensures range { IfSome result (λ x. x.0 < 2 ^ 32) }
    ensures none { IfNone result ((n : ℕ) (ws : List (List ℕ)) → n < 2 ^ 32 → words_left words.entry ≡ decimal n ∷ ws → ⊥) }
{
    let (word, rest) = next(words)?;
    let n = number(word)?;
    Some((n, rest))
}

/// The number that the words spell, if they are one number.
fn last_number(words: Words<'_>) -> Option<u32>
    ensures found { IfSome result (λ c. words_left words.entry ≡ decimal c ∷ []) }
    ensures range { IfSome result (λ c. c < 2 ^ 32) }
    ensures none { IfNone result ((c : ℕ) → c < 2 ^ 32 → words_left words.entry ≡ decimal c ∷ [] → ⊥) }
{
    let (number, words) = next_number(words)?;
    if is_done(words) { Some(number) } else { None }
}

/// The name and the count of an entry's line, if the words are those of one.
pub(crate) fn entry_line(line: &[u8]) -> Option<(&[u8], u32)>
    ensures named { IfSome result (λ x. IsName x.0.now) }
    ensures range { IfSome result (λ x. x.1 < 2 ^ 32) }
    ensures found { IfSome result (λ x. words_of line.now ≡ texts.line_words (texts.Entry x.0.now x.1)) }
    ensures none { IfNone result ((n : List ℕ) (c : ℕ) → texts.IsLine (texts.Entry n c) → words_of line.now ≡ texts.line_words (texts.Entry n c) → ⊥) }
{
    let words = after(words_of(line), b"entry")?;
    let (name, words) = next_name(words)?;
    let count = last_number(words)?;
    Some((name, count))
}

/// The numbers that the words spell, if they are two numbers.
fn two_numbers(words: Words<'_>) -> Option<(u32, u32)>
    ensures found { IfSome result (λ x. words_left words.entry ≡ decimal x.0 ∷ decimal x.1 ∷ []) }
    ensures first { IfSome result (λ x. x.0 < 2 ^ 32) }
    ensures second { IfSome result (λ x. x.1 < 2 ^ 32) }
    ensures none { IfNone result ((k c : ℕ) → k < 2 ^ 32 → c < 2 ^ 32 → words_left words.entry ≡ decimal k ∷ decimal c ∷ [] → ⊥) }
{
    let (first, words) = next_number(words)?;
    let Some(second) = last_number(words) else {
        return None;
    };
    Some((first, second))
}

/// The name, the number and the count of a call site's line, if the words are those of one.
pub(crate) fn site_line(line: &[u8]) -> Option<(&[u8], u32, u32)>
    ensures named { IfSome result (λ x. IsName x.0.now) }
    ensures number { IfSome result (λ x. x.1 < 2 ^ 32) }
    ensures range { IfSome result (λ x. x.2 < 2 ^ 32) }
    ensures found { IfSome result (λ x. words_of line.now ≡ texts.line_words (texts.Site x.0.now x.1 x.2)) }
    ensures none { IfNone result ((n : List ℕ) (k c : ℕ) → texts.IsLine (texts.Site n k c) → words_of line.now ≡ texts.line_words (texts.Site n k c) → ⊥) }
{
    let words = after(words_of(line), b"site")?;
    let (name, words) = next_name(words)?;
    let (k, count) = two_numbers(words)?;
    Some((name, k, count))
}
