//! Program names in a text.
ghost use Rattle.std.specs.Prelude.{◌≡◌, ◌∷◌, ℕ, List, IfSome, IfNone, true, false};
ghost use Rattle.std.specs.List.{list_all};
ghost use Rattle.hlo_num.specs.Name.{IsName, is_name_byte};
ghost use Rattle.text_lines.specs.Words.{words_left};

use crate::words::{Words, next};

/// A name's bytes, and the words behind it.
pub fn next_name(words: Words<'_>) -> Option<(&[u8], Words<'_>)>
    ensures found { IfSome result (λ x. words_left words.entry ≡ x.0.now ∷ words_left x.1) }
    ensures range { IfSome result (λ x. IsName x.0.now) }
    ensures each { (n : List ℕ) (ws : List (List ℕ)) → IsName n → words_left words.entry ≡ n ∷ ws → IfSome result (λ x. (x.0.now ≡ n) × (words_left x.1 ≡ ws)) }
    ensures none { IfNone result ((n : List ℕ) (ws : List (List ℕ)) → IsName n → words_left words.entry ≡ n ∷ ws → ⊥) }
{
    let (word, rest) = next(words)?;
    if is_name(word) {
        Some((word, rest))
    } else {
        None
    }
}

/// Whether bytes are a name.
pub fn is_name(bytes: &[u8]) -> bool
    ensures yes { result ≡ true → IsName bytes.now }
    ensures no { result ≡ false → IsName bytes.now → ⊥ }
{
    !bytes.is_empty() && all_in_names(bytes)
}

fn all_in_names(bytes: &[u8]) -> bool
    ensures { result ≡ list_all is_name_byte bytes.now }
{
    bytes.iter().all(|b| is_in_names(*b))
}

fn is_in_names(b: u8) -> bool
    ensures { result ≡ is_name_byte b }
{
    matches!(b, b'A'..=b'Z' | b'a'..=b'z' | b'0'..=b'9' | b'_' | b'.' | b'$')
}
