//! The words of a line: its parts between single spaces.
ghost use Rattle.std.specs.Prelude.{◌≡◌, [], ◌∷◌, IfSome, IfNone, List, ℕ, true, false, ◌≤◌, length, option_copied};
ghost use Rattle.text_lines.specs.Words.{first_len, words_in, words_left, words_of};

/// What is left of a line's words.
#[derive(Clone, Copy)]
pub struct Words<'a> {
    /// The bytes from the next word on, or none behind the last word.
    pub rest: Option<&'a [u8]>,
}

/// The words of a line.
pub fn words_of(line: &[u8]) -> Words<'_>
    ensures { words_left result ≡ words_of line.now }
{
    Words { rest: Some(line) }
}

/// The next word and those behind it, if there is one. It takes time in proportion to the word.
pub fn next(words: Words<'_>) -> Option<(&[u8], Words<'_>)>
    ensures some { IfSome result (λ x. words_left words.entry ≡ x.0.now ∷ words_left x.1) }
    ensures none { IfNone result (words_left words.entry ≡ []) }
{
    let (word, rest) = split_word(words.rest?);
    Some((word, Words { rest }))
}

/// The first word of these bytes, and the bytes behind the space that follows it, if one does.
#[tactic(auto, using(crate::proofs::WordSplits::words_split, crate::proofs::WordSplits::words_last))]
fn split_word(bytes: &[u8]) -> (&[u8], Option<&[u8]>)
    ensures { words_of bytes.now ≡ result.0.now ∷ words_in (option_copied result.1) }
{
    let len = word_len(bytes);
    if len < bytes.len() {
        (&bytes[..len], Some(&bytes[len + 1..]))
    } else {
        (bytes, None)
    }
}

/// How many bytes the first word has.
fn word_len(bytes: &[u8]) -> usize
    ensures len { result ≡ first_len bytes.now }
    ensures bound { result ≤ length bytes.now }
{
    let mut len = 0;
    for b in bytes {
        if *b == b' ' {
            return len;
        }
        len += 1;
    }
    len
}

/// The words behind a word, if that word is the next.
pub fn after<'a>(words: Words<'a>, word: &[u8]) -> Option<Words<'a>>
    ensures found { IfSome result (λ rest. words_left words.entry ≡ word.now ∷ words_left rest) }
    ensures each { (ws : List (List ℕ)) → words_left words.entry ≡ word.now ∷ ws → IfSome result (λ rest. words_left rest ≡ ws) }
    ensures none { IfNone result ((ws : List (List ℕ)) → words_left words.entry ≡ word.now ∷ ws → ⊥) }
{
    let (first, rest) = next(words)?;
    if first == word { Some(rest) } else { None }
}

/// Whether no word is left.
#[tactic(auto, using(crate::proofs::WordSplits::some_word))]
pub fn is_done(words: Words<'_>) -> bool
    ensures yes { result ≡ true → words_left words.entry ≡ [] }
    ensures no { result ≡ false → words_left words.entry ≡ [] → ⊥ }
{
    match words.rest {
        None => true,
        Some(_) => false,
    }
}
