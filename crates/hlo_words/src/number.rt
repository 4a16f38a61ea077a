//! The numbers of a command line.
ghost use Rattle.std.specs.Prelude.{◌≡◌, ℕ, ◌^◌, ◌<◌, ◌≤◌, IfSome, IfNone, false};
ghost use Rattle.std.specs.Fmt.{decimal};
ghost use Rattle.hlo_words.specs.Settings.{IsNumberIn, is_padded_text};

/// The number in this range that the text spells in decimal digits, without a sign and a leading zero.
pub(crate) fn number_in(text: &str, low: u64, high: u64) -> Option<u64>
    ensures found { IfSome result (IsNumberIn low high text.now) }
    ensures none { IfNone result ((n : ℕ) → IsNumberIn low high text.now n → ⊥) }
{
    let number = number(text)?;
    if number < low {
        return None;
    }
    if number > high {
        return None;
    }
    Some(number)
}

/// The number below 2^64 that the text spells.
fn number(text: &str) -> Option<u64>
    ensures found { IfSome result (λ n. text.now ≡ decimal n) }
    ensures each { (n : ℕ) → n < 2 ^ 64 → text.now ≡ decimal n → result ≡ Some n }
{
    if is_padded(text) {
        return None;
    }
    parsed(text)
}

/// The number below 2^64 that decimal digits, perhaps behind a `+`, stand for.
fn parsed(text: &str) -> Option<u64>
    ensures digits { IfSome result (λ n. is_padded_text text.now ≡ false → text.now ≡ decimal n) }
    ensures each { (n : ℕ) → n < 2 ^ 64 → text.now ≡ decimal n → result ≡ Some n }
{
    text.parse::<u64>().ok()
}

/// Whether a `+`, or a `0` before further bytes, stands first.
fn is_padded(text: &str) -> bool
    ensures { result ≡ is_padded_text text.now }
{
    match text.as_bytes() {
        [b'+', ..] => true,
        [b'0', others @ ..] => !others.is_empty(),
        _ => false,
    }
}
