//! The operands of a line, one after another.
ghost use Rattle.std.specs.Prelude.{◌≡◌, ℕ, ◌^◌, ◌<◌, [], ◌∷◌, List, IfSome, IsTrue, true, false};
ghost use Rattle.std.specs.Fmt.{decimal};
ghost use Rattle.hlo_num.specs.Words.{is_narrow};
ghost use Rattle.hlo_num.specs.declared.word.Ty.{Ty};
ghost use Rattle.hlo_num.specs.declared.word.Word.{Word};
ghost use Rattle.il_core.specs.Limits.{IsPid};
ghost use Rattle.il_core.specs.Text.{reg, array, block, global, word, type_name};
ghost use Rattle.text_lines.specs.Words.{words_left, IsRead};

use hlo_num::{Ty, Word};
use il_core::limits;
use text_lines::{Words, is_done, next, number, numbered, signed};

/// A register, and the words behind it.
pub(crate) fn register(words: Words<'_>) -> Option<(u32, Words<'_>)>
    ensures found { IfSome result (λ x. words_left words.entry ≡ reg x.0 ∷ words_left x.1) }
    ensures range { IfSome result (λ x. x.0 < 2 ^ 32) }
    ensures each { (n : ℕ) (ws : List (List ℕ)) → n < 2 ^ 32 → words_left words.entry ≡ reg n ∷ ws → IsRead result n ws }
{
    let (word, rest) = next(words)?;
    let n = numbered(word, b'r')?;
    Some((n, rest))
}

/// A local array, and the words behind it.
pub(crate) fn array(words: Words<'_>) -> Option<(u32, Words<'_>)>
    ensures found { IfSome result (λ x. words_left words.entry ≡ array x.0 ∷ words_left x.1) }
    ensures range { IfSome result (λ x. x.0 < 2 ^ 32) }
    ensures each { (n : ℕ) (ws : List (List ℕ)) → n < 2 ^ 32 → words_left words.entry ≡ array n ∷ ws → IsRead result n ws }
{
    let (word, rest) = next(words)?;
    let n = numbered(word, b'a')?;
    Some((n, rest))
}

/// A block, and the words behind it.
pub(crate) fn block(words: Words<'_>) -> Option<(u32, Words<'_>)>
    ensures found { IfSome result (λ x. words_left words.entry ≡ block x.0 ∷ words_left x.1) }
    ensures range { IfSome result (λ x. x.0 < 2 ^ 32) }
    ensures each { (n : ℕ) (ws : List (List ℕ)) → n < 2 ^ 32 → words_left words.entry ≡ block n ∷ ws → IsRead result n ws }
{
    let (word, rest) = next(words)?;
    let n = numbered(word, b'b')?;
    Some((n, rest))
}

/// A number, and the words behind it.
pub(crate) fn count(words: Words<'_>) -> Option<(u32, Words<'_>)>
    ensures found { IfSome result (λ x. words_left words.entry ≡ decimal x.0 ∷ words_left x.1) }
    ensures range { IfSome result (λ x. x.0 < 2 ^ 32) }
    ensures each { (n : ℕ) (ws : List (List ℕ)) → n < 2 ^ 32 → words_left words.entry ≡ decimal n ∷ ws → IsRead result n ws }
{
    let (word, rest) = next(words)?;
    let n = number(word)?;
    Some((n, rest))
}

/// The PID of an object, and the words behind it.
pub(crate) fn global(words: Words<'_>) -> Option<(u32, Words<'_>)>
    ensures found { IfSome result (λ x. words_left words.entry ≡ global x.0 ∷ words_left x.1) }
    ensures range { IfSome result (λ x. IsPid x.0) }
    ensures each { (n : ℕ) (ws : List (List ℕ)) → IsPid n → words_left words.entry ≡ global n ∷ ws → IsRead result n ws }
{
    let (word, rest) = next(words)?;
    let n = numbered(word, b'g')?;
    if n < limits::PIDS {
        Some((n, rest))
    } else {
        None
    }
}

/// A word, and the words behind it.
pub(crate) fn constant(words: Words<'_>) -> Option<(Word, Words<'_>)>
    ensures found { IfSome result (λ x. words_left words.entry ≡ word x.0 ∷ words_left x.1) }
    ensures range { IfSome result (λ x. x.0.0 < 2 ^ 32) }
    ensures each { (w : Word) (ws : List (List ℕ)) → w.0 < 2 ^ 32 → words_left words.entry ≡ word w ∷ ws → IsRead result w ws }
{
    let (word, rest) = next(words)?;
    let w = signed(word)?;
    Some((w, rest))
}

/// A narrow type, and the words behind it.
pub(crate) fn narrow(words: Words<'_>) -> Option<(Ty, Words<'_>)>
    ensures found { IfSome result (λ x. words_left words.entry ≡ type_name x.0 ∷ words_left x.1) }
    ensures range { IfSome result (λ x. IsTrue (is_narrow x.0)) }
    ensures each { (t : Ty) (ws : List (List ℕ)) → IsTrue (is_narrow t) → words_left words.entry ≡ type_name t ∷ ws → IsRead result t ws }
{
    let (word, rest) = next(words)?;
    let ty = narrow_type(word)?;
    Some((ty, rest))
}

/// The narrow type of a name.
fn narrow_type(word: &[u8]) -> Option<Ty>
    ensures found { IfSome result (λ t. word.now ≡ type_name t) }
    ensures range { IfSome result (λ t. IsTrue (is_narrow t)) }
    ensures each { (t : Ty) → IsTrue (is_narrow t) → word.now ≡ type_name t → result ≡ Some t }
{
    match word {
        b"char" => Some(Ty::Char),
        b"uchar" => Some(Ty::UChar),
        b"short" => Some(Ty::Short),
        b"ushort" => Some(Ty::UShort),
        _ => None,
    }
}

/// A register alone.
pub(crate) fn only_register(words: Words<'_>) -> Option<u32>
    ensures found { IfSome result (λ n. words_left words.entry ≡ reg n ∷ []) }
    ensures range { IfSome result (λ n. n < 2 ^ 32) }
    ensures each { (n : ℕ) → n < 2 ^ 32 → words_left words.entry ≡ reg n ∷ [] → result ≡ Some n }
{
    let (first, words) = register(words)?;
    if is_done(words) { Some(first) } else { None }
}

/// Two registers.
pub(crate) fn registers(words: Words<'_>) -> Option<(u32, u32)>
    ensures found { IfSome result (λ x. words_left words.entry ≡ reg x.0 ∷ reg x.1 ∷ []) }
    ensures range { IfSome result (λ x. (x.0 < 2 ^ 32) × (x.1 < 2 ^ 32)) }
    ensures each { (n : ℕ) (m : ℕ) → n < 2 ^ 32 → m < 2 ^ 32 → words_left words.entry ≡ reg n ∷ reg m ∷ [] → result ≡ Some (n, m) }
{
    let (first, words) = register(words)?;
    let (second, words) = register(words)?;
    if is_done(words) {
        Some((first, second))
    } else {
        None
    }
}

/// A word alone.
pub(crate) fn only_constant(words: Words<'_>) -> Option<Word>
    ensures found { IfSome result (λ n. words_left words.entry ≡ word n ∷ []) }
    ensures range { IfSome result (λ n. n.0 < 2 ^ 32) }
    ensures each { (w : Word) → w.0 < 2 ^ 32 → words_left words.entry ≡ word w ∷ [] → result ≡ Some w }
{
    let (first, words) = constant(words)?;
    if is_done(words) { Some(first) } else { None }
}

/// A narrow type and a register.
pub(crate) fn narrow_register(words: Words<'_>) -> Option<(Ty, u32)>
    ensures found { IfSome result (λ x. words_left words.entry ≡ type_name x.0 ∷ reg x.1 ∷ []) }
    ensures range { IfSome result (λ x. IsTrue (is_narrow x.0) × (x.1 < 2 ^ 32)) }
    ensures each { (t : Ty) (n : ℕ) → IsTrue (is_narrow t) → n < 2 ^ 32 → words_left words.entry ≡ type_name t ∷ reg n ∷ [] → result ≡ Some (t, n) }
{
    let (first, words) = narrow(words)?;
    let (second, words) = register(words)?;
    if is_done(words) {
        Some((first, second))
    } else {
        None
    }
}

/// An object alone.
pub(crate) fn only_global(words: Words<'_>) -> Option<u32>
    ensures found { IfSome result (λ n. words_left words.entry ≡ global n ∷ []) }
    ensures range { IfSome result (λ n. IsPid n) }
    ensures each { (n : ℕ) → IsPid n → words_left words.entry ≡ global n ∷ [] → result ≡ Some n }
{
    let (first, words) = global(words)?;
    if is_done(words) { Some(first) } else { None }
}

/// An object and a register.
pub(crate) fn global_register(words: Words<'_>) -> Option<(u32, u32)>
    ensures found { IfSome result (λ x. words_left words.entry ≡ global x.0 ∷ reg x.1 ∷ []) }
    ensures range { IfSome result (λ x. IsPid x.0 × (x.1 < 2 ^ 32)) }
    ensures each { (n : ℕ) (m : ℕ) → IsPid n → m < 2 ^ 32 → words_left words.entry ≡ global n ∷ reg m ∷ [] → result ≡ Some (n, m) }
{
    let (first, words) = global(words)?;
    let (second, words) = register(words)?;
    if is_done(words) {
        Some((first, second))
    } else {
        None
    }
}

/// An object and two registers.
pub(crate) fn global_registers(words: Words<'_>) -> Option<(u32, u32, u32)>
    ensures found { IfSome result (λ x. words_left words.entry ≡ global x.0 ∷ reg x.1 ∷ reg x.2 ∷ []) }
    ensures range { IfSome result (λ x. IsPid x.0 × (x.1 < 2 ^ 32) × (x.2 < 2 ^ 32)) }
    ensures each { (n : ℕ) (m : ℕ) (k : ℕ) → IsPid n → m < 2 ^ 32 → k < 2 ^ 32 → words_left words.entry ≡ global n ∷ reg m ∷ reg k ∷ []
        → result ≡ Some (n, m, k) }
{
    let (first, words) = global(words)?;
    let (second, words) = register(words)?;
    let (third, words) = register(words)?;
    if is_done(words) {
        Some((first, second, third))
    } else {
        None
    }
}

/// A local array and a register.
pub(crate) fn array_register(words: Words<'_>) -> Option<(u32, u32)>
    ensures found { IfSome result (λ x. words_left words.entry ≡ array x.0 ∷ reg x.1 ∷ []) }
    ensures range { IfSome result (λ x. (x.0 < 2 ^ 32) × (x.1 < 2 ^ 32)) }
    ensures each { (n : ℕ) (m : ℕ) → n < 2 ^ 32 → m < 2 ^ 32 → words_left words.entry ≡ array n ∷ reg m ∷ [] → result ≡ Some (n, m) }
{
    let (first, words) = array(words)?;
    let (second, words) = register(words)?;
    if is_done(words) {
        Some((first, second))
    } else {
        None
    }
}

/// A local array and two registers.
pub(crate) fn array_registers(words: Words<'_>) -> Option<(u32, u32, u32)>
    ensures found { IfSome result (λ x. words_left words.entry ≡ array x.0 ∷ reg x.1 ∷ reg x.2 ∷ []) }
    ensures range { IfSome result (λ x. (x.0 < 2 ^ 32) × (x.1 < 2 ^ 32) × (x.2 < 2 ^ 32)) }
    ensures each { (n : ℕ) (m : ℕ) (k : ℕ) → n < 2 ^ 32 → m < 2 ^ 32 → k < 2 ^ 32 → words_left words.entry ≡ array n ∷ reg m ∷ reg k ∷ []
        → result ≡ Some (n, m, k) }
{
    let (first, words) = array(words)?;
    let (second, words) = register(words)?;
    let (third, words) = register(words)?;
    if is_done(words) {
        Some((first, second, third))
    } else {
        None
    }
}

/// A range of registers and one of local arrays.
pub(crate) fn ranges(words: Words<'_>) -> Option<(u32, u32, u32, u32)>
    ensures found { IfSome result (λ x. words_left words.entry ≡ reg x.0 ∷ decimal x.1 ∷ array x.2 ∷ decimal x.3 ∷ []) }
    ensures range { IfSome result (λ x. (x.0 < 2 ^ 32) × (x.1 < 2 ^ 32) × (x.2 < 2 ^ 32) × (x.3 < 2 ^ 32)) }
    ensures each { (n : ℕ) (m : ℕ) (k : ℕ) (l : ℕ) → n < 2 ^ 32 → m < 2 ^ 32 → k < 2 ^ 32 → l < 2 ^ 32
        → words_left words.entry ≡ reg n ∷ decimal m ∷ array k ∷ decimal l ∷ [] → result ≡ Some (n, m, k, l) }
{
    let (first, words) = register(words)?;
    let (second, words) = count(words)?;
    let (third, words) = array(words)?;
    let (fourth, words) = count(words)?;
    if is_done(words) {
        Some((first, second, third, fourth))
    } else {
        None
    }
}

/// A block alone.
pub(crate) fn only_block(words: Words<'_>) -> Option<u32>
    ensures found { IfSome result (λ n. words_left words.entry ≡ block n ∷ []) }
    ensures range { IfSome result (λ n. n < 2 ^ 32) }
    ensures each { (n : ℕ) → n < 2 ^ 32 → words_left words.entry ≡ block n ∷ [] → result ≡ Some n }
{
    let (first, words) = block(words)?;
    if is_done(words) { Some(first) } else { None }
}

/// A register and two blocks.
pub(crate) fn register_blocks(words: Words<'_>) -> Option<(u32, u32, u32)>
    ensures found { IfSome result (λ x. words_left words.entry ≡ reg x.0 ∷ block x.1 ∷ block x.2 ∷ []) }
    ensures range { IfSome result (λ x. (x.0 < 2 ^ 32) × (x.1 < 2 ^ 32) × (x.2 < 2 ^ 32)) }
    ensures each { (n : ℕ) (m : ℕ) (k : ℕ) → n < 2 ^ 32 → m < 2 ^ 32 → k < 2 ^ 32 → words_left words.entry ≡ reg n ∷ block m ∷ block k ∷ []
        → result ≡ Some (n, m, k) }
{
    let (first, words) = register(words)?;
    let (second, words) = block(words)?;
    let (third, words) = block(words)?;
    if is_done(words) {
        Some((first, second, third))
    } else {
        None
    }
}
