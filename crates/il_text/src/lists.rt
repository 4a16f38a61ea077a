//! Lists at the end of a line.
ghost use Rattle.std.specs.Prelude.{◌≡◌, ℕ, ◌<◌, ◌≤◌, ◌^◌, List, IfOk, IfSome, length, map, sum};
ghost use Rattle.std.specs.Fmt.{decimal};
ghost use Rattle.hlo_num.specs.declared.word.Word.{Word};
ghost use Rattle.il_core.specs.Limits.{max_arrays, max_elements, max_parameters};
ghost use Rattle.il_core.specs.Object.{IsTrimmed};
ghost use Rattle.il_core.specs.Ranges.{AreWords, AreConstants};
ghost use Rattle.il_core.specs.Text.{reg, word, arrays_parts, init_parts};
ghost use Rattle.text_lines.specs.Words.{words_left};

use crate::operands::{constant, count, register};
use hlo_num::{Seq, Word};
use il_core::limits;
use std::alloc::{AllocError, Global};
use text_lines::{Words, after, is_done};

/// The arguments of a call.
pub(crate) fn arguments(alloc: Global, words: Words<'_>) -> Result<Option<Seq<u32>>, AllocError>
    ensures found { IfOk result (λ o. IfSome o (λ args. words_left words.entry ≡ map reg args)) }
    ensures few { IfOk result (λ o. IfSome o (λ args. length args ≤ max_parameters)) }
    ensures range { IfOk result (λ o. IfSome o (λ args. AreWords args)) }
    ensures each { IfOk result (λ o. (args : List ℕ) → AreWords args → length args ≤ max_parameters → words_left words.entry ≡ map reg args → o ≡ Some args) }
{
    let mut args = Seq::new(alloc);
    let mut left = words;
    while !is_done(left) {
        if args.len() == limits::PARAMETERS as usize {
            return Ok(None);
        }
        let Some((n, rest)) = register(left) else {
            return Ok(None);
        };
        args.push(n)?;
        left = rest;
    }
    Ok(Some(args))
}

/// The numbers of elements of a routine's local arrays, behind their word, where there are any.
pub(crate) fn arrays(alloc: Global, words: Words<'_>) -> Result<Option<Seq<u32>>, AllocError>
    ensures found { IfOk result (λ o. IfSome o (λ lens. words_left words.entry ≡ arrays_parts lens)) }
    ensures few { IfOk result (λ o. IfSome o (λ lens. (length lens ≤ max_arrays) × (sum lens ≤ max_elements))) }
    ensures each { IfOk result (λ o. (lens : List ℕ) → AreWords lens → length lens ≤ max_arrays → sum lens ≤ max_elements
        → words_left words.entry ≡ arrays_parts lens → o ≡ Some lens) }
{
    if is_done(words) {
        return Ok(Some(Seq::new(alloc)));
    }
    match after(words, b"arrays") {
        Some(words) if !is_done(words) => lengths(alloc, words),
        _ => Ok(None),
    }
}

/// Numbers of elements of local arrays.
fn lengths(alloc: Global, words: Words<'_>) -> Result<Option<Seq<u32>>, AllocError>
    ensures found { IfOk result (λ o. IfSome o (λ lens. words_left words.entry ≡ map decimal lens)) }
    ensures few { IfOk result (λ o. IfSome o (λ lens. (length lens ≤ max_arrays) × (sum lens ≤ max_elements))) }
    ensures each { IfOk result (λ o. (lens : List ℕ) → AreWords lens → length lens ≤ max_arrays → sum lens ≤ max_elements
        → words_left words.entry ≡ map decimal lens → o ≡ Some lens) }
{
    let mut lens = Seq::new(alloc);
    let mut elements = 0;
    let mut left = words;
    while !is_done(left) {
        if lens.len() == limits::ARRAYS as usize {
            return Ok(None);
        }
        let Some((len, rest)) = count(left) else {
            return Ok(None);
        };
        if len > limits::ELEMENTS - elements {
            return Ok(None);
        }
        elements += len;
        lens.push(len)?;
        left = rest;
    }
    Ok(Some(lens))
}

/// The words of an object at the start, behind `=`, where there are any: no more than the object has, and
/// the last of them isn't 0.
pub(crate) fn init(
    alloc: Global,
    words: Words<'_>,
    object_words: u32,
) -> Result<Option<Seq<Word>>, AllocError>
    ensures found { IfOk result (λ o. IfSome o (λ ws. words_left words.entry ≡ init_parts ws)) }
    ensures trimmed { IfOk result (λ o. IfSome o (λ ws. IsTrimmed object_words ws)) }
    ensures range { IfOk result (λ o. IfSome o (λ ws. AreConstants ws)) }
    ensures each { IfOk result (λ o. (ws : List Word) → AreConstants ws → IsTrimmed object_words ws → words_left words.entry ≡ init_parts ws → o ≡ Some ws) }
{
    if is_done(words) {
        return Ok(Some(Seq::new(alloc)));
    }
    match after(words, b"=") {
        Some(words) if !is_done(words) => constants(alloc, words, object_words),
        _ => Ok(None),
    }
}

/// Words at the start of an object.
fn constants(
    alloc: Global,
    words: Words<'_>,
    object_words: u32,
) -> Result<Option<Seq<Word>>, AllocError>
    ensures found { IfOk result (λ o. IfSome o (λ ws. words_left words.entry ≡ map word ws)) }
    ensures trimmed { IfOk result (λ o. IfSome o (λ ws. IsTrimmed object_words ws)) }
    ensures range { IfOk result (λ o. IfSome o (λ ws. AreConstants ws)) }
    ensures each { IfOk result (λ o. (ws : List Word) → AreConstants ws → IsTrimmed object_words ws → words_left words.entry ≡ map word ws → o ≡ Some ws) }
{
    let mut init = Seq::new(alloc);
    let mut ends_with_zero = false;
    let mut left = words;
    while !is_done(left) {
        if init.len() >= object_words as usize {
            return Ok(None);
        }
        let Some((w, rest)) = constant(left) else {
            return Ok(None);
        };
        ends_with_zero = w.0 == 0;
        init.push(w)?;
        left = rest;
    }
    if ends_with_zero {
        Ok(None)
    } else {
        Ok(Some(init))
    }
}
