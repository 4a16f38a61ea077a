//! Reading the lines of objects and the first lines of routines.
ghost use Rattle.std.specs.Prelude.{◌≡◌, ℕ, ◌^◌, ◌<◌, ◌≤◌, ◌∷◌, Bool, List, IfOk, IfSome, IfNone, true, false, codes};
ghost use Rattle.std.specs.List.{list_all};
ghost use Rattle.std.specs.Fmt.{decimal};
ghost use Rattle.hlo_num.specs.Name.{IsName};
ghost use Rattle.il_core.specs.Limits.{IsPid, max_parameters, max_registers};
ghost use Rattle.il_text.specs.Heads.{AreRead, IsObjectHead, IsObjectHeadOf, IsRoutineHead, IsRoutineHeadOf, object_tail, routine_partial, routine_tail};
ghost use Rattle.il_core.specs.Text.{value_name};
ghost use Rattle.il_text.specs.Lines.{IsFitHeader, IsFitObject};
ghost use Rattle.text_lines.specs.Words.{words_left, IsRead};
ghost use Rattle.il_text.specs.declared.line.NamedObject.{NamedObject};
ghost use Rattle.il_text.specs.declared.line.NamedRoutine.{NamedRoutine};

use crate::line::{NamedObject, NamedRoutine};
use crate::lists::{arrays, init};
use crate::operands::count;
use hlo_num::{Name, Seq};
use il_core::{Object, Routine, limits};
use std::alloc::{AllocError, Global};
use text_lines::{Words, after, next, next_name};

/// The line of an object up to its words at the start.
#[derive(Clone, Copy)]
pub(crate) struct ObjectHead<'a> {
    pub(crate) pid: u32,
    pub(crate) name: &'a [u8],
    pub(crate) words: u32,
    pub(crate) rest: Words<'a>,
}

/// An object's line behind its first word.
pub(crate) fn object(alloc: Global, words: Words<'_>) -> Result<Option<NamedObject>, AllocError>
    ensures found { IfOk result (λ o. IfSome o (λ x. words_left words.entry ≡ object_tail x)) }
    ensures fit { IfOk result (λ o. IfSome o IsFitObject) }
    ensures each { IfOk result (λ o. (x : NamedObject) → IsFitObject x → words_left words.entry ≡ object_tail x → o ≡ Some x) }
{
    let Some(head) = object_head(words) else {
        return Ok(None);
    };
    let Some(init) = init(alloc, head.rest, head.words)? else {
        return Ok(None);
    };
    let name = Name::new(alloc, head.name)?;
    let object = Object {
        pid: head.pid,
        words: head.words,
        init,
    };
    Ok(Some(NamedObject { name, object }))
}

/// An object's line behind its first word, up to its words at the start.
fn object_head(words: Words<'_>) -> Option<ObjectHead<'_>>
    ensures found { IfSome result (λ h. IsObjectHeadOf h (words_left words.entry)) }
    ensures each { (p : ℕ) (name : List ℕ) (n : ℕ) (ws : List (List ℕ)) → IsPid p → IsName name → 0 < n → n < 2 ^ 32
        → words_left words.entry ≡ decimal p ∷ name ∷ decimal n ∷ ws → IsObjectHead result p name n ws }
{
    let (pid, words) = pid(words)?;
    let (name, words) = next_name(words)?;
    let (number, rest) = count(words)?;
    if number == 0 {
        return None;
    }
    Some(ObjectHead {
        pid,
        name,
        words: number,
        rest,
    })
}

/// A PID, and the words behind it.
fn pid(words: Words<'_>) -> Option<(u32, Words<'_>)>
    ensures found { IfSome result (λ x. words_left words.entry ≡ decimal x.0 ∷ words_left x.1) }
    ensures range { IfSome result (λ x. IsPid x.0) }
    ensures each { (n : ℕ) (ws : List (List ℕ)) → IsPid n → words_left words.entry ≡ decimal n ∷ ws → IsRead result n ws }
{
    let (n, rest) = count(words)?;
    if n < limits::PIDS {
        Some((n, rest))
    } else {
        None
    }
}

/// The first line of a routine up to the elements of its arrays.
#[derive(Clone, Copy)]
pub(crate) struct RoutineHead<'a> {
    pub(crate) pid: u32,
    pub(crate) name: &'a [u8],
    pub(crate) params: u32,
    pub(crate) value: bool,
    pub(crate) regs: u32,
    pub(crate) entry: u32,
    pub(crate) rest: Words<'a>,
}

/// A routine's first line behind its first word, as a routine without blocks.
pub(crate) fn routine(alloc: Global, words: Words<'_>) -> Result<Option<NamedRoutine>, AllocError>
    ensures found { IfOk result (λ o. IfSome o (λ x. words_left words.entry ≡ routine_tail x)) }
    ensures fit { IfOk result (λ o. IfSome o IsFitHeader) }
    ensures each { IfOk result (λ o. (x : NamedRoutine) → IsFitHeader x → words_left words.entry ≡ routine_tail x → o ≡ Some x) }
{
    let Some(head) = routine_head(words) else {
        return Ok(None);
    };
    let Some(arrays) = arrays(alloc, head.rest)? else {
        return Ok(None);
    };
    let name = Name::new(alloc, head.name)?;
    let routine = Routine {
        pid: head.pid,
        params: head.params,
        value: head.value,
        regs: head.regs,
        entry: head.entry,
        arrays,
        blocks: Seq::new(alloc),
    };
    Ok(Some(NamedRoutine { name, routine }))
}

/// A routine's first line behind its first word, up to the elements of its arrays.
fn routine_head(words: Words<'_>) -> Option<RoutineHead<'_>>
    ensures found { IfSome result (λ h. IsRoutineHeadOf h (words_left words.entry)) }
    ensures each { (x : NamedRoutine) (ws : List (List ℕ)) → IsFitHeader x → words_left words.entry ≡ routine_partial x ws → IsRoutineHead result x ws }
{
    let (pid, words) = pid(words)?;
    let (name, words) = next_name(words)?;
    let (params, value, words) = params_and_value(words)?;
    let (regs, entry, rest) = regs_and_entry(words)?;
    Some(RoutineHead {
        pid,
        name,
        params,
        value,
        regs,
        entry,
        rest,
    })
}

/// The number of parameters and whether there is a value, and the words behind them.
fn params_and_value(words: Words<'_>) -> Option<(u32, bool, Words<'_>)>
    ensures found { IfSome result (λ x. words_left words.entry ≡ codes "params" ∷ decimal x.0 ∷ value_name x.1 ∷ words_left x.2) }
    ensures range { IfSome result (λ x. x.0 ≤ max_parameters) }
    ensures each { (n : ℕ) (v : Bool) (ws : List (List ℕ)) → n ≤ max_parameters → words_left words.entry ≡ codes "params" ∷ decimal n ∷ value_name v ∷ ws
        → AreRead result n v ws }
{
    let (params, words) = counted(words, b"params")?;
    if params > limits::PARAMETERS {
        return None;
    }
    let (value, words) = value(words)?;
    Some((params, value, words))
}

/// Whether there is a value, and the words behind that.
fn value(words: Words<'_>) -> Option<(bool, Words<'_>)>
    ensures found { IfSome result (λ x. words_left words.entry ≡ value_name x.0 ∷ words_left x.1) }
    ensures each { (v : Bool) (ws : List (List ℕ)) → words_left words.entry ≡ value_name v ∷ ws → IsRead result v ws }
{
    let (word, rest) = next(words)?;
    let value = value_named(word)?;
    Some((value, rest))
}

/// Whether a word says that there is a value, or that there is none.
fn value_named(word: &[u8]) -> Option<bool>
    ensures found { IfSome result (λ v. word.now ≡ value_name v) }
    ensures each { (v : Bool) → word.now ≡ value_name v → result ≡ Some v }
{
    match word {
        b"value" => Some(true),
        b"void" => Some(false),
        _ => None,
    }
}

/// The numbers of registers and of entries, and the words behind them.
fn regs_and_entry(words: Words<'_>) -> Option<(u32, u32, Words<'_>)>
    ensures found { IfSome result (λ x. words_left words.entry ≡ codes "regs" ∷ decimal x.0 ∷ codes "entry" ∷ decimal x.1 ∷ words_left x.2) }
    ensures range { IfSome result (λ x. (x.0 ≤ max_registers) × (x.1 < 2 ^ 32)) }
    ensures each { (n m : ℕ) (ws : List (List ℕ)) → n ≤ max_registers → m < 2 ^ 32
        → words_left words.entry ≡ codes "regs" ∷ decimal n ∷ codes "entry" ∷ decimal m ∷ ws → AreRead result n m ws }
{
    let (regs, words) = counted(words, b"regs")?;
    if regs > limits::REGISTERS {
        return None;
    }
    let (entry, words) = counted(words, b"entry")?;
    Some((regs, entry, words))
}

/// A number behind a word, and the words behind it.
fn counted<'a>(words: Words<'a>, word: &[u8]) -> Option<(u32, Words<'a>)>
    ensures found { IfSome result (λ x. words_left words.entry ≡ word.now ∷ decimal x.0 ∷ words_left x.1) }
    ensures range { IfSome result (λ x. x.0 < 2 ^ 32) }
    ensures each { (n : ℕ) (ws : List (List ℕ)) → n < 2 ^ 32 → words_left words.entry ≡ word.now ∷ decimal n ∷ ws → IsRead result n ws }
{
    let words = after(words, word)?;
    count(words)
}
