//! Reading the lines inside a block.
ghost use Rattle.std.specs.Prelude.{◌≡◌, ℕ, ◌^◌, ◌<◌, ◌≤◌, [], ◌∷◌, List, IfOk, IfSome, length, map, codes, option_to_list};
ghost use Rattle.std.specs.Fmt.{decimal};
ghost use Rattle.il_core.specs.Limits.{IsPid, max_parameters};
ghost use Rattle.il_core.specs.Ranges.{AreWords};
ghost use Rattle.il_core.specs.Text.{gets, gets_if_some, reg};
ghost use Rattle.il_core.specs.declared.instr.Instr.TheVariants as instr;
ghost use Rattle.il_text.specs.Lines.{IsFitStatement, statement_parts};
ghost use Rattle.il_text.specs.Mnemonics.{mnemonic_text};
ghost use Rattle.il_text.specs.Statements.{AnswersGets, AnswersPlain, IsCallHead};
ghost use Rattle.il_text.specs.Parts.{dest_of, name_of, operands_of};
ghost use Rattle.text_lines.specs.Words.{words_left};

use crate::lists::arguments;
use crate::mnemonic::{Mnemonic, mnemonic_of};
use crate::operands::{
    array_register, array_registers, count, global_register, global_registers, narrow_register,
    only_block, only_constant, only_global, only_register, ranges, register_blocks, registers,
};
use il_core::{End, Instr, limits};
use std::alloc::{AllocError, Global};
use text_lines::{Words, after, is_done, next, numbered};

/// What stands on a line inside a block.
#[derive(Drop)]
pub(crate) enum Statement {
    Instr(Instr),
    End(End),
}

/// The instruction or the end that words spell, if they spell one within the limits of a line.
pub(crate) fn read_statement(
    alloc: Global,
    words: Words<'_>,
) -> Result<Option<Statement>, AllocError>
    ensures found { IfOk result (λ o. IfSome o (λ s. words_left words.entry ≡ statement_parts s)) }
    ensures fit { IfOk result (λ o. IfSome o IsFitStatement) }
    ensures each { IfOk result (λ o. (s : Statement) → IsFitStatement s → words_left words.entry ≡ statement_parts s → o ≡ Some s) }
{
    let Some((first, rest)) = next(words) else {
        return Ok(None);
    };
    let Some(d) = numbered(first, b'r') else {
        return named(alloc, None, words);
    };
    let Some(words) = after(rest, b"=") else {
        return Ok(None);
    };
    named(alloc, Some(d), words)
}

/// The statement of a name and its operands, behind the register that gets its value, if one does.
fn named(
    alloc: Global,
    dest: Option<u32>,
    words: Words<'_>,
) -> Result<Option<Statement>, AllocError>
    requires { AreWords (option_to_list dest) }
    ensures found { IfOk result (λ o. IfSome o (λ s. gets_if_some dest (words_left words.entry) ≡ statement_parts s)) }
    ensures fit { IfOk result (λ o. IfSome o IsFitStatement) }
    ensures each { IfOk result (λ o. (s : Statement) → IsFitStatement s → dest_of s ≡ dest
        → words_left words.entry ≡ mnemonic_text (name_of s) ∷ operands_of s → o ≡ Some s) }
{
    let Some((name, words)) = next(words) else {
        return Ok(None);
    };
    let Some(mnemonic) = mnemonic_of(name) else {
        return Ok(None);
    };
    operands(alloc, dest, mnemonic, words)
}

/// The statement of a name's operands.
fn operands(
    alloc: Global,
    dest: Option<u32>,
    mnemonic: Mnemonic,
    words: Words<'_>,
) -> Result<Option<Statement>, AllocError>
    requires { AreWords (option_to_list dest) }
    ensures found { IfOk result (λ o. IfSome o (λ s. gets_if_some dest (mnemonic_text mnemonic ∷ words_left words.entry) ≡ statement_parts s)) }
    ensures fit { IfOk result (λ o. IfSome o IsFitStatement) }
    ensures each { IfOk result (λ o. (s : Statement) → IsFitStatement s → dest_of s ≡ dest → name_of s ≡ mnemonic
        → words_left words.entry ≡ operands_of s → o ≡ Some s) }
{
    if let Mnemonic::Call = mnemonic {
        return call(alloc, dest, words);
    }
    match dest {
        Some(d) => Ok(gets(d, mnemonic, words)),
        None => Ok(fixed(mnemonic, words)),
    }
}

/// A call, from its callee on.
fn call(alloc: Global, dest: Option<u32>, words: Words<'_>) -> Result<Option<Statement>, AllocError>
    requires { AreWords (option_to_list dest) }
    ensures found { IfOk result (λ o. IfSome o (λ s. gets_if_some dest (codes "call" ∷ words_left words.entry) ≡ statement_parts s)) }
    ensures fit { IfOk result (λ o. IfSome o IsFitStatement) }
    ensures each { IfOk result (λ o. (p n : ℕ) (args : List ℕ) → IsPid p → n < 2 ^ 32 → AreWords args → length args ≤ max_parameters
        → words_left words.entry ≡ decimal p ∷ codes "count" ∷ decimal n ∷ map reg args → o ≡ Some (Statement.Instr (instr.Call dest p n args))) }
{
    let Some((callee, count, words)) = callee_and_count(words) else {
        return Ok(None);
    };
    let Some(args) = arguments(alloc, words)? else {
        return Ok(None);
    };
    Ok(Some(Statement::Instr(Instr::Call {
        dest,
        callee,
        count,
        args,
    })))
}

/// The callee and the count of a call, and the words behind them.
fn callee_and_count(words: Words<'_>) -> Option<(u32, u32, Words<'_>)>
    ensures found { IfSome result (λ x. words_left words.entry ≡ decimal x.0 ∷ codes "count" ∷ decimal x.1 ∷ words_left x.2) }
    ensures range { IfSome result (λ x. IsPid x.0 × (x.1 < 2 ^ 32)) }
    ensures each { (p n : ℕ) (ws : List (List ℕ)) → IsPid p → n < 2 ^ 32 → words_left words.entry ≡ decimal p ∷ codes "count" ∷ decimal n ∷ ws
        → IsCallHead result p n ws }
{
    let (callee, words) = count(words)?;
    if callee >= limits::PIDS {
        return None;
    }
    let words = after(words, b"count")?;
    let (count, words) = count(words)?;
    Some((callee, count, words))
}

/// An instruction that a register gets, but for calls: its name and its operands stand behind the `=`.
fn gets(d: u32, mnemonic: Mnemonic, words: Words<'_>) -> Option<Statement>
    ensures found { IfSome result (λ s. gets d (mnemonic_text mnemonic ∷ words_left words.entry) ≡ statement_parts s) }
    ensures fit { IfSome result IsFitStatement }
    ensures each { AnswersGets d mnemonic (words_left words.entry) result }
{
    match mnemonic {
        Mnemonic::Const => {
            let w = only_constant(words)?;
            Some(Statement::Instr(Instr::Const(d, w)))
        }
        Mnemonic::Move => {
            let s = only_register(words)?;
            Some(Statement::Instr(Instr::Move(d, s)))
        }
        Mnemonic::Conv => {
            let (t, s) = narrow_register(words)?;
            Some(Statement::Instr(Instr::Conv(d, t, s)))
        }
        Mnemonic::Bin(op) => {
            let (a, b) = registers(words)?;
            Some(Statement::Instr(Instr::Bin(op, d, a, b)))
        }
        Mnemonic::Get => {
            let g = only_global(words)?;
            Some(Statement::Instr(Instr::Get(d, g)))
        }
        Mnemonic::GetX => {
            let (g, i) = global_register(words)?;
            Some(Statement::Instr(Instr::GetX(d, g, i)))
        }
        Mnemonic::GetA => {
            let (a, i) = array_register(words)?;
            Some(Statement::Instr(Instr::GetA(d, a, i)))
        }
        Mnemonic::GetChar if is_done(words) => Some(Statement::Instr(Instr::GetChar(d))),
        Mnemonic::PutChar => {
            let s = only_register(words)?;
            Some(Statement::Instr(Instr::PutChar(d, s)))
        }
        _ => None,
    }
}

/// A statement that no register gets, but for calls: its name stands before its operands.
fn fixed(mnemonic: Mnemonic, words: Words<'_>) -> Option<Statement>
    ensures found { IfSome result (λ s. mnemonic_text mnemonic ∷ words_left words.entry ≡ statement_parts s) }
    ensures fit { IfSome result IsFitStatement }
    ensures each { AnswersPlain mnemonic (words_left words.entry) result }
{
    match mnemonic {
        Mnemonic::Set => {
            let (g, s) = global_register(words)?;
            Some(Statement::Instr(Instr::Set(g, s)))
        }
        Mnemonic::SetX => {
            let (g, i, s) = global_registers(words)?;
            Some(Statement::Instr(Instr::SetX(g, i, s)))
        }
        Mnemonic::SetA => {
            let (a, i, s) = array_registers(words)?;
            Some(Statement::Instr(Instr::SetA(a, i, s)))
        }
        Mnemonic::Clear => {
            let (r, c, a, m) = ranges(words)?;
            Some(Statement::Instr(Instr::Clear(r, c, a, m)))
        }
        Mnemonic::Turn if is_done(words) => Some(Statement::Instr(Instr::Turn)),
        Mnemonic::Jump => {
            let t = only_block(words)?;
            Some(Statement::End(End::Jump(t)))
        }
        Mnemonic::Branch => {
            let (r, t, u) = register_blocks(words)?;
            Some(Statement::End(End::Branch(r, t, u)))
        }
        Mnemonic::Loop => {
            let t = only_block(words)?;
            Some(Statement::End(End::Loop(t)))
        }
        Mnemonic::Return if is_done(words) => Some(Statement::End(End::Return(None))),
        Mnemonic::Return => {
            let r = only_register(words)?;
            Some(Statement::End(End::Return(Some(r))))
        }
        Mnemonic::Exit => {
            let r = only_register(words)?;
            Some(Statement::End(End::Exit(r)))
        }
        _ => None,
    }
}
