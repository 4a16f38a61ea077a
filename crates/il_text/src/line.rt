//! The lines of a text.
ghost use Rattle.std.specs.Prelude.{◌≡◌, ℕ, ◌^◌, ◌<◌, [], ◌∷◌, ◌++◌, IfOk, IfSome, codes};
ghost use Rattle.il_core.specs.Text.{block};
ghost use Rattle.il_text.specs.Kinds.{kind_text, AnswersKind};
ghost use Rattle.il_text.specs.Lines.{IsFitLine, IsFitStatement, line_words, statement_parts};
ghost use Rattle.text_lines.specs.Words.{words_left, words_of};
ghost use Rattle.il_text.specs.declared.line.Kind.{Kind};
ghost use Rattle.il_text.specs.declared.statement.Statement.{Statement};

use crate::header::{object, routine};
use crate::statement::{Statement, read_statement};
use hlo_num::Name;
use il_core::{Object, Routine};
use std::alloc::{AllocError, Global};
use text_lines::{Words, after, is_done, next, numbered, words_of};

/// An object with its name.
#[derive(Drop)]
pub(crate) struct NamedObject {
    pub(crate) name: Name,
    pub(crate) object: Object,
}

/// A routine with its name.
#[derive(Drop)]
pub(crate) struct NamedRoutine {
    pub(crate) name: Name,
    pub(crate) routine: Routine,
}

impl NamedObject {
    /// The object's PID.
    pub(crate) fn pid(&self) -> u32
        ensures { result ≡ self.now.object.pid }
    {
        self.object.pid
    }
}

impl NamedRoutine {
    /// The routine's PID.
    pub(crate) fn pid(&self) -> u32
        ensures { result ≡ self.now.routine.pid }
    {
        self.routine.pid
    }
}

/// A line of a text.
#[derive(Drop)]
pub(crate) enum Line {
    /// The first line, which tells the form of the text.
    First,
    Object(NamedObject),
    /// The first line of a routine: the routine without its blocks.
    Routine(NamedRoutine),
    /// The label of the block of a number.
    Label(u32),
    Inside(Statement),
    /// The end of a routine.
    Close,
    /// The last line.
    Done,
}

/// The kind of a line, by its first word. A label has no such word.
#[derive(Clone, Copy)]
pub(crate) enum Kind {
    Inside,
    First,
    Object,
    Routine,
    Close,
    Done,
}

/// The line that bytes spell, if they spell one within the limits of a line. It takes time and memory in
/// proportion to the bytes.
pub(crate) fn read_line(alloc: Global, bytes: &[u8]) -> Result<Option<Line>, AllocError>
    ensures found { IfOk result (λ o. IfSome o (λ l. words_of bytes.now ≡ line_words l)) }
    ensures fit { IfOk result (λ o. IfSome o IsFitLine) }
    ensures each { IfOk result (λ o. (l : Line) → IsFitLine l → words_of bytes.now ≡ line_words l → o ≡ Some l) }
{
    let Some((first, rest)) = next(words_of(bytes)) else {
        return Ok(None);
    };
    match kind_of(first) {
        Some(kind) => of_kind(alloc, kind, rest),
        None if is_done(rest) => Ok(label(first)),
        None => Ok(None),
    }
}

/// The kind of a line that begins with a word, if it has one.
fn kind_of(word: &[u8]) -> Option<Kind>
    ensures found { IfSome result (λ k. word.now ≡ kind_text k) }
    ensures each { (k : Kind) → word.now ≡ kind_text k → result ≡ Some k }
{
    match word {
        b"" => Some(Kind::Inside),
        b"hlo-il" => Some(Kind::First),
        b"object" => Some(Kind::Object),
        b"routine" => Some(Kind::Routine),
        b"end" => Some(Kind::Close),
        b"done" => Some(Kind::Done),
        _ => None,
    }
}

/// The line of a kind that goes on with words.
fn of_kind(alloc: Global, kind: Kind, words: Words<'_>) -> Result<Option<Line>, AllocError>
    ensures found { IfOk result (λ o. IfSome o (λ l. kind_text kind ∷ words_left words.entry ≡ line_words l)) }
    ensures fit { IfOk result (λ o. IfSome o IsFitLine) }
    ensures each { IfOk result (λ o. AnswersKind kind (words_left words.entry) o) }
{
    match kind {
        Kind::Inside => inside(alloc, words),
        Kind::First => Ok(first(words)),
        Kind::Object => match object(alloc, words)? {
            Some(object) => Ok(Some(Line::Object(object))),
            None => Ok(None),
        },
        Kind::Routine => match routine(alloc, words)? {
            Some(routine) => Ok(Some(Line::Routine(routine))),
            None => Ok(None),
        },
        Kind::Close if is_done(words) => Ok(Some(Line::Close)),
        Kind::Done if is_done(words) => Ok(Some(Line::Done)),
        _ => Ok(None),
    }
}

/// A line inside a block, behind its first space.
fn inside(alloc: Global, words: Words<'_>) -> Result<Option<Line>, AllocError>
    ensures found { IfOk result (λ o. IfSome o (λ l. [] ∷ words_left words.entry ≡ line_words l)) }
    ensures fit { IfOk result (λ o. IfSome o IsFitLine) }
    ensures each { IfOk result (λ o. (s : Statement) → IsFitStatement s → words_left words.entry ≡ [] ∷ statement_parts s → o ≡ Some (Line.Inside s)) }
{
    let Some(words) = after(words, b"") else {
        return Ok(None);
    };
    match read_statement(alloc, words)? {
        Some(statement) => Ok(Some(Line::Inside(statement))),
        None => Ok(None),
    }
}

/// The first line, behind its first word.
fn first(words: Words<'_>) -> Option<Line>
    ensures found { IfSome result (λ l. codes "hlo-il" ∷ words_left words.entry ≡ line_words l) }
    ensures fit { IfSome result IsFitLine }
    ensures each { words_left words.entry ≡ codes "1" ∷ [] → result ≡ Some Line.First }
{
    let words = after(words, b"1")?;
    if is_done(words) {
        Some(Line::First)
    } else {
        None
    }
}

/// The label that a word is, if it is one.
fn label(word: &[u8]) -> Option<Line>
    ensures found { IfSome result (λ l. word.now ∷ [] ≡ line_words l) }
    ensures fit { IfSome result IsFitLine }
    ensures each { (n : ℕ) → n < 2 ^ 32 → word.now ≡ block n ++ 58 ∷ [] → result ≡ Some (Line.Label n) }
{
    let (last, front) = word.split_last()?;
    if *last != b':' {
        return None;
    }
    let n = numbered(front, b'b')?;
    Some(Line::Label(n))
}
