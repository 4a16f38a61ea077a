//! Reading a text byte by byte.
ghost use Rattle.std.specs.Prelude.{◌≡◌, ◌+◌, ◌<◌, ◌≤◌, ◌^◌, length, List, IfOk, IfErr, MatchResult};
ghost use Rattle.c_tree.specs.declared.token.Token.{Token};
ghost use Rattle.c_lex.specs.Text.{past, IsText, IsFaultOf};
ghost use Rattle.c_lex.specs.Spans.{AreSpans};
ghost use Rattle.c_lex.specs.Machine.{close, Gets};
ghost use Rattle.c_lex.specs.Reading.{IsOpen, Ends, Advances, Finishes};

use crate::close::{after, close, emit, may_end};
use crate::fault::{LexFault, LexKind};
use crate::phase::{Context, Place};
use crate::reader::{Reader, behind, fault, open};
use crate::step::step;
use c_tree::Token;
use std::alloc::Global;

/// The tokens of a module's bytes, by the lexical grammar (ISO C90, 6.1): all of them, or a fault
/// at the first byte, or the end, with which no text of the grammar goes on. It takes time in
/// proportion to the bytes, and memory for the tokens and their names alone.
pub fn scan(alloc: Global, b: &[u8]) -> Result<Vec<Token>, LexFault>
    requires { length b.now ≤ 2 ^ 24 }
    ensures tokens { IfOk result (λ v. IsText v.items b.now) }
    // a text of the grammar is answered with its tokens, unless memory ends
    ensures only { (ts : List Token) → IsText ts b.now → MatchResult result (λ v. v.items ≡ ts) (λ e. e ≡ LexFault.Memory) }
    // each token stands at its own bytes, in order
    ensures spans { IfOk result (λ v. AreSpans b.now 0 v.items) }
    ensures fault { IfErr result (λ e. IsFaultOf b.now e) }
{
    let mut out = Vec::new(alloc);
    if b.is_empty() {
        return Ok(out);
    }
    let mut r = open(Context::Fresh, Place { at: 0, line: 1 }, b[0])?;
    while (r.here.at as usize) < b.len() {
        r = advance(alloc, &mut out, r, b)?;
    }
    finish(alloc, &mut out, r, b)?;
    Ok(out)
}

/// Reads one byte.
fn advance(alloc: Global, out: &mut Vec<Token>, r: Reader, b: &[u8]) -> Result<Reader, LexFault>
    requires opened { IsOpen b.now r }
    requires more { r.here.at < length b.now }
    requires short { length b.now ≤ 2 ^ 24 }
    ensures { Advances b.now r out.old.items out.new.items result }
{
    let c = b[r.here.at as usize];
    let read = &b[r.start.at as usize..r.here.at as usize];
    match step(r.context, r.phase, read, c) {
        Ok(Some(phase)) => Ok(Reader {
            context: r.context,
            start: r.start,
            here: behind(r.here, c),
            phase,
        }),
        Ok(None) => {
            let context = end_piece(alloc, out, r, read)?;
            open(context, r.here, c)
        }
        Err(kind) => Err(fault(kind, r)),
    }
}

/// Ends the open piece, and gives the context behind it.
fn end_piece(
    alloc: Global,
    out: &mut Vec<Token>,
    r: Reader,
    read: &[u8],
) -> Result<Context, LexFault>
    requires place { r.here ≡ past r.start read.now }
    requires leads { Gets r.context read.now r.phase }
    ensures { Ends (close r.context r.phase read.now) r.context r.start read.now out.old.items out.new.items result }
{
    match close(r.context, r.phase, read) {
        Ok(x) => match emit(alloc, out, x, r.context, r.start, r.here, read) {
            Ok(()) => Ok(after(x, r.context, r.start, r.here)),
            Err(_) => Err(LexFault::Memory),
        },
        Err(kind) => Err(fault(kind, r)),
    }
}

/// Ends the text.
fn finish(alloc: Global, out: &mut Vec<Token>, r: Reader, b: &[u8]) -> Result<(), LexFault>
    requires opened { IsOpen b.now r }
    requires all { r.here.at ≡ length b.now }
    ensures { Finishes b.now r out.old.items out.new.items result }
{
    let read = &b[r.start.at as usize..r.here.at as usize];
    let context = end_piece(alloc, out, r, read)?;
    if may_end(context) {
        Ok(())
    } else {
        Err(LexFault::At {
            line: r.here.line,
            kind: LexKind::Directive,
        })
    }
}
