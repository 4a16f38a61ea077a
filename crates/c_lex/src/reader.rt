//! An open piece of text.
ghost use Rattle.std.specs.Prelude.{◌≡◌, ◌+◌, ◌<◌, ◌^◌, ◌∷◌, [], List, ℕ};
ghost use Rattle.c_lex.specs.Text.{past, told_line};
ghost use Rattle.c_lex.specs.Machine.{enter};
ghost use Rattle.c_lex.specs.Reading.{opened};

use crate::enter::enter;
use crate::fault::{LexFault, LexKind};
use crate::phase::{Context, Phase, Place};

/// An open piece: what stands before it on its line, where it begins, the place up to which it is
/// read, and what is known of it.
#[derive(Clone, Copy)]
pub struct Reader {
    pub context: Context,
    pub start: Place,
    pub here: Place,
    pub phase: Phase,
}

/// The place behind a byte.
pub fn behind(p: Place, c: u8) -> Place
    requires at { p.at + 1 < 2 ^ 32 }
    requires line { p.line + 1 < 2 ^ 32 }
    ensures { result ≡ past p (c ∷ []) }
{
    let line = if c == b'\n' { p.line + 1 } else { p.line };
    Place { at: p.at + 1, line }
}

/// The piece that a byte begins.
pub fn open(context: Context, start: Place, c: u8) -> Result<Reader, LexFault>
    requires at { start.at + 1 < 2 ^ 32 }
    requires line { start.line + 1 < 2 ^ 32 }
    ensures { result ≡ opened (enter context c) context start c }
{
    match enter(context, c) {
        Ok(phase) => Ok(Reader {
            context,
            start,
            here: behind(start, c),
            phase,
        }),
        Err(kind) => Err(LexFault::At {
            line: start.line,
            kind,
        }),
    }
}

/// A fault of this kind in an open piece.
pub fn fault(kind: LexKind, r: Reader) -> LexFault
    ensures { (us : List ℕ) → r.here ≡ past r.start us → result ≡ LexFault.At (told_line kind r.start us) kind }
{
    match kind {
        LexKind::OpenComment => LexFault::At {
            line: r.start.line,
            kind,
        },
        _ => LexFault::At {
            line: r.here.line,
            kind,
        },
    }
}
