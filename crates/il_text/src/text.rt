//! Reading the lines of a text.
ghost use Rattle.std.specs.Prelude.{◌≡◌, [], ◌∷◌, ◌++◌, IfOk, IfErr, true, false};
ghost use Rattle.il_text.specs.Faults.{IsLineFault, IsNextLine, IsNoNextLine, IsWhole};
ghost use Rattle.il_text.specs.FitPartials.{IsFitPartial};
ghost use Rattle.il_text.specs.Partials.{partial_lines};
ghost use Rattle.il_text.specs.Lines.{IsFitLine};
ghost use Rattle.il_text.specs.Texts.{line_bytes, lines_text};
ghost use Rattle.il_text.specs.declared.line.Line.{Line};
ghost use Rattle.il_text.specs.declared.partial.Partial.{Partial};

use crate::fault::{IlFault, IlKind};
use crate::line::read_line;
use crate::partial::{Partial, Place, step};
use hlo_num::Seq;
use std::alloc::Global;
use text_lines::next_line;

/// What the lines of a text tell, up to its last line, or the first line that no text goes on with. It takes
/// time and memory in proportion to the bytes.
pub(crate) fn read_lines(alloc: Global, b: &[u8]) -> Result<Partial, IlFault>
    ensures fit { IfOk result (λ f. IsFitPartial f) }
    ensures done { IfOk result (λ f. f.place ≡ Place.Done) }
    ensures text { IfOk result (λ f. b.now ≡ lines_text (partial_lines f)) }
    ensures fault { IfErr result (λ e. IsLineFault b.now e) }
    ensures each { (f : Partial) → IsWhole b.now f → IfOk result (λ g. g ≡ f) }
    ensures memory { (f : Partial) → IsWhole b.now f → IfErr result (λ e. e ≡ IlFault.Memory) }
{
    let mut partial = Partial {
        objects: Seq::new(alloc),
        routines: Seq::new(alloc),
        place: Place::Start,
    };
    let mut rest = b;
    let mut number: u32 = 1;
    while let Some((bytes, behind)) = next_line(rest) {
        partial = read_on(alloc, partial, bytes, number)?;
        rest = behind;
        number = number.saturating_add(1);
    }
    if rest.is_empty() && is_done(&partial) {
        Ok(partial)
    } else {
        Err(IlFault::At {
            line: number,
            kind: IlKind::Line,
        })
    }
}

/// Whether the last line was read.
fn is_done(partial: &Partial) -> bool
    ensures yes { result ≡ true → partial.now.place ≡ Place.Done }
    ensures no { result ≡ false → partial.now.place ≡ Place.Done → ⊥ }
{
    matches!(partial.place, Place::Done)
}

/// What is read with the bytes of one more line, which has a number.
fn read_on(alloc: Global, partial: Partial, bytes: &[u8], number: u32) -> Result<Partial, IlFault>
    requires { IsFitPartial partial }
    ensures next { IfOk result (λ g. IsNextLine partial bytes.now g) }
    ensures fault { IfErr result (λ e. IsNoNextLine partial bytes.now number e) }
    ensures each { (l : Line) → IsFitLine l → bytes.now ≡ line_bytes l → IfOk result (λ g. partial_lines g ≡ partial_lines partial ++ l ∷ []) }
{
    let fault = IlFault::At {
        line: number,
        kind: IlKind::Line,
    };
    let Ok(line) = read_line(alloc, bytes) else {
        return Err(IlFault::Memory);
    };
    let Some(line) = line else {
        return Err(fault);
    };
    match step(alloc, partial, line) {
        Ok(Some(next)) => Ok(next),
        Ok(None) => Err(fault),
        Err(_) => Err(IlFault::Memory),
    }
}
