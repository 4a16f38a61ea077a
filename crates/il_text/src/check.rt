//! Whether what was read is a valid program.
ghost use Rattle.std.specs.Prelude.{◌≡◌, ◌+◌, ◌*◌, ◌^◌, ◌<◌, ◌≤◌, IfNone, IfSome, length};
ghost use Rattle.std.specs.List.{list_any, AllByRecursion};
ghost use Rattle.il_core.specs.Valid.{IsValid};
ghost use Rattle.il_text.specs.Checked.{IsFirstFlawed, is_main, is_main_shape, line_count};

use il_check::{Flaw, validate};
use il_core::{Routine, Shape, ShapeRow, Shapes};

/// The line of a routine that isn't valid, and its flaw.
#[derive(Clone, Copy)]
pub(crate) struct Flawed {
    pub(crate) line: u64,
    pub(crate) flaw: Flaw,
}

/// How many lines a routine has.
pub(crate) fn line_count(routine: &Routine) -> u64
    ensures lines { result ≡ line_count routine.now }
    ensures bound { result ≤ 2 ^ 18 }
{
    let blocks = routine.blocks.len() as u64;
    blocks + u64::from(routine.size()) + 2
}

/// The first routine that isn't valid, with the line at which it begins, where the first routine begins at a
/// line.
pub(crate) fn first_flaw(routines: &[Routine], shapes: &Shapes, line: u64) -> Option<Flawed>
    requires { line + 2 ^ 18 * length routines.now < 2 ^ 63 }
    ensures valid { IfNone result (AllByRecursion (IsValid shapes.now) routines.now) }
    ensures first { IfSome result (λ x. IsFirstFlawed shapes.now routines.now line x.line x.flaw) }
{
    let mut at = line;
    for routine in routines {
        if let Some(flaw) = validate(routine, shapes) {
            return Some(Flawed { line: at, flaw });
        }
        at += line_count(routine);
    }
    None
}

/// Whether there is a routine `main` without parameters that gives a value.
pub(crate) fn has_main(shapes: &Shapes) -> bool
    ensures { result ≡ list_any is_main shapes.now }
{
    any_main(shapes.rows.as_slice())
}

fn any_main(rows: &[ShapeRow]) -> bool
    ensures { result ≡ list_any is_main rows.now }
{
    rows.iter().any(|row| is_main(row))
}

fn is_main(row: &ShapeRow) -> bool
    ensures { result ≡ is_main row.now }
{
    row.name.bytes() == b"main".as_slice() && is_main_shape(row.shape)
}

fn is_main_shape(shape: Shape) -> bool
    ensures { result ≡ is_main_shape shape }
{
    match shape {
        Shape::Routine { params, value } => params == 0 && value,
        Shape::Object { .. } => false,
    }
}
