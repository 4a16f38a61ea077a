//! Looking up what a PID stands for.
ghost use Rattle.std.specs.Prelude.{◌≡◌};
ghost use Rattle.std.specs.Option.{option_copied};
ghost use Rattle.il_core.specs.Program.{found, shape_at};

use il_core::{Shape, ShapeRow, Shapes};

/// The row of a PID, if there is one. It takes no memory, and time in the logarithm of the rows.
pub fn row_of(shapes: &Shapes, pid: u32) -> Option<&ShapeRow>
    ensures { option_copied result ≡ found (λ row. row.pid) pid shapes.now }
{
    let rows = shapes.rows.as_slice();
    let (mut low, mut high) = (0, rows.len());
    while low < high {
        let middle = low + (high - low) / 2;
        let row = &rows[middle];
        if row.pid == pid {
            return Some(row);
        }
        if row.pid < pid {
            low = middle + 1;
        } else {
            high = middle;
        }
    }
    None
}

/// What a PID stands for, if it stands for something.
pub(crate) fn shape_of(shapes: &Shapes, pid: u32) -> Option<Shape>
    ensures { result ≡ shape_at shapes.now pid }
{
    match row_of(shapes, pid) {
        Some(row) => Some(row.shape),
        None => None,
    }
}
