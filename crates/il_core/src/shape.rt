//! What a program's names stand for.
use hlo_num::{Name, Seq};
use std::marker::Model;

/// What a PID stands for.
#[derive(Clone, Copy)]
pub enum Shape {
    /// A routine with so many parameters, that gives a value or none.
    Routine { params: u32, value: bool },
    /// An object of so many words.
    Object { words: u32 },
}

/// A PID with its name and its shape.
#[derive(Drop)]
pub struct ShapeRow {
    pub pid: u32,
    pub name: Name,
    pub shape: Shape,
}

/// The shapes of a program, by rising PID. Contracts see the list of the rows.
#[derive(Drop)]
pub struct Shapes {
    pub rows: Seq<ShapeRow>,
}

impl Model for Shapes {
    ghost use Rattle.std.specs.Prelude.{List};
    ghost use Rattle.il_core.specs.declared.shape.ShapeRow.{ShapeRow};
    ghost use Rattle.il_core.specs.Shapes.{IsRising};

    ghost Value = { List ShapeRow };

    ghost view = { λ s. s.rows };

    ghost invariant = { λ s. IsRising (λ row. row.pid) s.rows };
}
