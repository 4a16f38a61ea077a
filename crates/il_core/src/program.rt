//! Objects and programs.
use crate::routine::Routine;
use crate::shape::Shapes;
use hlo_num::{Seq, Word};
use std::marker::Model;

/// An object at file scope: its words, and what the first of them hold at the start. The rest are 0.
#[derive(Drop)]
pub struct Object {
    pub pid: u32,
    /// How many words it has, at least one.
    pub words: u32,
    /// The words at the start up to the last one that isn't 0.
    pub init: Seq<Word>,
}

impl Model for Object {
    ghost use Rattle.il_core.specs.Object.{ObjectParts, IsTrimmed};

    ghost Value = { ObjectParts };

    ghost view = { λ o. record { pid = o.pid; words = o.words; init = o.init } };

    ghost invariant = { λ o. IsTrimmed o.words o.init };
}

/// A whole program: the shapes of its names, its objects and its routines, each list by rising PID.
#[derive(Drop)]
pub struct IlProgram {
    pub shapes: Shapes,
    pub objects: Seq<Object>,
    pub routines: Seq<Routine>,
}
