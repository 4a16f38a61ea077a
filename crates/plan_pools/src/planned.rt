//! What the plan makes.
use il_core::Shapes;

/// A program that the plan made, whose routines lie in the pools.
#[derive(Drop)]
pub struct Planned {
    /// Its shapes.
    pub shapes: Shapes,
    /// The sum of its routines' squared sizes, where 64 bits can tell it.
    pub cost: u64,
}
