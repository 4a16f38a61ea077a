//! Clones that are wanted.
use hlo_num::{Name, Seq, Word};

/// A clone to be made.
#[derive(Drop)]
pub struct NewClone {
    /// The routine that it is a clone of.
    pub callee: u32,
    /// The registers that begin with constants, each with its word.
    pub fixed: Seq<(u32, Word)>,
    pub pid: u32,
    pub name: Name,
}
