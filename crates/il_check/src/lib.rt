//! Whether a routine of IL is valid in its program, and what is wrong with it.
#![tactic(auto)]

mod ends;
mod flaw;
mod instrs;
mod routine;
mod rows;

pub use flaw::Flaw;
pub use routine::validate;
pub use rows::row_of;
