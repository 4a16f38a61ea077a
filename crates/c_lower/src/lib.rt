//! Lowering: the routine of a typed function. What the routine of a function is, and that a call of it does what the
//! function does, stands in `lower_laws`; here is the code that makes it.
#![tactic(auto)]

mod arrays;
mod expressions;
mod fault;
mod limits;
mod lowering;
mod operations;
mod setting;
mod statements;
mod switches;
mod writer;

pub use fault::LowerFault;
pub use lowering::lower;
