//! The scanner of the C profile.
#![tactic(auto)]

mod bytes;
mod close;
mod enter;
mod fault;
mod phase;
mod reader;
mod scanner;
mod spelling;
mod step;

pub use fault::{LexFault, LexKind};
pub use scanner::scan;
