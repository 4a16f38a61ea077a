//! The text of IL, both ways: its head and its routines are written, and a whole text is read.
#![tactic(auto)]

mod check;
mod fault;
mod head;
mod header;
mod instr;
mod line;
mod lists;
mod mnemonic;
mod operands;
mod order;
mod partial;
mod program;
mod read;
mod routine;
mod statement;
mod text;

pub use fault::{IlFault, IlKind};
pub use head::write_head;
pub use read::read_il;
pub use routine::write_routine;
