//! The program's names: what each stands for, its PID, and what is known of its definition.
#![tactic(auto)]

mod entity;
mod fault;
mod listing;
mod symbol;
mod table;

pub use entity::{Entity, compatible};
pub use fault::SymFault;
pub use symbol::{Standing, Symbol};
pub use table::ProgramSyms;
