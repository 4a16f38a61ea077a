//! The compact form of a routine.
#![tactic(auto)]

mod body;
mod cursor;
mod fault;
mod lengths;
mod opcode;
mod ranges;
mod reading;
mod row;
mod writing;

pub use body::RoutineBody;
