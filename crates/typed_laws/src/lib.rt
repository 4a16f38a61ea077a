//! The laws of typed trees: what the typing rules give is well typed.
#![tactic(auto)]

mod laws;

pub use laws::{typed_modules_are_well_typed, typed_programs_are_well_typed, well_typed_stays};
