//! The laws of typed programs: modules that follow the rules of types and linkage, and link, have what lowering
//! asks for.
#![tactic(auto)]

mod laws;
mod programs;

pub use laws::{
    functions_stand_on, typed_modules_are_given, typed_modules_fit, typed_programs_are_whole,
};
pub use programs::{linking_modules_are_linked, linking_modules_run, lowered_programs_are_right};
