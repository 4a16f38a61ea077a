//! The law of the typing rules that lowering stands on: in a module that they give, names are bound.
#![tactic(auto)]

mod laws;

pub use laws::typed_modules_are_bound;
