//! Laws of the plan that plan_driver rests on, about programs alone: what each pass may do, and what the last program is worth.
//! The public functions have no bodies, and their contracts are the laws.
#![tactic(auto)]

mod laws;

pub use laws::{passes_clone, plan_is_worth};
