//! Lowering: the code of typed trees as a definition, and the laws that it means what the trees mean and is
//! as large as its numbers say.
#![tactic(auto)]

mod laws;
mod programs;
mod validity;

pub use laws::{
    lowered_calls_mean_the_same, lowered_runs_mean_the_same, lowered_sizes_are_numbers,
};
pub use programs::{lowered_is_program, lowered_means_the_same};
pub use validity::lowered_is_valid;
