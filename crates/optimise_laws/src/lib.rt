//! Lowering and the plan put together: what the optimiser prints means what the C modules mean. The public
//! functions have no bodies, and their contracts are the laws.
#![tactic(auto)]

mod laws;

pub use laws::{optimised_means_the_same, optimised_stays_in_budget};
