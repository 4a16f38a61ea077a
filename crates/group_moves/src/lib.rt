//! The moves of accepted groups, by caller.
#![tactic(auto)]

mod gathering;

pub use gathering::caller_moves;
