//! Inlining as a step of a pass, over what the plan knows of a program in pools.
#![tactic(auto)]

mod inlining;
mod linking;
mod seeing;

pub use inlining::inline_noted;
pub use seeing::summarise_linked;
