//! New clones of accepted groups, added to a program's routines in pools.
#![tactic(auto)]

mod adding;
mod progress;

pub use adding::add_clones;
pub use progress::Progress;
