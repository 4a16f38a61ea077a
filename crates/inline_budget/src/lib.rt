//! Which calls are inlined, and in which waves.
#![tactic(auto)]

mod attempt;
mod buckets;
mod choice;
mod choosing;
mod filling;
mod levels;
mod numbers;
mod ranking;
mod wave;

pub use choice::Choice;
pub use choosing::choose;
pub use wave::waves;
