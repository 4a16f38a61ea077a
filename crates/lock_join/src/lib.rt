//! Workers under a named lock: a lock and its passes go into the threads of a join, in generic code.
#![tactic(auto)]

mod counting;
mod job;
#[cfg(test)]
mod tests;
mod workers;

pub use counting::{Counted, count, count_in_order};
pub use job::Job;
pub use workers::{work, work_after_another, work_in_halves};
