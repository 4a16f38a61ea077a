//! The call graph of a program: what the plan knows of each routine, and which routines are reached by calls.
#![tactic(auto)]

mod calls;
mod graph;
mod reach;
mod reads;
mod summary;

pub use graph::CallGraph;
pub use summary::{Site, Summary, summarise};
