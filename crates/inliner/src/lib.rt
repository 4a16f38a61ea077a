//! Callees in place of calls.
#![tactic(auto)]

mod copies;
mod fault;
mod limits;
mod moves;
mod place;
mod splicing;

pub use fault::SpliceFault;
pub use splicing::{splice, splice_owned};
