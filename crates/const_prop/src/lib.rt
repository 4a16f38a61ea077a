//! Constants: what is known of a routine's registers, and constants in place of known results.
#![tactic(auto)]

mod carried;
mod constants;
mod copy;
mod facts;
mod flow;
mod marks;
mod sites;

pub use constants::{propagate, propagate_owned};
pub use copy::copy_routine;
pub use facts::pass;
pub use flow::Flow;
pub use sites::{KnownArgs, site_constants};
