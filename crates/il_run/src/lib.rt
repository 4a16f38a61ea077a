//! The interpreter of IL: it runs a valid program on an input, with a bound on its turns.
#![tactic(auto)]

mod counter;
mod counts;
mod ending;
mod input;
mod layout;
mod machine;
mod numbering;
mod output;
mod rounds;
mod start;
mod store;
mod tables;

pub use counts::Counts;
pub use ending::{Ending, RunFault};
pub use rounds::run;
pub use start::main_of;
