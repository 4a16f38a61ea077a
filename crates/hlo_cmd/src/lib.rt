//! The top calls of the program.
#![tactic(auto)]

mod check;
mod ending;
mod kinds;
mod messages;
mod opt;
mod paging;
mod pieces;
mod plain;
mod pools;
mod print;
mod profiles;
mod refusal;
mod report;
mod run;
mod run_il;
mod train;
mod training;
mod words;

pub use opt::opt_command;
pub use plain::plain_command;
pub use report::{OptAnswer, Report, Status};
