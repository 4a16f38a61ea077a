//! Profiles: how often each routine of a program is entered, and how often each of its call sites is passed; their
//! text both ways.
#![tactic(auto)]

mod counts;
mod fault;
mod line;
mod reading;
mod scaling;
mod tally;
mod writing;

pub use counts::Profile;
pub use fault::ProfFault;
pub use reading::read;
pub use scaling::scale;
pub use writing::write;
