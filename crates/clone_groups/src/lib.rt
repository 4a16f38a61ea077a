//! Clones of routines for calls of which some arguments are known, and the calls that go to them.
#![tactic(auto)]

mod cloning;
mod gathering;
mod grouping;
mod groups;
mod keys;
mod places;
mod ranking;
mod retargeting;
mod table;

pub use cloning::{make_clone, make_clone_owned};
pub use grouping::group;
pub use groups::Group;
pub use retargeting::{retarget, retarget_owned};
pub use table::CloneTable;
