//! The clones that a plan has made, and their names.
#![tactic(auto)]

mod made;

pub use made::MadeClones;
