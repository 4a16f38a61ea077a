//! Cloning as a step of a pass: the accepted groups get their clones, and their calls go there.
#![tactic(auto)]

mod cloning;
mod grouping;
mod sending;

pub use cloning::clone_program;
