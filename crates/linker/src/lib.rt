//! Linking: each name that is used is defined, and the program begins at `int main(void)`.
#![tactic(auto)]

mod fault;
mod link;

pub use fault::LinkFault;
pub use link::link_check;
