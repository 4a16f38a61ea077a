//! Words, types and operators of the C profile, and the two plain containers that contracts see as
//! lists: [`Seq`] and [`Name`].
#![tactic(auto)]

mod conversions;
mod name;
mod operators;
mod seq;
mod word;

pub use conversions::{convert, promote, usual};
pub use name::Name;
pub use operators::binary;
pub use seq::Seq;
pub use word::{Op, Trap, Ty, Word};
