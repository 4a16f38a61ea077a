//! Bodies of routines that lie in memory, whole or packed, or on a disk, and come back through pins.
#![tactic(auto)]

mod counters;
mod forms;
mod home;
mod loader;
mod noted;
mod table;
mod trail;

pub use counters::Counters;
pub use forms::{Draft, Evict, Move, Pin, PinAnswer, Put, ReadPin, WritePin};
pub use loader::Loader;
pub use trail::Trail;
