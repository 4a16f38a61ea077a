//! A loader that one worker has alone: pools come in, are read and given back, get new values, and others go to make room.
#![tactic(auto)]

mod gives;
mod places;
mod reloads;
mod removes;
mod room;
mod stops;
mod takes;
mod writes;

pub use gives::give_back;
pub use places::place;
pub use removes::remove_pool;
pub use room::make_room;
pub use takes::{take, take_to_write};
pub use writes::put_back;
