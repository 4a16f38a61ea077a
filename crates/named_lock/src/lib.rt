//! A lock with a name and notes, for any rule.
//!
//! A [`Rule`] is a fact about a name, a state and a list of notes. The lock keeps the state, and each
//! thread has a [`Pass`] with a note. Whoever takes the turn knows that the rule holds for the name,
//! the state and the notes of all live passes. Whoever gives it back shows that the rule holds again
//! with the new state and the new note, whatever the notes of the others are.
#![tactic(auto)]

mod lock;
mod making;
mod parts;
mod rule;
mod steps;
mod turnstile;
mod view;
mod waiting;

pub use lock::{Lock, Pass, Turn};
pub use rule::Rule;
pub use view::Known;
