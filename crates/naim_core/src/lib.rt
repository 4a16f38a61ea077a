//! The paging core: which pools there are, where each lies, who holds it, and which events may happen.
//!
//! A pool is a routine's body in one of several forms. [`CoreState`] keeps the numbers of every pool
//! and no body; each event of [`Event`] is taken by [`CoreState::step`], or refused and then changes
//! nothing. Under every list of events the bytes that nobody holds stay within the limit.
#![tactic(auto)]

mod checks;
mod event;
mod history;
mod pool;
mod ring;
mod scratch;
mod state;
mod table;

pub use event::{Event, Failure, Form, Mode, Refusal};
pub use history::replay;
pub use pool::{Pool, PoolForm, PoolView, Stage};
pub use state::{CoreState, Hand};
