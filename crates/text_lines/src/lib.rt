//! Texts line by line: the lines that line feeds end, their words between single spaces, and the decimal
//! numbers and program names that words spell.
#![tactic(auto)]

mod lines;
mod names;
mod numbers;
mod words;

pub use lines::next_line;
pub use names::{is_name, next_name};
pub use numbers::{number, numbered, signed};
pub use words::{Words, after, is_done, next, words_of};
