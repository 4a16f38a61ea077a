//! The parser of the C profile.
#![tactic(auto)]

mod declaration;
mod expression;
mod fault;
mod lookahead;
mod node;
mod parser;
mod precedence;
mod refusal;
mod statement;

pub use fault::{ParseFault, ParseKind};
pub use parser::parse;
