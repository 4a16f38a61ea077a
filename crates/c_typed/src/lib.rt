//! Typed trees: modules in which each name is bound, each expression has its type and each conversion is
//! a node. `specs/` has what they mean: the meaning of C, and the meaning of linked modules.
#![tactic(auto)]

mod expression;
mod function;
mod statement;

pub use expression::{Array, BinaryOp, LogicalOp, Place, TypedExpr, Variable};
pub use function::{Local, Parameter, TypedFunction, TypedModule};
pub use statement::{Label, Section, TypedStmt};
