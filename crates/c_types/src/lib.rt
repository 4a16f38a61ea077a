//! The rules of types and linkage: a module's tree is typed by them, with each name bound and each
//! conversion a node. The typed trees and what they mean stand in `c_typed`.
#![tactic(auto)]

mod binding;
mod checker;
mod conditions;
mod constant;
mod conversion;
mod definition;
mod fault;
mod file_scope;
mod lengths;
mod linkage;
mod locals;
mod module;
mod nodes;
mod scopes;
mod specifiers;
mod specifying;
mod statements;
mod typing;
mod uses;

pub use c_typed::{
    Array, BinaryOp, Label, Local, LogicalOp, Parameter, Place, Section, TypedExpr, TypedFunction,
    TypedModule, TypedStmt, Variable,
};
pub use fault::{TypeFault, TypeKind};
pub use module::check;
