//! Tokens and trees of the C profile.
#![tactic(auto)]

mod declaration;
mod expression;
mod statement;
mod token;

pub use declaration::{
    Declaration, Declarator, Function, Initialiser, Item, Module, Parameter, Shape,
};
pub use expression::{
    BinaryOp, Enumerator, Expr, Identifier, Specifier, SpecifierWord, Specifiers, Step, UnaryOp,
};
pub use statement::{Block, Stmt};
pub use token::{Header, Punct, Reserved, Token, TokenKind};
