//! Modules, declarations and definitions (ISO C90, 6.5 and 6.7).

use crate::expression::{Expr, Identifier, Specifiers};
use crate::statement::Block;
use crate::token::Header;
use sqlite_items::Items;

/// A module: its items in their order.
#[derive(Drop)]
pub struct Module {
    pub items: Items<Item>,
}

/// A part of a module at file scope.
#[derive(Drop)]
pub enum Item {
    /// `#include <..>`
    Include { line: u32, header: Header },
    /// `specifiers declarators;`
    Declaration(Declaration),
    /// `specifiers f(parameters) { .. }`
    Function(Function),
}

/// A declaration; it may declare an enumeration alone. Its line is that of the specifiers.
#[derive(Drop)]
pub struct Declaration {
    pub specifiers: Specifiers,
    pub declarators: Items<Declarator>,
}

/// The definition of a function. Its line is that of the specifiers.
#[derive(Drop)]
pub struct Function {
    pub specifiers: Specifiers,
    pub name: Identifier,
    pub parameters: Items<Parameter>,
    pub body: Block,
}

/// A declared name, with its line.
#[derive(Drop)]
pub struct Declarator {
    pub name: Identifier,
    pub shape: Shape,
    pub initialiser: Option<Initialiser>,
}

/// What a declarator declares.
#[derive(Drop)]
pub enum Shape {
    /// `x`
    Plain,
    /// `a[]` or `a[e]`
    Array(Option<Expr>),
    /// `f(parameters)`
    Function(Items<Parameter>),
}

/// A parameter. Its line is that of the specifiers.
#[derive(Drop)]
pub struct Parameter {
    pub specifiers: Specifiers,
    pub name: Option<Identifier>,
}

/// What a declared object begins with.
#[derive(Drop)]
pub enum Initialiser {
    /// `= e`
    Value(Expr),
    /// `= { e, .. }`, with the line of the brace
    List { line: u32, elements: Items<Expr> },
}
