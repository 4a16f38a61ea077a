//! Statements (ISO C90, 6.6).

use crate::declaration::Declaration;
use crate::expression::Expr;
use sqlite_items::{Boxed, Items};

/// A block: declarations, and then statements. The line is that of its brace.
#[cycle(statement)]
#[derive(Drop)]
pub struct Block {
    pub line: u32,
    pub declarations: Items<Declaration>,
    pub statements: Items<Stmt>,
}

/// A statement. The line is that of its first token.
#[cycle(statement)]
#[derive(Drop)]
pub enum Stmt {
    /// `{ .. }`
    Block(Block),
    /// `;`
    Empty {
        line: u32,
    },
    /// `e;`, whose line is that of `e`
    Expression(Expr),
    /// `if (c) s`
    If {
        line: u32,
        condition: Expr,
        then: Boxed<Stmt>,
    },
    /// `if (c) s else t`
    IfElse {
        line: u32,
        condition: Expr,
        then: Boxed<Stmt>,
        otherwise: Boxed<Stmt>,
    },
    /// `switch (e) s`
    Switch {
        line: u32,
        value: Expr,
        body: Boxed<Stmt>,
    },
    /// `while (c) s`
    While {
        line: u32,
        condition: Expr,
        body: Boxed<Stmt>,
    },
    /// `do s while (c);`
    Do {
        line: u32,
        body: Boxed<Stmt>,
        condition: Expr,
    },
    /// `for (first; condition; step) s`, each of the three free to be absent
    For {
        line: u32,
        first: Option<Expr>,
        condition: Option<Expr>,
        step: Option<Expr>,
        body: Boxed<Stmt>,
    },
    /// `case e: s`
    Case {
        line: u32,
        value: Expr,
        body: Boxed<Stmt>,
    },
    /// `default: s`
    Default {
        line: u32,
        body: Boxed<Stmt>,
    },
    /// `break;`
    Break {
        line: u32,
    },
    /// `continue;`
    Continue {
        line: u32,
    },
    /// `return;` or `return e;`
    Return {
        line: u32,
        value: Option<Expr>,
    },
}
