//! Trees as text: a node in parentheses with its parts in their order, lines left out. `depth` bounds the
//! levels of what is shown; below it stands `..`.

use c_tree::{
    Block, Declaration, Declarator, Enumerator, Expr, Identifier, Initialiser, Item, Module,
    Parameter, Shape, Specifier, Specifiers, Stmt,
};
use std::alloc::AllocError;

pub fn module(out: &mut String, depth: u8, m: &Module) -> Result<(), AllocError> {
    for i in m.items.as_slice() {
        item(out, depth, i)?;
    }
    Ok(())
}

fn item(out: &mut String, depth: u8, i: &Item) -> Result<(), AllocError> {
    match i {
        Item::Include { header, .. } => write!(out, "(include {header:?})"),
        Item::Declaration(d) => declaration(out, depth, d),
        Item::Function(f) => {
            write!(out, "(function ")?;
            specifiers(out, depth, &f.specifiers)?;
            name(out, &f.name)?;
            parameters(out, depth, f.parameters.as_slice())?;
            block(out, depth, &f.body)?;
            write!(out, ")")
        }
    }
}

fn declaration(out: &mut String, depth: u8, d: &Declaration) -> Result<(), AllocError> {
    write!(out, "(declare ")?;
    specifiers(out, depth, &d.specifiers)?;
    for x in d.declarators.as_slice() {
        declarator(out, depth, x)?;
    }
    write!(out, ")")
}

fn declarator(out: &mut String, depth: u8, d: &Declarator) -> Result<(), AllocError> {
    write!(out, " ")?;
    name(out, &d.name)?;
    match &d.shape {
        Shape::Plain => {}
        Shape::Array(length) => {
            write!(out, "[")?;
            optional(out, depth, length)?;
            write!(out, "]")?;
        }
        Shape::Function(ps) => parameters(out, depth, ps.as_slice())?,
    }
    match &d.initialiser {
        None => Ok(()),
        Some(Initialiser::Value(e)) => {
            write!(out, "=")?;
            expression(out, depth, e)
        }
        Some(Initialiser::List { elements, .. }) => {
            write!(out, "={{")?;
            expressions(out, depth, elements.as_slice())?;
            write!(out, "}}")
        }
    }
}

fn parameters(out: &mut String, depth: u8, ps: &[Parameter]) -> Result<(), AllocError> {
    write!(out, "(")?;
    for p in ps {
        specifiers(out, depth, &p.specifiers)?;
        if let Some(x) = &p.name {
            name(out, x)?;
        }
        write!(out, ";")?;
    }
    write!(out, ")")
}

#[cycle(statement)]
fn block(out: &mut String, depth: u8, b: &Block) -> Result<(), AllocError> {
    write!(out, "{{")?;
    for d in b.declarations.as_slice() {
        declaration(out, depth, d)?;
    }
    for s in b.statements.as_slice() {
        statement(out, depth, s)?;
    }
    write!(out, "}}")
}

#[cycle(statement)]
fn statement(out: &mut String, depth: u8, s: &Stmt) -> Result<(), AllocError> {
    if depth == 0 {
        return write!(out, "..");
    }
    let d = depth - 1;
    match s {
        Stmt::Block(b) => block(out, d, b),
        Stmt::Empty { .. } => write!(out, ";"),
        Stmt::Break { .. } => write!(out, "(break)"),
        Stmt::Continue { .. } => write!(out, "(continue)"),
        Stmt::Expression(e) => {
            expression(out, d, e)?;
            write!(out, ";")
        }
        Stmt::Return { value, .. } => {
            write!(out, "(return ")?;
            optional(out, d, value)?;
            write!(out, ")")
        }
        Stmt::If {
            condition,
            then,
            ..
        } => guarded(out, d, "if", condition, then.get()),
        Stmt::IfElse {
            condition,
            then,
            otherwise,
            ..
        } => {
            guarded(out, d, "if-else", condition, then.get())?;
            statement(out, d, otherwise.get())
        }
        Stmt::Switch { value, body, .. } => guarded(out, d, "switch", value, body.get()),
        Stmt::While {
            condition,
            body,
            ..
        } => guarded(out, d, "while", condition, body.get()),
        Stmt::Do {
            body,
            condition,
            ..
        } => guarded(out, d, "do", condition, body.get()),
        Stmt::Case { value, body, .. } => guarded(out, d, "case", value, body.get()),
        Stmt::Default { body, .. } => {
            write!(out, "(default)")?;
            statement(out, d, body.get())
        }
        Stmt::For {
            first,
            condition,
            step,
            body,
            ..
        } => {
            write!(out, "(for ")?;
            optional(out, d, first)?;
            write!(out, ";")?;
            optional(out, d, condition)?;
            write!(out, ";")?;
            optional(out, d, step)?;
            write!(out, ")")?;
            statement(out, d, body.get())
        }
    }
}

/// An expression and a statement that it decides on.
#[cycle(statement)]
fn guarded(out: &mut String, depth: u8, word: &str, e: &Expr, s: &Stmt) -> Result<(), AllocError> {
    write!(out, "({word} ")?;
    expression(out, depth, e)?;
    write!(out, ")")?;
    statement(out, depth, s)
}

fn optional(out: &mut String, depth: u8, e: &Option<Expr>) -> Result<(), AllocError> {
    match e {
        Some(e) => expression(out, depth, e),
        None => write!(out, "-"),
    }
}

#[cycle(expression)]
fn expressions(out: &mut String, depth: u8, es: &[Expr]) -> Result<(), AllocError> {
    for e in es {
        write!(out, " ")?;
        expression(out, depth, e)?;
    }
    Ok(())
}

#[cycle(expression)]
fn expression(out: &mut String, depth: u8, e: &Expr) -> Result<(), AllocError> {
    if depth == 0 {
        return write!(out, "..");
    }
    let d = depth - 1;
    match e {
        Expr::Name(x) => name(out, x),
        Expr::Constant { value, ty, .. } => write!(out, "{}:{ty:?}", value.0),
        Expr::Index { array, index } => {
            name(out, array)?;
            write!(out, "[")?;
            expression(out, d, index.get())?;
            write!(out, "]")
        }
        Expr::Call {
            function,
            arguments,
        } => {
            write!(out, "(call ")?;
            name(out, function)?;
            expressions(out, d, arguments.as_slice())?;
            write!(out, ")")
        }
        Expr::Cast {
            specifiers: s,
            operand,
            ..
        } => {
            write!(out, "(cast ")?;
            specifiers(out, d, s)?;
            expression(out, d, operand.get())?;
            write!(out, ")")
        }
        Expr::Paren { inner, .. } => {
            write!(out, "(paren")?;
            last(out, d, inner.get())
        }
        Expr::Postfix { step, operand, .. } => {
            write!(out, "(after {step:?}")?;
            last(out, d, operand.get())
        }
        Expr::Prefix { step, operand, .. } => {
            write!(out, "(before {step:?}")?;
            last(out, d, operand.get())
        }
        Expr::Unary { op, operand, .. } => {
            write!(out, "({op:?}")?;
            last(out, d, operand.get())
        }
        Expr::Binary {
            op,
            left,
            right,
            ..
        } => {
            write!(out, "({op:?}")?;
            two(out, d, left.get(), right.get())
        }
        Expr::Assign {
            op: None,
            target,
            value,
            ..
        } => {
            write!(out, "(=")?;
            two(out, d, target.get(), value.get())
        }
        Expr::Assign {
            op: Some(op),
            target,
            value,
            ..
        } => {
            write!(out, "({op:?}=")?;
            two(out, d, target.get(), value.get())
        }
        Expr::Comma { left, right, .. } => {
            write!(out, "(,")?;
            two(out, d, left.get(), right.get())
        }
        Expr::Conditional {
            condition,
            yes,
            no,
            ..
        } => {
            write!(out, "(? ")?;
            expression(out, d, condition.get())?;
            two(out, d, yes.get(), no.get())
        }
    }
}

/// The last part of a node.
#[cycle(expression)]
fn last(out: &mut String, depth: u8, e: &Expr) -> Result<(), AllocError> {
    write!(out, " ")?;
    expression(out, depth, e)?;
    write!(out, ")")
}

/// The last two parts of a node.
#[cycle(expression)]
fn two(out: &mut String, depth: u8, left: &Expr, right: &Expr) -> Result<(), AllocError> {
    write!(out, " ")?;
    expression(out, depth, left)?;
    last(out, depth, right)
}

#[cycle(expression)]
fn specifiers(out: &mut String, depth: u8, s: &Specifiers) -> Result<(), AllocError> {
    for x in s.items.as_slice() {
        specifier(out, depth, x)?;
    }
    Ok(())
}

#[cycle(expression)]
fn specifier(out: &mut String, depth: u8, s: &Specifier) -> Result<(), AllocError> {
    match s {
        Specifier::Word { word, .. } => write!(out, "{word:?} "),
        Specifier::EnumTag { tag, .. } => {
            write!(out, "enum ")?;
            name(out, tag)?;
            write!(out, " ")
        }
        Specifier::Enum {
            tag,
            enumerators,
            ..
        } => {
            write!(out, "enum ")?;
            if let Some(tag) = tag {
                name(out, tag)?;
            }
            write!(out, "{{")?;
            for x in enumerators.as_slice() {
                enumerator(out, depth, x)?;
            }
            write!(out, "}} ")
        }
    }
}

#[cycle(expression)]
fn enumerator(out: &mut String, depth: u8, x: &Enumerator) -> Result<(), AllocError> {
    name(out, &x.name)?;
    if let Some(value) = &x.value {
        write!(out, "=")?;
        expression(out, depth, value.get())?;
    }
    write!(out, ";")
}

fn name(out: &mut String, x: &Identifier) -> Result<(), AllocError> {
    for b in x.name.bytes() {
        out.push(char::from(*b))?;
    }
    Ok(())
}
