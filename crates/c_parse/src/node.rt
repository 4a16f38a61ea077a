//! Nodes of expressions with their heights.
ghost use Rattle.std.specs.Prelude.{◌≡◌, ◌≤◌, true, Some, IfOk};
ghost use Rattle.c_parse.specs.Trees as trees;
ghost use Rattle.c_parse.specs.ExpressionReaders as readers;

use c_tree::{BinaryOp, Expr, Identifier, Specifiers, Step, UnaryOp};
use sqlite_items::{Boxed, Items};
use std::alloc::{AllocError, Global};

/// An expression with its height: 1 for a leaf, and one more than that of the highest part for another node.
#[derive(Drop)]
pub struct Measured {
    pub expr: Expr,
    pub height: u32,
}

/// Expressions in a row, with the greatest height.
#[derive(Drop)]
pub struct Listed {
    pub items: Items<Expr>,
    pub height: u32,
}

/// Whether the expression may be a part of a node whose parts have at most this height.
pub fn fits(depth: u16, e: &Measured) -> bool
    ensures exact { result ≡ readers.fits depth (e.now.expr, e.now.height) }
    ensures low { result ≡ true → e.now.height ≤ depth }
{
    depth != 0 && e.height <= u32::from(depth)
}

/// Whether it is a postfix expression.
pub fn is_postfix(e: &Expr) -> bool
    ensures { result ≡ readers.is_postfix (e.now, 0) }
{
    match e {
        Expr::Name(_)
        | Expr::Index { .. }
        | Expr::Call { .. }
        | Expr::Constant { .. }
        | Expr::Paren { .. }
        | Expr::Postfix { .. } => true,
        _ => false,
    }
}

/// Whether it is a unary expression.
pub fn is_unary(e: &Expr) -> bool
    ensures { result ≡ readers.is_unary (e.now, 0) }
{
    match e {
        Expr::Name(_)
        | Expr::Index { .. }
        | Expr::Call { .. }
        | Expr::Constant { .. }
        | Expr::Paren { .. }
        | Expr::Postfix { .. }
        | Expr::Prefix { .. }
        | Expr::Unary { .. } => true,
        _ => false,
    }
}

/// `left op right`
pub fn binary(
    alloc: Global,
    left: Measured,
    op: BinaryOp,
    right: Measured,
) -> Result<Measured, AllocError>
    requires left { left.height ≤ 65535 }
    requires right { right.height ≤ 65535 }
    ensures { IfOk result (λ m. (m.expr, m.height) ≡ trees.binary (left.expr, left.height) ((op, 0), (right.expr, right.height))) }
{
    let height = left.height.max(right.height) + 1;
    let line = left.expr.line();
    let left = Boxed::new(alloc, left.expr)?;
    let right = Boxed::new(alloc, right.expr)?;
    let expr = Expr::Binary {
        line,
        op,
        left,
        right,
    };
    Ok(Measured { expr, height })
}

/// `left, right`
pub fn comma(alloc: Global, left: Measured, right: Measured) -> Result<Measured, AllocError>
    requires left { left.height ≤ 65535 }
    requires right { right.height ≤ 65535 }
    ensures { IfOk result (λ m. (m.expr, m.height) ≡ trees.comma (left.expr, left.height) (right.expr, right.height)) }
{
    let height = left.height.max(right.height) + 1;
    let line = left.expr.line();
    let left = Boxed::new(alloc, left.expr)?;
    let right = Boxed::new(alloc, right.expr)?;
    let expr = Expr::Comma { line, left, right };
    Ok(Measured { expr, height })
}

/// `target = value`, or `target op= value`
pub fn assign(
    alloc: Global,
    target: Measured,
    op: Option<BinaryOp>,
    value: Measured,
) -> Result<Measured, AllocError>
    requires target { target.height ≤ 65535 }
    requires value { value.height ≤ 65535 }
    ensures { IfOk result (λ m. (m.expr, m.height) ≡ trees.assign (target.expr, target.height) ((op, 0), (value.expr, value.height))) }
{
    let height = target.height.max(value.height) + 1;
    let line = target.expr.line();
    let target = Boxed::new(alloc, target.expr)?;
    let value = Boxed::new(alloc, value.expr)?;
    let expr = Expr::Assign {
        line,
        op,
        target,
        value,
    };
    Ok(Measured { expr, height })
}

/// `condition ? yes : no`
pub fn conditional(
    alloc: Global,
    condition: Measured,
    yes: Measured,
    no: Measured,
) -> Result<Measured, AllocError>
    requires condition { condition.height ≤ 65535 }
    requires yes { yes.height ≤ 65535 }
    requires no { no.height ≤ 65535 }
    ensures { IfOk result (λ m. (m.expr, m.height) ≡ trees.conditional (condition.expr, condition.height) ((yes.expr, yes.height), (no.expr, no.height))) }
{
    let height = condition.height.max(yes.height.max(no.height)) + 1;
    let line = condition.expr.line();
    let condition = Boxed::new(alloc, condition.expr)?;
    let yes = Boxed::new(alloc, yes.expr)?;
    let no = Boxed::new(alloc, no.expr)?;
    let expr = Expr::Conditional {
        line,
        condition,
        yes,
        no,
    };
    Ok(Measured { expr, height })
}

/// `operand++` or `operand--`
pub fn postfix(alloc: Global, operand: Measured, step: Step) -> Result<Measured, AllocError>
    requires { operand.height ≤ 65535 }
    ensures { IfOk result (λ m. (m.expr, m.height) ≡ trees.postfix (operand.expr, operand.height) (step, 0)) }
{
    let height = operand.height + 1;
    let line = operand.expr.line();
    let operand = Boxed::new(alloc, operand.expr)?;
    let expr = Expr::Postfix {
        line,
        step,
        operand,
    };
    Ok(Measured { expr, height })
}

/// `++operand` or `--operand`
pub fn prefix(
    alloc: Global,
    line: u32,
    step: Step,
    operand: Measured,
) -> Result<Measured, AllocError>
    requires { operand.height ≤ 65535 }
    ensures { IfOk result (λ m. (m.expr, m.height) ≡ trees.prefix ((step, line), (operand.expr, operand.height))) }
{
    let height = operand.height + 1;
    let operand = Boxed::new(alloc, operand.expr)?;
    let expr = Expr::Prefix {
        line,
        step,
        operand,
    };
    Ok(Measured { expr, height })
}

/// `op operand`
pub fn unary(
    alloc: Global,
    line: u32,
    op: UnaryOp,
    operand: Measured,
) -> Result<Measured, AllocError>
    requires { operand.height ≤ 65535 }
    ensures { IfOk result (λ m. (m.expr, m.height) ≡ trees.unary ((op, line), (operand.expr, operand.height))) }
{
    let height = operand.height + 1;
    let operand = Boxed::new(alloc, operand.expr)?;
    let expr = Expr::Unary { line, op, operand };
    Ok(Measured { expr, height })
}

/// `(specifiers) operand`; `high` is the greatest height of a value in the specifiers
pub fn cast(
    alloc: Global,
    line: u32,
    specifiers: Specifiers,
    high: u32,
    operand: Measured,
) -> Result<Measured, AllocError>
    requires high { high ≤ 65535 }
    requires operand { operand.height ≤ 65535 }
    ensures { IfOk result (λ m. (m.expr, m.height) ≡ trees.cast (line, ((specifiers, high), (operand.expr, operand.height)))) }
{
    let height = high.max(operand.height) + 1;
    let operand = Boxed::new(alloc, operand.expr)?;
    let expr = Expr::Cast {
        line,
        specifiers,
        operand,
    };
    Ok(Measured { expr, height })
}

/// `(inner)`
pub fn paren(alloc: Global, line: u32, inner: Measured) -> Result<Measured, AllocError>
    requires { inner.height ≤ 65535 }
    ensures { IfOk result (λ m. (m.expr, m.height) ≡ trees.paren (line, (inner.expr, inner.height))) }
{
    let height = inner.height + 1;
    let inner = Boxed::new(alloc, inner.expr)?;
    let expr = Expr::Paren { line, inner };
    Ok(Measured { expr, height })
}

/// `array[index]`
pub fn index(alloc: Global, array: Identifier, index: Measured) -> Result<Measured, AllocError>
    requires { index.height ≤ 65535 }
    ensures { IfOk result (λ m. (m.expr, m.height) ≡ trees.suffixed array (Some (trees.Subscript (index.expr, index.height)))) }
{
    let height = index.height + 1;
    let index = Boxed::new(alloc, index.expr)?;
    let expr = Expr::Index { array, index };
    Ok(Measured { expr, height })
}

/// `function(arguments)`
pub fn call(function: Identifier, arguments: Listed) -> Measured
    requires { arguments.height ≤ 65535 }
    ensures { (result.expr, result.height) ≡ trees.suffixed function (Some (trees.Arguments (arguments.items, arguments.height))) }
{
    let height = arguments.height + 1;
    let expr = Expr::Call {
        function,
        arguments: arguments.items,
    };
    Measured { expr, height }
}
