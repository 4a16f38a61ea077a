//! The types of expressions, and conversions (ISO C90, 6.2.1 and 6.3).
ghost use Rattle.std.specs.Prelude.{◌≡◌, IfOk};
ghost use Rattle.c_types.specs.Conversions.{arm, common, converted, is_shift, left_type, operand_type, sorted, right_type, unary_type};

use c_tree::UnaryOp;
use c_typed::{BinaryOp, LogicalOp, Place, TypedExpr};
use hlo_num::{Ty, promote, usual};
use sqlite_items::Boxed;
use std::alloc::{AllocError, Global};

/// A typed expression with its type, which a void one lacks.
#[derive(Drop)]
pub struct Typed {
    pub ty: Option<Ty>,
    pub expr: TypedExpr,
}

/// A typed expression that has a value.
#[derive(Drop)]
pub struct Valued {
    pub ty: Ty,
    pub expr: TypedExpr,
}

/// What an expression reads or writes, and the type of that.
#[derive(Drop)]
pub struct Target {
    pub ty: Ty,
    pub place: Place,
}

/// An operator as it is written: one that may skip its right operand, or one that evaluates both.
#[derive(Clone, Copy)]
pub enum Operator {
    Skipping(LogicalOp),
    Working(BinaryOp),
}

/// Which of the two an operator is.
pub(crate) fn sorted(op: c_tree::BinaryOp) -> Operator
    ensures { result ≡ sorted op }
{
    match op {
        c_tree::BinaryOp::LogicalOr => Operator::Skipping(LogicalOp::Or),
        c_tree::BinaryOp::LogicalAnd => Operator::Skipping(LogicalOp::And),
        c_tree::BinaryOp::Or => Operator::Working(BinaryOp::Or),
        c_tree::BinaryOp::Xor => Operator::Working(BinaryOp::Xor),
        c_tree::BinaryOp::And => Operator::Working(BinaryOp::And),
        c_tree::BinaryOp::Equal => Operator::Working(BinaryOp::Equal),
        c_tree::BinaryOp::NotEqual => Operator::Working(BinaryOp::NotEqual),
        c_tree::BinaryOp::Less => Operator::Working(BinaryOp::Less),
        c_tree::BinaryOp::Greater => Operator::Working(BinaryOp::Greater),
        c_tree::BinaryOp::LessEqual => Operator::Working(BinaryOp::LessEqual),
        c_tree::BinaryOp::GreaterEqual => Operator::Working(BinaryOp::GreaterEqual),
        c_tree::BinaryOp::ShiftLeft => Operator::Working(BinaryOp::ShiftLeft),
        c_tree::BinaryOp::ShiftRight => Operator::Working(BinaryOp::ShiftRight),
        c_tree::BinaryOp::Add => Operator::Working(BinaryOp::Add),
        c_tree::BinaryOp::Subtract => Operator::Working(BinaryOp::Subtract),
        c_tree::BinaryOp::Multiply => Operator::Working(BinaryOp::Multiply),
        c_tree::BinaryOp::Divide => Operator::Working(BinaryOp::Divide),
        c_tree::BinaryOp::Remainder => Operator::Working(BinaryOp::Remainder),
    }
}

fn is_shift(op: BinaryOp) -> bool
    ensures { result ≡ is_shift op }
{
    matches!(op, BinaryOp::ShiftLeft | BinaryOp::ShiftRight)
}

/// The usual type of two operands, after their promotions.
pub(crate) fn common(a: Ty, b: Ty) -> Ty
    ensures { result ≡ common a b }
{
    usual(promote(a), promote(b))
}

/// The type to which the left operand is converted, and in which the operator works.
pub(crate) fn left_type(op: BinaryOp, a: Ty, b: Ty) -> Ty
    ensures { result ≡ left_type op a b }
{
    if is_shift(op) {
        promote(a)
    } else {
        common(a, b)
    }
}

/// The type to which the right operand is converted.
pub(crate) fn right_type(op: BinaryOp, a: Ty, b: Ty) -> Ty
    ensures { result ≡ right_type op a b }
{
    if is_shift(op) {
        promote(b)
    } else {
        common(a, b)
    }
}

/// The type of `+e`, `-e`, `~e` and `!e`.
pub(crate) fn unary_type(op: UnaryOp, ty: Ty) -> Ty
    ensures { result ≡ unary_type op ty }
{
    match op {
        UnaryOp::Not => Ty::Int,
        _ => promote(ty),
    }
}

/// The type to which their operand is converted.
pub(crate) fn operand_type(op: UnaryOp, ty: Ty) -> Ty
    ensures { result ≡ operand_type op ty }
{
    match op {
        UnaryOp::Not => ty,
        _ => promote(ty),
    }
}

/// A value converted to a type. A conversion to its own type makes no node.
pub(crate) fn converted(alloc: Global, to: Ty, value: Valued) -> Result<TypedExpr, AllocError>
    ensures { IfOk result (λ e. e ≡ converted to value) }
{
    if value.ty == to {
        return Ok(value.expr);
    }
    Ok(TypedExpr::Convert {
        ty: to,
        operand: Boxed::new(alloc, value.expr)?,
    })
}

/// An arm of `?:`, converted to the type of both where they have one.
pub(crate) fn arm(alloc: Global, to: Option<Ty>, value: Typed) -> Result<TypedExpr, AllocError>
    ensures { IfOk result (λ e. e ≡ arm to value.ty value.expr) }
{
    match (to, value.ty) {
        (Some(to), Some(ty)) => converted(
            alloc,
            to,
            Valued {
                ty,
                expr: value.expr,
            },
        ),
        _ => Ok(value.expr),
    }
}
