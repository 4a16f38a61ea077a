//! The values of constant expressions (ISO C90, 6.4).
ghost use Rattle.std.specs.Prelude.{◌≡◌};
ghost use Rattle.hlo_num.specs.Operators.{operate};
ghost use Rattle.c_types.specs.Constants as specs;
ghost use Rattle.c_typed.specs.Operators as operators;

use crate::conversion::left_type;
use c_tree::UnaryOp;
use c_typed::{BinaryOp, LogicalOp};
use hlo_num::{Op, Ty, Word, binary, convert};

/// A word, or the line of the expression that traps in its place.
#[derive(Clone, Copy)]
pub enum Evaluated {
    Word(u32),
    Traps(u32),
}

/// The type and the value of a constant expression; a void one has no type.
#[derive(Clone, Copy)]
pub struct Constant {
    pub ty: Option<Ty>,
    pub value: Evaluated,
}

/// A constant expression that has a value.
#[derive(Clone, Copy)]
pub struct ConstantValue {
    pub ty: Ty,
    pub value: Evaluated,
}

/// What an operator on words gives, in the expression that begins at a line.
fn operated(line: u32, op: Op, a: u32, b: u32) -> Evaluated
    ensures { result ≡ specs.operated line (operate op a b) }
{
    match binary(op, Word(a), Word(b)) {
        Ok(w) => Evaluated::Word(w.0),
        Err(_) => Evaluated::Traps(line),
    }
}

pub(crate) fn is_signed(ty: Ty) -> bool
    ensures { result ≡ operators.is_signed ty }
{
    matches!(ty, Ty::Char | Ty::Short | Ty::Int | Ty::Long)
}

/// The first of two operators in a signed type, the second in an unsigned one.
fn by_sign(ty: Ty, signed: Op, unsigned: Op) -> Op
    ensures { result ≡ operators.by_sign ty signed unsigned }
{
    if is_signed(ty) { signed } else { unsigned }
}

/// What an operator in a type gives on the words of its operands.
fn binary_word(line: u32, op: BinaryOp, ty: Ty, a: u32, b: u32) -> Evaluated
    ensures { result ≡ specs.operated line (operators.binary op ty a b) }
{
    match op {
        BinaryOp::Or => operated(line, Op::Or, a, b),
        BinaryOp::Xor => operated(line, Op::Xor, a, b),
        BinaryOp::And => operated(line, Op::And, a, b),
        BinaryOp::Equal => operated(line, Op::Eq, a, b),
        BinaryOp::NotEqual => operated(line, Op::Ne, a, b),
        BinaryOp::Less => operated(line, by_sign(ty, Op::LtS, Op::LtU), a, b),
        BinaryOp::Greater => operated(line, by_sign(ty, Op::LtS, Op::LtU), b, a),
        BinaryOp::LessEqual => operated(line, by_sign(ty, Op::LeS, Op::LeU), a, b),
        BinaryOp::GreaterEqual => operated(line, by_sign(ty, Op::LeS, Op::LeU), b, a),
        BinaryOp::ShiftLeft => operated(line, Op::Shl, a, b),
        BinaryOp::ShiftRight => operated(line, by_sign(ty, Op::ShrS, Op::ShrU), a, b),
        BinaryOp::Add => operated(line, by_sign(ty, Op::AddS, Op::AddU), a, b),
        BinaryOp::Subtract => operated(line, by_sign(ty, Op::SubS, Op::SubU), a, b),
        BinaryOp::Multiply => operated(line, by_sign(ty, Op::MulS, Op::MulU), a, b),
        BinaryOp::Divide => operated(line, by_sign(ty, Op::DivS, Op::DivU), a, b),
        BinaryOp::Remainder => operated(line, by_sign(ty, Op::RemS, Op::RemU), a, b),
    }
}

/// An operator on constants.
pub(crate) fn binary_value(line: u32, op: BinaryOp, a: ConstantValue, b: ConstantValue) -> Evaluated
    ensures { result ≡ specs.binary_value line op a.ty a.value b.ty b.value }
{
    match a.value {
        Evaluated::Word(x) => match b.value {
            Evaluated::Word(y) => binary_word(line, op, left_type(op, a.ty, b.ty), x, y),
            Evaluated::Traps(at) => Evaluated::Traps(at),
        },
        Evaluated::Traps(at) => Evaluated::Traps(at),
    }
}

/// 1 for each word but 0.
fn truth_of(a: Evaluated) -> Evaluated
    ensures { result ≡ specs.truth_of a }
{
    match a {
        Evaluated::Word(x) => Evaluated::Word((x != 0) as u32),
        Evaluated::Traps(at) => Evaluated::Traps(at),
    }
}

/// `&&` and `||`: the right operand counts only where the left one doesn't decide.
pub(crate) fn logical_value(op: LogicalOp, a: Evaluated, b: Evaluated) -> Evaluated
    ensures { result ≡ specs.logical_value op a b }
{
    match a {
        Evaluated::Word(x) => match op {
            LogicalOp::And => {
                if x == 0 {
                    Evaluated::Word(0)
                } else {
                    truth_of(b)
                }
            }
            LogicalOp::Or => {
                if x == 0 {
                    truth_of(b)
                } else {
                    Evaluated::Word(1)
                }
            }
        },
        Evaluated::Traps(at) => Evaluated::Traps(at),
    }
}

/// `?:`: only the arm that the condition chooses counts.
pub(crate) fn chosen_value(c: Evaluated, a: Evaluated, b: Evaluated) -> Evaluated
    ensures { result ≡ specs.chosen_value c a b }
{
    match c {
        Evaluated::Word(x) => { if x == 0 { b } else { a } }
        Evaluated::Traps(at) => Evaluated::Traps(at),
    }
}

/// A constant converted to a type.
pub(crate) fn cast_value(to: Ty, a: Evaluated) -> Evaluated
    ensures { result ≡ specs.cast_value to a }
{
    match a {
        Evaluated::Word(x) => Evaluated::Word(convert(to, Word(x)).0),
        Evaluated::Traps(at) => Evaluated::Traps(at),
    }
}

/// `+e`, `-e`, `~e` and `!e` in a type.
pub(crate) fn unary_value(line: u32, op: UnaryOp, ty: Ty, a: Evaluated) -> Evaluated
    ensures { result ≡ specs.unary_value line op ty a }
{
    match a {
        Evaluated::Word(x) => match op {
            UnaryOp::Plus => Evaluated::Word(x),
            UnaryOp::Minus => binary_word(line, BinaryOp::Subtract, ty, 0, x),
            UnaryOp::Complement => binary_word(line, BinaryOp::Xor, ty, x, u32::MAX),
            UnaryOp::Not => binary_word(line, BinaryOp::Equal, ty, x, 0),
        },
        Evaluated::Traps(at) => Evaluated::Traps(at),
    }
}
