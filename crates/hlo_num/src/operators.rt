//! What the binary operators give on words.
ghost use Rattle.std.specs.Prelude.{◌≡◌, Ok, Err, IfOk, IfErr};
ghost use Rattle.hlo_num.specs.Operators.{operate};

use crate::word::{Op, Trap, Word};

/// -2147483648, the least signed word.
const LEAST: u32 = 0x8000_0000;

/// -1.
const MINUS_ONE: u32 = 0xffff_ffff;

/// The operator's word on two words (ISO C90, 6.3.5 to 6.3.12), in constant time. Sums, differences,
/// products and left shifts are modulo 2^32, division truncates toward zero, and comparisons give 1
/// or 0. `Divide` comes exactly where the operator is a division or a remainder and `b` is 0,
/// `Quotient` exactly where `DivS` or `RemS` meets -2147483648 and -1, `Shift` exactly where the
/// operator is a shift and `b` is above 31 as an unsigned number. `Index` never comes.
#[inline]
pub fn binary(op: Op, a: Word, b: Word) -> Result<Word, Trap>
    ensures word { IfOk result (λ w. operate op a.0 b.0 ≡ Ok w.0) }
    ensures trap { IfErr result (λ t. operate op a.0 b.0 ≡ Err t) }
{
    let (x, y) = (a.0, b.0);
    match op {
        Op::AddS | Op::AddU => Ok(Word(x.wrapping_add(y))),
        Op::SubS | Op::SubU => Ok(Word(x.wrapping_sub(y))),
        Op::MulS | Op::MulU => Ok(Word(x.wrapping_mul(y))),
        Op::DivS => divide_signed(x, y),
        Op::DivU => divide_unsigned(x, y),
        Op::RemS => remainder_signed(x, y),
        Op::RemU => remainder_unsigned(x, y),
        Op::And => Ok(Word(x & y)),
        Op::Or => Ok(Word(x | y)),
        Op::Xor => Ok(Word(x ^ y)),
        Op::Shl => shift_left(x, y),
        Op::ShrS => shift_right_signed(x, y),
        Op::ShrU => shift_right_unsigned(x, y),
        Op::Eq => Ok(Word((x == y) as u32)),
        Op::Ne => Ok(Word((x != y) as u32)),
        Op::LtS => Ok(Word((x.cast_signed() < y.cast_signed()) as u32)),
        Op::LtU => Ok(Word((x < y) as u32)),
        Op::LeS => Ok(Word((x.cast_signed() <= y.cast_signed()) as u32)),
        Op::LeU => Ok(Word((x <= y) as u32)),
    }
}

#[inline]
fn divide_signed(x: u32, y: u32) -> Result<Word, Trap>
    ensures word { IfOk result (λ w. operate Op.DivS x y ≡ Ok w.0) }
    ensures trap { IfErr result (λ t. operate Op.DivS x y ≡ Err t) }
{
    if y == 0 {
        return Err(Trap::Divide);
    }
    if x == LEAST && y == MINUS_ONE {
        return Err(Trap::Quotient);
    }
    Ok(Word((x.cast_signed() / y.cast_signed()).cast_unsigned()))
}

#[inline]
fn divide_unsigned(x: u32, y: u32) -> Result<Word, Trap>
    ensures word { IfOk result (λ w. operate Op.DivU x y ≡ Ok w.0) }
    ensures trap { IfErr result (λ t. operate Op.DivU x y ≡ Err t) }
{
    if y == 0 {
        return Err(Trap::Divide);
    }
    Ok(Word(x / y))
}

#[inline]
fn remainder_signed(x: u32, y: u32) -> Result<Word, Trap>
    ensures word { IfOk result (λ w. operate Op.RemS x y ≡ Ok w.0) }
    ensures trap { IfErr result (λ t. operate Op.RemS x y ≡ Err t) }
{
    if y == 0 {
        return Err(Trap::Divide);
    }
    if x == LEAST && y == MINUS_ONE {
        return Err(Trap::Quotient);
    }
    Ok(Word((x.cast_signed() % y.cast_signed()).cast_unsigned()))
}

#[inline]
fn remainder_unsigned(x: u32, y: u32) -> Result<Word, Trap>
    ensures word { IfOk result (λ w. operate Op.RemU x y ≡ Ok w.0) }
    ensures trap { IfErr result (λ t. operate Op.RemU x y ≡ Err t) }
{
    if y == 0 {
        return Err(Trap::Divide);
    }
    Ok(Word(x % y))
}

#[inline]
fn shift_left(x: u32, count: u32) -> Result<Word, Trap>
    ensures word { IfOk result (λ w. operate Op.Shl x count ≡ Ok w.0) }
    ensures trap { IfErr result (λ t. operate Op.Shl x count ≡ Err t) }
{
    if count > 31 {
        return Err(Trap::Shift);
    }
    Ok(Word(x << count))
}

#[inline]
fn shift_right_signed(x: u32, count: u32) -> Result<Word, Trap>
    ensures word { IfOk result (λ w. operate Op.ShrS x count ≡ Ok w.0) }
    ensures trap { IfErr result (λ t. operate Op.ShrS x count ≡ Err t) }
{
    if count > 31 {
        return Err(Trap::Shift);
    }
    Ok(Word((x.cast_signed() >> count).cast_unsigned()))
}

#[inline]
fn shift_right_unsigned(x: u32, count: u32) -> Result<Word, Trap>
    ensures word { IfOk result (λ w. operate Op.ShrU x count ≡ Ok w.0) }
    ensures trap { IfErr result (λ t. operate Op.ShrU x count ≡ Err t) }
{
    if count > 31 {
        return Err(Trap::Shift);
    }
    Ok(Word(x >> count))
}
