//! Expressions and specifiers, from the loosest rank down (ISO C90, 6.3 and 6.5.2).
//!
//! `depth` is the height that the parts of the node at hand may have; each function that reads a whole
//! expression takes the height that the expression itself may have.
ghost use Rattle.std.specs.Prelude.{◌≡◌, ◌+◌, ◌≤◌, ℕ, true, false, List, [], ◌∷◌, max, nat_le, nat_eq, Option, Some, None, IfOk};
ghost use Rattle.c_tree.specs.Lines.{line_of};
ghost use Rattle.c_parse.specs.Trees as trees;
ghost use Rattle.c_parse.specs.Reading.{read_picked};
ghost use Rattle.c_parse.specs.Ranks.{rank_of};
ghost use Rattle.c_parse.specs.Parts as parts;
ghost use Rattle.c_parse.specs.Gives.{Gives, Fails};

use crate::lookahead;
use crate::node::{self, Listed, Measured};
use crate::precedence::{Precedence, Rank};
use crate::refusal::Refusal;
use c_tree::{Enumerator, Expr, Punct, Reserved, Specifier, Specifiers, Token, TokenKind};
use sqlite_items::{Boxed, Items};
use std::alloc::Global;

/// An expression of a rank, of the height `depth` at most.
#[cycle(expression)]
pub fn expression(
    alloc: Global,
    rank: Rank,
    depth: u16,
    t: &[Token],
) -> Result<(Measured, &[Token]), Refusal>
    ensures gives { Gives (λ x. ((x.0.expr, x.0.height), x.1.now)) result (parts.whole depth (rank_of rank) t.now) }
    ensures bounded { IfOk result (λ x. x.0.height ≤ depth) }
{
    if depth == 0 {
        if lookahead::starts_expression(t) {
            return Err(Refusal::Deep(t));
        }
        return Err(Refusal::Wrong(t));
    }
    match rank {
        Rank::Comma => comma(alloc, depth - 1, t),
        Rank::Assignment => assignment(alloc, depth - 1, t),
        Rank::Conditional => conditional(alloc, depth - 1, t),
        Rank::Binary(q) => binary(alloc, q, depth - 1, t),
        Rank::Cast => unary(alloc, true, depth - 1, t),
        Rank::Unary => unary(alloc, false, depth - 1, t),
    }
}

#[cycle(expression)]
#[tactic(auto, unfolding(crate::specs::Parts::comma))]
fn comma(alloc: Global, depth: u16, t: &[Token]) -> Result<(Measured, &[Token]), Refusal>
    ensures gives { Gives (λ x. ((x.0.expr, x.0.height), x.1.now)) result (parts.comma depth t.now) }
{
    let (mut left, mut rest) = assignment(alloc, depth, t)?;
    'row: while let Some((_, next)) = lookahead::after(Punct::Comma, rest) {
        if !node::fits(depth, &left) {
            return Err(Refusal::Deep(rest));
        }
        let (right, next) = expression(alloc, Rank::Assignment, depth, next)?;
        left = node::comma(alloc, left, right)?;
        rest = next;
    }
    Ok((left, rest))
}

#[cycle(expression)]
#[tactic(auto, unfolding(crate::specs::Parts::assignment))]
fn assignment(alloc: Global, depth: u16, t: &[Token]) -> Result<(Measured, &[Token]), Refusal>
    ensures gives { Gives (λ x. ((x.0.expr, x.0.height), x.1.now)) result (parts.assignment depth t.now) }
{
    let (left, rest) = conditional(alloc, depth, t)?;
    if !node::is_unary(&left.expr) {
        return Ok((left, rest));
    }
    let Some((op, _, next)) = lookahead::assignment_operator(rest) else {
        return Ok((left, rest));
    };
    if !node::fits(depth, &left) {
        return Err(Refusal::Deep(rest));
    }
    let (value, rest) = expression(alloc, Rank::Assignment, depth, next)?;
    Ok((node::assign(alloc, left, op, value)?, rest))
}

#[cycle(expression)]
#[tactic(auto, unfolding(crate::specs::Parts::conditional))]
fn conditional(alloc: Global, depth: u16, t: &[Token]) -> Result<(Measured, &[Token]), Refusal>
    ensures gives { Gives (λ x. ((x.0.expr, x.0.height), x.1.now)) result (parts.conditional depth t.now) }
{
    let (left, rest) = binary(alloc, Precedence::LogicalOr, depth, t)?;
    let Some((_, next)) = lookahead::after(Punct::Question, rest) else {
        return Ok((left, rest));
    };
    if !node::fits(depth, &left) {
        return Err(Refusal::Deep(rest));
    }
    let (yes, rest) = expression(alloc, Rank::Comma, depth, next)?;
    let (_, rest) = lookahead::want(Punct::Colon, rest)?;
    let (no, rest) = expression(alloc, Rank::Conditional, depth, rest)?;
    Ok((node::conditional(alloc, left, yes, no)?, rest))
}

#[cycle(expression)]
#[tactic(auto, unfolding(crate::specs::Parts::binary))]
fn binary(
    alloc: Global,
    q: Precedence,
    depth: u16,
    t: &[Token],
) -> Result<(Measured, &[Token]), Refusal>
    ensures gives { Gives (λ x. ((x.0.expr, x.0.height), x.1.now)) result (parts.binary depth q t.now) }
{
    let (mut left, mut rest) = tighter(alloc, q, depth, t)?;
    'row: while let Some((op, _, next)) = lookahead::operator(q, rest) {
        if !node::fits(depth, &left) {
            return Err(Refusal::Deep(rest));
        }
        let (right, next) = expression(alloc, q.operand(), depth, next)?;
        left = node::binary(alloc, left, op, right)?;
        rest = next;
    }
    Ok((left, rest))
}

/// The left operand of an operator, of the next level down.
#[cycle(expression)]
fn tighter(
    alloc: Global,
    q: Precedence,
    depth: u16,
    t: &[Token],
) -> Result<(Measured, &[Token]), Refusal>
    ensures gives { Gives (λ x. ((x.0.expr, x.0.height), x.1.now)) result (parts.below depth q t.now) }
{
    match q.tighter() {
        Some(r) => binary(alloc, r, depth, t),
        None => unary(alloc, true, depth, t),
    }
}

/// An expression with its steps behind it; casts may stand before it, or not.
#[cycle(expression)]
#[tactic(auto, unfolding(crate::specs::Parts::unary))]
fn unary(
    alloc: Global,
    casts: bool,
    depth: u16,
    t: &[Token],
) -> Result<(Measured, &[Token]), Refusal>
    ensures gives { Gives (λ x. ((x.0.expr, x.0.height), x.1.now)) result (parts.unary depth casts t.now) }
{
    let (mut left, mut rest) = operand(alloc, casts, depth, t)?;
    if !node::is_postfix(&left.expr) {
        return Ok((left, rest));
    }
    'row: while let Some((step, _, next)) = lookahead::step(rest) {
        if !node::fits(depth, &left) {
            return Err(Refusal::Deep(rest));
        }
        left = node::postfix(alloc, left, step)?;
        rest = next;
    }
    Ok((left, rest))
}

#[cycle(expression)]
#[tactic(auto, unfolding(crate::specs::Parts::operand, crate::specs::Parts::parenthesised, crate::specs::Parts::inside))]
fn operand(
    alloc: Global,
    casts: bool,
    depth: u16,
    t: &[Token],
) -> Result<(Measured, &[Token]), Refusal>
    ensures gives { Gives (λ x. ((x.0.expr, x.0.height), x.1.now)) result (parts.operand depth casts t.now) }
{
    if !lookahead::at(Punct::OpenParen, t) {
        return prefixed(alloc, depth, t);
    }
    let (line, rest) = lookahead::open(depth, Punct::OpenParen, t)?;
    if casts && lookahead::starts_specifiers(rest) {
        let (specifiers, high, rest) = specifiers(alloc, depth, rest)?;
        let (_, rest) = lookahead::want(Punct::CloseParen, rest)?;
        let (inner, rest) = expression(alloc, Rank::Cast, depth, rest)?;
        return Ok((node::cast(alloc, line, specifiers, high, inner)?, rest));
    }
    let (inner, rest) = expression(alloc, Rank::Comma, depth, rest)?;
    let (_, rest) = lookahead::want(Punct::CloseParen, rest)?;
    Ok((node::paren(alloc, line, inner)?, rest))
}

#[cycle(expression)]
#[tactic(auto, unfolding(crate::specs::Parts::prefixed))]
fn prefixed(alloc: Global, depth: u16, t: &[Token]) -> Result<(Measured, &[Token]), Refusal>
    ensures gives { Gives (λ x. ((x.0.expr, x.0.height), x.1.now)) result (parts.prefixed depth t.now) }
{
    if let Some((step, line, rest)) = lookahead::step(t) {
        if depth == 0 {
            return Err(Refusal::Deep(t));
        }
        let (inner, rest) = expression(alloc, Rank::Unary, depth, rest)?;
        return Ok((node::prefix(alloc, line, step, inner)?, rest));
    }
    if let Some((op, line, rest)) = lookahead::unary_operator(t) {
        if depth == 0 {
            return Err(Refusal::Deep(t));
        }
        let (inner, rest) = expression(alloc, Rank::Cast, depth, rest)?;
        return Ok((node::unary(alloc, line, op, inner)?, rest));
    }
    if lookahead::at_name(t) {
        return named(alloc, depth, t);
    }
    constant(t)
}

/// A number or a character constant.
fn constant(t: &[Token]) -> Result<(Measured, &[Token]), Refusal>
    ensures gives { Gives (λ x. ((x.0.expr, x.0.height), x.1.now)) result (read_picked trees.constant_of t.now) }
{
    match t.split_first() {
        Some(
            (
                Token {
                    kind: TokenKind::Constant { value, ty },
                    line,
                    ..
                },
                rest,
            ),
        ) => {
            let expr = Expr::Constant {
                line: *line,
                value: *value,
                ty: *ty,
            };
            Ok((Measured { expr, height: 1 }, rest))
        }
        _ => Err(Refusal::Wrong(t)),
    }
}

/// A name, an element or a call.
#[cycle(expression)]
#[tactic(auto, unfolding(crate::specs::Parts::named))]
fn named(alloc: Global, depth: u16, t: &[Token]) -> Result<(Measured, &[Token]), Refusal>
    ensures gives { Gives (λ x. ((x.0.expr, x.0.height), x.1.now)) result (parts.named depth t.now) }
{
    let (name, rest) = lookahead::identifier(alloc, t)?;
    if lookahead::at(Punct::OpenBracket, rest) {
        let (_, rest) = lookahead::open(depth, Punct::OpenBracket, rest)?;
        let (index, rest) = expression(alloc, Rank::Comma, depth, rest)?;
        let (_, rest) = lookahead::want(Punct::CloseBracket, rest)?;
        return Ok((node::index(alloc, name, index)?, rest));
    }
    if lookahead::at(Punct::OpenParen, rest) {
        let (_, rest) = lookahead::want(Punct::OpenParen, rest)?;
        let (arguments, rest) = arguments(alloc, depth, rest)?;
        let (_, rest) = lookahead::want(Punct::CloseParen, rest)?;
        return Ok((node::call(name, arguments), rest));
    }
    Ok((
        Measured {
            expr: Expr::Name(name),
            height: 1,
        },
        rest,
    ))
}

/// What stands between the parentheses of a call.
#[cycle(expression)]
#[tactic(auto, unfolding(crate::specs::Parts::arguments, crate::specs::Parts::argument_list))]
fn arguments(alloc: Global, depth: u16, t: &[Token]) -> Result<(Listed, &[Token]), Refusal>
    ensures gives { Gives (λ x. ((x.0.items, x.0.height), x.1.now)) result (parts.arguments depth t.now) }
    ensures bounded { IfOk result (λ x. x.0.height ≤ depth) }
{
    let mut items = Items::new(alloc);
    if !lookahead::starts_expression(t) {
        return Ok((Listed { items, height: 0 }, t));
    }
    let (first, mut rest) = expression(alloc, Rank::Assignment, depth, t)?;
    let mut height = first.height;
    items.push(first.expr)?;
    'row: while let Some((_, next)) = lookahead::after(Punct::Comma, rest) {
        let (next_item, next) = expression(alloc, Rank::Assignment, depth, next)?;
        height = height.max(next_item.height);
        items.push(next_item.expr)?;
        rest = next;
    }
    Ok((Listed { items, height }, rest))
}

/// Specifiers, whose values have the height `depth` at most, and the greatest height of a value.
#[cycle(expression)]
#[tactic(auto, unfolding(crate::specs::Parts::specifiers, crate::specs::Parts::specifier_list))]
pub fn specifiers(
    alloc: Global,
    depth: u16,
    t: &[Token],
) -> Result<(Specifiers, u32, &[Token]), Refusal>
    ensures gives { Gives (λ x. ((x.0, x.1), x.2.now)) result (parts.specifiers depth t.now) }
    ensures bounded { IfOk result (λ x. x.1 ≤ depth) }
{
    let (first, mut height, mut rest) = specifier(alloc, depth, t)?;
    let line = first.line();
    let mut items = Items::new(alloc);
    items.push(first)?;
    'row: while lookahead::starts_specifiers(rest) {
        let (item, high, next) = specifier(alloc, depth, rest)?;
        height = height.max(high);
        items.push(item)?;
        rest = next;
    }
    Ok((Specifiers { line, items }, height, rest))
}

#[cycle(expression)]
#[tactic(auto, unfolding(crate::specs::Parts::specifier))]
fn specifier(alloc: Global, depth: u16, t: &[Token]) -> Result<(Specifier, u32, &[Token]), Refusal>
    ensures gives { Gives (λ x. ((x.0, x.1), x.2.now)) result (parts.specifier depth t.now) }
{
    if let Some((word, line, rest)) = lookahead::specifier_word(t) {
        return Ok((Specifier::Word { line, word }, 0, rest));
    }
    let (line, rest) = lookahead::want_word(Reserved::Enum, t)?;
    if lookahead::at_name(rest) {
        let (tag, rest) = lookahead::identifier(alloc, rest)?;
        if !lookahead::at(Punct::OpenBrace, rest) {
            return Ok((Specifier::EnumTag { line, tag }, 0, rest));
        }
        let (enumerators, height, rest) = enumerators(alloc, depth, rest)?;
        return Ok((
            Specifier::Enum {
                line,
                tag: Some(tag),
                enumerators,
            },
            height,
            rest,
        ));
    }
    let (enumerators, height, rest) = enumerators(alloc, depth, rest)?;
    Ok((
        Specifier::Enum {
            line,
            tag: None,
            enumerators,
        },
        height,
        rest,
    ))
}

/// The constants of an enumeration in their braces.
#[cycle(expression)]
#[tactic(auto, unfolding(crate::specs::Parts::enumerators))]
fn enumerators(
    alloc: Global,
    depth: u16,
    t: &[Token],
) -> Result<(Items<Enumerator>, u32, &[Token]), Refusal>
    ensures gives { Gives (λ x. ((x.0, x.1), x.2.now)) result (parts.enumerators depth t.now) }
{
    let (_, rest) = lookahead::want(Punct::OpenBrace, t)?;
    let (items, height, rest) = enumerator_list(alloc, depth, rest)?;
    let (_, rest) = lookahead::want(Punct::CloseBrace, rest)?;
    Ok((items, height, rest))
}

#[cycle(expression)]
#[tactic(auto, unfolding(crate::specs::Parts::enumerator_list))]
fn enumerator_list(
    alloc: Global,
    depth: u16,
    t: &[Token],
) -> Result<(Items<Enumerator>, u32, &[Token]), Refusal>
    ensures gives { Gives (λ x. ((x.0, x.1), x.2.now)) result (parts.enumerator_list depth t.now) }
{
    let (first, mut height, mut rest) = enumerator(alloc, depth, t)?;
    let mut items = Items::new(alloc);
    items.push(first)?;
    'row: while let Some((_, next)) = lookahead::after(Punct::Comma, rest) {
        let (item, high, next) = enumerator(alloc, depth, next)?;
        height = height.max(high);
        items.push(item)?;
        rest = next;
    }
    Ok((items, height, rest))
}

#[cycle(expression)]
#[tactic(auto, unfolding(crate::specs::Parts::enumerator))]
fn enumerator(
    alloc: Global,
    depth: u16,
    t: &[Token],
) -> Result<(Enumerator, u32, &[Token]), Refusal>
    ensures gives { Gives (λ x. ((x.0, x.1), x.2.now)) result (parts.enumerator depth t.now) }
{
    let (name, rest) = lookahead::identifier(alloc, t)?;
    if !lookahead::at(Punct::Equals, rest) {
        return Ok((Enumerator { name, value: None }, 0, rest));
    }
    let (_, rest) = lookahead::open(depth, Punct::Equals, rest)?;
    let (value, rest) = expression(alloc, Rank::Conditional, depth, rest)?;
    let height = value.height;
    let value = Some(Boxed::new(alloc, value.expr)?);
    Ok((Enumerator { name, value }, height, rest))
}
