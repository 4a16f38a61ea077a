//! Declarations (ISO C90, 6.5). `top` is the greatest height of a statement or an expression.
ghost use Rattle.std.specs.Prelude.{◌≡◌};
ghost use Rattle.c_parse.specs.ModuleParts as parts;
ghost use Rattle.c_parse.specs.Ranks.{rank_of};
ghost use Rattle.c_parse.specs.Gives.{Gives};

use crate::expression::{expression, specifiers};
use crate::lookahead;
use crate::precedence::Rank;
use crate::refusal::Refusal;
use c_tree::{
    Declaration, Declarator, Expr, Initialiser, Parameter, Punct, Shape, Specifiers, Token,
};
use sqlite_items::Items;
use std::alloc::Global;

/// An expression at the top of a tree of its own.
#[tactic(auto, unfolding(crate::specs::ModuleParts::top_expression))]
fn top_expression(
    alloc: Global,
    rank: Rank,
    top: u16,
    t: &[Token],
) -> Result<(Expr, &[Token]), Refusal>
    ensures { Gives (λ x. (x.0, x.1.now)) result (parts.top_expression top (rank_of rank) t.now) }
{
    let (e, rest) = expression(alloc, rank, top, t)?;
    Ok((e.expr, rest))
}

/// The specifiers of a declaration or a parameter.
#[tactic(auto, unfolding(crate::specs::ModuleParts::typed))]
pub fn typed(alloc: Global, top: u16, t: &[Token]) -> Result<(Specifiers, &[Token]), Refusal>
    ensures { Gives (λ x. (x.0, x.1.now)) result (parts.typed top t.now) }
{
    let (specifiers, _, rest) = specifiers(alloc, top, t)?;
    Ok((specifiers, rest))
}

#[tactic(auto, unfolding(crate::specs::ModuleParts::parameter))]
fn parameter(alloc: Global, top: u16, t: &[Token]) -> Result<(Parameter, &[Token]), Refusal>
    ensures { Gives (λ x. (x.0, x.1.now)) result (parts.parameter top t.now) }
{
    let (specifiers, rest) = typed(alloc, top, t)?;
    if !lookahead::at_name(rest) {
        return Ok((
            Parameter {
                specifiers,
                name: None,
            },
            rest,
        ));
    }
    let (name, rest) = lookahead::identifier(alloc, rest)?;
    Ok((
        Parameter {
            specifiers,
            name: Some(name),
        },
        rest,
    ))
}

#[tactic(auto, unfolding(crate::specs::ModuleParts::parameter_list))]
fn parameter_list(
    alloc: Global,
    top: u16,
    t: &[Token],
) -> Result<(Items<Parameter>, &[Token]), Refusal>
    ensures { Gives (λ x. (x.0, x.1.now)) result (parts.parameter_list top t.now) }
{
    let (first, mut rest) = parameter(alloc, top, t)?;
    let mut items = Items::new(alloc);
    items.push(first)?;
    'row: while let Some((_, next)) = lookahead::after(Punct::Comma, rest) {
        let (item, next) = parameter(alloc, top, next)?;
        items.push(item)?;
        rest = next;
    }
    Ok((items, rest))
}

/// The parameters of a function, or none.
#[tactic(auto, unfolding(crate::specs::ModuleParts::parameters))]
fn parameters(alloc: Global, top: u16, t: &[Token]) -> Result<(Items<Parameter>, &[Token]), Refusal>
    ensures { Gives (λ x. (x.0, x.1.now)) result (parts.parameters top t.now) }
{
    if !lookahead::starts_specifiers(t) {
        return Ok((Items::new(alloc), t));
    }
    parameter_list(alloc, top, t)
}

/// What a declarator declares: what stands behind its name.
#[tactic(auto, unfolding(crate::specs::ModuleParts::shape))]
fn shape(alloc: Global, top: u16, t: &[Token]) -> Result<(Shape, &[Token]), Refusal>
    ensures { Gives (λ x. (x.0, x.1.now)) result (parts.shape top t.now) }
{
    if let Some((_, rest)) = lookahead::after(Punct::OpenBracket, t) {
        if !lookahead::starts_expression(rest) {
            let (_, rest) = lookahead::want(Punct::CloseBracket, rest)?;
            return Ok((Shape::Array(None), rest));
        }
        let (length, rest) = top_expression(alloc, Rank::Conditional, top, rest)?;
        let (_, rest) = lookahead::want(Punct::CloseBracket, rest)?;
        return Ok((Shape::Array(Some(length)), rest));
    }
    if let Some((_, rest)) = lookahead::after(Punct::OpenParen, t) {
        let (parameters, rest) = parameters(alloc, top, rest)?;
        let (_, rest) = lookahead::want(Punct::CloseParen, rest)?;
        return Ok((Shape::Function(parameters), rest));
    }
    Ok((Shape::Plain, t))
}

/// The elements of an initialiser in braces; a comma may stand behind the last one.
#[tactic(auto, unfolding(crate::specs::ModuleParts::elements))]
fn elements(alloc: Global, top: u16, t: &[Token]) -> Result<(Items<Expr>, &[Token]), Refusal>
    ensures { Gives (λ x. (x.0, x.1.now)) result (parts.elements top t.now) }
{
    let (first, mut rest) = top_expression(alloc, Rank::Assignment, top, t)?;
    let mut items = Items::new(alloc);
    items.push(first)?;
    'row: while let Some((_, next)) = lookahead::after(Punct::Comma, rest) {
        if !lookahead::starts_expression(next) {
            return Ok((items, next));
        }
        let (item, next) = top_expression(alloc, Rank::Assignment, top, next)?;
        items.push(item)?;
        rest = next;
    }
    Ok((items, rest))
}

#[tactic(auto, unfolding(crate::specs::ModuleParts::initialiser))]
fn initialiser(alloc: Global, top: u16, t: &[Token]) -> Result<(Initialiser, &[Token]), Refusal>
    ensures { Gives (λ x. (x.0, x.1.now)) result (parts.initialiser top t.now) }
{
    if let Some((line, rest)) = lookahead::after(Punct::OpenBrace, t) {
        let (elements, rest) = elements(alloc, top, rest)?;
        let (_, rest) = lookahead::want(Punct::CloseBrace, rest)?;
        return Ok((Initialiser::List { line, elements }, rest));
    }
    let (value, rest) = top_expression(alloc, Rank::Assignment, top, t)?;
    Ok((Initialiser::Value(value), rest))
}

#[tactic(auto, unfolding(crate::specs::ModuleParts::declarator))]
pub fn declarator(alloc: Global, top: u16, t: &[Token]) -> Result<(Declarator, &[Token]), Refusal>
    ensures { Gives (λ x. (x.0, x.1.now)) result (parts.declarator top t.now) }
{
    let (name, rest) = lookahead::identifier(alloc, t)?;
    let (shape, rest) = shape(alloc, top, rest)?;
    let Some((_, rest)) = lookahead::after(Punct::Equals, rest) else {
        return Ok((
            Declarator {
                name,
                shape,
                initialiser: None,
            },
            rest,
        ));
    };
    let (initialiser, rest) = initialiser(alloc, top, rest)?;
    Ok((
        Declarator {
            name,
            shape,
            initialiser: Some(initialiser),
        },
        rest,
    ))
}

#[tactic(auto, unfolding(crate::specs::ModuleParts::declarator_list))]
fn declarator_list(
    alloc: Global,
    top: u16,
    t: &[Token],
) -> Result<(Items<Declarator>, &[Token]), Refusal>
    ensures { Gives (λ x. (x.0, x.1.now)) result (parts.declarator_list top t.now) }
{
    let (first, mut rest) = declarator(alloc, top, t)?;
    let mut items = Items::new(alloc);
    items.push(first)?;
    'row: while let Some((_, next)) = lookahead::after(Punct::Comma, rest) {
        let (item, next) = declarator(alloc, top, next)?;
        items.push(item)?;
        rest = next;
    }
    Ok((items, rest))
}

/// A declaration of a block.
#[tactic(auto, unfolding(crate::specs::ModuleParts::declaration))]
pub fn declaration(alloc: Global, top: u16, t: &[Token]) -> Result<(Declaration, &[Token]), Refusal>
    ensures { Gives (λ x. (x.0, x.1.now)) result (parts.declaration top t.now) }
{
    let (specifiers, rest) = typed(alloc, top, t)?;
    if !lookahead::at_name(rest) {
        let (_, rest) = lookahead::want(Punct::Semicolon, rest)?;
        return Ok((
            Declaration {
                specifiers,
                declarators: Items::new(alloc),
            },
            rest,
        ));
    }
    let (declarators, rest) = declarator_list(alloc, top, rest)?;
    let (_, rest) = lookahead::want(Punct::Semicolon, rest)?;
    Ok((
        Declaration {
            specifiers,
            declarators,
        },
        rest,
    ))
}
