//! Modules and their items (ISO C90, 6.7).
ghost use Rattle.std.specs.Prelude.{◌≡◌, ◌<◌, ◌++◌, length, List, []};
ghost use Rattle.c_tree.specs.declared.token.Token.{Token};
ghost use Rattle.c_parse.specs.ModuleParts as parts;
ghost use Rattle.c_parse.specs.Gives.{Gives};
ghost use Rattle.c_parse.specs.Promise.{Answers, line_at};

use crate::declaration::{declarator, typed};
use crate::fault::{ParseFault, ParseKind};
use crate::lookahead;
use crate::refusal::Refusal;
use crate::statement::block;
use c_tree::{Declaration, Declarator, Function, Item, Module, Punct, Shape, Specifiers, Token};
use sqlite_items::Items;
use std::alloc::Global;

/// How high a statement or an expression may be.
const LIMIT: u16 = 256;

/// The module that the tokens are, by the grammar of C90 (6.3, 6.5 to 6.7) without what the profile leaves out;
/// no other module is spelled so, and none of its statements and expressions is higher than 256.
///
/// Otherwise `At` has the line of the first token, or of the end, with which no such module goes on; it is
/// `Unexpected` where no module at all goes on with it, and `Deep` where each that does is too high. `Memory`
/// comes where memory is short.
///
/// It never goes back: it takes time in proportion to the tokens and the bytes of their names, memory for the
/// tree alone, and stack for at most 256 heights, 8 to 12 KiB each in the built program.
pub fn parse(alloc: Global, tokens: &[Token]) -> Result<Module, ParseFault>
    ensures answers { Answers tokens.now result }
{
    let refusal = match module(alloc, LIMIT, tokens) {
        Ok(module) => return Ok(module),
        Err(refusal) => refusal,
    };
    match refusal {
        Refusal::Memory => Err(ParseFault::Memory),
        Refusal::Wrong(rest) => {
            let line = line_of(tokens, rest);
            let kind = ParseKind::Unexpected;
            Err(ParseFault::At { line, kind })
        }
        Refusal::Deep(rest) => {
            let line = line_of(tokens, rest);
            let kind = ParseKind::Deep;
            Err(ParseFault::At { line, kind })
        }
    }
}

/// The line of the place before `rest`, with which the tokens end.
fn line_of(tokens: &[Token], rest: &[Token]) -> u32
    ensures { (before : List Token) → tokens.now ≡ before ++ rest.now → result ≡ line_at tokens.now (length before) }
{
    if let Some((first, _)) = rest.split_first() {
        return first.line;
    }
    match tokens.split_last() {
        Some((last, _)) => last.line,
        None => 0,
    }
}

#[tactic(auto, unfolding(crate::specs::ModuleParts::whole_module))]
fn module(alloc: Global, top: u16, t: &[Token]) -> Result<Module, Refusal>
    requires { 0 < top }
    ensures { Gives (λ m. (m, [])) result (parts.whole_module top t.now) }
{
    let (items, rest) = items(alloc, top, t)?;
    if !rest.is_empty() {
        return Err(Refusal::Wrong(rest));
    }
    Ok(Module { items })
}

#[tactic(auto, unfolding(crate::specs::ModuleParts::items))]
fn items(alloc: Global, top: u16, t: &[Token]) -> Result<(Items<Item>, &[Token]), Refusal>
    requires { 0 < top }
    ensures { Gives (λ x. (x.0, x.1.now)) result (parts.items top t.now) }
{
    let mut items = Items::new(alloc);
    let mut rest = t;
    'row: while lookahead::starts_item(rest) {
        let (item, next) = item(alloc, top, rest)?;
        items.push(item)?;
        rest = next;
    }
    Ok((items, rest))
}

#[tactic(auto, unfolding(crate::specs::ModuleParts::item))]
fn item(alloc: Global, top: u16, t: &[Token]) -> Result<(Item, &[Token]), Refusal>
    requires { 0 < top }
    ensures { Gives (λ x. (x.0, x.1.now)) result (parts.item top t.now) }
{
    if let Some((header, line, rest)) = lookahead::include(t) {
        return Ok((Item::Include { line, header }, rest));
    }
    let (specifiers, rest) = typed(alloc, top, t)?;
    if let Some((_, rest)) = lookahead::after(Punct::Semicolon, rest) {
        let declarators = Items::new(alloc);
        return Ok((
            Item::Declaration(Declaration {
                specifiers,
                declarators,
            }),
            rest,
        ));
    }
    declared(alloc, top, specifiers, rest)
}

/// What stands behind the specifiers of an item: a function with its body, or declarators.
#[tactic(auto, unfolding(crate::specs::ModuleParts::declared))]
fn declared(
    alloc: Global,
    top: u16,
    specifiers: Specifiers,
    t: &[Token],
) -> Result<(Item, &[Token]), Refusal>
    requires { 0 < top }
    ensures { Gives (λ x. (x.0, x.1.now)) result (parts.declared top specifiers t.now) }
{
    let (first, rest) = declarator(alloc, top, t)?;
    let Declarator {
        name,
        shape,
        initialiser,
    } = first;
    if let Shape::Function(parameters) = shape {
        if initialiser.is_none() && lookahead::at(Punct::OpenBrace, rest) {
            let (body, rest) = block(alloc, top, top - 1, rest)?;
            return Ok((
                Item::Function(Function {
                    specifiers,
                    name,
                    parameters,
                    body,
                }),
                rest,
            ));
        }
        let first = Declarator {
            name,
            shape: Shape::Function(parameters),
            initialiser,
        };
        return declares(alloc, top, specifiers, first, rest);
    }
    let first = Declarator {
        name,
        shape,
        initialiser,
    };
    declares(alloc, top, specifiers, first, rest)
}

/// The declaration that begins with these specifiers and this declarator.
#[tactic(auto, unfolding(crate::specs::ModuleParts::declares))]
fn declares(
    alloc: Global,
    top: u16,
    specifiers: Specifiers,
    first: Declarator,
    t: &[Token],
) -> Result<(Item, &[Token]), Refusal>
    ensures { Gives (λ x. (x.0, x.1.now)) result (parts.declares top specifiers first t.now) }
{
    let (declarators, rest) = others(alloc, top, first, t)?;
    let (_, rest) = lookahead::want(Punct::Semicolon, rest)?;
    Ok((
        Item::Declaration(Declaration {
            specifiers,
            declarators,
        }),
        rest,
    ))
}

/// The declarators of a declaration from the first one on.
#[tactic(auto, unfolding(crate::specs::ModuleParts::others))]
fn others(
    alloc: Global,
    top: u16,
    first: Declarator,
    t: &[Token],
) -> Result<(Items<Declarator>, &[Token]), Refusal>
    ensures { Gives (λ x. (x.0, x.1.now)) result (parts.others top first t.now) }
{
    let mut items = Items::new(alloc);
    items.push(first)?;
    let mut rest = t;
    'row: while let Some((_, next)) = lookahead::after(Punct::Comma, rest) {
        let (item, next) = declarator(alloc, top, next)?;
        items.push(item)?;
        rest = next;
    }
    Ok((items, rest))
}
