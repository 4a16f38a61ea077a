//! Statements (ISO C90, 6.6). `top` is the greatest height of a statement or an expression; `depth` is the
//! height that the parts of the statement at hand may have.
ghost use Rattle.std.specs.Prelude.{◌≡◌};
ghost use Rattle.c_parse.specs.ModuleParts as parts;
ghost use Rattle.c_parse.specs.Ranks.{rank_of};
ghost use Rattle.c_parse.specs.Gives.{Gives};

use crate::declaration::declaration;
use crate::expression::expression;
use crate::lookahead;
use crate::precedence::Rank;
use crate::refusal::Refusal;
use c_tree::{Block, Declaration, Expr, Punct, Reserved, Stmt, Token};
use sqlite_items::{Boxed, Items};
use std::alloc::Global;

/// An expression that is a part of a statement.
#[tactic(auto, unfolding(crate::specs::ModuleParts::part))]
fn part(alloc: Global, rank: Rank, depth: u16, t: &[Token]) -> Result<(Expr, &[Token]), Refusal>
    ensures { Gives (λ x. (x.0, x.1.now)) result (parts.part depth (rank_of rank) t.now) }
{
    let (e, rest) = expression(alloc, rank, depth, t)?;
    Ok((e.expr, rest))
}

/// `(e)`
#[tactic(auto, unfolding(crate::specs::ModuleParts::condition))]
fn condition(alloc: Global, depth: u16, t: &[Token]) -> Result<(Expr, &[Token]), Refusal>
    ensures { Gives (λ x. (x.0, x.1.now)) result (parts.condition depth t.now) }
{
    let (_, rest) = lookahead::want(Punct::OpenParen, t)?;
    let (e, rest) = part(alloc, Rank::Comma, depth, rest)?;
    let (_, rest) = lookahead::want(Punct::CloseParen, rest)?;
    Ok((e, rest))
}

#[tactic(auto, unfolding(crate::specs::ModuleParts::optional_part))]
fn optional_part(
    alloc: Global,
    depth: u16,
    t: &[Token],
) -> Result<(Option<Expr>, &[Token]), Refusal>
    ensures { Gives (λ x. (x.0, x.1.now)) result (parts.optional_part depth t.now) }
{
    if !lookahead::starts_expression(t) {
        return Ok((None, t));
    }
    let (e, rest) = part(alloc, Rank::Comma, depth, t)?;
    Ok((Some(e), rest))
}

/// `e;`, where `e` may be absent
#[tactic(auto, unfolding(crate::specs::ModuleParts::clause))]
fn clause(alloc: Global, depth: u16, t: &[Token]) -> Result<(Option<Expr>, &[Token]), Refusal>
    ensures { Gives (λ x. (x.0, x.1.now)) result (parts.clause depth t.now) }
{
    let (e, rest) = optional_part(alloc, depth, t)?;
    let (_, rest) = lookahead::want(Punct::Semicolon, rest)?;
    Ok((e, rest))
}

/// The three parts in the head of a `for`, each free to be absent.
#[derive(Drop)]
struct LoopHead {
    first: Option<Expr>,
    condition: Option<Expr>,
    step: Option<Expr>,
}

#[tactic(auto, unfolding(crate::specs::ModuleParts::clauses))]
fn clauses(alloc: Global, depth: u16, t: &[Token]) -> Result<(LoopHead, &[Token]), Refusal>
    ensures { Gives (λ x. ((x.0.first, (x.0.condition, x.0.step)), x.1.now)) result (parts.clauses depth t.now) }
{
    let (first, rest) = clause(alloc, depth, t)?;
    let (condition, rest) = clause(alloc, depth, rest)?;
    let (step, rest) = optional_part(alloc, depth, rest)?;
    Ok((
        LoopHead {
            first,
            condition,
            step,
        },
        rest,
    ))
}

/// The head of a `for` with its parentheses.
#[tactic(auto, unfolding(crate::specs::ModuleParts::head))]
fn head(alloc: Global, depth: u16, t: &[Token]) -> Result<(LoopHead, &[Token]), Refusal>
    ensures { Gives (λ x. ((x.0.first, (x.0.condition, x.0.step)), x.1.now)) result (parts.head depth t.now) }
{
    let (_, rest) = lookahead::want(Punct::OpenParen, t)?;
    let (clauses, rest) = clauses(alloc, depth, rest)?;
    let (_, rest) = lookahead::want(Punct::CloseParen, rest)?;
    Ok((clauses, rest))
}

/// The declarations at the beginning of a block.
#[tactic(auto, unfolding(crate::specs::ModuleParts::declarations))]
fn declarations(
    alloc: Global,
    top: u16,
    t: &[Token],
) -> Result<(Items<Declaration>, &[Token]), Refusal>
    ensures { Gives (λ x. (x.0, x.1.now)) result (parts.declarations top t.now) }
{
    let mut items = Items::new(alloc);
    let mut rest = t;
    'row: while lookahead::starts_specifiers(rest) {
        let (item, next) = declaration(alloc, top, rest)?;
        items.push(item)?;
        rest = next;
    }
    Ok((items, rest))
}

/// A jump, or an expression with its semicolon.
#[tactic(auto, unfolding(crate::specs::ModuleParts::simple))]
fn simple(alloc: Global, depth: u16, t: &[Token]) -> Result<(Stmt, &[Token]), Refusal>
    ensures { Gives (λ x. (x.0, x.1.now)) result (parts.simple depth t.now) }
{
    if let Some((line, rest)) = lookahead::after_word(Reserved::Break, t) {
        let (_, rest) = lookahead::want(Punct::Semicolon, rest)?;
        return Ok((Stmt::Break { line }, rest));
    }
    if let Some((line, rest)) = lookahead::after_word(Reserved::Continue, t) {
        let (_, rest) = lookahead::want(Punct::Semicolon, rest)?;
        return Ok((Stmt::Continue { line }, rest));
    }
    if let Some((line, rest)) = lookahead::after_word(Reserved::Return, t) {
        let (value, rest) = optional_part(alloc, depth, rest)?;
        let (_, rest) = lookahead::want(Punct::Semicolon, rest)?;
        return Ok((Stmt::Return { line, value }, rest));
    }
    let (e, rest) = part(alloc, Rank::Comma, depth, t)?;
    let (_, rest) = lookahead::want(Punct::Semicolon, rest)?;
    Ok((Stmt::Expression(e), rest))
}

/// A statement of the height `depth` at most.
#[cycle(statement)]
fn statement(alloc: Global, top: u16, depth: u16, t: &[Token]) -> Result<(Stmt, &[Token]), Refusal>
    ensures { Gives (λ x. (x.0, x.1.now)) result (parts.statement top depth t.now) }
{
    if depth == 0 {
        if lookahead::starts_statement(t) {
            return Err(Refusal::Deep(t));
        }
        return Err(Refusal::Wrong(t));
    }
    compound(alloc, top, depth - 1, t)
}

#[cycle(statement)]
#[tactic(auto, unfolding(crate::specs::ModuleParts::statements))]
fn statements(
    alloc: Global,
    top: u16,
    depth: u16,
    t: &[Token],
) -> Result<(Items<Stmt>, &[Token]), Refusal>
    ensures { Gives (λ x. (x.0, x.1.now)) result (parts.statements top depth t.now) }
{
    let mut items = Items::new(alloc);
    let mut rest = t;
    'row: while lookahead::starts_statement(rest) {
        let (item, next) = statement(alloc, top, depth, rest)?;
        items.push(item)?;
        rest = next;
    }
    Ok((items, rest))
}

/// A block, whose statements have the height `depth` at most.
#[cycle(statement)]
#[tactic(auto, unfolding(crate::specs::ModuleParts::block))]
pub fn block(alloc: Global, top: u16, depth: u16, t: &[Token]) -> Result<(Block, &[Token]), Refusal>
    ensures { Gives (λ x. (x.0, x.1.now)) result (parts.block top depth t.now) }
{
    let (line, rest) = lookahead::want(Punct::OpenBrace, t)?;
    let (declarations, rest) = declarations(alloc, top, rest)?;
    let (statements, rest) = statements(alloc, top, depth, rest)?;
    let (_, rest) = lookahead::want(Punct::CloseBrace, rest)?;
    Ok((
        Block {
            line,
            declarations,
            statements,
        },
        rest,
    ))
}

/// `(e) s`
#[cycle(statement)]
#[tactic(auto, unfolding(crate::specs::ModuleParts::guarded))]
fn guarded(
    alloc: Global,
    top: u16,
    depth: u16,
    t: &[Token],
) -> Result<(Expr, Boxed<Stmt>, &[Token]), Refusal>
    ensures { Gives (λ x. ((x.0, x.1), x.2.now)) result (parts.guarded top depth t.now) }
{
    let (condition, rest) = condition(alloc, depth, t)?;
    let (body, rest) = statement(alloc, top, depth, rest)?;
    let body = Boxed::new(alloc, body)?;
    Ok((condition, body, rest))
}

/// `if (c) s`, with its `else` if there is one.
#[cycle(statement)]
#[tactic(auto, unfolding(crate::specs::ModuleParts::selection))]
fn selection(alloc: Global, top: u16, depth: u16, t: &[Token]) -> Result<(Stmt, &[Token]), Refusal>
    ensures { Gives (λ x. (x.0, x.1.now)) result (parts.selection top depth t.now) }
{
    let (line, rest) = lookahead::open_word(depth, Reserved::If, t)?;
    let (condition, then, rest) = guarded(alloc, top, depth, rest)?;
    let Some((_, rest)) = lookahead::after_word(Reserved::Else, rest) else {
        return Ok((
            Stmt::If {
                line,
                condition,
                then,
            },
            rest,
        ));
    };
    let (otherwise, rest) = statement(alloc, top, depth, rest)?;
    let otherwise = Boxed::new(alloc, otherwise)?;
    Ok((
        Stmt::IfElse {
            line,
            condition,
            then,
            otherwise,
        },
        rest,
    ))
}

#[cycle(statement)]
#[tactic(auto, unfolding(crate::specs::ModuleParts::switch))]
fn switch(alloc: Global, top: u16, depth: u16, t: &[Token]) -> Result<(Stmt, &[Token]), Refusal>
    ensures { Gives (λ x. (x.0, x.1.now)) result (parts.switch top depth t.now) }
{
    let (line, rest) = lookahead::open_word(depth, Reserved::Switch, t)?;
    let (value, body, rest) = guarded(alloc, top, depth, rest)?;
    Ok((Stmt::Switch { line, value, body }, rest))
}

#[cycle(statement)]
#[tactic(auto, unfolding(crate::specs::ModuleParts::while_loop))]
fn while_loop(alloc: Global, top: u16, depth: u16, t: &[Token]) -> Result<(Stmt, &[Token]), Refusal>
    ensures { Gives (λ x. (x.0, x.1.now)) result (parts.while_loop top depth t.now) }
{
    let (line, rest) = lookahead::open_word(depth, Reserved::While, t)?;
    let (condition, body, rest) = guarded(alloc, top, depth, rest)?;
    Ok((
        Stmt::While {
            line,
            condition,
            body,
        },
        rest,
    ))
}

#[cycle(statement)]
#[tactic(auto, unfolding(crate::specs::ModuleParts::do_while))]
fn do_while(alloc: Global, top: u16, depth: u16, t: &[Token]) -> Result<(Stmt, &[Token]), Refusal>
    ensures { Gives (λ x. (x.0, x.1.now)) result (parts.do_while top depth t.now) }
{
    let (line, rest) = lookahead::open_word(depth, Reserved::Do, t)?;
    let (body, rest) = statement(alloc, top, depth, rest)?;
    let body = Boxed::new(alloc, body)?;
    let (_, rest) = lookahead::want_word(Reserved::While, rest)?;
    let (condition, rest) = condition(alloc, depth, rest)?;
    let (_, rest) = lookahead::want(Punct::Semicolon, rest)?;
    Ok((
        Stmt::Do {
            line,
            body,
            condition,
        },
        rest,
    ))
}

#[cycle(statement)]
#[tactic(auto, unfolding(crate::specs::ModuleParts::for_loop))]
fn for_loop(alloc: Global, top: u16, depth: u16, t: &[Token]) -> Result<(Stmt, &[Token]), Refusal>
    ensures { Gives (λ x. (x.0, x.1.now)) result (parts.for_loop top depth t.now) }
{
    let (line, rest) = lookahead::open_word(depth, Reserved::For, t)?;
    let (head, rest) = head(alloc, depth, rest)?;
    let (body, rest) = statement(alloc, top, depth, rest)?;
    let body = Boxed::new(alloc, body)?;
    Ok((
        Stmt::For {
            line,
            first: head.first,
            condition: head.condition,
            step: head.step,
            body,
        },
        rest,
    ))
}

/// `case e: s`
#[cycle(statement)]
#[tactic(auto, unfolding(crate::specs::ModuleParts::case))]
fn case(alloc: Global, top: u16, depth: u16, t: &[Token]) -> Result<(Stmt, &[Token]), Refusal>
    ensures { Gives (λ x. (x.0, x.1.now)) result (parts.case top depth t.now) }
{
    let (line, rest) = lookahead::open_word(depth, Reserved::Case, t)?;
    let (value, rest) = part(alloc, Rank::Conditional, depth, rest)?;
    let (_, rest) = lookahead::want(Punct::Colon, rest)?;
    let (body, rest) = statement(alloc, top, depth, rest)?;
    let body = Boxed::new(alloc, body)?;
    Ok((Stmt::Case { line, value, body }, rest))
}

/// `default: s`
#[cycle(statement)]
#[tactic(auto, unfolding(crate::specs::ModuleParts::default))]
fn default(alloc: Global, top: u16, depth: u16, t: &[Token]) -> Result<(Stmt, &[Token]), Refusal>
    ensures { Gives (λ x. (x.0, x.1.now)) result (parts.default top depth t.now) }
{
    let (line, rest) = lookahead::open_word(depth, Reserved::Default, t)?;
    let (_, rest) = lookahead::want(Punct::Colon, rest)?;
    let (body, rest) = statement(alloc, top, depth, rest)?;
    let body = Boxed::new(alloc, body)?;
    Ok((Stmt::Default { line, body }, rest))
}

/// A statement by its first token.
#[cycle(statement)]
#[tactic(auto, unfolding(crate::specs::ModuleParts::compound))]
fn compound(alloc: Global, top: u16, depth: u16, t: &[Token]) -> Result<(Stmt, &[Token]), Refusal>
    ensures { Gives (λ x. (x.0, x.1.now)) result (parts.compound top depth t.now) }
{
    if lookahead::at(Punct::OpenBrace, t) {
        let (block, rest) = block(alloc, top, depth, t)?;
        return Ok((Stmt::Block(block), rest));
    }
    if let Some((line, rest)) = lookahead::after(Punct::Semicolon, t) {
        return Ok((Stmt::Empty { line }, rest));
    }
    if lookahead::at_word(Reserved::If, t) {
        return selection(alloc, top, depth, t);
    }
    if lookahead::at_word(Reserved::Switch, t) {
        return switch(alloc, top, depth, t);
    }
    if lookahead::at_word(Reserved::While, t) {
        return while_loop(alloc, top, depth, t);
    }
    if lookahead::at_word(Reserved::Do, t) {
        return do_while(alloc, top, depth, t);
    }
    if lookahead::at_word(Reserved::For, t) {
        return for_loop(alloc, top, depth, t);
    }
    if lookahead::at_word(Reserved::Case, t) {
        return case(alloc, top, depth, t);
    }
    if lookahead::at_word(Reserved::Default, t) {
        return default(alloc, top, depth, t);
    }
    simple(alloc, depth, t)
}
