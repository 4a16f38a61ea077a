//! What stands at the front of a list of tokens.
ghost use Rattle.std.specs.Prelude.{◌≡◌, true, false, List, [], ◌∷◌, nat_eq, Option, IsTrue};
ghost use Rattle.c_parse.specs.Classes.{punct, word, header, kind_class, look, member, row_of, classes};
ghost use Rattle.c_parse.specs.Languages.{line_if};
ghost use Rattle.c_parse.specs.Expressions.{operators, assignment_operators, steps, unary_operators, specifier_words};
ghost use Rattle.c_parse.specs.Trees.{name_of};
ghost use Rattle.c_parse.specs.Modules.{headers};
ghost use Rattle.c_parse.specs.Reading.{read_sign, read_picked, read_among, read_open};
ghost use Rattle.c_parse.specs.ModuleReaders.{stmt_first, item_first};
ghost use Rattle.c_parse.specs.ExpressionReaders.{expr_first, specifier_first};
ghost use Rattle.c_parse.specs.Gives.{Gives, Takes};

use crate::precedence::Precedence;
use crate::refusal::Refusal;
use c_tree::{
    BinaryOp, Header, Identifier, Punct, Reserved, SpecifierWord, Step, Token, TokenKind, UnaryOp,
};
use hlo_num::Name;
use std::alloc::Global;

/// Whether the punctuator is at the front.
pub fn at(p: Punct, t: &[Token]) -> bool
    ensures { result ≡ member (look t.now) (punct p ∷ []) }
{
    match t.first() {
        Some(
            Token {
                kind: TokenKind::Punct(q),
                ..
            },
        ) => *q == p,
        _ => false,
    }
}

/// Whether the word is at the front.
pub fn at_word(w: Reserved, t: &[Token]) -> bool
    ensures { result ≡ member (look t.now) (word w ∷ []) }
{
    match t.first() {
        Some(
            Token {
                kind: TokenKind::Word(r),
                ..
            },
        ) => *r == w,
        _ => false,
    }
}

/// The line of the punctuator at the front, and what stands behind it.
pub fn want<'a>(p: Punct, t: &'a [Token]) -> Result<(u32, &'a [Token]), Refusal<'a>>
    ensures { Gives (λ x. (x.0, x.1.now)) result (read_sign (punct p) t.now) }
{
    match t.split_first() {
        Some((first, rest)) if at(p, t) => Ok((first.line, rest)),
        _ => Err(Refusal::Wrong(t)),
    }
}

/// The line of the word at the front, and what stands behind it.
pub fn want_word<'a>(w: Reserved, t: &'a [Token]) -> Result<(u32, &'a [Token]), Refusal<'a>>
    ensures { Gives (λ x. (x.0, x.1.now)) result (read_sign (word w) t.now) }
{
    match t.split_first() {
        Some((first, rest)) if at_word(w, t) => Ok((first.line, rest)),
        _ => Err(Refusal::Wrong(t)),
    }
}

/// The operator that a punctuator is at a level of precedence.
fn binary_operator(q: Precedence, p: Punct) -> Option<BinaryOp>
    ensures { result ≡ row_of (punct p) (operators q) }
{
    match q {
        Precedence::LogicalOr => match p {
            Punct::OrOr => Some(BinaryOp::LogicalOr),
            _ => None,
        },
        Precedence::LogicalAnd => match p {
            Punct::AndAnd => Some(BinaryOp::LogicalAnd),
            _ => None,
        },
        Precedence::Or => match p {
            Punct::Bar => Some(BinaryOp::Or),
            _ => None,
        },
        Precedence::Xor => match p {
            Punct::Caret => Some(BinaryOp::Xor),
            _ => None,
        },
        Precedence::And => match p {
            Punct::Ampersand => Some(BinaryOp::And),
            _ => None,
        },
        Precedence::Equality => match p {
            Punct::EqualEqual => Some(BinaryOp::Equal),
            Punct::NotEqual => Some(BinaryOp::NotEqual),
            _ => None,
        },
        Precedence::Relation => match p {
            Punct::Less => Some(BinaryOp::Less),
            Punct::Greater => Some(BinaryOp::Greater),
            Punct::LessEqual => Some(BinaryOp::LessEqual),
            Punct::GreaterEqual => Some(BinaryOp::GreaterEqual),
            _ => None,
        },
        Precedence::Shift => match p {
            Punct::ShiftLeft => Some(BinaryOp::ShiftLeft),
            Punct::ShiftRight => Some(BinaryOp::ShiftRight),
            _ => None,
        },
        Precedence::Sum => match p {
            Punct::Plus => Some(BinaryOp::Add),
            Punct::Minus => Some(BinaryOp::Subtract),
            _ => None,
        },
        Precedence::Product => match p {
            Punct::Star => Some(BinaryOp::Multiply),
            Punct::Slash => Some(BinaryOp::Divide),
            Punct::Percent => Some(BinaryOp::Remainder),
            _ => None,
        },
    }
}

/// The step that a punctuator is.
fn step_of(p: Punct) -> Option<Step>
    ensures { result ≡ row_of (punct p) steps }
{
    match p {
        Punct::Increment => Some(Step::Increment),
        Punct::Decrement => Some(Step::Decrement),
        _ => None,
    }
}

/// The operator before one operand that a punctuator is.
fn unary_of(p: Punct) -> Option<UnaryOp>
    ensures { result ≡ row_of (punct p) unary_operators }
{
    match p {
        Punct::Plus => Some(UnaryOp::Plus),
        Punct::Minus => Some(UnaryOp::Minus),
        Punct::Tilde => Some(UnaryOp::Complement),
        Punct::Exclamation => Some(UnaryOp::Not),
        _ => None,
    }
}

/// The assignment that a punctuator is: plain, or with an operator.
fn assignment_of(p: Punct) -> Option<Option<BinaryOp>>
    ensures { result ≡ row_of (punct p) assignment_operators }
{
    match p {
        Punct::Equals => Some(None),
        Punct::AddAssign => Some(Some(BinaryOp::Add)),
        Punct::SubtractAssign => Some(Some(BinaryOp::Subtract)),
        Punct::MultiplyAssign => Some(Some(BinaryOp::Multiply)),
        Punct::DivideAssign => Some(Some(BinaryOp::Divide)),
        Punct::RemainderAssign => Some(Some(BinaryOp::Remainder)),
        Punct::AndAssign => Some(Some(BinaryOp::And)),
        Punct::OrAssign => Some(Some(BinaryOp::Or)),
        Punct::XorAssign => Some(Some(BinaryOp::Xor)),
        Punct::ShiftLeftAssign => Some(Some(BinaryOp::ShiftLeft)),
        Punct::ShiftRightAssign => Some(Some(BinaryOp::ShiftRight)),
        _ => None,
    }
}

/// The specifier that a word is.
fn specifier_of(w: Reserved) -> Option<SpecifierWord>
    ensures { result ≡ row_of (word w) specifier_words }
{
    match w {
        Reserved::Extern => Some(SpecifierWord::Extern),
        Reserved::Static => Some(SpecifierWord::Static),
        Reserved::Auto => Some(SpecifierWord::Auto),
        Reserved::Register => Some(SpecifierWord::Register),
        Reserved::Const => Some(SpecifierWord::Const),
        Reserved::Void => Some(SpecifierWord::Void),
        Reserved::Char => Some(SpecifierWord::Char),
        Reserved::Short => Some(SpecifierWord::Short),
        Reserved::Int => Some(SpecifierWord::Int),
        Reserved::Long => Some(SpecifierWord::Long),
        Reserved::Signed => Some(SpecifierWord::Signed),
        Reserved::Unsigned => Some(SpecifierWord::Unsigned),
        _ => None,
    }
}

/// The binary operator of a level at the front, with its line and what stands behind it.
pub fn operator(q: Precedence, t: &[Token]) -> Option<(BinaryOp, u32, &[Token])>
    ensures { Takes (λ x. ((x.0, x.1), x.2.now)) result (member (look t.now) (classes (operators q))) (read_among (operators q) t.now) }
{
    match t.split_first() {
        Some(
            (
                Token {
                    kind: TokenKind::Punct(p),
                    line,
                    ..
                },
                rest,
            ),
        ) => {
            let op = binary_operator(q, *p)?;
            Some((op, *line, rest))
        }
        _ => None,
    }
}

/// The step at the front, with its line and what stands behind it.
pub fn step(t: &[Token]) -> Option<(Step, u32, &[Token])>
    ensures { Takes (λ x. ((x.0, x.1), x.2.now)) result (member (look t.now) (classes steps)) (read_among steps t.now) }
{
    match t.split_first() {
        Some(
            (
                Token {
                    kind: TokenKind::Punct(p),
                    line,
                    ..
                },
                rest,
            ),
        ) => {
            let step = step_of(*p)?;
            Some((step, *line, rest))
        }
        _ => None,
    }
}

/// The unary operator at the front, with its line and what stands behind it.
pub fn unary_operator(t: &[Token]) -> Option<(UnaryOp, u32, &[Token])>
    ensures { Takes (λ x. ((x.0, x.1), x.2.now)) result (member (look t.now) (classes unary_operators)) (read_among unary_operators t.now) }
{
    match t.split_first() {
        Some(
            (
                Token {
                    kind: TokenKind::Punct(p),
                    line,
                    ..
                },
                rest,
            ),
        ) => {
            let op = unary_of(*p)?;
            Some((op, *line, rest))
        }
        _ => None,
    }
}

/// The assignment operator at the front, with its line and what stands behind it.
pub fn assignment_operator(t: &[Token]) -> Option<(Option<BinaryOp>, u32, &[Token])>
    ensures { Takes (λ x. ((x.0, x.1), x.2.now)) result (member (look t.now) (classes assignment_operators)) (read_among assignment_operators t.now) }
{
    match t.split_first() {
        Some(
            (
                Token {
                    kind: TokenKind::Punct(p),
                    line,
                    ..
                },
                rest,
            ),
        ) => {
            let op = assignment_of(*p)?;
            Some((op, *line, rest))
        }
        _ => None,
    }
}

/// The specifier word at the front, with its line and what stands behind it.
pub fn specifier_word(t: &[Token]) -> Option<(SpecifierWord, u32, &[Token])>
    ensures { Takes (λ x. ((x.0, x.1), x.2.now)) result (member (look t.now) (classes specifier_words)) (read_among specifier_words t.now) }
{
    match t.split_first() {
        Some(
            (
                Token {
                    kind: TokenKind::Word(w),
                    line,
                    ..
                },
                rest,
            ),
        ) => {
            let word = specifier_of(*w)?;
            Some((word, *line, rest))
        }
        _ => None,
    }
}

/// The include line at the front, with its line and what stands behind it.
pub fn include(t: &[Token]) -> Option<(Header, u32, &[Token])>
    ensures { Takes (λ x. ((x.0, x.1), x.2.now)) result (member (look t.now) (classes headers)) (read_among headers t.now) }
{
    match t.split_first() {
        Some(
            (
                Token {
                    kind: TokenKind::Include(header),
                    line,
                    ..
                },
                rest,
            ),
        ) => Some((*header, *line, rest)),
        _ => None,
    }
}

/// A copy of the name at the front, and what stands behind it.
pub fn identifier(alloc: Global, t: &[Token]) -> Result<(Identifier, &[Token]), Refusal>
    ensures { Gives (λ x. (x.0, x.1.now)) result (read_picked name_of t.now) }
{
    match t.split_first() {
        Some(
            (
                Token {
                    kind: TokenKind::Name(name),
                    line,
                    ..
                },
                rest,
            ),
        ) => {
            let name = Name::new(alloc, name.bytes())?;
            Ok((Identifier { name, line: *line }, rest))
        }
        _ => Err(Refusal::Wrong(t)),
    }
}

/// Whether a name is at the front.
pub fn at_name(t: &[Token]) -> bool
    ensures { result ≡ member (look t.now) (1 ∷ []) }
{
    match t.first() {
        Some(
            Token {
                kind: TokenKind::Name(_),
                ..
            },
        ) => true,
        _ => false,
    }
}

/// Whether specifiers may begin with what is at the front.
pub fn starts_specifiers(t: &[Token]) -> bool
    ensures { result ≡ member (look t.now) specifier_first }
{
    at_word(Reserved::Enum, t) || specifier_word(t).is_some()
}

/// Whether an item may begin with what is at the front.
pub fn starts_item(t: &[Token]) -> bool
    ensures { result ≡ member (look t.now) item_first }
{
    include(t).is_some() || starts_specifiers(t)
}

/// Whether an expression may begin with what is at the front.
pub fn starts_expression(t: &[Token]) -> bool
    ensures { result ≡ member (look t.now) expr_first }
{
    match t.first() {
        None => false,
        Some(first) => match &first.kind {
            TokenKind::Name(_) | TokenKind::Constant { .. } => true,
            TokenKind::Include(_) | TokenKind::Word(_) => false,
            TokenKind::Punct(p) => match p {
                Punct::OpenParen
                | Punct::Increment
                | Punct::Decrement
                | Punct::Plus
                | Punct::Minus
                | Punct::Tilde
                | Punct::Exclamation => true,
                _ => false,
            },
        },
    }
}

/// Whether a statement may begin with what is at the front.
pub fn starts_statement(t: &[Token]) -> bool
    ensures { result ≡ member (look t.now) stmt_first }
{
    match t.first() {
        None => false,
        Some(first) => match &first.kind {
            TokenKind::Name(_) | TokenKind::Constant { .. } => true,
            TokenKind::Include(_) => false,
            TokenKind::Word(w) => match w {
                Reserved::If
                | Reserved::Switch
                | Reserved::While
                | Reserved::Do
                | Reserved::For
                | Reserved::Case
                | Reserved::Default
                | Reserved::Break
                | Reserved::Continue
                | Reserved::Return => true,
                _ => false,
            },
            TokenKind::Punct(p) => match p {
                Punct::OpenBrace
                | Punct::Semicolon
                | Punct::OpenParen
                | Punct::Increment
                | Punct::Decrement
                | Punct::Plus
                | Punct::Minus
                | Punct::Tilde
                | Punct::Exclamation => true,
                _ => false,
            },
        },
    }
}

/// The line of the punctuator at the front and what stands behind it, where it is at the front.
pub fn after(p: Punct, t: &[Token]) -> Option<(u32, &[Token])>
    ensures { Takes (λ x. (x.0, x.1.now)) result (member (look t.now) (punct p ∷ [])) (read_sign (punct p) t.now) }
{
    match t.split_first() {
        Some((first, rest)) if at(p, t) => Some((first.line, rest)),
        _ => None,
    }
}

/// The same of a word.
pub fn after_word(w: Reserved, t: &[Token]) -> Option<(u32, &[Token])>
    ensures { Takes (λ x. (x.0, x.1.now)) result (member (look t.now) (word w ∷ [])) (read_sign (word w) t.now) }
{
    match t.split_first() {
        Some((first, rest)) if at_word(w, t) => Some((first.line, rest)),
        _ => None,
    }
}

/// The same as `want` of a punctuator that parts of the height `depth` at most must follow; there are none
/// of height 0.
pub fn open<'a>(depth: u16, p: Punct, t: &'a [Token]) -> Result<(u32, &'a [Token]), Refusal<'a>>
    ensures { Gives (λ x. (x.0, x.1.now)) result (read_open depth (line_if (punct p)) t.now) }
{
    let (line, rest) = want(p, t)?;
    if depth == 0 {
        return Err(Refusal::Deep(t));
    }
    Ok((line, rest))
}

/// The same of a word.
pub fn open_word<'a>(
    depth: u16,
    w: Reserved,
    t: &'a [Token],
) -> Result<(u32, &'a [Token]), Refusal<'a>>
    ensures { Gives (λ x. (x.0, x.1.now)) result (read_open depth (line_if (word w)) t.now) }
{
    let (line, rest) = want_word(w, t)?;
    if depth == 0 {
        return Err(Refusal::Deep(t));
    }
    Ok((line, rest))
}
