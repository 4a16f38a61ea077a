//! Expressions and the specifiers of types (ISO C90, 6.3 and 6.5.2). The two lead to each other: a cast
//! names a type, and an enumeration of a type has values.

ghost use Rattle.std.specs.Prelude.{◌≡◌};
ghost use Rattle.c_tree.specs.Lines.{line_of, specifier_line};

use hlo_num::{Name, Ty, Word};
use sqlite_items::{Boxed, Items};

/// A name as the text has it.
#[derive(Drop)]
pub struct Identifier {
    pub name: Name,
    pub line: u32,
}

/// An expression. The line is that of its first token.
#[cycle(expression)]
#[derive(Drop)]
pub enum Expr {
    /// `x`
    Name(Identifier),
    /// `a[e]`
    Index {
        array: Identifier,
        index: Boxed<Expr>,
    },
    /// `f(e, ..)`
    Call {
        function: Identifier,
        arguments: Items<Expr>,
    },
    /// A number or a character constant.
    Constant {
        line: u32,
        value: Word,
        ty: Ty,
    },
    /// `(e)`
    Paren {
        line: u32,
        inner: Boxed<Expr>,
    },
    /// `e++` or `e--`
    Postfix {
        line: u32,
        step: Step,
        operand: Boxed<Expr>,
    },
    /// `++e` or `--e`
    Prefix {
        line: u32,
        step: Step,
        operand: Boxed<Expr>,
    },
    /// `+e`, `-e`, `~e` or `!e`
    Unary {
        line: u32,
        op: UnaryOp,
        operand: Boxed<Expr>,
    },
    /// `(type) e`
    Cast {
        line: u32,
        specifiers: Specifiers,
        operand: Boxed<Expr>,
    },
    /// `a op b`
    Binary {
        line: u32,
        op: BinaryOp,
        left: Boxed<Expr>,
        right: Boxed<Expr>,
    },
    /// `c ? a : b`
    Conditional {
        line: u32,
        condition: Boxed<Expr>,
        yes: Boxed<Expr>,
        no: Boxed<Expr>,
    },
    /// `a = b`, or `a op= b` where there is an operator.
    Assign {
        line: u32,
        op: Option<BinaryOp>,
        target: Boxed<Expr>,
        value: Boxed<Expr>,
    },
    /// `a, b`
    Comma {
        line: u32,
        left: Boxed<Expr>,
        right: Boxed<Expr>,
    },
}

impl Expr {
    /// The line of the first token.
    pub fn line(&self) -> u32
        ensures { result ≡ line_of self.now }
    {
        match self {
            Expr::Name(name) => name.line,
            Expr::Index { array, .. } => array.line,
            Expr::Call { function, .. } => function.line,
            Expr::Constant { line, .. }
            | Expr::Paren { line, .. }
            | Expr::Postfix { line, .. }
            | Expr::Prefix { line, .. }
            | Expr::Unary { line, .. }
            | Expr::Cast { line, .. }
            | Expr::Binary { line, .. }
            | Expr::Conditional { line, .. }
            | Expr::Assign { line, .. }
            | Expr::Comma { line, .. } => *line,
        }
    }
}

/// The specifiers of a declaration, a parameter or a cast, in their order. There is at least one, and the
/// line is that of the first.
#[cycle(expression)]
#[derive(Drop)]
pub struct Specifiers {
    pub line: u32,
    pub items: Items<Specifier>,
}

/// A specifier, with the line of its first token.
#[cycle(expression)]
#[derive(Drop)]
pub enum Specifier {
    /// A word that stands alone.
    Word {
        line: u32,
        word: SpecifierWord,
    },
    /// `enum t`
    EnumTag {
        line: u32,
        tag: Identifier,
    },
    /// `enum { .. }` or `enum t { .. }`
    Enum {
        line: u32,
        tag: Option<Identifier>,
        enumerators: Items<Enumerator>,
    },
}

impl Specifier {
    /// The line of the first token.
    pub fn line(&self) -> u32
        ensures { result ≡ specifier_line self.now }
    {
        match self {
            Specifier::Word { line, .. }
            | Specifier::EnumTag { line, .. }
            | Specifier::Enum { line, .. } => *line,
        }
    }
}

/// A constant of an enumeration: `x`, or `x = e`.
#[cycle(expression)]
#[derive(Drop)]
pub struct Enumerator {
    pub name: Identifier,
    pub value: Option<Boxed<Expr>>,
}

/// The specifiers that are one word.
#[derive(Clone, Copy, Debug, PartialEq, Eq)]
pub enum SpecifierWord {
    Extern,
    Static,
    Auto,
    Register,
    Const,
    Void,
    Char,
    Short,
    Int,
    Long,
    Signed,
    Unsigned,
}

/// A step by 1.
#[derive(Clone, Copy, Debug, PartialEq, Eq)]
pub enum Step {
    /// `++`
    Increment,
    /// `--`
    Decrement,
}

/// The operators before one operand, the steps left out.
#[derive(Clone, Copy, Debug, PartialEq, Eq)]
pub enum UnaryOp {
    /// `+`
    Plus,
    /// `-`
    Minus,
    /// `~`
    Complement,
    /// `!`
    Not,
}

/// The operators between two operands that group to the left, from the loosest on.
#[derive(Clone, Copy, Debug, PartialEq, Eq)]
pub enum BinaryOp {
    /// `||`
    LogicalOr,
    /// `&&`
    LogicalAnd,
    /// `|`
    Or,
    /// `^`
    Xor,
    /// `&`
    And,
    /// `==`
    Equal,
    /// `!=`
    NotEqual,
    /// `<`
    Less,
    /// `>`
    Greater,
    /// `<=`
    LessEqual,
    /// `>=`
    GreaterEqual,
    /// `<<`
    ShiftLeft,
    /// `>>`
    ShiftRight,
    /// `+`
    Add,
    /// `-`
    Subtract,
    /// `*`
    Multiply,
    /// `/`
    Divide,
    /// `%`
    Remainder,
}
