//! How the fixed words of the language are spelled.
ghost use Rattle.std.specs.Prelude.{◌≡◌, ◌==◌, ◌∷◌, [], ◌++◌, if◌then◌else◌};
ghost use Rattle.c_lex.specs.Spelling.{word_spelling, word_named, is_left_out, punct_named, punct_spelling};

use c_tree::{Punct, Reserved};

const WORDS: [Reserved; 24] = [
    Reserved::Auto,
    Reserved::Break,
    Reserved::Case,
    Reserved::Char,
    Reserved::Const,
    Reserved::Continue,
    Reserved::Default,
    Reserved::Do,
    Reserved::Else,
    Reserved::Enum,
    Reserved::Extern,
    Reserved::For,
    Reserved::If,
    Reserved::Int,
    Reserved::Long,
    Reserved::Register,
    Reserved::Return,
    Reserved::Short,
    Reserved::Signed,
    Reserved::Static,
    Reserved::Switch,
    Reserved::Unsigned,
    Reserved::Void,
    Reserved::While,
];

fn word_spelling(r: Reserved) -> &'static [u8]
    ensures { result.now ≡ word_spelling r }
{
    match r {
        Reserved::Auto => b"auto",
        Reserved::Break => b"break",
        Reserved::Case => b"case",
        Reserved::Char => b"char",
        Reserved::Const => b"const",
        Reserved::Continue => b"continue",
        Reserved::Default => b"default",
        Reserved::Do => b"do",
        Reserved::Else => b"else",
        Reserved::Enum => b"enum",
        Reserved::Extern => b"extern",
        Reserved::For => b"for",
        Reserved::If => b"if",
        Reserved::Int => b"int",
        Reserved::Long => b"long",
        Reserved::Register => b"register",
        Reserved::Return => b"return",
        Reserved::Short => b"short",
        Reserved::Signed => b"signed",
        Reserved::Static => b"static",
        Reserved::Switch => b"switch",
        Reserved::Unsigned => b"unsigned",
        Reserved::Void => b"void",
        Reserved::While => b"while",
    }
}

/// The reserved word of these bytes, if there is one.
#[tactic(auto, unfolding(crate::specs::Spelling::word_named))]
pub fn word_named(us: &[u8]) -> Option<Reserved>
    ensures { result ≡ word_named us.now }
{
    for r in WORDS {
        if us == word_spelling(r) {
            return Some(r);
        }
    }
    None
}

/// Whether the bytes are a reserved word of C90 that the profile leaves out.
#[tactic(auto, unfolding(crate::specs::Spelling::is_left_out))]
pub fn is_left_out(us: &[u8]) -> bool
    ensures { result ≡ is_left_out us.now }
{
    us == b"double".as_slice()
        || us == b"float".as_slice()
        || us == b"goto".as_slice()
        || us == b"sizeof".as_slice()
        || us == b"struct".as_slice()
        || us == b"typedef".as_slice()
        || us == b"union".as_slice()
        || us == b"volatile".as_slice()
}

/// The punctuator of one byte other than `/`, if there is one.
#[tactic(auto, unfolding(crate::specs::Spelling::punct_named))]
pub fn single(c: u8) -> Option<Punct>
    ensures { result ≡ punct_named (c ∷ []) }
{
    let m = match c {
        b'(' => Punct::OpenParen,
        b')' => Punct::CloseParen,
        b'[' => Punct::OpenBracket,
        b']' => Punct::CloseBracket,
        b'{' => Punct::OpenBrace,
        b'}' => Punct::CloseBrace,
        b',' => Punct::Comma,
        b';' => Punct::Semicolon,
        b':' => Punct::Colon,
        b'?' => Punct::Question,
        b'~' => Punct::Tilde,
        b'+' => Punct::Plus,
        b'-' => Punct::Minus,
        b'*' => Punct::Star,
        b'/' => Punct::Slash,
        b'%' => Punct::Percent,
        b'&' => Punct::Ampersand,
        b'|' => Punct::Bar,
        b'^' => Punct::Caret,
        b'!' => Punct::Exclamation,
        b'<' => Punct::Less,
        b'>' => Punct::Greater,
        b'=' => Punct::Equals,
        _ => return None,
    };
    Some(m)
}

/// The punctuator that a byte behind a punctuator makes of it, if there is one.
pub fn joined(m: Punct, c: u8) -> Option<Punct>
    ensures { result ≡ punct_named (punct_spelling m ++ c ∷ []) }
{
    match m {
        Punct::Plus => doubled(c, b'+', Punct::Increment, Punct::AddAssign),
        Punct::Minus => doubled(c, b'-', Punct::Decrement, Punct::SubtractAssign),
        Punct::Ampersand => doubled(c, b'&', Punct::AndAnd, Punct::AndAssign),
        Punct::Bar => doubled(c, b'|', Punct::OrOr, Punct::OrAssign),
        Punct::Less => doubled(c, b'<', Punct::ShiftLeft, Punct::LessEqual),
        Punct::Greater => doubled(c, b'>', Punct::ShiftRight, Punct::GreaterEqual),
        Punct::Star => with_equals(c, Punct::MultiplyAssign),
        Punct::Slash => with_equals(c, Punct::DivideAssign),
        Punct::Percent => with_equals(c, Punct::RemainderAssign),
        Punct::Caret => with_equals(c, Punct::XorAssign),
        Punct::Exclamation => with_equals(c, Punct::NotEqual),
        Punct::Equals => with_equals(c, Punct::EqualEqual),
        Punct::ShiftLeft => with_equals(c, Punct::ShiftLeftAssign),
        Punct::ShiftRight => with_equals(c, Punct::ShiftRightAssign),
        _ => None,
    }
}

/// A sign behind which its own byte, or `=`, may stand.
fn doubled(c: u8, own: u8, twice: Punct, equals: Punct) -> Option<Punct>
    ensures { result ≡ (if c == own then Some twice else if c == 61 then Some equals else None) }
{
    if c == own {
        Some(twice)
    } else {
        with_equals(c, equals)
    }
}

/// A sign behind which `=` may stand.
fn with_equals(c: u8, equals: Punct) -> Option<Punct>
    ensures { result ≡ (if c == 61 then Some equals else None) }
{
    if c == b'=' { Some(equals) } else { None }
}
