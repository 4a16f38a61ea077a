//! Texts with their tokens, taken from the grammar by hand. Texts that have none are rows of the command.

use c_lex::scan;
use c_tree::{Header, Punct, Reserved, Token, TokenKind};
use hlo_num::{Ty, Word};
use std::alloc::Global;
use std::test::Fail;

/// What a token should be.
#[derive(Clone, Copy)]
enum Want<'a> {
    Include(Header),
    Name(&'a [u8]),
    Word(Reserved),
    Punct(Punct),
    Constant(u32, Ty),
}

fn is_kind(kind: &TokenKind, want: Want) -> bool {
    match (kind, want) {
        (TokenKind::Include(a), Want::Include(b)) => *a == b,
        (TokenKind::Name(a), Want::Name(b)) => a.bytes() == b,
        (TokenKind::Word(a), Want::Word(b)) => *a == b,
        (TokenKind::Punct(a), Want::Punct(b)) => *a == b,
        (TokenKind::Constant { value, ty }, Want::Constant(v, t)) => *value == Word(v) && *ty == t,
        _ => false,
    }
}

/// Whether the text has these tokens, each with its line and its span.
fn has_tokens(alloc: Global, text: &[u8], wanted: &[(Want, u32, u32, u32)]) -> Result<bool, Fail> {
    if text.len() > 1000 {
        return Ok(false);
    }
    let found = match scan(alloc, text) {
        Ok(found) => found,
        Err(_) => return Ok(false),
    };
    let mut right = found.len() == wanted.len();
    for (t, w) in found.iter().zip(wanted) {
        let (want, line, from, to) = *w;
        right = right && is_kind(&t.kind, want) && t.line == line && t.from == from && t.to == to;
    }
    Ok(right)
}

#[test]
fn tells_spans_and_lines(rt: HostRuntime) -> Result<(), Fail> {
    let assign = [
        (Want::Name(b"a"), 1, 0, 1),
        (Want::Punct(Punct::AddAssign), 1, 1, 3),
        (Want::Constant(7, Ty::Int), 1, 3, 5),
        (Want::Punct(Punct::Semicolon), 1, 5, 6),
    ];
    assert!(rt; has_tokens(rt.alloc(), b"a+=07;", assign.as_slice())?);
    let spaced = [
        (Want::Name(b"doublet"), 3, 9, 16),
        (Want::Word(Reserved::While), 4, 18, 23),
    ];
    assert!(rt;
        has_tokens(
            rt.alloc(),
            b"\r\n\t/*\n*/\x0cdoublet\r\nwhile",
            spaced.as_slice()
        )?
    );
    assert!(rt; has_tokens(rt.alloc(), b"", [].as_slice())?);
    let lines = [
        (Want::Include(Header::Stdio), 1, 5, 23),
        (Want::Include(Header::Stdlib), 2, 34, 53),
        (Want::Word(Reserved::Int), 5, 67, 70),
    ];
    assert!(rt;
        has_tokens(
            rt.alloc(),
            b"\t/**/# include<stdio.h>/* c */ \t\r\n#include <stdlib.h>\n#\n# 12 \"x.c\"\nint",
            lines.as_slice()
        )?
    );
    Ok(())
}

#[test]
fn takes_the_longest(rt: HostRuntime) -> Result<(), Fail> {
    let signs = [
        (Want::Name(b"a"), 1, 0, 1),
        (Want::Punct(Punct::Increment), 1, 1, 3),
        (Want::Punct(Punct::Plus), 1, 3, 4),
        (Want::Punct(Punct::ShiftLeftAssign), 1, 4, 7),
        (Want::Punct(Punct::Greater), 1, 7, 8),
        (Want::Punct(Punct::DivideAssign), 1, 9, 11),
        (Want::Punct(Punct::Star), 1, 11, 12),
        (Want::Punct(Punct::AndAnd), 1, 12, 14),
        (Want::Punct(Punct::Slash), 1, 14, 15),
    ];
    assert!(rt; has_tokens(rt.alloc(), b"a+++<<=> /=*&&/", signs.as_slice())?);
    Ok(())
}

#[test]
fn values_constants(rt: HostRuntime) -> Result<(), Fail> {
    let numbers = [
        (Want::Constant(14, Ty::Int), 1, 0, 3),
        (Want::Punct(Punct::Plus), 1, 3, 4),
        (Want::Constant(1, Ty::Int), 1, 4, 5),
        (Want::Constant(2147483648, Ty::ULong), 1, 6, 16),
        (Want::Constant(2147483648, Ty::UInt), 1, 17, 29),
        (Want::Constant(4294967295, Ty::ULong), 1, 30, 41),
        (Want::Constant(1, Ty::Long), 1, 42, 44),
        (Want::Constant(1, Ty::UInt), 1, 45, 47),
        (Want::Constant(0, Ty::ULong), 1, 48, 51),
    ];
    assert!(rt;
        has_tokens(
            rt.alloc(),
            b"0xE+1 2147483648 020000000000 4294967295L 1l 1U 0lu",
            numbers.as_slice()
        )?
    );
    let characters = [
        (Want::Constant(4294967295, Ty::Int), 1, 0, 6),
        (Want::Constant(97, Ty::Int), 1, 6, 9),
        (Want::Constant(10, Ty::Int), 1, 9, 13),
        (Want::Constant(65, Ty::Int), 1, 13, 20),
        (Want::Constant(34, Ty::Int), 1, 20, 23),
    ];
    assert!(rt;
        has_tokens(
            rt.alloc(),
            b"'\\377''a''\\n''\\x041''\"'",
            characters.as_slice()
        )?
    );
    Ok(())
}

#[test]
fn reads_a_mebibyte(rt: HostRuntime) -> Result<(), Fail> {
    let mut text = Vec::with_capacity(rt.alloc(), 1 << 20)?;
    for _ in 0..131072 {
        text.extend_from_slice(b"a+=07;\t\n".as_slice())?;
    }
    if text.len() > 1 << 20 {
        return Err("longer than asked")?;
    }
    match scan(rt.alloc(), text.as_slice()) {
        Ok(found) => assert_eq!(rt; found.len(), 4 * 131072),
        Err(_) => return Err("a fault")?,
    }
    Ok(())
}
