//! Operators and conversions at the edges, with the results that a C compiler gives.

use hlo_num::{Name, Op, Ty, Word, binary, convert, promote, usual};
use std::alloc::{AllocError, Global};
use std::fmt::Write;
use std::test::Fail;

/// -2147483648, -1 (also 4294967295), 0, 1 and 2147483647.
static EDGES: [u32; 5] = [2147483648, 4294967295, 0, 1, 2147483647];

static COUNTS: [u32; 3] = [0, 31, 32];

/// The answers of an operator on one left word and each of the right words.
fn row(alloc: Global, op: Op, left: u32, rights: &[u32]) -> Result<String, AllocError> {
    let mut text = String::new(alloc);
    for right in rights {
        if !text.is_empty() {
            text.push(' ')?;
        }
        match binary(op, Word(left), Word(*right)) {
            Ok(word) => write!(text, "{}", word.0)?,
            Err(trap) => write!(text, "{trap:?}")?,
        }
    }
    Ok(text)
}

#[test]
fn operators_on_edges(rt: HostRuntime) -> Result<(), Fail> {
    for (op, rows) in &ON_EDGES {
        for (left, want) in EDGES.iter().zip(rows) {
            let got = row(rt.alloc(), *op, *left, &EDGES)?;
            assert_eq!(rt; got.as_str(), *want);
        }
    }
    for (op, rows) in &SHIFTS {
        for (left, want) in EDGES.iter().zip(rows) {
            let got = row(rt.alloc(), *op, *left, &COUNTS)?;
            assert_eq!(rt; got.as_str(), *want);
        }
    }
    Ok(())
}

/// A word and what it is as `char`, `unsigned char`, `short` and `unsigned short`.
static CONVERTED: [(u32, [u32; 4]); 8] = [
    (127, [127, 127, 127, 127]),
    (128, [4294967168, 128, 128, 128]),
    (255, [4294967295, 255, 255, 255]),
    (256, [0, 0, 256, 256]),
    (32767, [4294967295, 255, 32767, 32767]),
    (32768, [0, 0, 4294934528, 32768]),
    (65536, [0, 0, 0, 0]),
    (4294967295, [4294967295, 255, 4294967295, 65535]),
];

#[test]
fn conversions(rt: HostRuntime) {
    for (word, [char, uchar, short, ushort]) in &CONVERTED {
        assert_eq!(rt; convert(Ty::Char, Word(*word)).0, *char);
        assert_eq!(rt; convert(Ty::UChar, Word(*word)).0, *uchar);
        assert_eq!(rt; convert(Ty::Short, Word(*word)).0, *short);
        assert_eq!(rt; convert(Ty::UShort, Word(*word)).0, *ushort);
        assert_eq!(rt; convert(Ty::Long, Word(*word)).0, *word);
    }
    assert!(rt; promote(Ty::UShort) == Ty::Int);
    assert!(rt; promote(Ty::ULong) == Ty::ULong);
    assert!(rt; usual(Ty::Long, Ty::UInt) == Ty::ULong);
    assert!(rt; usual(Ty::Int, Ty::UInt) == Ty::UInt);
    assert!(rt; usual(Ty::Int, Ty::Long) == Ty::Long);
    assert!(rt; usual(Ty::Int, Ty::Int) == Ty::Int);
}

#[test]
fn names(rt: HostRuntime) -> Result<(), Fail> {
    let main = Name::new(rt.alloc(), b"main")?;
    let copy = main.clone()?;
    assert!(rt; main == copy);
    assert!(rt; main != Name::new(rt.alloc(), b"main.1")?);
    Ok(())
}

/// Each left word is a row, each right word a column.
static ON_EDGES: [(Op, [&str; 5]); 19] = [
    (
        Op::AddS,
        [
            "0 2147483647 2147483648 2147483649 4294967295",
            "2147483647 4294967294 4294967295 0 2147483646",
            "2147483648 4294967295 0 1 2147483647",
            "2147483649 0 1 2 2147483648",
            "4294967295 2147483646 2147483647 2147483648 4294967294",
        ],
    ),
    (
        Op::AddU,
        [
            "0 2147483647 2147483648 2147483649 4294967295",
            "2147483647 4294967294 4294967295 0 2147483646",
            "2147483648 4294967295 0 1 2147483647",
            "2147483649 0 1 2 2147483648",
            "4294967295 2147483646 2147483647 2147483648 4294967294",
        ],
    ),
    (
        Op::SubS,
        [
            "0 2147483649 2147483648 2147483647 1",
            "2147483647 0 4294967295 4294967294 2147483648",
            "2147483648 1 0 4294967295 2147483649",
            "2147483649 2 1 0 2147483650",
            "4294967295 2147483648 2147483647 2147483646 0",
        ],
    ),
    (
        Op::SubU,
        [
            "0 2147483649 2147483648 2147483647 1",
            "2147483647 0 4294967295 4294967294 2147483648",
            "2147483648 1 0 4294967295 2147483649",
            "2147483649 2 1 0 2147483650",
            "4294967295 2147483648 2147483647 2147483646 0",
        ],
    ),
    (
        Op::MulS,
        [
            "0 2147483648 0 2147483648 2147483648",
            "2147483648 1 0 4294967295 2147483649",
            "0 0 0 0 0",
            "2147483648 4294967295 0 1 2147483647",
            "2147483648 2147483649 0 2147483647 1",
        ],
    ),
    (
        Op::MulU,
        [
            "0 2147483648 0 2147483648 2147483648",
            "2147483648 1 0 4294967295 2147483649",
            "0 0 0 0 0",
            "2147483648 4294967295 0 1 2147483647",
            "2147483648 2147483649 0 2147483647 1",
        ],
    ),
    (
        Op::DivS,
        [
            "1 Quotient Divide 2147483648 4294967295",
            "0 1 Divide 4294967295 0",
            "0 0 Divide 0 0",
            "0 4294967295 Divide 1 0",
            "0 2147483649 Divide 2147483647 1",
        ],
    ),
    (
        Op::DivU,
        [
            "1 0 Divide 2147483648 1",
            "1 1 Divide 4294967295 2",
            "0 0 Divide 0 0",
            "0 0 Divide 1 0",
            "0 0 Divide 2147483647 1",
        ],
    ),
    (
        Op::RemS,
        [
            "0 Quotient Divide 0 4294967295",
            "4294967295 0 Divide 0 4294967295",
            "0 0 Divide 0 0",
            "1 0 Divide 0 1",
            "2147483647 0 Divide 0 0",
        ],
    ),
    (
        Op::RemU,
        [
            "0 2147483648 Divide 0 1",
            "2147483647 0 Divide 0 1",
            "0 0 Divide 0 0",
            "1 1 Divide 0 1",
            "2147483647 2147483647 Divide 0 0",
        ],
    ),
    (
        Op::And,
        [
            "2147483648 2147483648 0 0 0",
            "2147483648 4294967295 0 1 2147483647",
            "0 0 0 0 0",
            "0 1 0 1 1",
            "0 2147483647 0 1 2147483647",
        ],
    ),
    (
        Op::Or,
        [
            "2147483648 4294967295 2147483648 2147483649 4294967295",
            "4294967295 4294967295 4294967295 4294967295 4294967295",
            "2147483648 4294967295 0 1 2147483647",
            "2147483649 4294967295 1 1 2147483647",
            "4294967295 4294967295 2147483647 2147483647 2147483647",
        ],
    ),
    (
        Op::Xor,
        [
            "0 2147483647 2147483648 2147483649 4294967295",
            "2147483647 0 4294967295 4294967294 2147483648",
            "2147483648 4294967295 0 1 2147483647",
            "2147483649 4294967294 1 0 2147483646",
            "4294967295 2147483648 2147483647 2147483646 0",
        ],
    ),
    (
        Op::Eq,
        [
            "1 0 0 0 0",
            "0 1 0 0 0",
            "0 0 1 0 0",
            "0 0 0 1 0",
            "0 0 0 0 1",
        ],
    ),
    (
        Op::Ne,
        [
            "0 1 1 1 1",
            "1 0 1 1 1",
            "1 1 0 1 1",
            "1 1 1 0 1",
            "1 1 1 1 0",
        ],
    ),
    (
        Op::LtS,
        [
            "0 1 1 1 1",
            "0 0 1 1 1",
            "0 0 0 1 1",
            "0 0 0 0 1",
            "0 0 0 0 0",
        ],
    ),
    (
        Op::LtU,
        [
            "0 1 0 0 0",
            "0 0 0 0 0",
            "1 1 0 1 1",
            "1 1 0 0 1",
            "1 1 0 0 0",
        ],
    ),
    (
        Op::LeS,
        [
            "1 1 1 1 1",
            "0 1 1 1 1",
            "0 0 1 1 1",
            "0 0 0 1 1",
            "0 0 0 0 1",
        ],
    ),
    (
        Op::LeU,
        [
            "1 1 0 0 0",
            "0 1 0 0 0",
            "1 1 1 1 1",
            "1 1 0 1 1",
            "1 1 0 0 1",
        ],
    ),
];

/// Each left word is a row, each count a column.
static SHIFTS: [(Op, [&str; 5]); 3] = [
    (
        Op::Shl,
        [
            "2147483648 0 Shift",
            "4294967295 2147483648 Shift",
            "0 0 Shift",
            "1 2147483648 Shift",
            "2147483647 2147483648 Shift",
        ],
    ),
    (
        Op::ShrS,
        [
            "2147483648 4294967295 Shift",
            "4294967295 4294967295 Shift",
            "0 0 Shift",
            "1 0 Shift",
            "2147483647 0 Shift",
        ],
    ),
    (
        Op::ShrU,
        [
            "2147483648 1 Shift",
            "4294967295 1 Shift",
            "0 0 Shift",
            "1 0 Shift",
            "2147483647 0 Shift",
        ],
    ),
];
