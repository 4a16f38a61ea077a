//! Rows of the symbol table that are known, and a full one.

use hlo_num::{Name, Seq, Ty, Word};
use il_core::Shape;
use std::alloc::{AllocError, Global};
use std::test::Fail;
use sym_tables::{Entity, ProgramSyms, SymFault};

fn int_function(alloc: Global) -> Entity {
    Entity::Function {
        result: Some(Ty::Int),
        params: Seq::new(alloc),
    }
}

fn chars(len: Option<u32>) -> Entity {
    Entity::Array {
        ty: Ty::Char,
        fixed: false,
        len,
    }
}

#[test]
fn defined_twice(rt: HostRuntime) -> Result<(), Fail> {
    let alloc = rt.alloc();
    let mut syms = ProgramSyms::new(alloc);
    let f = Name::new(alloc, b"f")?;
    assert!(rt; syms.declare(&f, int_function(alloc)) == Ok(0));
    assert!(rt; syms.define(&f, int_function(alloc), Vec::new(alloc)) == Ok(0));
    assert!(rt; syms.define(&f, int_function(alloc), Vec::new(alloc)) == Err(SymFault::Duplicate));
    assert!(rt; syms.undefined().is_none());
    Ok(())
}

#[test]
fn tentative_object(rt: HostRuntime) -> Result<(), Fail> {
    let alloc = rt.alloc();
    let mut syms = ProgramSyms::new(alloc);
    let int = Entity::Scalar {
        ty: Ty::Int,
        fixed: false,
    };
    assert!(rt; syms.tentative(&Name::new(alloc, b"x")?, int) == Ok(0));
    let objects = syms.objects()?;
    let first = objects.first().ok_or("no object")?;
    assert!(rt; first.pid == 0 && first.words == 1 && first.init.is_empty());
    let shapes = syms.shapes()?;
    let row = shapes.rows.as_slice().first().ok_or("no row")?;
    assert!(rt; row.pid == 0 && row.name.bytes() == b"x".as_slice());
    assert!(rt; matches!(row.shape, Shape::Object { words: 1 }));
    Ok(())
}

#[test]
fn length_that_comes_later(rt: HostRuntime) -> Result<(), Fail> {
    let alloc = rt.alloc();
    let mut syms = ProgramSyms::new(alloc);
    let a = Name::new(alloc, b"a")?;
    assert!(rt; syms.tentative(&a, chars(None)) == Ok(0));
    assert!(rt; syms.declare(&a, chars(Some(3))) == Ok(0));
    assert!(rt; syms.declare(&a, chars(Some(4))) == Err(SymFault::TypeClash));
    let shapes = syms.shapes()?;
    let last = shapes.rows.as_slice().last().ok_or("no row")?;
    assert!(rt; matches!(last.shape, Shape::Object { words: 3 }));
    Ok(())
}

/// The number in base 16, in five letters from `a` on.
fn numbered(alloc: Global, n: u32) -> Result<Name, AllocError> {
    let letter = |place: u32| b'a' + (n / place % 16) as u8;
    let bytes = [
        letter(65_536),
        letter(4096),
        letter(256),
        letter(16),
        letter(1),
    ];
    Name::new(alloc, &bytes)
}

#[test]
fn full(rt: HostRuntime) -> Result<(), Fail> {
    let alloc = rt.alloc();
    let mut syms = ProgramSyms::new(alloc);
    for n in 0..65_536 {
        assert!(rt; syms.declare(&numbered(alloc, n)?, int_function(alloc)) == Ok(n));
    }
    let one_more = numbered(alloc, 65_536)?;
    assert!(rt; syms.declare(&one_more, int_function(alloc)) == Err(SymFault::TooMany));
    assert!(rt; syms.declare(&numbered(alloc, 7)?, int_function(alloc)) == Ok(7));
    Ok(())
}
