//! Programs that link and that don't.

use hlo_num::{Name, Seq, Ty};
use linker::{LinkFault, link_check};
use std::alloc::Global;
use std::test::Fail;
use sym_tables::{Entity, ProgramSyms};

/// `int (void)`
fn int_function(alloc: Global) -> Entity {
    Entity::Function {
        result: Some(Ty::Int),
        params: Seq::new(alloc),
    }
}

#[test]
fn programs(rt: HostRuntime) -> Result<(), Fail> {
    let alloc = rt.alloc();
    let mut syms = ProgramSyms::new(alloc);
    let main = Name::new(alloc, b"main")?;
    let f = Name::new(alloc, b"f")?;
    assert!(rt; syms.declare(&f, int_function(alloc)) == Ok(0));
    assert!(rt; link_check(&syms) == Err(LinkFault::NoMain));
    assert!(rt; syms.define(&main, int_function(alloc), Vec::new(alloc)) == Ok(1));
    assert!(rt; link_check(&syms) == Ok(1));
    let (used, _) = syms.find(b"f").ok_or("no f")?;
    syms.mark_used(used);
    assert!(rt; link_check(&syms) == Err(LinkFault::Undefined { pid: 0 }));
    Ok(())
}
