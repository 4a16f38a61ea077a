//! Reading the text of a program.
ghost use Rattle.std.specs.Prelude.{◌≡◌, ◌+◌, ◌^◌, ◌≤◌, [], IfOk, IfErr, OnOk, None, length, sum_by};
ghost use Rattle.il_core.specs.Limits.{max_routines};
ghost use Rattle.il_core.specs.Text as text;
ghost use Rattle.il_core.specs.Valid.{IsProgram};
ghost use Rattle.il_text.specs.Assembled.{first_out_of_order};
ghost use Rattle.il_text.specs.Checked.{line_count};
ghost use Rattle.il_text.specs.ReadFaults.{IsFaultOf, IsOrderFault, IsCheckFault, IsFine, capped};
ghost use Rattle.il_text.specs.Whole.{IsTextOf, IsTyped};

use crate::check::{first_flaw, has_main, line_count};
use crate::fault::{IlFault, IlKind};
use crate::line::{NamedObject, NamedRoutine};
use crate::order::{Used, misplaced_object, misplaced_routine};
use crate::partial::Partial;
use crate::program::assemble;
use crate::text::read_lines;
use il_core::{IlProgram, Routine};
use std::alloc::Global;
use std::collections::BTreeSet;

/// The valid program whose text the bytes are, or what is wrong first: lines are read first, then the order of
/// PIDs and names is looked at, then each routine, then `main`. On the text of a valid program it gives that
/// program, or `Memory`. It takes memory in proportion to the bytes, and time in proportion to them and the
/// logarithm of the program's names and PIDs.
pub fn read_il(alloc: Global, b: &[u8]) -> Result<IlProgram, IlFault>
    ensures valid { IfOk result IsProgram }
    ensures text { IfOk result (λ p. b.now ≡ text.text p) }
    ensures fault { IfErr result (λ e. IsFaultOf b.now e) }
    ensures typed { IfOk result IsTyped }
    ensures each { (p : IlProgram) → IsTextOf b.now p → IfOk result (λ q. q ≡ p) }
    ensures memory { (p : IlProgram) → IsTextOf b.now p → IfErr result (λ e. e ≡ IlFault.Memory) }
{
    let Partial {
        objects,
        routines,
        ..
    } = read_lines(alloc, b)?;
    in_order(alloc, objects.as_slice(), routines.as_slice())?;
    let Ok(program) = assemble(alloc, objects, routines) else {
        return Err(IlFault::Memory);
    };
    check(&program)?;
    Ok(program)
}

/// Nothing where objects and routines are in order, else the first of them that isn't.
fn in_order(
    alloc: Global,
    objects: &[NamedObject],
    routines: &[NamedRoutine],
) -> Result<(), IlFault>
    requires { length routines.now ≤ max_routines }
    ensures ok { OnOk result (first_out_of_order objects.now routines.now ≡ None) }
    ensures fault { IfErr result (λ e. IsOrderFault objects.now routines.now e) }
{
    let mut used = Used {
        pids: BTreeSet::new(alloc),
        names: BTreeSet::new(alloc),
    };
    let Ok(object) = misplaced_object(&mut used, objects) else {
        return Err(IlFault::Memory);
    };
    if let Some(k) = object {
        return Err(order_fault(k as u64 + 2));
    }
    let Ok(routine) = misplaced_routine(&mut used, routines) else {
        return Err(IlFault::Memory);
    };
    if let Some(k) = routine {
        let lines = named_lines(&routines[..k]);
        return Err(order_fault(objects.len() as u64 + 2 + lines));
    }
    Ok(())
}

fn order_fault(line: u64) -> IlFault
    ensures { result ≡ IlFault.At (capped line) IlKind.Order }
{
    IlFault::At {
        line: capped(line),
        kind: IlKind::Order,
    }
}

/// A line's number as it is told.
fn capped(line: u64) -> u32
    ensures { result ≡ capped line }
{
    line.min(u64::from(u32::MAX)) as u32
}

/// How many lines routines have.
fn named_lines(routines: &[NamedRoutine]) -> u64
    requires { length routines.now ≤ max_routines }
    ensures lines { result ≡ sum_by (λ r. line_count r.routine) routines.now }
    ensures bound { result ≤ 2 ^ 30 }
{
    let mut lines = 0;
    for named in routines {
        lines += line_count(&named.routine);
    }
    lines
}

/// How many lines routines have.
fn lines_of(routines: &[Routine]) -> u64
    requires { length routines.now ≤ max_routines }
    ensures lines { result ≡ sum_by line_count routines.now }
    ensures bound { result ≤ 2 ^ 30 }
{
    let mut lines = 0;
    for routine in routines {
        lines += line_count(routine);
    }
    lines
}

/// Nothing where a program's routines are valid and it has a `main`, else what is wrong first.
fn check(program: &IlProgram) -> Result<(), IlFault>
    requires { length program.now.routines ≤ max_routines }
    ensures ok { OnOk result (IsFine program.now) }
    ensures fault { IfErr result (λ e. IsCheckFault program.now e) }
{
    let first = program.objects.as_slice().len() as u64 + 2;
    let routines = program.routines.as_slice();
    if let Some(flawed) = first_flaw(routines, &program.shapes, first) {
        return Err(IlFault::At {
            line: capped(flawed.line),
            kind: IlKind::Invalid(flawed.flaw),
        });
    }
    if has_main(&program.shapes) {
        Ok(())
    } else {
        Err(IlFault::At {
            line: capped(first + lines_of(routines)),
            kind: IlKind::NoMain,
        })
    }
}
