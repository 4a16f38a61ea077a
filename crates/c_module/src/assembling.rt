//! The program of routines in the order of their modules, and of the table of their names.
ghost use Rattle.std.specs.Prelude.{◌≡◌, ◌<◌, None, IfOk, length, map, replicate};
ghost use Rattle.std.specs.List.{AllByRecursion};
ghost use Rattle.il_core.specs.Routine.{RoutineParts};
ghost use Rattle.il_core.specs.Shapes.{IsRising};
ghost use Rattle.il_core.specs.declared.shape.ShapeRow.{ShapeRow};
ghost use Rattle.c_module.specs.Assembling as specs;
ghost use Rattle.c_module.specs.Assembling.{slots};
ghost use Rattle.c_module.specs.Frames as frames;

use crate::frame::frame;
use hlo_num::Seq;
use il_core::{IlProgram, Routine};
use std::alloc::{AllocError, Global};
use sym_tables::ProgramSyms;

/// The program of the names that are routines or objects of it, by PID. It takes time and memory in proportion to the names
/// and their initial words; routines are moved, and not copied.
pub(crate) fn assembled(
    alloc: Global,
    routines: Vec<Routine>,
    syms: &ProgramSyms,
) -> Result<IlProgram, AllocError>
    requires live { AllByRecursion (λ (r : RoutineParts). r.pid < length syms.now) routines.items }
    requires rising { IsRising (λ (row : ShapeRow). row.pid) (frames.frame_rows (map (λ (r : RoutineParts). r.pid) routines.items) syms.now) }
    ensures { IfOk result (λ program. program ≡ frames.assembled routines.items syms.now) }
{
    let pids = pids_of(alloc, routines.as_slice())?;
    let (shapes, objects, names) = frame(alloc, syms, pids.as_slice())?;
    let table = by_pid(alloc, routines, names)?;
    let routines = present(alloc, table)?;
    Ok(IlProgram {
        shapes,
        objects,
        routines: Seq::from_vec(routines),
    })
}

/// The PIDs of routines, in their order.
fn pids_of(alloc: Global, routines: &[Routine]) -> Result<Vec<u32>, AllocError>
    ensures { IfOk result (λ v. v.items ≡ map (λ (r : RoutineParts). r.pid) routines.now) }
{
    let mut pids = Vec::with_capacity(alloc, routines.len())?;
    for routine in routines {
        pids.push(routine.pid)?;
    }
    Ok(pids)
}

/// For each of so many PIDs its routine, where one has it.
#[tactic(auto, using(crate::proofs::Assembled::fill_none, crate::proofs::Assembled::fill_within, crate::proofs::Assembled::fill_more, crate::proofs::Assembled::filled_all))]
fn by_pid(
    alloc: Global,
    routines: Vec<Routine>,
    names: usize,
) -> Result<Vec<Option<Routine>>, AllocError>
    requires { AllByRecursion (λ (r : RoutineParts). r.pid < names) routines.items }
    ensures { IfOk result (λ v. v.items ≡ slots routines.items 0 names) }
{
    let mut table = no_routines(alloc, names)?;
    let mut left = routines;
    while let Some(routine) = left.pop() {
        let at = routine.pid as usize;
        table[at] = Some(routine);
    }
    Ok(table)
}

/// So many slots without a routine.
fn no_routines(alloc: Global, names: usize) -> Result<Vec<Option<Routine>>, AllocError>
    ensures { IfOk result (λ v. v.items ≡ replicate names None) }
{
    let mut table = Vec::with_capacity(alloc, names)?;
    for pid in 0..names {
        table.push(None)?;
    }
    Ok(table)
}

/// The routines of a table in its order.
fn present(alloc: Global, table: Vec<Option<Routine>>) -> Result<Vec<Routine>, AllocError>
    ensures { IfOk result (λ v. v.items ≡ specs.present table.items) }
{
    let mut routines = Vec::new(alloc);
    for slot in table {
        if let Some(routine) = slot {
            routines.push(routine)?;
        }
    }
    Ok(routines)
}
