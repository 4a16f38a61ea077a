//! Passes that change routines.
ghost use Rattle.il_core.specs.Valid.{IsProgram};
ghost use Rattle.const_prop.specs.Tables.{IsValidRoutine};

use cleanup::{drop_dead_writes, drop_unreachable, fold_branches, merge_blocks, simplify};
use const_prop::{copy_routine, propagate};
use il_check::row_of;
use il_core::{IlProgram, Routine};
use il_text::write_routine;
use std::alloc::{AllocError, Global};

/// Puts each routine of a program, as a pass changes it, behind what is shown.
pub(crate) fn change(
    alloc: Global,
    pass: &str,
    program: &IlProgram,
    shown: &mut Vec<u8>,
) -> Result<(), AllocError>
    requires { IsProgram program.now }
{
    for routine in program.routines.as_slice() {
        let changed = changed(alloc, pass, routine)?;
        if let Some(row) = row_of(&program.shapes, changed.pid) {
            let text = write_routine(alloc, &changed, &row.name)?;
            shown.extend_from_slice(text.as_slice())?;
        }
    }
    Ok(())
}

/// A routine as a pass changes it; as it is where the word names no pass.
fn changed(alloc: Global, pass: &str, routine: &Routine) -> Result<Routine, AllocError>
    requires { IsValidRoutine routine.now }
{
    if pass == "propagate" {
        propagate(alloc, routine)
    } else if pass == "fold_branches" {
        fold_branches(alloc, routine)
    } else if pass == "drop_unreachable" {
        drop_unreachable(alloc, routine)
    } else if pass == "drop_dead_writes" {
        drop_dead_writes(alloc, routine)
    } else if pass == "merge_blocks" {
        merge_blocks(alloc, routine)
    } else if pass == "simplify" {
        simplify(alloc, routine)
    } else {
        copy_routine(alloc, routine)
    }
}
