//! Passes over calls: one routine takes in another, a clone is made, and calls go elsewhere.
ghost use Rattle.std.specs.Prelude.{◌<◌, IfOk, IfSome};
ghost use Rattle.std.specs.List.{AllByRecursion};
ghost use Rattle.il_core.specs.Limits.{max_pids};
ghost use Rattle.il_core.specs.Valid.{IsProgram};
ghost use Rattle.const_prop.specs.Tables.{IsValidRoutine};

use clone_groups::{make_clone, retarget};
use hlo_num::Word;
use il_check::row_of;
use il_core::{IlProgram, Routine, limits};
use il_text::write_routine;
use inliner::{SpliceFault, splice};
use std::alloc::{AllocError, Global};

/// Puts what `splice CALLER SITE CALLEE`, `make_clone ROUTINE PID PARAMETER WORD ..` or `retarget ROUTINE SITE CALLEE ..`
/// makes behind what is shown; false where the word is none of them, or names no routine.
pub(crate) fn change_calls(
    alloc: Global,
    word: &str,
    numbers: &[u32],
    program: &IlProgram,
    shown: &mut Vec<u8>,
) -> Result<bool, AllocError>
    requires { IsProgram program.now }
{
    let [pid, others @ ..] = numbers else {
        return Ok(false);
    };
    let Some(routine) = routine_of(program, *pid) else {
        return Ok(false);
    };
    let changed = match (word, others) {
        ("splice", [site, callee]) => spliced(alloc, program, routine, *site, *callee),
        ("make_clone", [clone, fixed @ ..]) => {
            let fixed = constants(alloc, fixed)?;
            make_clone(alloc, routine, *clone, fixed.as_slice())
        }
        ("retarget", moves) => retargeted(alloc, routine, moves),
        _ => return Ok(false),
    };
    show(alloc, program, *pid, changed, shown)?;
    Ok(true)
}

/// The routine of that number.
fn routine_of(program: &IlProgram, pid: u32) -> Option<&Routine>
    requires { IsProgram program.now }
    ensures { IfSome result (λ r. IsValidRoutine r.now) }
{
    for routine in program.routines.as_slice() {
        if routine.pid == pid {
            return Some(routine);
        }
    }
    None
}

/// The caller with that callee in place of its call.
fn spliced(
    alloc: Global,
    program: &IlProgram,
    caller: &Routine,
    site: u32,
    callee: u32,
) -> Result<Routine, SpliceFault>
    requires program { IsProgram program.now }
    requires caller { IsValidRoutine caller.now }
{
    match routine_of(program, callee) {
        Some(callee) => splice(alloc, caller, site, callee),
        None => Err(SpliceFault::TooLarge),
    }
}

/// Numbers of parameters, each with its word behind it.
pub(crate) fn constants(alloc: Global, numbers: &[u32]) -> Result<Vec<(u32, Word)>, AllocError> {
    let mut fixed = Vec::new(alloc);
    for pair in 0..numbers.len() / 2 {
        fixed.push((numbers[2 * pair], Word(numbers[2 * pair + 1])))?;
    }
    Ok(fixed)
}

/// The routine whose calls go elsewhere, by numbers of sites with the new callee behind each.
fn retargeted(alloc: Global, routine: &Routine, numbers: &[u32]) -> Result<Routine, SpliceFault> {
    let Ok(moves) = moves(alloc, numbers) else {
        return Err(SpliceFault::Memory);
    };
    match retarget(alloc, routine, moves.as_slice()) {
        Ok(changed) => Ok(changed),
        Err(_) => Err(SpliceFault::Memory),
    }
}

/// Numbers of sites, each with the new callee behind it, as long as that is a PID.
fn moves(alloc: Global, numbers: &[u32]) -> Result<Vec<(u32, u32)>, AllocError>
    ensures { IfOk result (λ v. AllByRecursion (λ m. m.1 < max_pids) v.items) }
{
    let mut moves = Vec::new(alloc);
    for pair in 0..numbers.len() / 2 {
        let callee = numbers[2 * pair + 1];
        if callee < limits::PIDS {
            moves.push((numbers[2 * pair], callee))?;
        }
    }
    Ok(moves)
}

/// Puts the text of a routine that was changed behind what is shown, under the name of the routine of that number.
fn show(
    alloc: Global,
    program: &IlProgram,
    pid: u32,
    changed: Result<Routine, SpliceFault>,
    shown: &mut Vec<u8>,
) -> Result<(), AllocError> {
    match (changed, row_of(&program.shapes, pid)) {
        (Ok(routine), Some(row)) => {
            let text = write_routine(alloc, &routine, &row.name)?;
            shown.extend_from_slice(text.as_slice())
        }
        (Err(SpliceFault::Memory), _) => Err(AllocError),
        _ => shown.extend_from_slice(b"too large\n"),
    }
}
