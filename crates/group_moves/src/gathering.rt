//! The moves of accepted groups, by caller.
ghost use Rattle.std.specs.Prelude.{◌≡◌, ◌+◌, ◌<◌, ◌∷◌, ◌++◌, [], ℕ, true, List, filter, length, map, IfOk, OnOk};
ghost use Rattle.std.specs.List.{AllByRecursion};
ghost use Rattle.clone_groups.specs.Grouping.{accepted};
ghost use Rattle.group_moves.specs.Gathering.{IsBelow, IsTable, all_moves, has_moves, moves_to};
ghost use Rattle.il_core.specs.Limits.{max_pids};
ghost use Rattle.il_core.specs.Shapes.{IsRising};
ghost use Rattle.plan_pools.specs.MoveLaws.{AreMovesOf};
ghost use Rattle.plan_pools.specs.Retargeting.{AreMoves};
ghost use Rattle.plan_laws.specs.Groups.{Taken};

use clone_groups::Group;
use hlo_num::Seq;
use plan_pools::CallerMoves;
use std::alloc::{AllocError, Global};

/// The moves of accepted groups by rising caller, each of which is below a bound: each member's site goes to its group's clone.
/// The only error is want of memory. It takes time in proportion to the bound, the groups and their members, and memory for a
/// place for each PID below the bound and for the moves.
pub fn caller_moves(
    alloc: Global,
    groups: &[Group],
    bound: u32,
) -> Result<Vec<CallerMoves>, AllocError>
    requires { AllByRecursion (IsBelow bound) groups.now }
    ensures moves { (ts : List Taken) → groups.now ≡ map accepted ts → IfOk result (λ v. AreMovesOf ts v.items) }
    ensures rising { IfOk result (λ v. IsRising (λ m. m.caller) v.items) }
    ensures pids { IfOk result (λ v. AreMoves v.items) }
    ensures some { IfOk result (λ v. AllByRecursion (λ m. has_moves m ≡ true) v.items) }
{
    let mut table = empty_table(alloc, bound)?;
    note_all(table.as_mut_slice(), groups)?;
    with_moves(alloc, table)
}

/// A table of the callers below a bound, without moves.
fn empty_table(alloc: Global, bound: u32) -> Result<Vec<CallerMoves>, AllocError>
    ensures { IfOk result (λ t. IsTable bound (λ q. []) t.items) }
{
    let mut table = Vec::with_capacity(alloc, bound as usize)?;
    for caller in 0..bound {
        let moves = Seq::new(alloc);
        table.push(CallerMoves { caller, moves })?;
    }
    Ok(table)
}

/// Adds the moves of groups to a table.
fn note_all(table: &mut [CallerMoves], groups: &[Group]) -> Result<(), AllocError>
    requires { AllByRecursion (IsBelow (length table.old)) groups.now }
    ensures { (had : ℕ → List (ℕ × ℕ)) → IsTable (length table.old) had table.old
        → OnOk result (IsTable (length table.old) (λ q. had q ++ all_moves q groups.now) table.new) }
{
    for group in groups {
        note(table, group.members.as_slice(), group.clone)?;
    }
    Ok(())
}

/// Adds the moves of a group's members to a table.
fn note(table: &mut [CallerMoves], members: &[(u32, u32)], clone: u32) -> Result<(), AllocError>
    requires { AllByRecursion (λ m. m.0 < length table.old) members.now }
    ensures long { length table.new ≡ length table.old }
    ensures moves { (had : ℕ → List (ℕ × ℕ)) → IsTable (length table.old) had table.old
        → OnOk result (IsTable (length table.old) (λ q. had q ++ moves_to q clone members.now) table.new) }
{
    for (caller, site) in members {
        table[*caller as usize].moves.push((*site, clone))?;
    }
    Ok(())
}

/// The callers that have moves.
fn with_moves(alloc: Global, table: Vec<CallerMoves>) -> Result<Vec<CallerMoves>, AllocError>
    ensures { IfOk result (λ v. v.items ≡ filter has_moves table.items) }
{
    let mut callers = Vec::new(alloc);
    for caller in table {
        if has_moves(&caller) {
            callers.push(caller)?;
        }
    }
    Ok(callers)
}

/// Whether a caller has moves.
fn has_moves(caller: &CallerMoves) -> bool
    ensures { result ≡ has_moves caller.now }
{
    !caller.moves.is_empty()
}
