//! Four rounds of all changes of one routine.
ghost use Rattle.std.specs.Prelude.{◌≡◌, IfOk};
ghost use Rattle.il_laws.specs.Simplify.{one_round, simplify};
ghost use Rattle.const_prop.specs.Tables.{IsValidRoutine};

use crate::branches::fold_branches_owned;
use crate::dead::drop_dead_writes_owned;
use crate::merge::merge_blocks_owned;
use crate::unreachable::drop_unreachable_owned;
use const_prop::{copy_routine, propagate_owned};
use il_core::Routine;
use std::alloc::{AllocError, Global};

/// A routine after four rounds of `propagate`, `fold_branches`, `drop_unreachable`, `drop_dead_writes` and
/// `merge_blocks`. It keeps what every routine does, and is no larger (`il_laws::simplify_keeps`). The only error is want
/// of memory. It takes time and memory for one copy of the routine, and what `simplify_owned` takes.
pub fn simplify(alloc: Global, r: &Routine) -> Result<Routine, AllocError>
    requires { IsValidRoutine r.now }
    ensures { IfOk result (λ q. q ≡ simplify r.now) }
{
    let copy = copy_routine(alloc, r)?;
    simplify_owned(alloc, copy)
}

/// The same of a routine that isn't wanted any more, changed in place: no instruction is copied. It takes four times what
/// the five changes take together: two passes of facts (`const_prop::Flow`), live registers as sets of bits, and time in
/// proportion to the routine.
pub fn simplify_owned(alloc: Global, r: Routine) -> Result<Routine, AllocError>
    requires { IsValidRoutine r }
    ensures { IfOk result (λ q. q ≡ simplify r) }
{
    let first = one_round(alloc, r)?;
    let second = one_round(alloc, first)?;
    let third = one_round(alloc, second)?;
    one_round(alloc, third)
}

/// A routine after all five changes.
fn one_round(alloc: Global, r: Routine) -> Result<Routine, AllocError>
    requires { IsValidRoutine r }
    ensures { IfOk result (λ q. q ≡ one_round r) }
{
    let constants = propagate_owned(alloc, r)?;
    let folded = fold_branches_owned(alloc, constants)?;
    let reached = drop_unreachable_owned(alloc, folded)?;
    let thinned = drop_dead_writes_owned(alloc, reached)?;
    merge_blocks_owned(alloc, thinned)
}
