//! The waves of inlining.
ghost use Rattle.std.specs.Prelude.{◌≡◌, ◌≤◌, ◌^◌, IfOk, OnOk, length, map, true};
ghost use Rattle.std.specs.List.{AllByRecursion};
ghost use Rattle.plan_laws.specs.Levels.{is_acyclic, waves};
ghost use Rattle.plan_laws.specs.Orders.{greatest};
ghost use Rattle.inline_budget.specs.Calls.{calls_of};
ghost use Rattle.inline_budget.specs.Levelling.{levelled};

use crate::buckets::Buckets;
use crate::choice::Choice;
use crate::levels::levels_of;
use std::alloc::{AllocError, Global};

/// The waves in which calls are inlined. A routine's level is 0 where it has none of these calls, and else one more than
/// the greatest level of its callees; wave k has the routines of level k + 1, by rising PID. The calls are free of
/// cycles. The only error is want of memory. It takes time in proportion to the calls and the greatest PID, and memory
/// for tables that go up to that PID.
pub fn waves(alloc: Global, calls: &[Choice]) -> Result<Vec<Vec<u32>>, AllocError>
    requires { is_acyclic (calls_of calls.now) ≡ true }
    ensures { IfOk result (λ v. map (λ w. w.items) v.items ≡ waves (calls_of calls.now)) }
{
    let levels = levels_of(alloc, calls)?;
    let mut waves = Buckets::new(alloc, highest(levels.as_slice()))?;
    put_levels(&mut waves, levels.as_slice())?;
    Ok(waves.into_lists())
}

/// The greatest of levels.
fn highest(levels: &[usize]) -> usize
    ensures { result ≡ greatest (λ l. l) levels.now }
{
    let mut highest = 0;
    for level in levels {
        if highest < *level {
            highest = *level;
        }
    }
    highest
}

/// Puts each routine to those of its level.
fn put_levels(waves: &mut Buckets, levels: &[usize]) -> Result<(), AllocError>
    requires few { length levels.now ≤ 2 ^ 32 }
    requires levels { AllByRecursion (λ l. l ≤ length waves.old) levels.now }
    ensures { OnOk result (waves.new ≡ levelled waves.old 0 levels.now) }
{
    for (pid, level) in levels.iter().enumerate() {
        if *level > 0 {
            waves.put(*level - 1, pid as u32)?;
        }
    }
    Ok(())
}
