//! The accepted calls of a program, inlined in its pools.
ghost use Rattle.std.specs.Prelude.{◌≡◌, ℕ, map, true, IfErr, IfOk};
ghost use Rattle.il_core.specs.declared.program.IlProgram.{IlProgram as ProgramData};
ghost use Rattle.il_laws.specs.Keeping.{with_each};
ghost use Rattle.inline_budget.specs.Calls.{calls_of};
ghost use Rattle.one_owner.specs.Alone.{IsResting};
ghost use Rattle.plan_pools.specs.Contents.{IsContents};
ghost use Rattle.plan_laws.specs.Inlining.{inlined_routine};
ghost use Rattle.plan_laws.specs.Levels.{is_acyclic, waves};
ghost use Rattle.plan_laws.specs.Numbers.{is_chosen};
ghost use Rattle.plan_pools.specs.Accepting.{is_accepted};
ghost use Rattle.plan_pools.specs.Inlining.{IsInlinedNeed, MayInline};
ghost use Rattle.plan_pools.specs.Stopping.{StillRests, StopsInlining};

use crate::accepted::Accepted;
use crate::pools::PlanLoader;
use crate::simplifying::{Unmade, stands, stop};
use crate::waving::inline_waves;
use il_core::Shapes;
use inline_budget::{Choice, waves};
use naim_core::Failure;
use outside::Disk;
use std::alloc::{AllocError, Global};

/// Inlines the accepted calls in their pools, wave by wave. Over a trusted disk the pools hold each routine with all its accepted
/// callees in it from then on, where they held a valid program with these shapes, the calls are its own, and each routine with
/// its callees is within the limits of the language. The others are as they were.
///
/// The error is the failure that the loader keeps from then on: `Repository` where the disk's count rose, `Damaged`, `Unreadable` and
/// `Unfit` never over a trusted disk that holds such a program, `TooSmall` where the compact form of a routine with its callees is
/// longer than the limit, or `Memory`. It takes time in proportion to the calls, their greatest PID and site; for each accepted site
/// that of the caller as it is by then and of the callee, and what bringing both back and making room takes; and memory for one
/// routine beside the pools, and for tables up to the greatest PID.
pub fn inline_program<D: Disk + Drop>(
    alloc: Global,
    loader: &mut PlanLoader<D>,
    shapes: &Shapes,
    choices: &[Choice],
) -> Result<(), Failure>
    requires rests { IsResting loader.old }
    requires acyclic { is_acyclic (calls_of choices.now) ≡ true }
    ensures ok { IfOk result (λ _. StillRests D.faults loader.old loader.new) }
    ensures program { (p : ProgramData) → MayInline D.reach D.honest loader.old shapes.now (calls_of choices.now) p
        → IfOk result (λ _. IsContents loader.new (with_each p (inlined_routine p.routines (calls_of choices.now)))) }
    ensures err { IfErr result (λ f. StopsInlining D.reach D.honest D.faults
        (λ q. (p : ProgramData) → MayInline D.reach D.honest loader.old shapes.now (calls_of choices.now) p → ⊥)
        (λ q n. (p : ProgramData) → MayInline D.reach D.honest loader.old shapes.now (calls_of choices.now) p → IsInlinedNeed p (calls_of choices.now) q n)
        loader.old loader.new f) }
{
    stands(loader);
    match prepare(alloc, choices) {
        Ok(plan) => inline_waves(alloc, loader, shapes, &plan.accepted, plan.waves.as_slice()),
        Err(_) => Err(stop(loader, 0, Unmade::Memory)),
    }
}

/// Accepted calls by caller, and the waves in which their callers come.
#[derive(Drop)]
struct Plan {
    accepted: Accepted,
    waves: Vec<Vec<u32>>,
}

/// What inlining these calls asks for.
fn prepare(alloc: Global, choices: &[Choice]) -> Result<Plan, AllocError>
    requires { is_acyclic (calls_of choices.now) ≡ true }
    ensures accepted { IfOk result (λ x. (p k : ℕ) → is_accepted x.accepted p k ≡ is_chosen (calls_of choices.now) p k) }
    ensures waves { IfOk result (λ x. map (λ w. w.items) x.waves.items ≡ waves (calls_of choices.now)) }
{
    let accepted = Accepted::new(alloc, choices)?;
    let waves = waves(alloc, choices)?;
    Ok(Plan { accepted, waves })
}
