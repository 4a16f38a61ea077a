//! Which calls of a program are inlined, and in which waves.
ghost use Rattle.std.specs.Prelude.{◌≡◌, IfOk, map};
ghost use Rattle.std.specs.List.{AllByRecursion};
ghost use Rattle.il_core.specs.Limits.{IsWithinLimits};
ghost use Rattle.il_core.specs.Valid.{IsProgram};
ghost use Rattle.plan_laws.specs.Summary as plan;
ghost use Rattle.call_graph.specs.Summaries.{summary_of};

use crate::telling::{main_of, summary, tell_number, tell_numbers};
use call_graph::Summary;
use il_core::IlProgram;
use inline_budget::{Choice, choose, waves};
use std::alloc::{AllocError, Global};

/// Puts the calls that are inlined under a limit of the cost behind what is shown, a line with the caller, the site and
/// the callee for each, and the callers of each wave.
pub(crate) fn tell_choice(
    alloc: Global,
    limit: u64,
    program: &IlProgram,
    shown: &mut Vec<u8>,
) -> Result<(), AllocError>
    requires valid { IsProgram program.now }
    requires within { AllByRecursion IsWithinLimits program.now.routines }
{
    let summaries = summaries(alloc, program)?;
    let choices = choose(alloc, summaries.as_slice(), main_of(program), limit)?;
    tell_choices(choices.as_slice(), shown)?;
    for wave in &waves(alloc, choices.as_slice())? {
        shown.extend_from_slice(b"wave:")?;
        tell_numbers(wave.as_slice(), shown)?;
    }
    Ok(())
}

fn tell_choices(choices: &[Choice], shown: &mut Vec<u8>) -> Result<(), AllocError> {
    for choice in choices {
        shown.extend_from_slice(b"inlined:")?;
        tell_number(choice.caller, shown)?;
        tell_number(choice.site, shown)?;
        tell_number(choice.callee, shown)?;
        shown.push(b'\n')?;
    }
    Ok(())
}

/// The summaries of a program's routines.
pub(crate) fn summaries(alloc: Global, program: &IlProgram) -> Result<Vec<Summary>, AllocError>
    requires { IsProgram program.now }
    ensures { IfOk result (λ v. map summary_of v.items ≡ plan.summaries program.now) }
{
    let mut summaries = Vec::with_capacity(alloc, program.routines.len())?;
    for routine in program.routines.as_slice() {
        summaries.push(summary(alloc, routine)?)?;
    }
    Ok(summaries)
}
