//! The number of each site among the sites of its routine.
ghost use Rattle.std.specs.Prelude.{◌≡◌, ◌+◌, ◌^◌, ◌<◌, ◌≤◌, ◌++◌, IfOk, List, length, slice_index_or, ℕ};
ghost use Rattle.il_core.specs.Meaning.{sites_of};
ghost use Rattle.il_core.specs.Routine.{RoutineParts};
ghost use Rattle.il_core.specs.Size.{blocks_size};
ghost use Rattle.il_run.specs.Counts.{IsNumbered, AreNumbered, numbers_in};
ghost use Rattle.il_run.specs.Machine.{routine_of};

use crate::counts::sites_at;
use il_core::{Instr, Routine};
use std::alloc::{AllocError, Global};

/// For each instruction of a routine how many calls stand before it. Those of a block stand side by
/// side, from a place on.
#[derive(Drop)]
pub struct Numbering {
    pub starts: Vec<usize>,
    pub numbers: Vec<u32>,
}

impl Numbering {
    /// The numbers of a routine, in time and memory linear in its size.
    pub fn new(alloc: Global, routine: &Routine) -> Result<Numbering, AllocError>
        ensures { IfOk result (IsNumbered routine.now) }
    {
        let blocks = routine.blocks.as_slice();
        let mut starts = Vec::with_capacity(alloc, blocks.len())?;
        let mut numbers = Vec::with_capacity(alloc, routine.size() as usize)?;
        let mut next = 0;
        for block in blocks {
            starts.push(numbers.len())?;
            next = number(&mut numbers, block.instrs.as_slice(), next)?;
        }
        Ok(Numbering { starts, numbers })
    }
}

/// Appends the numbers of some instructions, of which the first one has `first` calls before it, and
/// answers the number behind them.
fn number(numbers: &mut Vec<u32>, instrs: &[Instr], first: u32) -> Result<u32, AllocError>
    requires { first + length instrs.now < 2 ^ 32 }
    ensures next { IfOk result (λ next. next ≡ sites_of instrs.now + first) }
    ensures added { IfOk result (λ _. numbers.new.items ≡ numbers.old.items ++ numbers_in first instrs.now) }
{
    let mut next = first;
    for instr in instrs {
        numbers.push(next)?;
        next += sites_at(instr);
    }
    Ok(next)
}

/// The numbers of each routine.
pub fn numberings(alloc: Global, routines: &[Routine]) -> Result<Vec<Numbering>, AllocError>
    ensures { IfOk result (λ v. AreNumbered routines.now v.items) }
{
    let mut all = Vec::with_capacity(alloc, routines.len())?;
    for routine in routines {
        all.push(Numbering::new(alloc, routine)?)?;
    }
    Ok(all)
}
