//! That the numbers of a routine fit 32 bits, which contracts learn where the numbers are read. These
//! calls change nothing, and nothing of them is left in the built program.
ghost use Rattle.std.specs.List.{AllByRecursion};
ghost use Rattle.il_core.specs.Limits.{IsBlock, IsInstr};
ghost use Rattle.il_core.specs.Ranges.{AreWords, IsBlockOfWords, numbers_of};
ghost use Rattle.compact_form.specs.Compact.{IsRoutine};

use crate::row::{Row, head_of};
use il_core::{Block, Instr, Routine};

/// Tells what a routine keeps of its numbers.
pub(crate) fn tell(routine: &Routine)
    ensures { IsRoutine routine.now }
{
    let _head = head_of(routine);
    tell_blocks(routine.blocks.as_slice());
}

fn tell_blocks(blocks: &[Block])
    requires { AllByRecursion IsBlock blocks.now }
    ensures { AllByRecursion IsBlockOfWords blocks.now }
{
    for block in blocks {
        tell_block(block);
    }
}

fn tell_block(block: &Block)
    requires { IsBlock block.now }
    ensures { IsBlockOfWords block.now }
{
    tell_instrs(block.instrs.as_slice());
    let _row = Row::of_end(block.end);
}

fn tell_instrs(instrs: &[Instr])
    requires { AllByRecursion IsInstr instrs.now }
    ensures { AllByRecursion (λ i. AreWords (numbers_of i)) instrs.now }
{
    for instr in instrs {
        let _row = Row::of_instr(instr);
    }
}
