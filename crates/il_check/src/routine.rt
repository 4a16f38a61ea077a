//! Whether a routine is valid.
ghost use Rattle.std.specs.Prelude.{◌≡◌, ◌↔◌, IsNone};
ghost use Rattle.il_core.specs.Valid.{IsValid};
ghost use Rattle.il_check.specs.Conditions.{first_broken, block_conditions, blocks_conditions, conditions};

use crate::ends::end_flaw;
use crate::flaw::Flaw;
use crate::instrs::instrs_flaw;
use il_core::{Block, Routine, Shapes};

/// The first flaw of a routine in a program with these shapes, or none where it is valid. It takes no memory.
/// It takes time in proportion to the routine's size, its calls' arguments, and the logarithm of the shapes for
/// each PID that it names.
pub fn validate(r: &Routine, shapes: &Shapes) -> Option<Flaw>
    ensures valid { IsNone result ↔ IsValid shapes.now r.now }
    ensures first { result ≡ first_broken (conditions shapes.now r.now) }
{
    if r.params > r.regs {
        return Some(Flaw::Params);
    }
    if r.blocks.is_empty() {
        return Some(Flaw::Target);
    }
    blocks_flaw(r, shapes)
}

/// The first flaw of a routine's blocks.
fn blocks_flaw(r: &Routine, shapes: &Shapes) -> Option<Flaw>
    ensures { result ≡ first_broken (blocks_conditions shapes.now r.now 0 r.now.blocks) }
{
    for (number, block) in r.blocks.as_slice().iter().enumerate() {
        if let Some(flaw) = block_flaw(r, shapes, number, block) {
            return Some(flaw);
        }
    }
    None
}

/// The first flaw of a routine's block of a number.
fn block_flaw(r: &Routine, shapes: &Shapes, number: usize, block: &Block) -> Option<Flaw>
    ensures { result ≡ first_broken (block_conditions shapes.now r.now number block.now) }
{
    match instrs_flaw(shapes, r.regs, r.arrays.len(), block.instrs.as_slice()) {
        Some(flaw) => Some(flaw),
        None => end_flaw(r.regs, r.value, r.blocks.len(), number, block.end),
    }
}
