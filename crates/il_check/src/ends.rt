//! The conditions of the ends of blocks.
ghost use Rattle.std.specs.Prelude.{◌≡◌};
ghost use Rattle.il_check.specs.Conditions.{first_broken, is_later, end_conditions};

use crate::flaw::{Flaw, flaw_unless};
use il_core::End;

/// What is wrong with the end of the block of a number, in a routine with so many registers and blocks that
/// gives a value or none.
pub(crate) fn end_flaw(
    regs: u32,
    value: bool,
    blocks: usize,
    number: usize,
    end: End,
) -> Option<Flaw>
    ensures { result ≡ first_broken (end_conditions regs value blocks number end) }
{
    match end {
        End::Jump(t) => flaw_unless(true, is_later(blocks, number, t), Flaw::Target),
        End::Branch(r, t, u) => flaw_unless(
            r < regs,
            is_later(blocks, number, t) && is_later(blocks, number, u),
            Flaw::Target,
        ),
        End::Loop(t) => flaw_unless(true, t as usize <= number, Flaw::Target),
        End::Return(None) => flaw_unless(true, !value, Flaw::ReturnKind),
        End::Return(Some(r)) => flaw_unless(r < regs, value, Flaw::ReturnKind),
        End::Exit(r) => flaw_unless(r < regs, true, Flaw::Target),
    }
}

/// Whether a block comes after the block of a number, of so many.
fn is_later(blocks: usize, number: usize, target: u32) -> bool
    ensures { result ≡ is_later blocks number target }
{
    number < target as usize && (target as usize) < blocks
}
