//! Whether a routine with a callee in it is within the limits of the language.
ghost use Rattle.std.specs.Prelude.{◌≡◌, ◌+◌, ◌&&◌, ◌≤◌, length, nat_le, sum};
ghost use Rattle.il_core.specs.Limits.{max_arrays, max_elements, max_registers, max_size};
ghost use Rattle.il_core.specs.Size.{blocks_size};

use il_core::{Block, Routine, limits};

/// Whether the registers, the local arrays and their elements of both together are few enough.
pub(crate) fn have_room(caller: &Routine, callee: &Routine) -> bool
    ensures { result ≡ (nat_le (caller.now.regs + callee.now.regs) max_registers && nat_le (length caller.now.arrays + length callee.now.arrays) max_arrays &&
        nat_le (sum caller.now.arrays + sum callee.now.arrays) max_elements) }
{
    let arrays = caller.arrays.len() + callee.arrays.len();
    let elements = total(caller.arrays.as_slice()) + total(callee.arrays.as_slice());
    caller.regs + callee.regs <= limits::REGISTERS
        && arrays <= limits::ARRAYS as usize
        && elements <= limits::ELEMENTS
}

/// The sum of numbers.
fn total(numbers: &[u32]) -> u32
    requires { sum numbers.now ≤ max_elements }
    ensures { result ≡ sum numbers.now }
{
    numbers.iter().sum()
}

/// Whether blocks have few enough instructions and ends.
pub(crate) fn are_few(blocks: &[Block]) -> bool
    ensures { result ≡ nat_le (blocks_size blocks.now) max_size }
{
    let mut left = limits::SIZE as usize;
    for block in blocks {
        let instrs = block.instrs.len();
        if instrs >= left {
            return false;
        }
        left -= instrs + 1;
    }
    true
}
