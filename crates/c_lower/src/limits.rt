//! What a routine may have at most, besides its registers and its size.
ghost use Rattle.std.specs.Prelude.{◌≡◌, ◌≤◌, ◌↔◌, IsTrue, length, nat_le, sum};
ghost use Rattle.std.specs.List.{AllByRecursion};
ghost use Rattle.il_core.specs.Limits.{IsBlock, IsInstr, max_arrays, max_elements};

use crate::operations::is_narrow;
use il_core::{Block, Instr, limits};

/// Whether the arrays have at most so many elements together.
pub(crate) fn has_few_elements(arrays: &[u32]) -> bool
    requires { length arrays.now ≤ max_arrays }
    ensures { result ≡ nat_le (sum arrays.now) max_elements }
{
    let mut elements: u64 = 0;
    for length in arrays {
        elements += u64::from(*length);
    }
    elements <= u64::from(limits::ELEMENTS)
}

/// Whether an instruction keeps the limits: a PID is in its range, and a call has few arguments.
fn keeps_limits(instr: &Instr) -> bool
    ensures { IsTrue result ↔ IsInstr instr.now }
{
    match instr {
        Instr::Conv(_, ty, _) => is_narrow(*ty),
        Instr::Get(_, pid) | Instr::Set(pid, _) | Instr::GetX(_, pid, _) | Instr::SetX(pid, _, _) =>
            *pid < limits::PIDS,
        Instr::Call { callee, args, .. } => {
            *callee < limits::PIDS && args.len() <= limits::PARAMETERS as usize
        }
        Instr::Const(..)
        | Instr::Move(..)
        | Instr::Bin(..)
        | Instr::GetA(..)
        | Instr::SetA(..)
        | Instr::Clear(..)
        | Instr::Turn
        | Instr::GetChar(_)
        | Instr::PutChar(..) => true,
    }
}

/// Whether all instructions do.
fn all_keep_limits(instrs: &[Instr]) -> bool
    ensures { IsTrue result ↔ AllByRecursion IsInstr instrs.now }
{
    for instr in instrs {
        if !keeps_limits(instr) {
            return false;
        }
    }
    true
}

/// Whether the instructions of all blocks do.
pub(crate) fn blocks_keep_limits(blocks: &[Block]) -> bool
    ensures { IsTrue result ↔ AllByRecursion IsBlock blocks.now }
{
    for block in blocks {
        if !all_keep_limits(block.instrs.as_slice()) {
            return false;
        }
    }
    true
}
