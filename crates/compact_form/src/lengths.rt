//! How many bytes compact forms have.
ghost use Rattle.std.specs.Prelude.{◌≡◌, ◌+◌, ◌*◌, ◌^◌, ◌<◌, ◌≤◌, take as first, length, flat_map};
ghost use Rattle.std.specs.List.{AllByRecursion};
ghost use Rattle.il_core.specs.Limits.{IsBlock, IsInstr, max_arrays, max_parameters, max_size};
ghost use Rattle.il_core.specs.Size.{blocks_size};
ghost use Rattle.compact_form.specs.Compact.{block_form, compact, instr_form};
ghost use Rattle.compact_form.specs.Numbers.{spelled};

use crate::row::{Row, head_of};
use il_core::{Block, Instr, Routine};
use var_bytes::len;

fn number_len(n: u32) -> u32
    ensures len { result ≡ length (spelled n) }
    ensures bound { result ≤ 5 }
{
    len(n)
}

fn numbers_len(numbers: &[u32]) -> u32
    requires { length numbers.now ≤ max_arrays }
    ensures len { result ≡ length (flat_map spelled numbers.now) }
    ensures bound { result ≤ 5 * length numbers.now }
{
    let mut total = 0;
    for n in numbers {
        total += number_len(*n);
    }
    total
}

fn row_len(row: &Row<'_>) -> u32
    requires count { row.now.count ≤ 4 }
    requires args { length row.now.args.now ≤ max_parameters }
    ensures len { result ≡ 1 + length (flat_map spelled (first row.now.count row.now.numbers)) + length (flat_map spelled row.now.args.now) }
    ensures bound { result ≤ 176 }
{
    1 + numbers_len(&row.numbers[..row.count]) + numbers_len(row.args)
}

fn instr_len(instr: &Instr) -> u32
    requires { IsInstr instr.now }
    ensures len { result ≡ length (instr_form instr.now) }
    ensures bound { result ≤ 176 }
{
    let row = Row::of_instr(instr);
    row_len(&row)
}

fn instrs_len(instrs: &[Instr]) -> u32
    requires limits { AllByRecursion IsInstr instrs.now }
    requires few { length instrs.now ≤ max_size }
    ensures len { result ≡ length (flat_map instr_form instrs.now) }
    ensures bound { result ≤ 176 * length instrs.now }
{
    let mut total = 0;
    for instr in instrs {
        total += instr_len(instr);
    }
    total
}

fn block_len(block: &Block) -> u32
    requires limits { IsBlock block.now }
    requires few { length block.now.instrs ≤ max_size }
    ensures len { result ≡ length (block_form block.now) }
    ensures bound { result ≤ 200 * (length block.now.instrs + 1) }
{
    let instrs = block.instrs.as_slice();
    let row = Row::of_end(block.end);
    number_len(instrs.len() as u32) + instrs_len(instrs) + row_len(&row)
}

fn blocks_len(blocks: &[Block]) -> u32
    requires limits { AllByRecursion IsBlock blocks.now }
    requires size { blocks_size blocks.now ≤ max_size }
    ensures len { result ≡ length (flat_map block_form blocks.now) }
    ensures bound { result ≤ 200 * blocks_size blocks.now }
{
    let mut total = 0;
    for block in blocks {
        total += block_len(block);
    }
    total
}

/// How many bytes the compact form of a routine has.
pub(crate) fn routine_len(routine: &Routine) -> u32
    ensures { result ≡ length (compact routine.now) }
{
    let head = head_of(routine);
    let arrays = routine.arrays.as_slice();
    let blocks = routine.blocks.as_slice();
    let lists = number_len(arrays.len() as u32)
        + numbers_len(arrays)
        + number_len(blocks.len() as u32);
    numbers_len(&head) + lists + blocks_len(blocks)
}
