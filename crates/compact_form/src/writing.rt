//! Writing routines.
ghost use Rattle.std.specs.Prelude.{◌≡◌, ◌∷◌, ◌++◌, ◌^◌, ◌≤◌, take as first, length, flat_map, OnOk};
ghost use Rattle.std.specs.List.{AllByRecursion};
ghost use Rattle.il_core.specs.Limits.{IsBlock, IsInstr, max_size};
ghost use Rattle.compact_form.specs.Compact.{block_form, compact, counted, instr_form};
ghost use Rattle.compact_form.specs.Numbers.{spelled};

use crate::row::{Row, head_of};
use il_core::{Block, Instr, Routine};
use std::alloc::AllocError;
use var_bytes::put;

fn put_number(out: &mut Vec<u8>, n: u32) -> Result<(), AllocError>
    ensures { OnOk result (out.new.items ≡ out.old.items ++ spelled n) }
{
    put(out, n)
}

fn put_numbers(out: &mut Vec<u8>, numbers: &[u32]) -> Result<(), AllocError>
    ensures { OnOk result (out.new.items ≡ out.old.items ++ flat_map spelled numbers.now) }
{
    for n in numbers {
        put_number(out, *n)?;
    }
    Ok(())
}

fn put_row(out: &mut Vec<u8>, row: &Row<'_>) -> Result<(), AllocError>
    requires { row.now.count ≤ 4 }
    ensures { OnOk result (out.new.items ≡ out.old.items ++ (row.now.opcode ∷
        (flat_map spelled (first row.now.count row.now.numbers) ++ flat_map spelled row.now.args.now))) }
{
    out.push(row.opcode)?;
    put_numbers(out, &row.numbers[..row.count])?;
    put_numbers(out, row.args)
}

fn put_instrs(out: &mut Vec<u8>, instrs: &[Instr]) -> Result<(), AllocError>
    requires { AllByRecursion IsInstr instrs.now }
    ensures { OnOk result (out.new.items ≡ out.old.items ++ flat_map instr_form instrs.now) }
{
    for instr in instrs {
        put_instr(out, instr)?;
    }
    Ok(())
}

fn put_instr(out: &mut Vec<u8>, instr: &Instr) -> Result<(), AllocError>
    requires { IsInstr instr.now }
    ensures { OnOk result (out.new.items ≡ out.old.items ++ instr_form instr.now) }
{
    let row = Row::of_instr(instr);
    put_row(out, &row)
}

fn put_blocks(out: &mut Vec<u8>, blocks: &[Block]) -> Result<(), AllocError>
    requires limits { AllByRecursion IsBlock blocks.now }
    requires sizes { AllByRecursion (λ b. length b.instrs ≤ max_size) blocks.now }
    ensures { OnOk result (out.new.items ≡ out.old.items ++ flat_map block_form blocks.now) }
{
    for block in blocks {
        put_block(out, block)?;
    }
    Ok(())
}

fn put_block(out: &mut Vec<u8>, block: &Block) -> Result<(), AllocError>
    requires limits { IsBlock block.now }
    requires size { length block.now.instrs ≤ max_size }
    ensures { OnOk result (out.new.items ≡ out.old.items ++ block_form block.now) }
{
    let instrs = block.instrs.as_slice();
    put_number(out, instrs.len() as u32)?;
    put_instrs(out, instrs)?;
    let row = Row::of_end(block.end);
    put_row(out, &row)
}

/// Appends the compact form of a routine.
pub(crate) fn put_routine(out: &mut Vec<u8>, routine: &Routine) -> Result<(), AllocError>
    ensures { OnOk result (out.new.items ≡ out.old.items ++ compact routine.now) }
{
    let head = head_of(routine);
    let arrays = routine.arrays.as_slice();
    let blocks = routine.blocks.as_slice();
    put_numbers(out, &head)?;
    put_number(out, arrays.len() as u32)?;
    put_numbers(out, arrays)?;
    put_number(out, blocks.len() as u32)?;
    put_blocks(out, blocks)
}
