//! The text of a routine.
ghost use Rattle.std.specs.Prelude.{◌≡◌, ◌+◌, ◌<◌, ◌^◌, ◌++◌, IfOk, OnOk, length, flat_map, string_bytes};
ghost use Rattle.il_core.specs.Text.{line, indented, instr_parts, block_text, blocks_text, routine_parts, arrays_parts, routine_text};
ghost use Rattle.il_text.specs.Spaced.{spaced, routine_head};

use crate::instr::{write_end, write_instr};
use hlo_num::Name;
use il_core::{Block, Instr, Routine};
use std::alloc::{AllocError, Global};
use std::fmt::Write;
use std::str;

/// The text of a routine under its name, in time linear in the text.
pub fn write_routine(alloc: Global, routine: &Routine, name: &Name) -> Result<Vec<u8>, AllocError>
    ensures { IfOk result (λ v. v.items ≡ routine_text name.now routine.now) }
{
    let mut out = String::new(alloc);
    write_first_line(&mut out, routine, name)?;
    write_blocks(&mut out, routine.blocks.as_slice())?;
    writeln!(out, "end")?;
    Ok(out.into_bytes())
}

/// Adds the first line of a routine.
fn write_first_line(out: &mut String, routine: &Routine, name: &Name) -> Result<(), AllocError>
    ensures { OnOk result (string_bytes out.new ≡ string_bytes out.old ++ line (routine_parts name.now routine.now)) }
{
    write_head_of(out, routine, name)?;
    write_arrays(out, routine.arrays.as_slice())?;
    writeln!(out)?;
    Ok(())
}

/// Adds the lengths of the local arrays, where there are any, with a space before each part.
fn write_arrays(out: &mut String, arrays: &[u32]) -> Result<(), AllocError>
    ensures { OnOk result (string_bytes out.new ≡ string_bytes out.old ++ spaced (arrays_parts arrays.now)) }
{
    if arrays.is_empty() {
        return Ok(());
    }
    write!(out, " arrays")?;
    for len in arrays {
        write!(out, " {len}")?;
    }
    Ok(())
}

/// Adds the first line of a routine up to the lengths of its arrays.
fn write_head_of(out: &mut String, routine: &Routine, name: &Name) -> Result<(), AllocError>
    ensures { OnOk result (string_bytes out.new ≡ string_bytes out.old ++ routine_head name.now routine.now) }
{
    let (pid, params, regs, entry) = (routine.pid, routine.params, routine.regs, routine.entry);
    let value = if routine.value { "value" } else { "void" };
    let name = text_of(name);
    write!(
        out,
        "routine {pid} {name} params {params} {value} regs {regs} entry {entry}"
    )
}

/// A name as text.
pub(crate) fn text_of(name: &Name) -> &str
    ensures { result.now ≡ name.now }
{
    match str::from_utf8(name.bytes()) {
        Ok(text) => text,
        Err(_) => unreachable!(),
    }
}

/// Adds the blocks of a routine.
fn write_blocks(out: &mut String, blocks: &[Block]) -> Result<(), AllocError>
    ensures { OnOk result (string_bytes out.new ≡ string_bytes out.old ++ blocks_text 0 blocks.now) }
{
    for (number, block) in blocks.iter().enumerate() {
        write_block(out, number, block)?;
    }
    Ok(())
}

/// Adds a block.
fn write_block(out: &mut String, number: usize, block: &Block) -> Result<(), AllocError>
    ensures { OnOk result (string_bytes out.new ≡ string_bytes out.old ++ block_text number block.now) }
{
    writeln!(out, "b{number}:")?;
    write_instrs(out, block.instrs.as_slice())?;
    write_end(out, &block.end)
}

/// Adds the lines of instructions.
fn write_instrs(out: &mut String, instrs: &[Instr]) -> Result<(), AllocError>
    ensures { OnOk result (string_bytes out.new ≡ string_bytes out.old ++ flat_map (λ i. indented (instr_parts i)) instrs.now) }
{
    for instr in instrs {
        write_instr(out, instr)?;
    }
    Ok(())
}
