//! The first lines of a program's text.
ghost use Rattle.std.specs.Prelude.{◌≡◌, ◌++◌, IfOk, OnOk, map, flat_map, string_bytes};
ghost use Rattle.il_core.specs.Program.{name_at};
ghost use Rattle.il_core.specs.Text.{line, word, head_text, object_parts, init_parts};
ghost use Rattle.il_text.specs.Spaced.{spaced, object_head};

use crate::instr::signed_of;
use crate::routine::text_of;
use hlo_num::Word;
use il_check::row_of;
use il_core::{Object, Shapes};
use std::alloc::{AllocError, Global};
use std::fmt::Write;

/// The text of a program up to its routines: the first line, and a line for each object under its name. It
/// takes time in proportion to the text, and the logarithm of the shapes for each object.
pub fn write_head(alloc: Global, objects: &[Object], shapes: &Shapes) -> Result<Vec<u8>, AllocError>
    ensures { IfOk result (λ v. v.items ≡ head_text shapes.now objects.now) }
{
    let mut out = String::new(alloc);
    writeln!(out, "hlo-il 1")?;
    write_objects(&mut out, objects, shapes)?;
    Ok(out.into_bytes())
}

/// Adds the lines of objects.
fn write_objects(out: &mut String, objects: &[Object], shapes: &Shapes) -> Result<(), AllocError>
    ensures { OnOk result (string_bytes out.new ≡ string_bytes out.old ++ flat_map (λ o. line (object_parts (name_at shapes.now o.pid) o)) objects.now) }
{
    for object in objects {
        write_object(out, object, name_of(shapes, object.pid))?;
    }
    Ok(())
}

/// The name of a PID as text, or nothing.
fn name_of(shapes: &Shapes, pid: u32) -> &str
    ensures { result.now ≡ name_at shapes.now pid }
{
    match row_of(shapes, pid) {
        Some(row) => text_of(&row.name),
        None => "",
    }
}

/// Adds the line of an object.
fn write_object(out: &mut String, object: &Object, name: &str) -> Result<(), AllocError>
    ensures { OnOk result (string_bytes out.new ≡ string_bytes out.old ++ line (object_parts name.now object.now)) }
{
    write_object_head(out, object, name)?;
    write_init(out, object.init.as_slice())?;
    writeln!(out)?;
    Ok(())
}

/// Adds the line of an object up to its number of words.
fn write_object_head(out: &mut String, object: &Object, name: &str) -> Result<(), AllocError>
    ensures { OnOk result (string_bytes out.new ≡ string_bytes out.old ++ object_head name.now object.now) }
{
    let (pid, words) = (object.pid, object.words);
    write!(out, "object {pid} {name} {words}")
}

/// Adds the words at the start, where there are any, with a space before each part.
fn write_init(out: &mut String, init: &[Word]) -> Result<(), AllocError>
    ensures { OnOk result (string_bytes out.new ≡ string_bytes out.old ++ spaced (init_parts init.now)) }
{
    if init.is_empty() {
        return Ok(());
    }
    write!(out, " =")?;
    for w in init {
        write!(out, " {}", signed_of(*w))?;
    }
    Ok(())
}
