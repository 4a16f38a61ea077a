//! Texts that are read line by line.
ghost use Rattle.std.specs.Prelude.{◌≡◌, ◌+◌, ◌≤◌, ◌^◌, IfOk, length};
ghost use Rattle.il_core.specs.Size.{size};
ghost use Rattle.il_core.specs.Limits.{IsBlock, max_size};
ghost use Rattle.il_text.specs.Lines.{IsFitLine, IsFitStatement};
ghost use Rattle.il_text.specs.Partials.{in_block, in_routine, next, outside, with_block};
ghost use Rattle.il_text.specs.FitPartials.{IsFitPlace};

use crate::line::{Line, NamedObject, NamedRoutine};
use crate::statement::Statement;
use hlo_num::Seq;
use il_core::{Block, Instr, Routine, limits};
use std::alloc::{AllocError, Global};

/// What was read of a text so far.
#[derive(Drop)]
pub(crate) struct Partial {
    pub(crate) objects: Seq<NamedObject>,
    /// The routines that are ended.
    pub(crate) routines: Seq<NamedRoutine>,
    pub(crate) place: Place,
}

/// Where a text is read.
#[derive(Drop)]
pub(crate) enum Place {
    /// At the first line.
    Start,
    /// Between objects and routines.
    Outside,
    /// In a routine, with the blocks so far, before a label or its end. The number is the routine's size.
    InRoutine(NamedRoutine, u32),
    /// In the block behind them, with its instructions so far.
    InBlock(NamedRoutine, u32, Seq<Instr>),
    /// Behind the last line.
    Done,
}

/// What is read with one more line, if the text goes on with it.
pub(crate) fn step(
    alloc: Global,
    partial: Partial,
    line: Line,
) -> Result<Option<Partial>, AllocError>
    requires fit { IsFitLine line }
    requires place { IsFitPlace partial.place }
    ensures { IfOk result (λ o. o ≡ next partial line) }
{
    let Partial {
        objects,
        routines,
        place,
    } = partial;
    match (place, line) {
        (Place::Start, Line::First) => Ok(Some(Partial {
            objects,
            routines,
            place: Place::Outside,
        })),
        (Place::Outside, line) => outside(objects, routines, line),
        (Place::InRoutine(routine, size), line) => {
            in_routine(alloc, objects, routines, routine, size, line)
        }
        (Place::InBlock(routine, size, instrs), Line::Inside(statement)) => {
            match in_block(routine, size, instrs, statement)? {
                Some(place) => Ok(Some(Partial {
                    objects,
                    routines,
                    place,
                })),
                None => Ok(None),
            }
        }
        _ => Ok(None),
    }
}

/// A line between objects and routines.
fn outside(
    mut objects: Seq<NamedObject>,
    routines: Seq<NamedRoutine>,
    line: Line,
) -> Result<Option<Partial>, AllocError>
    ensures { IfOk result (λ o. o ≡ outside objects routines line) }
{
    let place = match line {
        Line::Object(object) if routines.is_empty() => {
            objects.push(object)?;
            Place::Outside
        }
        Line::Routine(routine) if routines.len() < limits::ROUTINES as usize => Place::InRoutine(
            routine, 0,
        ),
        Line::Done => Place::Done,
        _ => return Ok(None),
    };
    Ok(Some(Partial {
        objects,
        routines,
        place,
    }))
}

/// A line before a label or a routine's end.
fn in_routine(
    alloc: Global,
    objects: Seq<NamedObject>,
    mut routines: Seq<NamedRoutine>,
    routine: NamedRoutine,
    size: u32,
    line: Line,
) -> Result<Option<Partial>, AllocError>
    ensures { IfOk result (λ o. o ≡ in_routine objects routines routine size line) }
{
    let place = match line {
        Line::Label(number) if number as usize == routine.routine.blocks.len() => {
            Place::InBlock(routine, size, Seq::new(alloc))
        }
        Line::Close => {
            routines.push(routine)?;
            Place::Outside
        }
        _ => return Ok(None),
    };
    Ok(Some(Partial {
        objects,
        routines,
        place,
    }))
}

/// A line inside a block.
fn in_block(
    routine: NamedRoutine,
    size: u32,
    mut instrs: Seq<Instr>,
    statement: Statement,
) -> Result<Option<Place>, AllocError>
    requires fit { IsFitStatement statement }
    requires place { IsFitPlace (Place.InBlock routine size instrs) }
    ensures { IfOk result (λ o. o ≡ in_block routine size instrs statement) }
{
    if u64::from(size) + instrs.len() as u64 >= u64::from(limits::SIZE) {
        return Ok(None);
    }
    match statement {
        Statement::Instr(instr) => {
            instrs.push(instr)?;
            Ok(Some(Place::InBlock(routine, size, instrs)))
        }
        Statement::End(end) => {
            let size = size + instrs.len() as u32 + 1;
            let routine = with_block(routine, Block { instrs, end })?;
            Ok(Some(Place::InRoutine(routine, size)))
        }
    }
}

/// A routine with one more block.
fn with_block(named: NamedRoutine, block: Block) -> Result<NamedRoutine, AllocError>
    requires size { size named.routine + (length block.instrs + 1) ≤ max_size }
    requires block { IsBlock block }
    ensures { IfOk result (λ r. r ≡ with_block named block) }
{
    let NamedRoutine { name, routine } = named;
    let Routine {
        pid,
        params,
        value,
        regs,
        entry,
        arrays,
        mut blocks,
    } = routine;
    blocks.push(block)?;
    let routine = Routine {
        pid,
        params,
        value,
        regs,
        entry,
        arrays,
        blocks,
    };
    Ok(NamedRoutine { name, routine })
}
