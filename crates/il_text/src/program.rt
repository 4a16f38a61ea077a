//! The program of objects and routines with their names.
ghost use Rattle.std.specs.Prelude.{◌≡◌, ◌++◌, IfOk, None, map};
ghost use Rattle.il_text.specs.Assembled.{first_out_of_order, object_row, routine_row, HasPartsOf};

use crate::line::{NamedObject, NamedRoutine};
use hlo_num::{Name, Seq};
use il_core::{IlProgram, Object, Routine, Shape, ShapeRow, Shapes};
use std::alloc::{AllocError, Global};

/// The program of objects and routines that are in order. It takes a logarithm of their number for each.
pub(crate) fn assemble(
    alloc: Global,
    objects: Seq<NamedObject>,
    routines: Seq<NamedRoutine>,
) -> Result<IlProgram, AllocError>
    requires { first_out_of_order objects routines ≡ None }
    ensures { IfOk result (λ p. HasPartsOf objects routines p) }
{
    let mut rows = Vec::new(alloc);
    let objects = object_rows(alloc, &mut rows, objects)?;
    let routines = routine_rows(alloc, &mut rows, routines)?;
    rows.sort_by_key(|row| row.pid)?;
    let shapes = Shapes {
        rows: Seq::from_vec(rows),
    };
    Ok(IlProgram {
        shapes,
        objects,
        routines,
    })
}

/// Adds the rows of objects, and gives the objects.
fn object_rows(
    alloc: Global,
    rows: &mut Vec<ShapeRow>,
    named: Seq<NamedObject>,
) -> Result<Seq<Object>, AllocError>
    ensures rows { IfOk result (λ _. rows.new.items ≡ rows.old.items ++ map object_row named) }
    ensures objects { IfOk result (λ os. os ≡ map (λ o. o.object) named) }
{
    let mut objects = Seq::new(alloc);
    for NamedObject { name, object } in named.into_vec() {
        rows.push(object_row(&object, name))?;
        objects.push(object)?;
    }
    Ok(objects)
}

/// The row of an object under its name.
fn object_row(object: &Object, name: Name) -> ShapeRow
    ensures { result ≡ object_row (record { name = name; object = object.now }) }
{
    ShapeRow {
        pid: object.pid,
        name,
        shape: Shape::Object {
            words: object.words,
        },
    }
}

/// Adds the rows of routines, and gives the routines.
fn routine_rows(
    alloc: Global,
    rows: &mut Vec<ShapeRow>,
    named: Seq<NamedRoutine>,
) -> Result<Seq<Routine>, AllocError>
    ensures rows { IfOk result (λ _. rows.new.items ≡ rows.old.items ++ map routine_row named) }
    ensures routines { IfOk result (λ rs. rs ≡ map (λ r. r.routine) named) }
{
    let mut routines = Seq::new(alloc);
    for NamedRoutine { name, routine } in named.into_vec() {
        rows.push(routine_row(&routine, name))?;
        routines.push(routine)?;
    }
    Ok(routines)
}

/// The row of a routine under its name.
fn routine_row(routine: &Routine, name: Name) -> ShapeRow
    ensures { result ≡ routine_row (record { name = name; routine = routine.now }) }
{
    ShapeRow {
        pid: routine.pid,
        name,
        shape: Shape::Routine {
            params: routine.params,
            value: routine.value,
        },
    }
}
