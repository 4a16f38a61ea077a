//! The frame of the program of files: its shapes and its objects.
ghost use Rattle.std.specs.Prelude.{◌≡◌, ◌<◌, ◌++◌, ℕ, List, IfOk, OnOk, false, length, map, replicate};
ghost use Rattle.std.specs.List.{AllByRecursion};
ghost use Rattle.il_core.specs.Routine.{RoutineParts};
ghost use Rattle.il_core.specs.Shapes.{IsRising};
ghost use Rattle.il_core.specs.declared.shape.ShapeRow.{ShapeRow};
ghost use Rattle.outside.specs.Told.{Told};
ghost use Rattle.profile.specs.Counts.{Counts};
ghost use Rattle.sym_tables.specs.Listing as listing;
ghost use Rattle.c_module.specs.Assembling.{AreRoutinesOf};
ghost use Rattle.c_module.specs.Frames as specs;
ghost use Rattle.c_module.specs.Frames.{ArePidsOf, IsFrameOf, first_mark, frame_rows, has_object, marks, other_marks, other_objects, row_if};

use hlo_num::Seq;
use il_core::{Object, ShapeRow, Shapes};
use program_laws::{lowered_programs_are_right, typed_programs_are_whole};
use std::alloc::{AllocError, Global};
use sym_tables::ProgramSyms;

/// The shapes and the objects of the program of files that were accepted, by PID, where `syms` has the names of its
/// modules, and `pids` the PIDs of its routines, in the order of their functions. With these routines by PID they are the
/// lowered program. It takes time and memory in proportion to the names and their initial words.
pub fn program_frame(
    alloc: Global,
    syms: &ProgramSyms,
    pids: &[u32],
) -> Result<(Shapes, Seq<Object>), AllocError>
    requires taken { ArePidsOf pids.now syms.now }
    ensures program { (counts : Counts) (tells : List ℕ → Told) (files : List (List ℕ)) (rs : List RoutineParts) → AreRoutinesOf counts tells files rs syms.now
        → pids.now ≡ map (λ r. r.pid) rs → IfOk result (λ frame. IsFrameOf counts tells files rs frame.0 frame.1 syms.now) }
{
    lowered_programs_are_right();
    typed_programs_are_whole();
    let (shapes, objects, _) = frame(alloc, syms, pids)?;
    Ok((shapes, objects))
}

/// The rows of the names that have one of these PIDs or are objects, the objects, and how many names there are.
pub(crate) fn frame(
    alloc: Global,
    syms: &ProgramSyms,
    pids: &[u32],
) -> Result<(Shapes, Seq<Object>, usize), AllocError>
    requires live { AllByRecursion (λ pid. pid < length syms.now) pids.now }
    requires rising { IsRising (λ (row : ShapeRow). row.pid) (frame_rows pids.now syms.now) }
    ensures shapes { IfOk result (λ frame. frame.0 ≡ frame_rows pids.now syms.now) }
    ensures objects { IfOk result (λ frame. frame.1 ≡ listing.objects syms.now) }
    ensures names { IfOk result (λ frame. frame.2 ≡ length syms.now) }
{
    let Shapes { rows } = syms.shapes()?;
    let rows = rows.into_vec();
    let names = rows.len();
    let objects = syms.objects()?;
    let table = marked(alloc, pids, names)?;
    let rows = kept_rows(alloc, table.as_slice(), objects.as_slice(), rows)?;
    let rows = Seq::from_vec(rows);
    Ok((Shapes { rows }, Seq::from_vec(objects), names))
}

/// For each of so many PIDs whether it is one of these.
fn marked(alloc: Global, pids: &[u32], names: usize) -> Result<Vec<bool>, AllocError>
    requires { AllByRecursion (λ pid. pid < names) pids.now }
    ensures { IfOk result (λ v. v.items ≡ marks pids.now 0 names) }
{
    let mut table = no_marks(alloc, names)?;
    for pid in pids {
        table[*pid as usize] = true;
    }
    Ok(table)
}

/// So many PIDs without a mark.
fn no_marks(alloc: Global, names: usize) -> Result<Vec<bool>, AllocError>
    ensures { IfOk result (λ v. v.items ≡ replicate names false) }
{
    let mut table = Vec::with_capacity(alloc, names)?;
    for pid in 0..names {
        table.push(false)?;
    }
    Ok(table)
}

/// The rows that have a mark or an object.
fn kept_rows(
    alloc: Global,
    table: &[bool],
    objects: &[Object],
    rows: Vec<ShapeRow>,
) -> Result<Vec<ShapeRow>, AllocError>
    ensures { IfOk result (λ v. v.items ≡ specs.kept_rows table.now objects.now rows.items) }
{
    let mut kept = Vec::new(alloc);
    let mut others = table;
    let mut left = objects;
    for row in rows {
        let is_kept = first_mark(others) | has_object(left, row.pid);
        others = other_marks(others);
        left = other_objects(left, row.pid);
        push_if(&mut kept, row, is_kept)?;
    }
    Ok(kept)
}

/// Adds a row that is kept.
fn push_if(kept: &mut Vec<ShapeRow>, row: ShapeRow, is_kept: bool) -> Result<(), AllocError>
    ensures { OnOk result (kept.new.items ≡ kept.old.items ++ row_if is_kept row) }
{
    if is_kept {
        kept.push(row)?;
    }
    Ok(())
}

/// The first mark.
fn first_mark(table: &[bool]) -> bool
    ensures { result ≡ first_mark table.now }
{
    match table.split_first() {
        Some((mark, _)) => *mark,
        None => false,
    }
}

/// The marks behind the first.
fn other_marks(table: &[bool]) -> &[bool]
    ensures { result.now ≡ other_marks table.now }
{
    match table.split_first() {
        Some((_, others)) => others,
        None => table,
    }
}

/// Whether the first object has this PID.
fn has_object(objects: &[Object], pid: u32) -> bool
    ensures { result ≡ has_object objects.now pid }
{
    match objects.split_first() {
        Some((object, _)) => object.pid == pid,
        None => false,
    }
}

/// The objects without the first, where that has this PID.
fn other_objects(objects: &[Object], pid: u32) -> &[Object]
    ensures { result.now ≡ other_objects objects.now pid }
{
    match objects.split_first() {
        Some((object, others)) => { if object.pid == pid { others } else { objects } }
        None => objects,
    }
}
