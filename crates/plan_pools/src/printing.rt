//! The text of a program, put out in pieces from its pools.
ghost use Rattle.std.specs.Prelude.{◌≡◌, ◌<◌, ◌≤◌, ◌++◌, Err, IfErr, IfOk, IsSome, None, Some, length, true};
ghost use Rattle.std.specs.Arc.{arc_value};
ghost use Rattle.outside.specs.Faults.{Rose};
ghost use Rattle.outside.specs.Taken.{TakesAll};
ghost use Rattle.il_core.specs.Shapes.{IsRising};
ghost use Rattle.il_core.specs.Text.{done_text, head_text, routine_text, text};
ghost use Rattle.il_core.specs.declared.program.IlProgram.{IlProgram as ProgramData};
ghost use Rattle.naim_loader.specs.Paged.{content_at, kept_at, IsTrusted};
ghost use Rattle.one_owner.specs.Alone.{IsReading, IsResting};
ghost use Rattle.plan_pools.specs.Contents.{HavePools, HoldsProgram, is_routine, routine_in, row_text, rows_text, text_if};
ghost use Rattle.plan_pools.specs.Printing.{IsStopped, Leaves, OutputCause, StopsReading};

use crate::pools::PlanLoader;
use compact_form::RoutineBody;
use hlo_num::Name;
use il_core::{Object, Shape, ShapeRow, Shapes};
use il_text::{write_head, write_routine};
use naim_core::Failure;
use naim_loader::ReadPin;
use one_owner::{give_back, take};
use outside::{Disk, Sink, write_all};
use std::alloc::Global;

/// Why a text wasn't put out.
#[derive(Clone, Copy, Drop, PartialEq, Eq)]
pub enum PrintFault {
    /// The pools stopped with this failure, which their loader keeps.
    Stopped(Failure),
    /// The sink failed.
    Output,
}

/// Puts out the text of a program whose routines lie in pools: its head, each routine by its row, and its last line, each as
/// one piece. `Output` comes only where the sink's count rose, and the pools rest then; `Stopped` with the failure that the
/// loader keeps from then on. Over a trusted disk the sink has taken the whole text, or a front of it at an error. It takes
/// time in proportion to the text, what bringing the routines back and making room takes, and memory for one routine and
/// the longest piece.
pub fn print<D: Disk + Drop, O: Sink>(
    alloc: Global,
    loader: &mut PlanLoader<D>,
    shapes: &Shapes,
    objects: &[Object],
    out: &mut O,
) -> Result<(), PrintFault>
    requires rests { IsResting loader.old }
    requires pools { HavePools loader.old shapes.now }
    ensures bytes { (program : ProgramData) → IsTrusted D.reach D.honest loader.old → HoldsProgram loader.old shapes.now objects.now program
        → TakesAll (O.taken out.old) (O.taken out.new) result (text program) }
    ensures pools { Leaves D.reach D.honest D.faults loader.old loader.new result }
    ensures cause { OutputCause (O.faults out.old) (O.faults out.new) result }
    ensures later { O.faults out.old ≤ O.faults out.new }
{
    let rows = rows_of(shapes);
    match print_head(alloc, loader, shapes, objects, out) {
        Ok(()) => print_tail(alloc, loader, rows, out),
        Err(fault) => Err(fault),
    }
}

/// The rows, by rising PID.
pub(crate) fn rows_of(shapes: &Shapes) -> &[ShapeRow]
    ensures rows { result.now ≡ shapes.now }
    ensures rising { IsRising (λ row. row.pid) shapes.now }
{
    shapes.rows.as_slice()
}

/// Puts out the head of a program's text.
fn print_head<D: Disk + Drop, O: Sink>(
    alloc: Global,
    loader: &mut PlanLoader<D>,
    shapes: &Shapes,
    objects: &[Object],
    out: &mut O,
) -> Result<(), PrintFault>
    requires rests { IsResting loader.old }
    ensures bytes { TakesAll (O.taken out.old) (O.taken out.new) result (head_text shapes.now objects.now) }
    ensures pools { Leaves D.reach D.honest D.faults loader.old loader.new result }
    ensures cause { OutputCause (O.faults out.old) (O.faults out.new) result }
    ensures later { O.faults out.old ≤ O.faults out.new }
{
    match write_head(alloc, objects, shapes) {
        Ok(head) => put(out, head.as_slice()),
        Err(_) => Err(stop(loader)),
    }
}

/// Puts out the texts of the routines of these rows, and the last line.
fn print_tail<D: Disk + Drop, O: Sink>(
    alloc: Global,
    loader: &mut PlanLoader<D>,
    rows: &[ShapeRow],
    out: &mut O,
) -> Result<(), PrintFault>
    requires rests { IsResting loader.old }
    requires pools { HavePools loader.old rows.now }
    ensures bytes { IsTrusted D.reach D.honest loader.old
        → TakesAll (O.taken out.old) (O.taken out.new) result (rows_text (routine_in loader.old) rows.now ++ done_text) }
    ensures pools { Leaves D.reach D.honest D.faults loader.old loader.new result }
    ensures cause { OutputCause (O.faults out.old) (O.faults out.new) result }
    ensures later { O.faults out.old ≤ O.faults out.new }
{
    match print_rows(alloc, loader, rows, out) {
        Ok(()) => put(out, b"done\n"),
        Err(fault) => Err(fault),
    }
}

/// Puts out the texts of the routines of these rows.
fn print_rows<D: Disk + Drop, O: Sink>(
    alloc: Global,
    loader: &mut PlanLoader<D>,
    rows: &[ShapeRow],
    out: &mut O,
) -> Result<(), PrintFault>
    requires rests { IsResting loader.old }
    requires pools { HavePools loader.old rows.now }
    ensures bytes { IsTrusted D.reach D.honest loader.old → TakesAll (O.taken out.old) (O.taken out.new) result (rows_text (routine_in loader.old) rows.now) }
    ensures pools { Leaves D.reach D.honest D.faults loader.old loader.new result }
    ensures cause { OutputCause (O.faults out.old) (O.faults out.new) result }
    ensures later { O.faults out.old ≤ O.faults out.new }
{
    for row in rows {
        match print_row(alloc, loader, row, out) {
            Ok(()) => {}
            Err(fault) => return Err(fault),
        }
    }
    Ok(())
}

/// Puts out the text of the routine of a row, if the row is one.
fn print_row<D: Disk + Drop, O: Sink>(
    alloc: Global,
    loader: &mut PlanLoader<D>,
    row: &ShapeRow,
    out: &mut O,
) -> Result<(), PrintFault>
    requires rests { IsResting loader.old }
    requires present { is_routine row.now.shape ≡ true → IsSome (kept_at loader.old row.now.pid) }
    ensures bytes { IsTrusted D.reach D.honest loader.old → TakesAll (O.taken out.old) (O.taken out.new) result (row_text (routine_in loader.old) row.now) }
    ensures pools { Leaves D.reach D.honest D.faults loader.old loader.new result }
    ensures cause { OutputCause (O.faults out.old) (O.faults out.new) result }
    ensures later { O.faults out.old ≤ O.faults out.new }
{
    match row.shape {
        Shape::Routine { .. } => match read_text(alloc, loader, row.pid, &row.name) {
            Ok(text) => put(out, text.as_slice()),
            Err(fault) => Err(fault),
        },
        Shape::Object { .. } => Ok(()),
    }
}

/// The text of a routine, which is read from its pool and given back.
fn read_text<D: Disk + Drop>(
    alloc: Global,
    loader: &mut PlanLoader<D>,
    pid: u32,
    name: &Name,
) -> Result<Vec<u8>, PrintFault>
    requires rests { IsResting loader.old }
    requires present { IsSome (kept_at loader.old pid) }
    ensures text { IsTrusted D.reach D.honest loader.old → IfOk result (λ v. v.items ≡ text_if name.now (routine_in loader.old pid)) }
    ensures pools { Leaves D.reach D.honest D.faults loader.old loader.new result }
    ensures stopped { IfErr result (λ fault. IsStopped fault) }
{
    match take(alloc, loader, pid) {
        Ok(pin) => write_text(alloc, loader, pin, name),
        Err(failure) => Err(PrintFault::Stopped(failure)),
    }
}

/// The text of a routine that is read, which is given back.
fn write_text<D: Disk + Drop>(
    alloc: Global,
    loader: &mut PlanLoader<D>,
    pin: ReadPin<RoutineBody>,
    name: &Name,
) -> Result<Vec<u8>, PrintFault>
    requires reads { IsReading loader.old pin.pid }
    requires content { content_at loader.old pin.pid ≡ Some (arc_value pin.body) }
    ensures text { IfOk result (λ v. v.items ≡ routine_text name.now (arc_value pin.body).routine) }
    ensures pools { Leaves D.reach D.honest D.faults loader.old loader.new result }
    ensures stopped { IfErr result (λ fault. IsStopped fault) }
{
    match write_routine(alloc, &pin.body.routine, name) {
        Ok(text) => match give_back(alloc, loader, pin) {
            Ok(()) => Ok(text),
            Err(failure) => Err(PrintFault::Stopped(failure)),
        },
        Err(_) => {
            let ReadPin { pid: _, body: _ } = pin;
            Err(stop(loader))
        }
    }
}

/// Stops the pools for want of memory.
fn stop<D: Disk + Drop>(loader: &mut PlanLoader<D>) -> PrintFault
    requires worker { 0 < length loader.old.core.hands }
    requires running { loader.old.core.failure ≡ None }
    requires home { loader.old.home ≡ true }
    ensures stopped { result ≡ PrintFault.Stopped Failure.Memory }
    ensures pools { StopsReading D.reach D.honest D.faults loader.old loader.new Failure.Memory }
{
    loader.fail(0, Failure::Memory, None);
    PrintFault::Stopped(Failure::Memory)
}

/// Puts out a piece.
fn put<O: Sink>(out: &mut O, piece: &[u8]) -> Result<(), PrintFault>
    ensures bytes { TakesAll (O.taken out.old) (O.taken out.new) result piece.now }
    ensures cause { OutputCause (O.faults out.old) (O.faults out.new) result }
    ensures fault { IfErr result (λ f. f ≡ PrintFault.Output) }
    ensures later { O.faults out.old ≤ O.faults out.new }
{
    match write_all(out, piece) {
        Ok(()) => Ok(()),
        Err(_) => Err(PrintFault::Output),
    }
}
