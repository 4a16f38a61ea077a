//! The command `runil`: runs the program whose text a file has.
ghost use Rattle.std.specs.Prelude.{◌≡◌, IfOk, IfErr, map, string_bytes};
ghost use Rattle.il_core.specs.Valid.{IsProgram};
ghost use Rattle.outside.specs.Faults.{NoneFalls};
ghost use Rattle.outside.specs.Told.{SameFiles};
ghost use Rattle.hlo_cmd.specs.Messages.{Says};
ghost use Rattle.hlo_cmd.specs.RunIl.{HoldsProgram, IsReadCause, IsRunIlCause, RunIlPromise, RunsToEnd};

use crate::ending::ended;
use crate::messages::refused;
use crate::refusal::{Refusal, TextFault, run_refusal, words_refusal};
use crate::report::Status;
use hlo_words::{RunIlSettings, read_runil};
use il_core::IlProgram;
use il_run::{Ending, run};
use il_text::{IlFault, read_il};
use outside::{ReadFault, Shelf, Sink, Source, read_whole};
use std::alloc::Global;
use sym_tables::ProgramSyms;

/// The greatest number of bytes of a program's text, 16 MiB.
const MAX_TEXT_BYTES: u32 = 16_777_216;

/// Serves `runil`: of its words, the run, and what is told of both on `err`.
pub(crate) fn serve_runil<S: Shelf, I: Source, O: Sink, E: Sink>(
    alloc: Global,
    words: &[String],
    shelf: &mut S,
    input: &mut I,
    out: &mut O,
    err: &mut E,
) -> Status
    ensures promise { RunIlPromise (map string_bytes words.now) (S.tells shelf.old) (S.faults shelf.old) (S.faults shelf.new) (I.left input.old)
        (I.left input.new) (I.faults input.old) (I.faults input.new) (O.taken out.old) (O.taken out.new) (O.faults out.old) (O.faults out.new)
        (Says (E.taken err.old) (E.taken err.new) (E.faults err.old) (E.faults err.new)) result.0 }
    ensures same { SameFiles (S.tells shelf.old) (S.tells shelf.new) }
{
    let none = ProgramSyms::new(alloc);
    let settings = match read_runil(alloc, words) {
        Ok(settings) => settings,
        Err(fault) => return refused(err, words_refusal(fault), &none),
    };
    match run_il(alloc, &settings, shelf, input, out) {
        Ok(ending) => ended(err, ending),
        Err(refusal) => refused(err, refusal, &none),
    }
}

/// Runs the program of a file on the input.
fn run_il<'a, S: Shelf, I: Source, O: Sink>(
    alloc: Global,
    settings: &'a RunIlSettings,
    shelf: &mut S,
    input: &mut I,
    out: &mut O,
) -> Result<Ending, Refusal<'a>>
    ensures ok { IfOk result (RunsToEnd (S.tells shelf.old settings.now.file) settings.now.turns (I.left input.old) (O.taken out.old) (O.taken out.new)) }
    ensures err { IfErr result (λ r. IsRunIlCause r settings.now.file (S.tells shelf.old settings.now.file) settings.now.turns
        (S.faults shelf.old settings.now.file) (S.faults shelf.new settings.now.file) (I.left input.old) (I.left input.new) (I.faults input.old)
        (I.faults input.new) (O.taken out.old) (O.taken out.new) (O.faults out.old) (O.faults out.new)) }
    ensures same { SameFiles (S.tells shelf.old) (S.tells shelf.new) }
{
    let program = read_program(alloc, shelf, settings.file.as_str())?;
    match run(alloc, &program, input, out, settings.turns, None) {
        Ok(ending) => Ok(ending),
        Err(fault) => Err(run_refusal(fault)),
    }
}

/// The program of a file.
fn read_program<'a, S: Shelf>(
    alloc: Global,
    shelf: &mut S,
    file: &'a str,
) -> Result<IlProgram, Refusal<'a>>
    ensures valid { IfOk result IsProgram }
    ensures ok { IfOk result (HoldsProgram (S.tells shelf.old file.now)) }
    ensures err { IfErr result (λ r. IsReadCause r file.now (S.tells shelf.old file.now) (S.faults shelf.old file.now) (S.faults shelf.new file.now)) }
    ensures same { SameFiles (S.tells shelf.old) (S.tells shelf.new) }
{
    let text = match read_whole(alloc, shelf, file, MAX_TEXT_BYTES) {
        Ok(text) => text,
        Err(ReadFault::Failed) => return Err(Refusal::CannotRead(file)),
        Err(ReadFault::TooLong) => return Err(Refusal::Text(TextFault::TooLong)),
        Err(ReadFault::Memory) => return Err(Refusal::Memory),
    };
    match read_il(alloc, text.as_slice()) {
        Ok(program) => Ok(program),
        Err(IlFault::At { line, kind }) => { Err(Refusal::Text(TextFault::At { line, kind })) }
        Err(IlFault::Memory) => Err(Refusal::Memory),
    }
}
