//! The command `run`: runs the program that modules make.
ghost use Rattle.std.specs.Prelude.{map, string_bytes};
ghost use Rattle.outside.specs.Told.{SameFiles};
ghost use Rattle.hlo_cmd.specs.Messages.{Says};
ghost use Rattle.hlo_cmd.specs.Run.{RunPromise};

use crate::ending::ended;
use crate::messages::refused;
use crate::refusal::{program_refusal, run_refusal, words_refusal};
use crate::report::Status;
use c_module::lowered_program;
use hlo_words::read_run;
use il_run::run;
use outside::{Shelf, Sink, Source};
use profile::Profile;
use std::alloc::Global;
use sym_tables::ProgramSyms;

/// Runs the program of the words' files on the input, and tells its ending, or why it didn't come to it, on `err`.
pub(crate) fn serve_run<S: Shelf, I: Source, O: Sink, E: Sink>(
    alloc: Global,
    words: &[String],
    shelf: &mut S,
    input: &mut I,
    out: &mut O,
    err: &mut E,
) -> Status
    ensures promise { RunPromise (map string_bytes words.now) (S.tells shelf.old) (S.faults shelf.old) (S.faults shelf.new) (I.left input.old)
        (I.left input.new) (I.faults input.old) (I.faults input.new) (O.taken out.old) (O.taken out.new) (O.faults out.old) (O.faults out.new)
        (Says (E.taken err.old) (E.taken err.new) (E.faults err.old) (E.faults err.new)) result.0 }
    ensures same { SameFiles (S.tells shelf.old) (S.tells shelf.new) }
{
    let mut syms = ProgramSyms::new(alloc);
    let settings = match read_run(alloc, words) {
        Ok(settings) => settings,
        Err(fault) => return refused(err, words_refusal(fault), &syms),
    };
    let files = settings.files.as_slice();
    let program = match lowered_program(alloc, files, shelf, &Profile::flat(), &mut syms) {
        Ok(program) => program,
        Err(fault) => return refused(err, program_refusal(fault), &syms),
    };
    match run(alloc, &program, input, out, settings.turns, None) {
        Ok(ending) => ended(err, ending),
        Err(fault) => refused(err, run_refusal(fault), &syms),
    }
}
