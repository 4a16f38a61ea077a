//! The command `check`: whether its files are modules that follow the rules, keep the limits and make one program.
ghost use Rattle.std.specs.Prelude.{map, string_bytes};
ghost use Rattle.outside.specs.Told.{SameFiles};
ghost use Rattle.hlo_cmd.specs.Check.{CheckPromise};
ghost use Rattle.hlo_cmd.specs.Messages.{Says};

use crate::messages::refused;
use crate::refusal::{program_refusal, words_refusal};
use crate::report::Status;
use c_module::check_modules;
use hlo_words::read_check;
use outside::{Shelf, Sink};
use std::alloc::Global;
use sym_tables::ProgramSyms;

/// Checks the files of the words, and tells the first thing that is wrong on `err`.
pub(crate) fn serve_check<S: Shelf, E: Sink>(
    alloc: Global,
    words: &[String],
    shelf: &mut S,
    err: &mut E,
) -> Status
    ensures promise { CheckPromise (map string_bytes words.now) (S.tells shelf.old) (S.faults shelf.old) (S.faults shelf.new)
        (Says (E.taken err.old) (E.taken err.new) (E.faults err.old) (E.faults err.new)) result.0 }
    ensures files { SameFiles (S.tells shelf.old) (S.tells shelf.new) }
{
    let mut syms = ProgramSyms::new(alloc);
    let settings = match read_check(alloc, words) {
        Ok(settings) => settings,
        Err(fault) => return refused(err, words_refusal(fault), &syms),
    };
    match check_modules(alloc, settings.files.as_slice(), shelf, &mut syms) {
        Ok(()) => Status(0),
        Err(fault) => refused(err, program_refusal(fault), &syms),
    }
}
