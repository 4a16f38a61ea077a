//! The commands other than `opt`.
ghost use Rattle.std.specs.Prelude.{◌≡◌, map, string_bytes};
ghost use Rattle.outside.specs.Told.{SameFiles};
ghost use Rattle.hlo_cmd.specs.declared.words.CommandName.TheVariants as command;
ghost use Rattle.hlo_cmd.specs.Check.{CheckPromise};
ghost use Rattle.hlo_cmd.specs.Messages.{Says, usage_line};
ghost use Rattle.hlo_cmd.specs.Run.{RunPromise};
ghost use Rattle.hlo_cmd.specs.RunIl.{RunIlPromise};
ghost use Rattle.hlo_cmd.specs.Train.{TrainPromise};
ghost use Rattle.hlo_cmd.specs.Words.{Runs, ServesNone, asked_command};

use crate::check::serve_check;
use crate::messages::refused;
use crate::refusal::Refusal;
use crate::report::Status;
use crate::run::serve_run;
use crate::run_il::serve_runil;
use crate::train::serve_train;
use crate::words::{CommandName, asked_command};
use outside::{Shelf, Sink, Source};
use std::alloc::Global;
use sym_tables::ProgramSyms;

/// Serves every first word but `opt`: `check`, `run`, `runil` and `train`. It answers 2 to all others, and to `opt`.
///
/// `check FILE...`, with one to 64 files, goes over the files in order. It reads each (at most 16 MiB), scans and parses
/// it, follows the rules of types and linkage through it, lowers its functions, and stops at the first file in which
/// something is wrong; behind the last one it links. At status 0 every file is a module, all of them follow the rules and
/// keep the limits, and together they make a program. It prints nothing on `out` and never asks `input`.
///
/// `run FILE...`, with `--turns N` for a bound on the turns (1000000000 where it isn't given), does the same, and then
/// runs the program: `getchar` takes from `input`, at most 4,096 bytes at a time and only where the program wants one, and
/// what it puts out goes to `out` in pieces of at most 4,096 bytes, wholly before an ending. Status 0 is an exit, 12 a trap,
/// 13 a turn wanted where none was left. `runil FILE`, with the same option, reads the text of a program (at most
/// 16 MiB) and runs that.
///
/// `train FILE...`, with the same option, runs the program as `run` does, but drops what it puts out, and puts out the
/// text of the profile of its calls in one piece, whatever the ending: by PID each routine, how often it was called, and
/// how often each of its calls was made.
///
/// One line says on `err` why the status isn't 0: 2 `hlo: usage`, 3 `hlo: FILE:LINE: KIND`, `hlo: FILE: TooLong`,
/// `hlo: NAME: TooLarge`, `hlo: link: Undefined NAME`, `hlo: link: NoMain` or `hlo: link: MainType`, 5 `hlo: cannot read
/// FILE`, 6 `hlo: cannot write`, 10 `hlo: out of memory`, 11 `hlo: cannot read input`, 12 `hlo: trap KIND`, 13 `hlo: out
/// of turns`, 14 `hlo: il:LINE: KIND` or `hlo: il: TooLong`. A program that exits has `hlo: exit W` there, W a signed
/// number. A failed write on `err` changes no status.
///
/// It always returns. `check` takes time linear in the bytes of the files, and memory for one file at a time, beside
/// the names of the program: the bytes of a file are gone before its tree is made, its tokens before it is
/// typed, its trees before the next file is read. `run` keeps the lowered program beside that, `runil` the program read; both
/// take time linear in the instructions that run, and memory for the objects and the calls on their way.
pub fn plain_command<S: Shelf, I: Source, O: Sink, E: Sink>(
    alloc: Global,
    words: &[String],
    shelf: &mut S,
    input: &mut I,
    out: &mut O,
    err: &mut E,
) -> Status
    // Each command that the first word names keeps its promise; other words are refused.
    ensures check { asked_command (map string_bytes words.now) ≡ command.Check
        → CheckPromise (map string_bytes words.now) (S.tells shelf.old) (S.faults shelf.old) (S.faults shelf.new)
        (Says (E.taken err.old) (E.taken err.new) (E.faults err.old) (E.faults err.new)) result.0 }
    ensures run { asked_command (map string_bytes words.now) ≡ command.Run
        → RunPromise (map string_bytes words.now) (S.tells shelf.old) (S.faults shelf.old) (S.faults shelf.new) (I.left input.old) (I.left input.new)
        (I.faults input.old) (I.faults input.new) (O.taken out.old) (O.taken out.new) (O.faults out.old) (O.faults out.new)
        (Says (E.taken err.old) (E.taken err.new) (E.faults err.old) (E.faults err.new)) result.0 }
    ensures runil { asked_command (map string_bytes words.now) ≡ command.RunIl
        → RunIlPromise (map string_bytes words.now) (S.tells shelf.old) (S.faults shelf.old) (S.faults shelf.new) (I.left input.old) (I.left input.new)
        (I.faults input.old) (I.faults input.new) (O.taken out.old) (O.taken out.new) (O.faults out.old) (O.faults out.new)
        (Says (E.taken err.old) (E.taken err.new) (E.faults err.old) (E.faults err.new)) result.0 }
    ensures train { asked_command (map string_bytes words.now) ≡ command.Train
        → TrainPromise (map string_bytes words.now) (S.tells shelf.old) (S.faults shelf.old) (S.faults shelf.new) (I.left input.old) (I.left input.new)
        (I.faults input.old) (I.faults input.new) (O.taken out.old) (O.taken out.new) (O.faults out.old) (O.faults out.new)
        (Says (E.taken err.old) (E.taken err.new) (E.faults err.old) (E.faults err.new)) result.0 }
    ensures other { ServesNone (asked_command (map string_bytes words.now)) → result.0 ≡ 2 }
    ensures line { ServesNone (asked_command (map string_bytes words.now))
        → Says (E.taken err.old) (E.taken err.new) (E.faults err.old) (E.faults err.new) usage_line }

    // What stays the same: only `run`, `runil` and `train` print and ask the input.
    ensures out { (Runs (asked_command (map string_bytes words.now)) → ⊥) → out.new ≡ out.old }
    ensures input { (Runs (asked_command (map string_bytes words.now)) → ⊥) → input.new ≡ input.old }
    ensures files { SameFiles (S.tells shelf.old) (S.tells shelf.new) }
{
    match asked_command(words) {
        CommandName::Check => serve_check(alloc, words, shelf, err),
        CommandName::Run => serve_run(alloc, words, shelf, input, out, err),
        CommandName::RunIl => serve_runil(alloc, words, shelf, input, out, err),
        CommandName::Train => serve_train(alloc, words, shelf, input, out, err),
        CommandName::Opt | CommandName::Other => {
            refused(err, Refusal::Usage, &ProgramSyms::new(alloc))
        }
    }
}
