//! How a program ended: its status and its line.
ghost use Rattle.std.specs.Prelude.{◌≡◌, ◌∷◌, ◌++◌, [], decimal};
ghost use Rattle.outside.specs.Faults.{HasCause};
ghost use Rattle.outside.specs.Taken.{TakesAll};
ghost use Rattle.hlo_cmd.specs.Messages.{Says, ending_line, ending_status, exit_line};

use crate::kinds::trap_name;
use crate::pieces::write_three;
use crate::report::Status;
use hlo_num::Word;
use il_run::Ending;
use itoa::Buffer;
use outside::{Failed, Sink, write_all};

/// Writes how a program ended, and gives its status. A failure changes nothing else.
pub(crate) fn ended<E: Sink>(err: &mut E, ending: Ending) -> Status
    ensures status { result.0 ≡ ending_status ending }
    ensures line { Says (E.taken err.old) (E.taken err.new) (E.faults err.old) (E.faults err.new) (ending_line ending) }
{
    tell_ending(err, ending);
    Status(ending_status(ending))
}

/// Writes how a program ended.
fn tell_ending<E: Sink>(err: &mut E, ending: Ending)
    ensures { Says (E.taken err.old) (E.taken err.new) (E.faults err.old) (E.faults err.new) (ending_line ending) }
{
    let _ = match ending {
        Ending::Exit(Word(word)) => write_exit(err, word),
        Ending::Trapped(trap) => {
            write_three(err, b"hlo: trap ", trap_name(trap).as_bytes(), b"\n")
        }
        Ending::OutOfTurns => write_all(err, b"hlo: out of turns\n"),
    };
}

/// The status of an ending.
fn ending_status(ending: Ending) -> u8
    ensures { result ≡ ending_status ending }
{
    match ending {
        Ending::Exit(_) => 0,
        Ending::Trapped(_) => 12,
        Ending::OutOfTurns => 13,
    }
}

/// Writes the word that a program exits with, as a signed number.
fn write_exit<E: Sink>(err: &mut E, word: u32) -> Result<(), Failed>
    ensures bytes { TakesAll (E.taken err.old) (E.taken err.new) result (exit_line word) }
    ensures cause { HasCause (E.faults err.old) (E.faults err.new) result }
{
    if word <= i32::MAX as u32 {
        write_number(err, b"hlo: exit ", word)
    } else {
        write_number(err, b"hlo: exit -", u32::MAX - word + 1)
    }
}

/// Writes a line that ends in a number.
pub(crate) fn write_number<E: Sink>(err: &mut E, front: &[u8], number: u32) -> Result<(), Failed>
    ensures bytes { TakesAll (E.taken err.old) (E.taken err.new) result (front.now ++ (decimal number ++ 10 ∷ [])) }
    ensures cause { HasCause (E.faults err.old) (E.faults err.new) result }
{
    let mut buffer = Buffer::new();
    let text = buffer.format(number);
    write_three(err, front, text.as_bytes(), b"\n")
}
