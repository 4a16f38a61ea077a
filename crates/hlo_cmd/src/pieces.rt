//! Bytes that are put out in pieces.
ghost use Rattle.std.specs.Prelude.{◌++◌, decimal, flat_map, map};
ghost use Rattle.outside.specs.Faults.{HasCause};
ghost use Rattle.outside.specs.Taken.{TakesAll};
ghost use Rattle.hlo_cmd.specs.Messages.{counts_line, place_line};

use itoa::Buffer;
use outside::{Failed, Sink, write_all};

/// Writes three pieces, one after another. After a failure a front of them was taken.
pub(crate) fn write_three<O: Sink>(o: &mut O, a: &[u8], b: &[u8], c: &[u8]) -> Result<(), Failed>
    ensures bytes { TakesAll (O.taken o.old) (O.taken o.new) result (a.now ++ (b.now ++ c.now)) }
    ensures cause { HasCause (O.faults o.old) (O.faults o.new) result }
{
    write_all(o, a)?;
    write_all(o, b)?;
    write_all(o, c)?;
    Ok(())
}

/// Writes pieces, one after another. After a failure a front of them was taken.
pub(crate) fn write_pieces<O: Sink>(o: &mut O, pieces: &[&[u8]]) -> Result<(), Failed>
    ensures bytes { TakesAll (O.taken o.old) (O.taken o.new) result (flat_map (λ p. p.now) pieces.now) }
    ensures cause { HasCause (O.faults o.old) (O.faults o.new) result }
{
    for piece in pieces {
        write_all(o, piece)?;
    }
    Ok(())
}

/// Writes a line of numbers, each behind its words.
pub(crate) fn write_counts<O: Sink>(o: &mut O, counts: &[(&[u8], u64)]) -> Result<(), Failed>
    ensures bytes { TakesAll (O.taken o.old) (O.taken o.new) result (counts_line (map (λ c. (c.0.now, c.1)) counts.now)) }
    ensures cause { HasCause (O.faults o.old) (O.faults o.new) result }
{
    for count in counts {
        write_count(o, count.0, count.1)?;
    }
    write_all(o, b"\n")
}

/// Writes a number behind its words.
fn write_count<O: Sink>(o: &mut O, words: &[u8], number: u64) -> Result<(), Failed>
    ensures bytes { TakesAll (O.taken o.old) (O.taken o.new) result (words.now ++ decimal number) }
    ensures cause { HasCause (O.faults o.old) (O.faults o.new) result }
{
    let mut buffer = Buffer::new();
    let text = buffer.format(number);
    write_all(o, words)?;
    write_all(o, text.as_bytes())
}

/// Writes the line of a fault that has a place, from the name of its kind with the line feed behind it.
pub(crate) fn write_place<E: Sink>(
    err: &mut E,
    file: &[u8],
    line: u32,
    kind: &str,
) -> Result<(), Failed>
    ensures bytes { TakesAll (E.taken err.old) (E.taken err.new) result (place_line file.now line kind.now) }
    ensures cause { HasCause (E.faults err.old) (E.faults err.new) result }
{
    let mut buffer = Buffer::new();
    let number = buffer.format(line);
    write_three(err, b"hlo: ", file, b":")?;
    write_three(err, number.as_bytes(), b": ", kind.as_bytes())?;
    write_all(err, b"\n")
}
