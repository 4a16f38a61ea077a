//! Each row's expected values were computed apart from this interpreter.
use hlo_num::{Trap, Word};
use il_run::{Counts, Ending, RunFault, run};
use il_text::read_il;
use outside::{MemSink, MemSource};
use std::alloc::Global;
use std::test::Fail;

/// Two modules, each with a routine `f` of its own: `return f() * 10 + g();`, where `g` calls the other `f`.
const TWELVE: &[u8] =
    b"hlo-il 1\nroutine 0 f.1 params 0 value regs 2 entry 1\nb0:\n  r0 = const 1\n  return r0\nend\nroutine 1 g params 0 value regs 2 entry 1\nb0:\n  r0 = call 3 count 1\n  return r0\nend\nroutine 2 main params 0 value regs 6 entry 1\nb0:\n  r0 = call 0 count 1\n  r1 = const 10\n  r2 = muls r0 r1\n  r3 = call 1 count 1\n  r4 = adds r2 r3\n  return r4\nend\nroutine 3 f.2 params 0 value regs 2 entry 1\nb0:\n  r0 = const 2\n  return r0\nend\ndone\n";

/// An `A` for each turn, and one more.
const LETTERS: &[u8] =
    b"hlo-il 1\nroutine 0 main params 0 value regs 2 entry 1\nb0:\n  r0 = const 65\n  r1 = putchar r0\n  loop b0\nend\ndone\n";

const DIVIDE: &[u8] =
    b"hlo-il 1\nroutine 0 main params 0 value regs 3 entry 1\nb0:\n  r0 = const 7\n  r2 = divs r0 r1\n  return r2\nend\ndone\n";

const QUOTIENT: &[u8] =
    b"hlo-il 1\nroutine 0 main params 0 value regs 3 entry 1\nb0:\n  r0 = const -2147483648\n  r1 = const -1\n  r2 = divs r0 r1\n  return r2\nend\ndone\n";

const SHIFT: &[u8] =
    b"hlo-il 1\nroutine 0 main params 0 value regs 3 entry 1\nb0:\n  r0 = const 7\n  r1 = const 32\n  r2 = shl r0 r1\n  return r2\nend\ndone\n";

const INDEX: &[u8] =
    b"hlo-il 1\nroutine 0 main params 0 value regs 3 entry 1 arrays 4\nb0:\n  r0 = const 7\n  r1 = const 4\n  seta a0 r1 r0\n  return r2\nend\ndone\n";

/// A call within a call, 1,000,000 deep.
const DEEP: &[u8] =
    b"hlo-il 1\nroutine 0 f params 1 value regs 4 entry 1\nb0:\n  branch r0 b1 b2\nb1:\n  r1 = const 1\n  r2 = subs r0 r1\n  r3 = call 0 count 1 r2\n  r3 = adds r3 r1\n  return r3\nb2:\n  return r0\nend\nroutine 1 main params 0 value regs 2 entry 1\nb0:\n  r0 = const 1000000\n  r1 = call 0 count 1 r0\n  return r1\nend\ndone\n";

/// Each byte of the input is put out. After the end it is asked once more, and exits with that word.
const ECHO: &[u8] =
    b"hlo-il 1\nroutine 0 main params 0 value regs 5 entry 1\nb0:\n  r0 = getchar\n  r1 = const -1\n  r2 = eq r0 r1\n  branch r2 b2 b1\nb1:\n  r3 = putchar r0\n  loop b0\nb2:\n  r4 = getchar\n  return r4\nend\ndone\n";

#[derive(Drop)]
/// A program, what it reads, its turns, and the calls of the source and the sink that fail.
struct Row<'a> {
    text: &'a [u8],
    input: &'a [u8],
    turns: u64,
    source: &'a [u32],
    sink: &'a [u32],
}

/// A run of a row, with what its sink took.
fn answer(alloc: Global, row: &Row<'_>) -> Result<(Result<Ending, RunFault>, MemSink), Fail> {
    let program = read_il(alloc, row.text)?;
    let mut input = MemSource::new(row.input.to_vec(alloc)?, row.source.to_vec(alloc)?);
    let mut out = MemSink::new(alloc, row.sink.to_vec(alloc)?);
    let ended = run(alloc, &program, &mut input, &mut out, row.turns, None);
    Ok((ended, out))
}

#[test]
fn endings(rt: HostRuntime) -> Result<(), Fail> {
    let quiet = |text, turns| Row {
        text,
        input: &[],
        turns,
        source: &[],
        sink: &[],
    };
    let rows: [(Row<'_>, Ending, &[u8]); 9] = [
        (quiet(TWELVE, 3), Ending::Exit(Word(12)), b""),
        (quiet(LETTERS, 0), Ending::OutOfTurns, b"A"),
        (quiet(LETTERS, 1), Ending::OutOfTurns, b"AA"),
        (quiet(LETTERS, 2), Ending::OutOfTurns, b"AAA"),
        (quiet(DIVIDE, 0), Ending::Trapped(Trap::Divide), b""),
        (quiet(QUOTIENT, 0), Ending::Trapped(Trap::Quotient), b""),
        (quiet(SHIFT, 0), Ending::Trapped(Trap::Shift), b""),
        (quiet(INDEX, 0), Ending::Trapped(Trap::Index), b""),
        (quiet(DEEP, 2_000_000), Ending::Exit(Word(1_000_000)), b""),
    ];
    for (row, ending, output) in &rows {
        let (ended, out) = answer(rt.alloc(), row)?;
        assert_eq!(rt; ended, Ok(*ending));
        assert!(rt; out.bytes() == *output);
    }
    Ok(())
}

#[test]
fn failing_calls(rt: HostRuntime) -> Result<(), Fail> {
    let alloc = rt.alloc();
    let echo = |source| Row {
        text: ECHO,
        input: b"ab",
        turns: 2,
        source,
        sink: &[],
    };
    // the third call of the source would fail, but none follows the one that met the end
    let (ended, out) = answer(alloc, &echo(&[3]))?;
    assert_eq!(rt; ended, Ok(Ending::Exit(Word(u32::MAX))));
    assert!(rt; out.bytes() == b"ab".as_slice());
    let (ended, _) = answer(alloc, &echo(&[2]))?;
    assert_eq!(rt; ended, Err(RunFault::Input));
    let many = Row {
        text: LETTERS,
        input: &[],
        turns: 5000,
        source: &[],
        sink: &[2],
    };
    let (ended, out) = answer(alloc, &many)?;
    assert_eq!(rt; ended, Err(RunFault::Output));
    assert_eq!(rt; out.bytes().len(), 4096);
    Ok(())
}

#[test]
fn calls_are_counted(rt: HostRuntime) -> Result<(), Fail> {
    let alloc = rt.alloc();
    let program = read_il(alloc, TWELVE)?;
    let rows: [(u64, Ending, [u32; 4], [u32; 2], u32); 2] = [
        (3, Ending::Exit(Word(12)), [1, 1, 0, 1], [1, 1], 1),
        (1, Ending::OutOfTurns, [1, 0, 0, 0], [1, 0], 0),
    ];
    for (turns, ending, entries, of_main, of_g) in &rows {
        let mut counts = Counts::new(alloc, &program)?;
        let mut input = MemSource::new(Vec::new(alloc), Vec::new(alloc));
        let mut out = MemSink::new(alloc, Vec::new(alloc));
        let ended = run(
            alloc,
            &program,
            &mut input,
            &mut out,
            *turns,
            Some(&mut counts),
        );
        assert_eq!(rt; ended, Ok(*ending));
        assert!(rt; counts.entries.as_slice() == entries.as_slice());
        let sites = counts.sites.as_slice();
        assert_eq!(rt; sites.len(), 4);
        assert!(rt; sites[1].as_slice() == [*of_g].as_slice());
        assert!(rt; sites[2].as_slice() == of_main.as_slice());
        assert!(rt; sites[0].is_empty() && sites[3].is_empty());
    }
    Ok(())
}
