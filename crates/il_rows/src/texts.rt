//! Texts of programs both ways.
use il_check::{Flaw, row_of};
use il_core::IlProgram;
use il_text::{IlFault, IlKind, read_il, write_head, write_routine};
use std::alloc::AllocError;
use std::test::Fail;

/// A program of three modules.
const FOUR_ROUTINES: &[u8] = b"\
hlo-il 1\n\
routine 0 f.1 params 0 value regs 2 entry 1\n\
b0:\n\
\x20 r0 = const 1\n\
\x20 return r0\n\
end\n\
routine 1 g params 0 value regs 2 entry 1\n\
b0:\n\
\x20 r0 = call 3 count 1\n\
\x20 return r0\n\
end\n\
routine 2 main params 0 value regs 6 entry 1\n\
b0:\n\
\x20 r0 = call 0 count 1\n\
\x20 r1 = const 10\n\
\x20 r2 = muls r0 r1\n\
\x20 r3 = call 1 count 1\n\
\x20 r4 = adds r2 r3\n\
\x20 return r4\n\
end\n\
routine 3 f.2 params 0 value regs 2 entry 1\n\
b0:\n\
\x20 r0 = const 2\n\
\x20 return r0\n\
end\n\
done\n";

/// A program with each instruction and each end.
const EACH_FORM: &[u8] = b"\
hlo-il 1\n\
object 1 g 2 = 0 -5\n\
object 3 h.1 4\n\
routine 0 main params 0 value regs 5 entry 1 arrays 3 2\n\
b0:\n\
\x20 r0 = const -2147483648\n\
\x20 r1 = move r0\n\
\x20 r2 = conv ushort r1\n\
\x20 r3 = shru r1 r2\n\
\x20 r4 = get g1\n\
\x20 set g1 r4\n\
\x20 r0 = getx g3 r1\n\
\x20 setx g3 r1 r2\n\
\x20 r1 = geta a0 r2\n\
\x20 seta a1 r2 r3\n\
\x20 clear r2 3 a0 2\n\
\x20 turn\n\
\x20 call 4 count 7 r0 r1\n\
\x20 r2 = call 2 count 0\n\
\x20 r3 = getchar\n\
\x20 r4 = putchar r3\n\
\x20 branch r4 b1 b2\n\
b1:\n\
\x20 exit r0\n\
b2:\n\
\x20 jump b3\n\
b3:\n\
\x20 return r4\n\
end\n\
routine 2 f params 0 value regs 2 entry 4294967295\n\
b0:\n\
\x20 loop b0\n\
end\n\
routine 4 v$2 params 2 void regs 2 entry 0\n\
b0:\n\
\x20 return\n\
end\n\
done\n";

/// The text that the writers give.
fn written(rt: &HostRuntime, program: &IlProgram) -> Result<Vec<u8>, AllocError> {
    let mut out = write_head(rt.alloc(), program.objects.as_slice(), &program.shapes)?;
    for routine in program.routines.as_slice() {
        if let Some(row) = row_of(&program.shapes, routine.pid) {
            let text = write_routine(rt.alloc(), routine, &row.name)?;
            out.extend_from_slice(text.as_slice())?;
        }
    }
    out.extend_from_slice(b"done\n")?;
    Ok(out)
}

#[test]
fn texts_both_ways(rt: HostRuntime) -> Result<(), Fail> {
    for text in [FOUR_ROUTINES, EACH_FORM] {
        let program = read_il(rt.alloc(), text)?;
        let out = written(&rt, &program)?;
        assert!(rt; out.as_slice() == text);
    }
    Ok(())
}

/// What is wrong with a text, if something is.
fn fault(rt: &HostRuntime, text: &[u8]) -> Option<(u32, IlKind)> {
    match read_il(rt.alloc(), text) {
        Err(IlFault::At { line, kind }) => Some((line, kind)),
        _ => None,
    }
}

#[test]
fn faults(rt: HostRuntime) {
    let rows: [(&[u8], u32, IlKind); 14] = [
        (
            b"hlo-il 1\nroutine 0 main params 0 value regs 2 entry 1\nb0:\n  r0 = const 0\n  return r2\nend\ndone\n",
            2,
            IlKind::Invalid(Flaw::Register),
        ),
        (
            b"hlo-il 1\nroutine 0 main params 0 value regs 32769 entry 1\nb0:\n  r0 = const 0\n  return r0\nend\ndone\n",
            2,
            IlKind::Line,
        ),
        (
            b"hlo-il 1\nroutine 0 main params 0 value regs 2 entry 1\nb0:\n  r0 = const 00\n  return r0\nend\ndone\n",
            4,
            IlKind::Line,
        ),
        (
            b"hlo-il 1\nroutine 0 main params 0 value regs 2 entry 1\nb0:\n  r0  = const 0\n  return r0\nend\ndone\n",
            4,
            IlKind::Line,
        ),
        (
            b"hlo-il 1\nroutine 0 main params 0 value regs 2 entry 1\nb0:\n  r0 = const -0\n  return r0\nend\ndone\n",
            4,
            IlKind::Line,
        ),
        (
            b"hlo-il 1\nroutine 0 main params 0 value regs 2 entry 1\nb0:\n  r0 = const 0\n  return r0\nend\ndone",
            7,
            IlKind::Line,
        ),
        (
            b"hlo-il 1\nroutine 0 main params 0 value regs 2 entry 1\nb0:\n  r0 = const 0\n  return r0\nend\ndone\n\n",
            8,
            IlKind::Line,
        ),
        (
            b"hlo-il 1\nroutine 0 f params 0 value regs 2 entry 1\nb0:\n  r0 = const 0\n  return r0\nend\ndone\n",
            7,
            IlKind::NoMain,
        ),
        (
            b"hlo-il 1\nroutine 0 main params 0 value regs 2 entry 1\nb0:\n  r0 = const 0\n  return r0\nb1:\n  loop b0\nend\nroutine 0 f params 0 void regs 9 entry 0\nend\ndone\n",
            9,
            IlKind::Order,
        ),
        (
            b"hlo-il 1\nroutine 0 main params 0 value regs 2 entry 1\nb0:\n  r0 = const 0\n  return r0\nend\nroutine 1 main params 0 void regs 9 entry 0\nend\ndone\n",
            7,
            IlKind::Order,
        ),
        (
            b"hlo-il 1\nroutine 0 main params 0 value regs 2 entry 1\nb0:\n  r0 = const 0\n  return r0\nend\nroutine 1 f params 0 void regs 9 entry 0\nend\ndone\n",
            7,
            IlKind::Invalid(Flaw::Target),
        ),
        (
            b"hlo-il 1\nobject 0 g 1\nroutine 0 main params 0 value regs 2 entry 1\nb0:\n  r0 = const 0\n  return r0\nend\ndone\n",
            3,
            IlKind::Order,
        ),
        (
            b"hlo-il 1\nobject 9 g 1 = 0\nroutine 0 main params 0 value regs 2 entry 1\nb0:\n  r0 = const 0\n  return r0\nend\ndone\n",
            2,
            IlKind::Line,
        ),
        (
            b"hlo-il 1\nobject 9 g 0\nroutine 0 main params 0 value regs 2 entry 1\nb0:\n  r0 = const 0\n  return r0\nend\ndone\n",
            2,
            IlKind::Line,
        ),
    ];
    for (text, line, kind) in rows {
        assert_eq!(rt; fault(&rt, text), Some((line, kind)));
    }
}

#[test]
fn missing_lines(rt: HostRuntime) {
    let mut line: u32 = 1;
    for (at, b) in FOUR_ROUTINES.iter().enumerate() {
        if *b == b'\n' {
            line = line.saturating_add(1);
            let expected = if at + 1 == FOUR_ROUTINES.len() {
                None
            } else {
                Some((line, IlKind::Line))
            };
            assert_eq!(rt; fault(&rt, &FOUR_ROUTINES[..at + 1]), expected);
        }
    }
}
