//! The line of each refusal.
ghost use Rattle.std.specs.Prelude.{◌≡◌};
ghost use Rattle.hex.specs.Hex.{encode_lower};
ghost use Rattle.outside.specs.Faults.{HasCause};
ghost use Rattle.outside.specs.Taken.{TakesAll};
ghost use Rattle.hlo_cmd.specs.Messages.{Says, damaged_line, link_line, module_line, name_of, refusal_line, refusal_status, small_line, stats_line, text_line};

use crate::ending::write_number;
use crate::kinds::{il_name, lexical_name, syntax_name, type_name};
use crate::pieces::{write_counts, write_pieces, write_place, write_three};
use crate::refusal::{Refusal, TextFault};
use crate::report::{Report, Status};
use c_module::ModuleFault;
use itoa::Buffer;
use linker::LinkFault;
use outside::{Failed, Sink, write_all};
use sym_tables::ProgramSyms;

/// Writes the line of a refusal, where the modules have the names of `syms`, and gives its status. A failure
/// changes nothing else.
pub(crate) fn refused<E: Sink>(err: &mut E, refusal: Refusal<'_>, syms: &ProgramSyms) -> Status
    ensures status { result.0 ≡ refusal_status refusal.entry }
    ensures line { Says (E.taken err.old) (E.taken err.new) (E.faults err.old) (E.faults err.new) (refusal_line syms.now refusal.entry) }
{
    tell(err, refusal, syms);
    Status(refusal.status())
}

/// Writes the line of a refusal.
fn tell<E: Sink>(err: &mut E, refusal: Refusal<'_>, syms: &ProgramSyms)
    ensures { Says (E.taken err.old) (E.taken err.new) (E.faults err.old) (E.faults err.new) (refusal_line syms.now refusal.entry) }
{
    let _ = match refusal {
        Refusal::Usage => write_all(err, b"hlo: usage\n"),
        Refusal::Module(file, fault) => write_module_fault(err, syms, file.as_bytes(), fault),
        Refusal::Link(fault) => write_link_fault(err, syms, fault),
        Refusal::Profile(line) => write_number(err, b"hlo: profile: line ", line),
        Refusal::Text(fault) => write_text_fault(err, fault),
        Refusal::CannotRead(file) => {
            write_three(err, b"hlo: cannot read ", file.as_bytes(), b"\n")
        }
        Refusal::CannotWrite => write_all(err, b"hlo: cannot write\n"),
        Refusal::Repository => write_all(err, b"hlo: repository failed\n"),
        Refusal::Damaged { place, kept, found } => write_damage(err, place, kept, found),
        Refusal::Unreadable { place } => {
            write_counts(err, &[(b"hlo: repository unreadable at ", place)])
        }
        Refusal::Unfit { pid } => {
            write_counts(err, &[(b"hlo: repository unfit: routine ", u64::from(pid))])
        }
        Refusal::TooSmall { pid, need, limit } => write_small(err, pid, need, limit),
        Refusal::CannotReadInput => write_all(err, b"hlo: cannot read input\n"),
        Refusal::Memory => write_all(err, b"hlo: out of memory\n"),
    };
}

/// Writes the line that tells what is wrong with the bytes of a file that should be a module.
fn write_module_fault<E: Sink>(
    err: &mut E,
    syms: &ProgramSyms,
    file: &[u8],
    fault: ModuleFault,
) -> Result<(), Failed>
    ensures bytes { TakesAll (E.taken err.old) (E.taken err.new) result (module_line syms.now file.now fault) }
    ensures cause { HasCause (E.faults err.old) (E.faults err.new) result }
{
    match fault {
        ModuleFault::TooLong => write_three(err, b"hlo: ", file, b": TooLong\n"),
        ModuleFault::Lexical { line, kind } => write_place(err, file, line, lexical_name(kind)),
        ModuleFault::Syntax { line, kind } => write_place(err, file, line, syntax_name(kind)),
        ModuleFault::Typing { line, kind } => write_place(err, file, line, type_name(kind)),
        ModuleFault::TooLarge { pid } => {
            write_three(err, b"hlo: ", name_of(syms, pid), b": TooLarge\n")
        }
    }
}

/// Writes the line that tells why the modules don't link.
fn write_link_fault<E: Sink>(
    err: &mut E,
    syms: &ProgramSyms,
    fault: LinkFault,
) -> Result<(), Failed>
    ensures bytes { TakesAll (E.taken err.old) (E.taken err.new) result (link_line syms.now fault) }
    ensures cause { HasCause (E.faults err.old) (E.faults err.new) result }
{
    match fault {
        LinkFault::Undefined { pid } => {
            write_three(err, b"hlo: link: Undefined ", name_of(syms, pid), b"\n")
        }
        LinkFault::NoMain => write_all(err, b"hlo: link: NoMain\n"),
        LinkFault::MainType => write_all(err, b"hlo: link: MainType\n"),
    }
}

/// The bytes of the name of a PID, none where no name has it.
fn name_of(syms: &ProgramSyms, pid: u32) -> &[u8]
    ensures { result.now ≡ name_of syms.now pid }
{
    match syms.name(pid) {
        Some(name) => name.bytes(),
        None => b"",
    }
}

/// Writes the line that tells what is wrong with a program's text.
fn write_text_fault<E: Sink>(err: &mut E, fault: TextFault) -> Result<(), Failed>
    ensures bytes { TakesAll (E.taken err.old) (E.taken err.new) result (text_line fault) }
    ensures cause { HasCause (E.faults err.old) (E.faults err.new) result }
{
    match fault {
        TextFault::TooLong => write_all(err, b"hlo: il: TooLong\n"),
        TextFault::At { line, kind } => write_place(err, b"il", line, il_name(kind)),
    }
}

/// Writes the line that tells that a record has other bytes than those that were put there.
fn write_damage<E: Sink>(
    err: &mut E,
    place: u64,
    kept: [u8; 32],
    found: [u8; 32],
) -> Result<(), Failed>
    ensures bytes { TakesAll (E.taken err.old) (E.taken err.new) result (damaged_line place kept found) }
    ensures cause { HasCause (E.faults err.old) (E.faults err.new) result }
{
    let mut buffer = Buffer::new();
    let number = buffer.format(place);
    let kept = digits(&kept);
    let found = digits(&found);
    write_pieces(
        err,
        &[
            b"hlo: repository damaged at ",
            number.as_bytes(),
            b": kept ",
            &kept,
            b" found ",
            &found,
            b"\n",
        ],
    )
}

/// The digits of a SHA-256, two for each byte.
fn digits(digest: &[u8; 32]) -> [u8; 64]
    ensures { result ≡ encode_lower digest.now }
{
    let mut text = [0; 64];
    let _ = hex::encode_to_slice(digest, &mut text);
    text
}

/// Writes the line that tells that the limit is too small for a routine.
fn write_small<E: Sink>(err: &mut E, pid: u32, need: u32, limit: u64) -> Result<(), Failed>
    ensures bytes { TakesAll (E.taken err.old) (E.taken err.new) result (small_line pid need limit) }
    ensures cause { HasCause (E.faults err.old) (E.faults err.new) result }
{
    write_counts(
        err,
        &[
            (b"hlo: limit too small: routine ", u64::from(pid)),
            (b" needs ", u64::from(need)),
            (b", limit ", limit),
        ],
    )
}

/// Writes the line of a report. A failure changes nothing else.
pub(crate) fn tell_report<E: Sink>(err: &mut E, report: &Report)
    ensures { Says (E.taken err.old) (E.taken err.new) (E.faults err.old) (E.faults err.new) (stats_line report.now) }
{
    let _ = write_counts(
        err,
        &[
            (b"stats: peak ", report.charged_peak),
            (b" under ", report.under_peak),
            (b" compactions ", report.compactions),
            (b" offloads ", report.offloads),
            (b" reloads ", report.reloads),
            (b" cost ", report.cost_before),
            (b" ", report.cost_after),
        ],
    );
}
