//! Why a command doesn't do what its words ask for.
ghost use Rattle.std.specs.Prelude.{◌≡◌};
ghost use Rattle.hlo_cmd.specs.Messages.{loader_refusal, print_refusal, profile_refusal, program_refusal, refusal_status, run_refusal, words_refusal};

use crate::print::PrintFault;
use crate::profiles::ProfileFault;
use c_module::{FileFault, ModuleFault, ProgramFault};
use hlo_words::WordsFault;
use il_run::RunFault;
use il_text::IlKind;
use linker::LinkFault;
use naim_core::Failure;

/// What is wrong with the bytes of a file that should have a program's text.
#[derive(Clone, Copy, PartialEq, Eq)]
pub(crate) enum TextFault {
    /// There are too many.
    TooLong,
    /// They are the text of no program.
    At { line: u32, kind: IlKind },
}

/// Why a command doesn't do what its words ask for, with the file that its line tells.
#[derive(Clone, Copy)]
pub(crate) enum Refusal<'a> {
    /// The words give no settings.
    Usage,
    /// What is wrong with the bytes of a file that should be a module.
    Module(&'a str, ModuleFault),
    /// The modules make no program.
    Link(LinkFault),
    /// The first line of a profile that doesn't fit, from 1; 0 stands for a profile that is too long.
    Profile(u32),
    /// What is wrong with the bytes of a file that should have a program's text.
    Text(TextFault),
    /// Reading this file failed.
    CannotRead(&'a str),
    /// The sink of the output failed.
    CannotWrite,
    /// The scratch disk failed.
    Repository,
    /// A record on the scratch disk has other bytes than those that were put there: its place, the SHA-256 that was kept and
    /// the one found.
    Damaged {
        place: u64,
        kept: [u8; 32],
        found: [u8; 32],
    },
    /// The bytes of the record at this place are no routine's.
    Unreadable {
        place: u64,
    },
    /// The routine that came back isn't the one that was put out.
    Unfit {
        pid: u32,
    },
    /// The compact form of a routine is longer than the limit.
    TooSmall {
        pid: u32,
        need: u32,
        limit: u64,
    },
    /// The source of the program's input failed.
    CannotReadInput,
    /// Memory ran out.
    Memory,
}

impl<'a> Refusal<'a> {
    /// The status that it ends with.
    pub(crate) fn status(self) -> u8
        ensures { result ≡ refusal_status self.entry }
    {
        match self {
            Refusal::Usage => 2,
            Refusal::Module(_, _) | Refusal::Link(_) => 3,
            Refusal::Profile(_) => 4,
            Refusal::CannotRead(_) => 5,
            Refusal::CannotWrite => 6,
            Refusal::Repository => 7,
            Refusal::Damaged { .. } | Refusal::Unreadable { .. } | Refusal::Unfit { .. } => 8,
            Refusal::TooSmall { .. } => 9,
            Refusal::Memory => 10,
            Refusal::CannotReadInput => 11,
            Refusal::Text(_) => 14,
        }
    }
}

/// Why words give no settings.
pub(crate) fn words_refusal(fault: WordsFault) -> Refusal<'static>
    ensures { result ≡ words_refusal fault }
{
    match fault {
        WordsFault::Usage => Refusal::Usage,
        WordsFault::Memory => Refusal::Memory,
    }
}

/// Why there is no profile of that name.
pub(crate) fn profile_refusal<'a>(name: &'a str, fault: ProfileFault) -> Refusal<'a>
    ensures { result ≡ profile_refusal name.entry fault }
{
    match fault {
        ProfileFault::Line(line) => Refusal::Profile(line),
        ProfileFault::CannotRead => Refusal::CannotRead(name),
        ProfileFault::Memory => Refusal::Memory,
    }
}

/// Why files give no program.
pub(crate) fn program_refusal<'a>(fault: ProgramFault<'a>) -> Refusal<'a>
    ensures { result ≡ program_refusal fault.entry }
{
    match fault {
        ProgramFault::File(file, fault) => match fault {
            FileFault::NoModule(fault) => Refusal::Module(file, fault),
            FileFault::CannotRead => Refusal::CannotRead(file),
            FileFault::Memory => Refusal::Memory,
        },
        ProgramFault::Link(fault) => Refusal::Link(fault),
        ProgramFault::Memory => Refusal::Memory,
    }
}

/// Why a loader stopped.
pub(crate) fn loader_refusal<'a>(failure: Failure) -> Refusal<'a>
    ensures { result ≡ loader_refusal failure }
{
    match failure {
        Failure::Repository => Refusal::Repository,
        Failure::Damaged { place, kept, found } => Refusal::Damaged { place, kept, found },
        Failure::Unreadable { place } => Refusal::Unreadable { place },
        Failure::Unfit { pid } => Refusal::Unfit { pid },
        Failure::TooSmall { pid, need, limit } => Refusal::TooSmall { pid, need, limit },
        Failure::Memory => Refusal::Memory,
    }
}

/// Why a text wasn't put out.
pub(crate) fn print_refusal(fault: PrintFault) -> Refusal<'static>
    ensures { result ≡ print_refusal fault }
{
    match fault {
        PrintFault::Output => Refusal::CannotWrite,
        PrintFault::Memory => Refusal::Memory,
    }
}

/// Why a program didn't run to its end.
pub(crate) fn run_refusal(fault: RunFault) -> Refusal<'static>
    ensures { result ≡ run_refusal fault }
{
    match fault {
        RunFault::Input => Refusal::CannotReadInput,
        RunFault::Output => Refusal::CannotWrite,
        RunFault::Memory => Refusal::Memory,
    }
}
