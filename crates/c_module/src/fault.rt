//! What is wrong with files that give no module, and with modules that make no program.
use c_lex::LexKind;
use c_parse::ParseKind;
use c_types::TypeKind;
use linker::LinkFault;
use thiserror::Error;

/// What is wrong with the bytes of a file.
#[derive(Clone, Copy, Debug, Drop, PartialEq, Eq, Error)]
pub enum ModuleFault {
    /// There are more than 16 MiB.
    #[error("too long")]
    TooLong,
    /// They are no text of the lexical grammar.
    #[error("line {line}: {kind}")]
    Lexical { line: u32, kind: LexKind },
    /// Their tokens are no module.
    #[error("line {line}: {kind}")]
    Syntax { line: u32, kind: ParseKind },
    /// They are a module, which breaks a rule of types or linkage.
    #[error("line {line}: {kind}")]
    Typing { line: u32, kind: TypeKind },
    /// They are a module that follows the rules, and the routine of the function with this PID passes a limit of the
    /// language. It is the first such function of the module.
    #[error("the routine of name {pid} passes a limit of the language")]
    TooLarge { pid: u32 },
}

/// Why a file gives no typed module, or no routines.
#[derive(Clone, Copy, Debug, Drop, PartialEq, Eq, Error)]
pub enum FileFault {
    /// Something is wrong with its bytes.
    #[error("{0}")]
    NoModule(ModuleFault),
    /// Reading it failed.
    #[error("cannot be read")]
    CannotRead,
    /// Memory ran out.
    #[error("out of memory")]
    Memory,
}

/// Why files give no program.
#[derive(Clone, Copy)]
pub enum ProgramFault<'a> {
    /// The first file that gives no typed module, or no routines, and why.
    File(&'a str, FileFault),
    /// Each file gives its module, and the modules don't link.
    Link(LinkFault),
    /// Memory ran out behind the last file.
    Memory,
}

/// Why going over files in order, with a taker of their routines, ended early.
#[derive(Clone, Copy)]
pub enum TakeFault<'a> {
    /// The files give no program.
    Program(ProgramFault<'a>),
    /// The taker refused the routine of a function.
    Refused,
}

/// Why the routines of a file weren't all taken.
#[derive(Clone, Copy, Drop)]
pub(crate) enum Stop {
    /// The file gives no routines.
    File(FileFault),
    /// The taker refused one.
    Refused,
}
