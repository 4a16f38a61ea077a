//! The typed module of a file.
ghost use Rattle.std.specs.Prelude.{ℕ, IfOk, IfErr, OnOk};
ghost use Rattle.outside.specs.Faults.{NoneFalls};
ghost use Rattle.outside.specs.Told.{SameFiles};
ghost use Rattle.program_laws.specs.Growing.{Grows};
ghost use Rattle.sym_tables.specs.Table.{Table};
ghost use Rattle.c_module.specs.Files.{HoldsModule, HoldsTokens, HoldsTyped, IsCause};
ghost use Rattle.c_module.specs.WellTyped.{IsWellTypedModule, StayWellTyped};

use crate::fault::{FileFault, ModuleFault};
use c_lex::{LexFault, scan};
use c_parse::{ParseFault, parse};
use c_tree::{Module, Token};
use c_types::{TypeFault, TypedModule};
use outside::{ReadFault, Shelf, read_whole};
use std::alloc::Global;
use sym_tables::ProgramSyms;
use typed_laws::{typed_modules_are_well_typed, well_typed_stays};

/// The greatest number of bytes of a module, 16 MiB.
const MAX_MODULE_BYTES: u32 = 16_777_216;

/// The typed module of the file with this number, from 1. `syms` has the names of the modules before it, and
/// takes in its own: the table grows by declarations and uses alone, each function of the module is well typed with it, and
/// what was well typed before stays so. `NoModule` has the first thing that is wrong with the file's bytes; `CannotRead` comes only where
/// the shelf's count of the file rose in this call; `Memory` is want of memory. On `Err` nothing is promised of `syms`. It
/// takes expected time and memory in proportion to the file; tokens and tree are dropped before it returns.
pub fn typed_module<S: Shelf>(
    alloc: Global,
    shelf: &mut S,
    file: &str,
    number: u32,
    syms: &mut ProgramSyms,
) -> Result<TypedModule, FileFault>
    ensures ok { IfOk result (λ t. HoldsTyped number syms.old (S.tells shelf.old file.now) t syms.new) }
    ensures typed { IfOk result (λ t. IsWellTypedModule syms.new t) }
    ensures grows { OnOk result (Grows syms.old syms.new) }
    ensures stays { OnOk result (StayWellTyped syms.old syms.new) }
    ensures err { IfErr result (λ f. IsCause number syms.old f (S.tells shelf.old file.now) (S.faults shelf.old file.now)
        (S.faults shelf.new file.now) syms.new) }
    ensures same { SameFiles (S.tells shelf.old) (S.tells shelf.new) }
    ensures counts { NoneFalls (S.faults shelf.old) (S.faults shelf.new) }
{
    typed_modules_are_well_typed();
    well_typed_stays();
    let module = read_module(alloc, shelf, file)?;
    match c_types::check(alloc, &module, number, syms) {
        Ok(typed) => Ok(typed),
        Err(TypeFault::At { line, kind }) => {
            Err(FileFault::NoModule(ModuleFault::Typing { line, kind }))
        }
        Err(TypeFault::Memory) => Err(FileFault::Memory),
    }
}

/// The module of a file.
fn read_module<S: Shelf>(alloc: Global, shelf: &mut S, file: &str) -> Result<Module, FileFault>
    ensures ok { IfOk result (λ m. HoldsModule (S.tells shelf.old file.now) m) }
    ensures err { IfErr result (λ f. (number : ℕ) (old new : Table)
        → IsCause number old f (S.tells shelf.old file.now) (S.faults shelf.old file.now) (S.faults shelf.new file.now) new) }
    ensures same { SameFiles (S.tells shelf.old) (S.tells shelf.new) }
    ensures counts { NoneFalls (S.faults shelf.old) (S.faults shelf.new) }
{
    let tokens = read_tokens(alloc, shelf, file)?;
    match parse(alloc, tokens.as_slice()) {
        Ok(module) => Ok(module),
        Err(ParseFault::At { line, kind }) => {
            Err(FileFault::NoModule(ModuleFault::Syntax { line, kind }))
        }
        Err(ParseFault::Memory) => Err(FileFault::Memory),
    }
}

/// The tokens of a file.
fn read_tokens<S: Shelf>(alloc: Global, shelf: &mut S, file: &str) -> Result<Vec<Token>, FileFault>
    ensures ok { IfOk result (λ v. HoldsTokens (S.tells shelf.old file.now) v.items) }
    ensures err { IfErr result (λ f. (number : ℕ) (old new : Table)
        → IsCause number old f (S.tells shelf.old file.now) (S.faults shelf.old file.now) (S.faults shelf.new file.now) new) }
    ensures same { SameFiles (S.tells shelf.old) (S.tells shelf.new) }
    ensures counts { NoneFalls (S.faults shelf.old) (S.faults shelf.new) }
{
    let text = match read_whole(alloc, shelf, file, MAX_MODULE_BYTES) {
        Ok(text) => text,
        Err(ReadFault::Failed) => return Err(FileFault::CannotRead),
        Err(ReadFault::TooLong) => return Err(FileFault::NoModule(ModuleFault::TooLong)),
        Err(ReadFault::Memory) => return Err(FileFault::Memory),
    };
    match scan(alloc, text.as_slice()) {
        Ok(tokens) => Ok(tokens),
        Err(LexFault::At { line, kind }) => {
            Err(FileFault::NoModule(ModuleFault::Lexical { line, kind }))
        }
        Err(LexFault::Memory) => Err(FileFault::Memory),
    }
}
