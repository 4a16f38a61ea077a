//! Whether files are modules that make one program.
ghost use Rattle.std.specs.Prelude.{◌≡◌, [], None, IfOk, IfErr, IsErr, OnOk};
ghost use Rattle.linker.specs.Linking.{refusal};
ghost use Rattle.outside.specs.Faults.{NoneFalls};
ghost use Rattle.outside.specs.Told.{SameFiles};
ghost use Rattle.sym_tables.specs.Table.{Table};
ghost use Rattle.c_module.specs.Told.{AreQuiet, AreRefused, AreWellFormedTexts};
ghost use Rattle.c_module.specs.Verdict.{IsProgramCause, IsUnread, IsWant, Passes};
ghost use Rattle.c_module.specs.WellTyped.{IsWellTypedProgram};

use crate::fault::ProgramFault;
use crate::lowering::lowered_module;
use hlo_words::FileName;
use linker::link_check;
use outside::Shelf;
use profile::Profile;
use program_laws::{linking_modules_run, typed_programs_are_whole};
use std::alloc::Global;
use sym_tables::ProgramSyms;
use typed_laws::typed_programs_are_well_typed;

/// Checks files in order up to the first that gives no typed module, or a function whose routine passes a limit of the
/// language, and then links their modules. `syms` has no names at first, and takes in those of the modules; at
/// `TooLarge` and at a fault of linking it has the names that these tell. `File` has the first file in which something is
/// wrong, and what; `Link` comes where no file has a fault; want of memory may come at any place. It takes expected time in
/// proportion to the files, and memory in proportion to the greatest of them and to all names; of a module its names alone
/// stay.
pub fn check_modules<'a, S: Shelf>(
    alloc: Global,
    files: &'a [FileName],
    shelf: &mut S,
    syms: &mut ProgramSyms,
) -> Result<(), ProgramFault<'a>>
    requires { syms.old ≡ [] }
    ensures ok { IfOk result (λ _. Passes (S.tells shelf.old) files.now syms.new) }
    ensures typed { OnOk result (IsWellTypedProgram (S.tells shelf.old) files.now syms.new) }
    ensures err { IfErr result (λ fault. IsProgramCause fault files.now (S.tells shelf.old) (S.faults shelf.old) (S.faults shelf.new) syms.new) }
    // Where the shelf tells the files and no count rose, want of memory alone keeps from the answer that the files ask for.
    ensures complete { (names : Table) → AreWellFormedTexts (S.tells shelf.old) files.now names → refusal names ≡ None
        → AreQuiet (S.faults shelf.old) (S.faults shelf.new) files.now → IfErr result IsWant }
    ensures refuses { AreRefused (S.tells shelf.old) files.now → IsErr result }
    ensures reads { AreQuiet (S.faults shelf.old) (S.faults shelf.new) files.now → IfErr result (λ fault. IsUnread fault → ⊥) }
    ensures same { SameFiles (S.tells shelf.old) (S.tells shelf.new) }
    ensures counts { NoneFalls (S.faults shelf.old) (S.faults shelf.new) }
{
    typed_programs_are_well_typed();
    linking_modules_run();
    check_in_order(alloc, files, shelf, syms)
}

/// The files in order, and then linking: what the answer says of them. Files are numbered from 1; of more than there are
/// numbers, `Memory` is told.
fn check_in_order<'a, S: Shelf>(
    alloc: Global,
    files: &'a [FileName],
    shelf: &mut S,
    syms: &mut ProgramSyms,
) -> Result<(), ProgramFault<'a>>
    requires { syms.old ≡ [] }
    ensures ok { IfOk result (λ _. Passes (S.tells shelf.old) files.now syms.new) }
    ensures err { IfErr result (λ fault. IsProgramCause fault files.now (S.tells shelf.old) (S.faults shelf.old) (S.faults shelf.new) syms.new) }
    ensures same { SameFiles (S.tells shelf.old) (S.tells shelf.new) }
    ensures counts { NoneFalls (S.faults shelf.old) (S.faults shelf.new) }
{
    typed_programs_are_whole();
    let p = Profile::flat();
    let mut number = 0;
    for file in files {
        let name = file.as_str();
        if number == u32::MAX {
            return Err(ProgramFault::Memory);
        }
        number += 1;
        if let Err(fault) = lowered_module(alloc, shelf, name, number, syms, &p) {
            return Err(ProgramFault::File(name, fault));
        }
    }
    match link_check(syms) {
        Ok(_) => Ok(()),
        Err(fault) => Err(ProgramFault::Link(fault)),
    }
}
