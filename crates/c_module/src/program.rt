//! The routines of the program of files, one after another, and the lowered program.
ghost use Rattle.std.specs.Prelude.{◌≡◌, [], None, IfOk, IfErr, IsErr, OnOk};
ghost use Rattle.linker.specs.Linking.{refusal};
ghost use Rattle.outside.specs.Faults.{NoneFalls};
ghost use Rattle.outside.specs.Told.{SameFiles};
ghost use Rattle.profile.specs.Counts.{counts_of};
ghost use Rattle.sym_tables.specs.Table.{Table};
ghost use Rattle.c_module.specs.Assembling.{AreRoutinesOf};
ghost use Rattle.c_module.specs.Programs.{IsProgramOf};
ghost use Rattle.c_module.specs.Taking.{IsTakeCause, IsUnreadFile, IsWantOrRefusal};
ghost use Rattle.c_module.specs.Told.{AreQuiet, AreRefused, AreWellFormedTexts};
ghost use Rattle.c_module.specs.Verdict.{IsProgramCause, IsUnread, IsWant};
ghost use Rattle.c_module.specs.WellTyped.{IsWellTypedProgram};

use crate::assembling::assembled;
use crate::fault::{ProgramFault, Stop, TakeFault};
use crate::lowering::take_module;
use crate::taking::RoutineTaker;
use hlo_words::FileName;
use il_core::IlProgram;
use linker::link_check;
use outside::Shelf;
use profile::Profile;
use program_laws::{
    linking_modules_run, lowered_programs_are_right, typed_modules_fit, typed_programs_are_whole,
};
use std::alloc::Global;
use sym_tables::ProgramSyms;
use typed_laws::typed_programs_are_well_typed;

/// Hands the routines of the functions of files, with the counts of `p`, to a taker that has none yet, in order, each as
/// soon as it is made. The faults of the files are those of [`check_modules`], in the same order; a routine is offered once
/// it keeps the limits of the language, before the next function is lowered, and linking comes behind the last one.
/// `Refused` comes where the taker refused the routine of a function; those before it were taken. Of the routines no more
/// than one is here at any moment. It takes expected time in proportion to the files and what the taker takes, and memory
/// in proportion to the greatest of the files and to all names.
///
/// [`check_modules`]: crate::check_modules
pub fn lowered_into<'a, S: Shelf, R: RoutineTaker>(
    alloc: Global,
    files: &'a [FileName],
    shelf: &mut S,
    p: &Profile,
    syms: &mut ProgramSyms,
    taker: &mut R,
) -> Result<(), TakeFault<'a>>
    requires names { syms.old ≡ [] }
    requires none { R.taken taker.old ≡ [] }
    requires ready { R.ready taker.old }
    ensures ok { IfOk result (λ _. AreRoutinesOf (counts_of p.now) (S.tells shelf.old) files.now (R.taken taker.new) syms.new) }
    ensures typed { OnOk result (IsWellTypedProgram (S.tells shelf.old) files.now syms.new) }
    ensures still { OnOk result (R.ready taker.new) }
    ensures err { IfErr result (λ fault. IsTakeCause R.taken R.ready R.keeps R.refuses fault (counts_of p.now) files.now (S.tells shelf.old)
        (S.faults shelf.old) (S.faults shelf.new) taker.old taker.new syms.new) }
    ensures kept { R.keeps taker.old taker.new }
    // Where the shelf tells the files and no count rose, want of memory and a refusal alone keep from the answer that the
    // files ask for.
    ensures complete { (names : Table) → AreWellFormedTexts (S.tells shelf.old) files.now names → refusal names ≡ None
        → AreQuiet (S.faults shelf.old) (S.faults shelf.new) files.now → IfErr result IsWantOrRefusal }
    ensures refuses { AreRefused (S.tells shelf.old) files.now → IsErr result }
    ensures reads { AreQuiet (S.faults shelf.old) (S.faults shelf.new) files.now → IfErr result (λ fault. IsUnreadFile fault → ⊥) }
    ensures same { SameFiles (S.tells shelf.old) (S.tells shelf.new) }
    ensures counts { NoneFalls (S.faults shelf.old) (S.faults shelf.new) }
{
    typed_programs_are_well_typed();
    linking_modules_run();
    into_in_order(alloc, files, shelf, p, syms, taker)
}

/// The files in order, and then linking: what the answer says of them. Files are numbered from 1; of more than there are
/// numbers, `Memory` is told.
fn into_in_order<'a, S: Shelf, R: RoutineTaker>(
    alloc: Global,
    files: &'a [FileName],
    shelf: &mut S,
    p: &Profile,
    syms: &mut ProgramSyms,
    taker: &mut R,
) -> Result<(), TakeFault<'a>>
    requires names { syms.old ≡ [] }
    requires none { R.taken taker.old ≡ [] }
    requires ready { R.ready taker.old }
    ensures ok { IfOk result (λ _. AreRoutinesOf (counts_of p.now) (S.tells shelf.old) files.now (R.taken taker.new) syms.new) }
    ensures still { OnOk result (R.ready taker.new) }
    ensures err { IfErr result (λ fault. IsTakeCause R.taken R.ready R.keeps R.refuses fault (counts_of p.now) files.now (S.tells shelf.old)
        (S.faults shelf.old) (S.faults shelf.new) taker.old taker.new syms.new) }
    ensures kept { R.keeps taker.old taker.new }
    ensures same { SameFiles (S.tells shelf.old) (S.tells shelf.new) }
    ensures counts { NoneFalls (S.faults shelf.old) (S.faults shelf.new) }
{
    typed_modules_fit();
    typed_programs_are_whole();
    let mut number = 0;
    for file in files {
        let name = file.as_str();
        if number == u32::MAX {
            return Err(TakeFault::Program(ProgramFault::Memory));
        }
        number += 1;
        if let Err(stop) = take_module(alloc, shelf, name, number, syms, p, taker) {
            match stop {
                Stop::File(fault) => {
                    return Err(TakeFault::Program(ProgramFault::File(name, fault)));
                }
                Stop::Refused => return Err(TakeFault::Refused),
            }
        }
    }
    match link_check(syms) {
        Ok(_) => Ok(()),
        Err(fault) => Err(TakeFault::Program(ProgramFault::Link(fault))),
    }
}

/// The lowered program of files, with the counts of `p`: every function and every object that their modules define, by PID.
/// It is valid, and has the run of the modules. Refusals are those of [`check_modules`], in the same order; `Memory` may
/// also come behind linking. It takes expected time and memory in proportion to the files.
///
/// [`check_modules`]: crate::check_modules
pub fn lowered_program<'a, S: Shelf>(
    alloc: Global,
    files: &'a [FileName],
    shelf: &mut S,
    p: &Profile,
    syms: &mut ProgramSyms,
) -> Result<IlProgram, ProgramFault<'a>>
    requires { syms.old ≡ [] }
    ensures ok { IfOk result (λ program. IsProgramOf (counts_of p.now) (S.tells shelf.old) files.now program syms.new) }
    ensures typed { OnOk result (IsWellTypedProgram (S.tells shelf.old) files.now syms.new) }
    ensures err { IfErr result (λ fault. IsProgramCause fault files.now (S.tells shelf.old) (S.faults shelf.old) (S.faults shelf.new) syms.new) }
    // Where the shelf tells the files and no count rose, want of memory alone keeps from the answer that the files ask for.
    ensures complete { (names : Table) → AreWellFormedTexts (S.tells shelf.old) files.now names → refusal names ≡ None
        → AreQuiet (S.faults shelf.old) (S.faults shelf.new) files.now → IfErr result IsWant }
    ensures refuses { AreRefused (S.tells shelf.old) files.now → IsErr result }
    ensures reads { AreQuiet (S.faults shelf.old) (S.faults shelf.new) files.now → IfErr result (λ fault. IsUnread fault → ⊥) }
    ensures same { SameFiles (S.tells shelf.old) (S.tells shelf.new) }
    ensures counts { NoneFalls (S.faults shelf.old) (S.faults shelf.new) }
{
    typed_programs_are_well_typed();
    linking_modules_run();
    program_in_order(alloc, files, shelf, p, syms)
}

/// The program of the routines of files: what the answer says of the files.
fn program_in_order<'a, S: Shelf>(
    alloc: Global,
    files: &'a [FileName],
    shelf: &mut S,
    p: &Profile,
    syms: &mut ProgramSyms,
) -> Result<IlProgram, ProgramFault<'a>>
    requires { syms.old ≡ [] }
    ensures ok { IfOk result (λ program. IsProgramOf (counts_of p.now) (S.tells shelf.old) files.now program syms.new) }
    ensures err { IfErr result (λ fault. IsProgramCause fault files.now (S.tells shelf.old) (S.faults shelf.old) (S.faults shelf.new) syms.new) }
    ensures same { SameFiles (S.tells shelf.old) (S.tells shelf.new) }
    ensures counts { NoneFalls (S.faults shelf.old) (S.faults shelf.new) }
{
    typed_programs_are_whole();
    lowered_programs_are_right();
    let mut routines = Vec::new(alloc);
    match into_in_order(alloc, files, shelf, p, syms, &mut routines) {
        Ok(()) => match assembled(alloc, routines, syms) {
            Ok(program) => Ok(program),
            Err(_) => Err(ProgramFault::Memory),
        },
        Err(fault) => match fault {
            TakeFault::Program(fault) => Err(fault),
            TakeFault::Refused => Err(ProgramFault::Memory),
        },
    }
}
