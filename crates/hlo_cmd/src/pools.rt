//! The planned program of files, made in the pools of a loader and put out from there.
ghost use Rattle.std.specs.Prelude.{◌≡◌, ℕ, List, [], Option, IfOk, IfErr, IsErr, OnOk, IsSome, IfSome, None};
ghost use Rattle.linker.specs.Linking.{refusal};
ghost use Rattle.outside.specs.Faults.{NoneFalls};
ghost use Rattle.outside.specs.Told.{SameFiles, Told};
ghost use Rattle.profile.specs.Counts.{Counts, counts_of};
ghost use Rattle.sym_tables.specs.Table.{Table};
ghost use Rattle.c_module.specs.Assembling.{AreRoutinesOf};
ghost use Rattle.c_module.specs.Told.{AreQuiet, AreRefused, AreWellFormedTexts};
ghost use Rattle.hlo_words.specs.declared.settings.OptSettings.{OptSettings as Settings};
ghost use Rattle.naim_loader.specs.Paged.{IsGood};
ghost use Rattle.hlo_cmd.specs.Messages.{loader_refusal};
ghost use Rattle.hlo_cmd.specs.Opt.{IsInRange};
ghost use Rattle.hlo_cmd.specs.Paging.{HasPlanned, HasPrinted, IsAtPrinting, IsFillingCause, IsLate, IsOptCause, IsPlanningCause, IsUnreadRefusal};
ghost use Rattle.hlo_cmd.specs.Pools.{AreOfFiles, GoesOn, IsReady, Remains, inserted};
ghost use Rattle.one_owner.specs.Alone.{IsResting};
ghost use Rattle.plan_pools.specs.Contents.{HavePools};

use crate::paging::Paging;
use crate::refusal::{Refusal, loader_refusal, program_refusal};
use c_module::{TakeFault, lowered_into, program_frame};
use hlo_num::Seq;
use hlo_words::OptSettings;
use il_core::{Object, Shapes};
use il_run::main_of;
use outside::{Disk, Shelf, Sink};
use plan_driver::{PlanLoader, PrintFault, optimise, plan_is_worth, print};
use profile::Profile;
use std::alloc::Global;
use sym_tables::ProgramSyms;

/// Puts out the text of the planned program of the files, with the counts of `p`: each routine goes to the pools as soon as it
/// is lowered, the plan is made there, and what it makes comes from there to be printed.
pub(crate) fn print_files<'a, S: Shelf, O: Sink, D: Disk + Drop>(
    alloc: Global,
    settings: &'a OptSettings,
    p: &Profile,
    paging: &mut Paging<D>,
    shelf: &mut S,
    out: &mut O,
    syms: &mut ProgramSyms,
) -> Result<(), Refusal<'a>>
    requires names { syms.old ≡ [] }
    requires range { IsInRange settings.now }
    requires limit { paging.old.loader.core.limit ≡ settings.now.limit }
    requires ready { IsReady paging.old.loader paging.old.pids.items paging.old.cost }
    requires none { inserted paging.old.loader ≡ [] }
    ensures ok { IfOk result (λ _. HasPrinted (S.tells shelf.old) (λ limit. IsGood D.reach D.honest limit paging.old.loader.first) (O.taken out.old)
        (O.taken out.new) settings.now (counts_of p.now) syms.new paging.new.cost paging.new.planned) }
    ensures err { IfErr result (IsOptCause (S.tells shelf.old) (λ limit. IsGood D.reach D.honest limit paging.old.loader.first) (O.taken out.old)
        (O.taken out.new) settings.now (counts_of p.now) syms.new (S.faults shelf.old) (S.faults shelf.new) (O.faults out.old) (O.faults out.new)
        (D.faults paging.old.loader.disk) (D.faults paging.new.loader.disk)) }
    ensures kept { Remains D.faults paging.old.loader paging.new.loader }
    ensures complete { (names : Table) → AreWellFormedTexts (S.tells shelf.old) settings.now.files names → refusal names ≡ None
        → AreQuiet (S.faults shelf.old) (S.faults shelf.new) settings.now.files → IfErr result IsLate }
    ensures refuses { AreRefused (S.tells shelf.old) settings.now.files → IsErr result }
    ensures unprinted { AreRefused (S.tells shelf.old) settings.now.files → IfErr result (λ r. IsAtPrinting r → ⊥) }
    ensures reads { AreQuiet (S.faults shelf.old) (S.faults shelf.new) settings.now.files → IfErr result (λ r. IsUnreadRefusal r → ⊥) }
    ensures same { SameFiles (S.tells shelf.old) (S.tells shelf.new) }
    ensures counts { NoneFalls (S.faults shelf.old) (S.faults shelf.new) }
{
    match take_files(alloc, settings, p, paging, shelf, syms) {
        Ok(()) => print_taken(alloc, settings, paging, out, syms),
        Err(refusal) => Err(refusal),
    }
}

/// Hands the routines of the files to the pools, each as soon as it is lowered.
fn take_files<'a, S: Shelf, D: Disk + Drop>(
    alloc: Global,
    settings: &'a OptSettings,
    p: &Profile,
    paging: &mut Paging<D>,
    shelf: &mut S,
    syms: &mut ProgramSyms,
) -> Result<(), Refusal<'a>>
    requires names { syms.old ≡ [] }
    requires limit { paging.old.loader.core.limit ≡ settings.now.limit }
    requires ready { IsReady paging.old.loader paging.old.pids.items paging.old.cost }
    requires none { inserted paging.old.loader ≡ [] }
    ensures ok { IfOk result (λ _. AreRoutinesOf (counts_of p.now) (S.tells shelf.old) settings.now.files (inserted paging.new.loader) syms.new) }
    ensures still { OnOk result (IsReady paging.new.loader paging.new.pids.items paging.new.cost) }
    ensures err { IfErr result (IsFillingCause (S.tells shelf.old) settings.now (counts_of p.now) syms.new (S.faults shelf.old) (S.faults shelf.new)
        (D.faults paging.old.loader.disk) (D.faults paging.new.loader.disk)) }
    ensures kept { GoesOn D.faults paging.old.loader paging.new.loader }
    ensures complete { (names : Table) → AreWellFormedTexts (S.tells shelf.old) settings.now.files names → refusal names ≡ None
        → AreQuiet (S.faults shelf.old) (S.faults shelf.new) settings.now.files → IfErr result IsLate }
    ensures refuses { AreRefused (S.tells shelf.old) settings.now.files → IsErr result }
    ensures reads { AreQuiet (S.faults shelf.old) (S.faults shelf.new) settings.now.files → IfErr result (λ r. IsUnreadRefusal r → ⊥) }
    ensures same { SameFiles (S.tells shelf.old) (S.tells shelf.new) }
    ensures counts { NoneFalls (S.faults shelf.old) (S.faults shelf.new) }
{
    let Err(fault) = lowered_into(alloc, settings.files.as_slice(), shelf, p, syms, paging) else {
        return Ok(());
    };
    match fault {
        TakeFault::Program(fault) => Err(program_refusal(fault)),
        TakeFault::Refused => Err(kept_refusal(&paging.loader)),
    }
}

/// Makes the plan of the program whose routines are in the pools, and puts out the text of its last program.
fn print_taken<'a, O: Sink, D: Disk + Drop>(
    alloc: Global,
    settings: &OptSettings,
    paging: &mut Paging<D>,
    out: &mut O,
    syms: &ProgramSyms,
) -> Result<(), Refusal<'a>>
    requires range { IsInRange settings.now }
    requires limit { paging.old.loader.core.limit ≡ settings.now.limit }
    requires ready { IsReady paging.old.loader paging.old.pids.items paging.old.cost }
    requires taken { AreOfFiles (inserted paging.old.loader) syms.now }
    ensures ok { (counts : Counts) (tells : List ℕ → Told) → AreRoutinesOf counts tells settings.now.files (inserted paging.old.loader) syms.now
        → IfOk result (λ _. HasPrinted tells (λ limit. IsGood D.reach D.honest limit paging.old.loader.first) (O.taken out.old) (O.taken out.new) settings.now
        counts syms.now paging.new.cost paging.new.planned) }
    ensures err { (counts : Counts) (tells : List ℕ → Told) (shelf shelf_now : List ℕ → ℕ)
        → AreRoutinesOf counts tells settings.now.files (inserted paging.old.loader) syms.now
        → IfErr result (IsOptCause tells (λ limit. IsGood D.reach D.honest limit paging.old.loader.first) (O.taken out.old) (O.taken out.new) settings.now
        counts syms.now shelf shelf_now (O.faults out.old) (O.faults out.new) (D.faults paging.old.loader.disk) (D.faults paging.new.loader.disk)) }
    ensures kept { Remains D.faults paging.old.loader paging.new.loader }
    ensures late { IfErr result IsLate }
    ensures reads { IfErr result (λ r. IsUnreadRefusal r → ⊥) }
{
    match plan_taken(alloc, settings, paging, syms) {
        Ok((shapes, objects)) => print_planned(alloc, paging, &shapes, objects.as_slice(), out),
        Err(refusal) => Err(refusal),
    }
}

/// Makes the plan of the program whose routines are in the pools: the shapes and the objects of its last program, whose routines
/// are there then.
fn plan_taken<'a, D: Disk + Drop>(
    alloc: Global,
    settings: &OptSettings,
    paging: &mut Paging<D>,
    syms: &ProgramSyms,
) -> Result<(Shapes, Seq<Object>), Refusal<'a>>
    requires range { IsInRange settings.now }
    requires limit { paging.old.loader.core.limit ≡ settings.now.limit }
    requires ready { IsReady paging.old.loader paging.old.pids.items paging.old.cost }
    requires taken { AreOfFiles (inserted paging.old.loader) syms.now }
    ensures ok { (counts : Counts) (tells : List ℕ → Told) → AreRoutinesOf counts tells settings.now.files (inserted paging.old.loader) syms.now
        → IfOk result (λ frame. HasPlanned tells (λ limit. IsGood D.reach D.honest limit paging.old.loader.first) settings.now counts syms.now D.reach D.honest
        paging.new.loader frame.0 frame.1 paging.new.cost paging.new.planned) }
    ensures rests { OnOk result (IsResting paging.new.loader) }
    ensures pools { IfOk result (λ frame. HavePools paging.new.loader frame.0) }
    ensures err { (counts : Counts) (tells : List ℕ → Told) → AreRoutinesOf counts tells settings.now.files (inserted paging.old.loader) syms.now
        → IfErr result (IsPlanningCause tells (λ limit. IsGood D.reach D.honest limit paging.old.loader.first) settings.now counts syms.now
        (D.faults paging.old.loader.disk) (D.faults paging.new.loader.disk)) }
    ensures kept { Remains D.faults paging.old.loader paging.new.loader }
    ensures late { IfErr result IsLate }
    ensures reads { IfErr result (λ r. IsUnreadRefusal r → ⊥) }
{
    plan_is_worth();
    let Ok((shapes, objects)) = program_frame(alloc, syms, paging.pids.as_slice()) else {
        return Err(Refusal::Memory);
    };
    let main = main_of(&shapes);
    match optimise(
        alloc,
        &mut paging.loader,
        shapes,
        main,
        settings.budget,
        settings.passes,
    ) {
        Ok(planned) => {
            paging.planned = planned.cost;
            Ok((planned.shapes, objects))
        }
        Err(failure) => Err(loader_refusal(failure)),
    }
}

/// Puts out the text of the program whose routines are in the pools, with these shapes and objects.
fn print_planned<'a, O: Sink, D: Disk + Drop>(
    alloc: Global,
    paging: &mut Paging<D>,
    shapes: &Shapes,
    objects: &[Object],
    out: &mut O,
) -> Result<(), Refusal<'a>>
    requires rests { IsResting paging.old.loader }
    requires pools { HavePools paging.old.loader shapes.now }
    ensures ok { (s : Settings) (counts : Counts) (tells : List ℕ → Told) (names : Table) (disk : D)
        → HasPlanned tells (λ limit. IsGood D.reach D.honest limit disk) s counts names D.reach D.honest paging.old.loader shapes.now objects.now
        paging.old.cost paging.old.planned
        → IfOk result (λ _. HasPrinted tells (λ limit. IsGood D.reach D.honest limit disk) (O.taken out.old) (O.taken out.new) s counts names paging.new.cost
        paging.new.planned) }
    ensures err { (s : Settings) (counts : Counts) (tells : List ℕ → Told) (names : Table) (disk : D) (shelf shelf_now : List ℕ → ℕ)
        → HasPlanned tells (λ limit. IsGood D.reach D.honest limit disk) s counts names D.reach D.honest paging.old.loader shapes.now objects.now
        paging.old.cost paging.old.planned
        → IfErr result (IsOptCause tells (λ limit. IsGood D.reach D.honest limit disk) (O.taken out.old) (O.taken out.new) s counts names shelf shelf_now
        (O.faults out.old) (O.faults out.new) (D.faults paging.old.loader.disk) (D.faults paging.new.loader.disk)) }
    ensures kept { Remains D.faults paging.old.loader paging.new.loader }
    ensures late { IfErr result IsLate }
    ensures reads { IfErr result (λ r. IsUnreadRefusal r → ⊥) }
{
    let Err(fault) = print(alloc, &mut paging.loader, shapes, objects, out) else {
        return Ok(());
    };
    match fault {
        PrintFault::Output => Err(Refusal::CannotWrite),
        PrintFault::Stopped(failure) => Err(loader_refusal(failure)),
    }
}

/// The failure that a loader keeps.
fn kept_refusal<'a, D: Disk + Drop>(loader: &PlanLoader<D>) -> Refusal<'a>
    requires { IsSome loader.now.core.failure }
    ensures { IfSome loader.now.core.failure (λ f. result ≡ loader_refusal f) }
{
    match loader.failure() {
        Some(failure) => loader_refusal(*failure),
        None => unreachable!(),
    }
}
