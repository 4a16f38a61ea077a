//! Profiles of programs that are run.
ghost use Rattle.std.specs.Prelude.{◌≡◌, ◌≤◌, ◌^◌, [], true, Some, Err, IfOk, IfErr, OnOk, length, option_map};
ghost use Rattle.std.specs.List.{AllByRecursion};
ghost use Rattle.std.specs.Option.{is_some};
ghost use Rattle.il_core.specs.Program.{name_at};
ghost use Rattle.il_core.specs.Valid.{IsProgram};
ghost use Rattle.il_run.specs.Counts.{HasShape, sites_of_blocks};
ghost use Rattle.il_run.specs.Run.{AsksFor, IfTold};
ghost use Rattle.profile.specs.Counts.{Profiled};
ghost use Rattle.profile.specs.Texts.{set_by_all};
ghost use Rattle.hlo_cmd.specs.Printing.{HasRow, IsPrintCause};
ghost use Rattle.hlo_cmd.specs.Training.{AreCountsOf, EndsCounted, IsInputCause, PutsProfile, counted_lines, routine_lines, site_lines_from, entered};

use crate::print::{PrintFault, put};
use hlo_num::Name;
use il_check::row_of;
use il_core::{IlProgram, Routine, Shapes};
use il_run::{Counts, Ending, RunFault, run};
use outside::{Sink, Source, SureSink};
use profile::{Profile, write};
use std::alloc::{AllocError, Global};

/// Runs a program with its output dropped and its calls counted. It fails where a byte is wanted that can't be had, and
/// for want of memory.
pub(crate) fn run_counting<I: Source>(
    alloc: Global,
    program: &IlProgram,
    input: &mut I,
    turns: u64,
) -> Result<(Ending, Counts), RunFault>
    requires { IsProgram program.now }
    ensures ended { IfOk result (λ r. IfTold (I.left input.old) (EndsCounted program.now turns r.0 r.1)) }
    ensures shape { IfOk result (λ r. HasShape program.now r.1) }
    ensures cause { IfErr result (λ f. IsInputCause f (I.faults input.old) (I.faults input.new)) }
    ensures wanted { result ≡ Err RunFault.Input → IfTold (I.left input.old) (AsksFor program.now turns (I.left input.new)) }
    ensures later { I.faults input.old ≤ I.faults input.new }
{
    let Ok(mut counts) = Counts::new(alloc, program) else {
        return Err(RunFault::Memory);
    };
    let mut dropped = SureSink::new();
    match run(
        alloc,
        program,
        input,
        &mut dropped,
        turns,
        Some(&mut counts),
    ) {
        Ok(ending) => Ok((ending, counts)),
        Err(fault) => Err(fault),
    }
}

/// Puts out the text of the profile that counts of a program's calls make, in one piece.
pub(crate) fn put_profile<O: Sink>(
    alloc: Global,
    program: &IlProgram,
    counts: &Counts,
    out: &mut O,
) -> Result<(), PrintFault>
    requires valid { IsProgram program.now }
    requires shape { HasShape program.now counts.now }
    ensures put { PutsProfile (set_by_all (counted_lines program.now.shapes program.now.routines counts.now.entries counts.now.sites) []) (O.taken out.old)
        (O.taken out.new) result }
    ensures cause { IfErr result (λ f. IsPrintCause f (O.faults out.old) (O.faults out.new)) }
{
    let Ok(profile) = profile_of(alloc, program, counts) else {
        return Err(PrintFault::Memory);
    };
    let Ok(text) = write(alloc, &profile) else {
        return Err(PrintFault::Memory);
    };
    put(out, text.as_slice())
}

/// The profile that counts of a program's calls make: each routine by its name, in order, with its entry and each of its
/// call sites. It takes expected time linear in the routines and call sites. The only error is want of memory.
pub(crate) fn profile_of(
    alloc: Global,
    program: &IlProgram,
    counts: &Counts,
) -> Result<Profile, AllocError>
    requires rows { AllByRecursion (HasRow program.now.shapes) program.now.routines }
    requires shape { HasShape program.now counts.now }
    ensures { IfOk result (λ p. p ≡ Some (set_by_all (counted_lines program.now.shapes program.now.routines counts.now.entries counts.now.sites) [])) }
{
    let mut profile = Profile::empty(alloc);
    set_routines(
        &mut profile,
        &program.shapes,
        program.routines.as_slice(),
        counts,
    )?;
    Ok(profile)
}

/// Sets the counts of routines, which have rows in the shapes.
fn set_routines(
    profile: &mut Profile,
    shapes: &Shapes,
    routines: &[Routine],
    counts: &Counts,
) -> Result<(), AllocError>
    requires set { is_some profile.old ≡ true }
    requires rows { AllByRecursion (HasRow shapes.now) routines.now }
    requires counts { AreCountsOf routines.now counts.now.entries counts.now.sites }
    ensures { OnOk result (profile.new ≡ option_map (set_by_all (counted_lines shapes.now routines.now counts.now.entries counts.now.sites)) profile.old) }
{
    let entries = counts.entries.as_slice();
    let sites = counts.sites.as_slice();
    for (i, routine) in routines.iter().enumerate() {
        set_routine(profile, shapes, routine, entries[i], sites[i].as_slice())?;
    }
    Ok(())
}

/// Sets the counts of a routine, which has a row in the shapes.
fn set_routine(
    profile: &mut Profile,
    shapes: &Shapes,
    routine: &Routine,
    entry: u32,
    sites: &[u32],
) -> Result<(), AllocError>
    requires set { is_some profile.old ≡ true }
    requires row { HasRow shapes.now routine.now }
    requires sites { length sites.now ≡ sites_of_blocks routine.now.blocks }
    ensures { OnOk result (profile.new ≡ option_map (set_by_all (routine_lines (name_at shapes.now routine.now.pid) entry sites.now)) profile.old) }
{
    let row = row_of(shapes, routine.pid).unwrap();
    let size = routine.size();
    profile.set_entry(&row.name, entered(&row.name, entry))?;
    set_sites(profile, &row.name, sites)
}

/// How often a routine of this name was entered that was called so often: the start of the program enters `main` once
/// more.
fn entered(name: &Name, calls: u32) -> u32
    ensures { result ≡ entered name.now calls }
{
    if name.bytes() == b"main".as_slice() {
        calls.saturating_add(1)
    } else {
        calls
    }
}

/// Sets the counts of a routine's call sites.
fn set_sites(profile: &mut Profile, name: &Name, sites: &[u32]) -> Result<(), AllocError>
    requires set { is_some profile.old ≡ true }
    requires few { length sites.now ≤ 2 ^ 32 }
    ensures { OnOk result (profile.new ≡ option_map (set_by_all (site_lines_from name.now 0 sites.now)) profile.old) }
{
    for (k, count) in sites.iter().enumerate() {
        profile.set_site(name, k as u32, *count)?;
    }
    Ok(())
}
