//! The command `opt`.
ghost use Rattle.std.specs.Prelude.{◌≡◌, ◌≢◌, ◌↔◌, ◌≤◌, ◌^◌, ℕ, List, [], IfOk, IfSome, IsSome, Some, Err, map, string_bytes};
ghost use Rattle.naim_loader.specs.Paged.{IsGood};
ghost use Rattle.outside.specs.Faults.{NoneFalls};
ghost use Rattle.outside.specs.Told.{SameFiles};
ghost use Rattle.hlo_cmd.specs.Messages.{Says};
ghost use Rattle.profile.specs.Counts.{counts_of};
ghost use Rattle.hlo_cmd.specs.Opt.{AsksNothing, AsksOpt, IsInRange, OptPromise, report_line};
ghost use Rattle.hlo_cmd.specs.Pools.{IsReady, inserted};
ghost use Rattle.hlo_cmd.specs.Profiles.{HasCounts};
ghost use Rattle.hlo_cmd.specs.Words.{asked_command};
ghost use Rattle.hlo_cmd.specs.declared.words.CommandName.TheVariants as command;

use crate::messages::{refused, tell_report};
use crate::paging::Paging;
use crate::pools::print_files;
use crate::profiles::profile_for;
use crate::refusal::{Refusal, profile_refusal, words_refusal};
use crate::report::{OptAnswer, Report, Status};
use crate::words::{CommandName, asked_command};
use hlo_words::{FileName, OptSettings, WordsFault, read_opt};
use naim_loader::Loader;
use outside::{Disk, Gate, Shelf, Sink};
use profile::Profile;
use std::alloc::Global;
use sym_tables::ProgramSyms;

/// Prints the IL of the program that is planned of the program that modules make: `opt FILE...`, with one to 64 files, `--profile
/// FILE` for the counts of its routines and calls, which are all 1 where no profile is named, `--passes N` for the passes of the
/// plan, `--budget N` for the percent by which it may make the program dearer, `--limit N` for the bytes of routines that may lie
/// in memory at one time beside those that are worked at, and `--stats` for the report. In each pass routines are cloned for the
/// constants of their calls, and these calls go to the clones; all routines are simplified; calls are inlined; all routines are
/// simplified again, and those that `main` doesn't reach go. The budget is spent in equal parts, one a pass.
///
/// At status 0 the text of the planned program was put out: its head in one piece, each routine in one, and its last line.
/// It is the same for every limit. That program is valid, prints, traps and ends as the linked modules do, for every input and
/// every number of turns, and costs at most so many percent more than the lowered one as the budget says; the report has both
/// costs. Otherwise one line says on `err` why: 2 `hlo: usage`, 3 `hlo: FILE:LINE: KIND`, `hlo: FILE: TooLong`, `hlo: NAME:
/// TooLarge` or `hlo: link: ..`, 4 `hlo: profile: line N` (0 where it has more than 16 MiB), 5 `hlo: cannot read FILE`, 6 `hlo:
/// cannot write`, 7 `hlo: repository failed`, 8 `hlo: repository damaged at P: kept H found H`, `hlo: repository unreadable at
/// P` or `hlo: repository unfit: routine PID`, 9 `hlo: limit too small: routine PID needs N, limit N`, of a routine of the
/// files or of the plan, 10 `hlo: out of memory`. Any first word but `opt` is 2. A failed write on `err` changes no status. The
/// disk is the scratch disk, on which routines lie for which there is no room; it comes back, and what is said of the text and
/// of the planned program's cost is said over a disk that is honest and reaches 131,072 times the limit.
///
/// It takes time linear in the files and the text, with the logarithm of the names for each line that names one, and for each
/// pass time in proportion to the routines, before and behind clones and inlined calls, with the logarithm of the calls for
/// ranking them, beside what bringing them back and making room takes; and memory for one file's tokens and trees at a time,
/// beside the names, the limit, one routine that is worked at with those that it takes in, and the calls.
pub fn opt_command<S: Shelf, O: Sink, E: Sink, D: Disk + Drop + Send, G: Gate + Sync>(
    alloc: Global,
    words: &[String],
    shelf: &mut S,
    out: &mut O,
    err: &mut E,
    disk: D,
    _gate: &G,
) -> OptAnswer<D>
    // What each status says, of the words, the files, the text and the line.
    ensures promise { OptPromise (map string_bytes words.now) (S.tells shelf.old) (S.faults shelf.old) (S.faults shelf.new) (O.taken out.old) (O.taken out.new)
        (O.faults out.old) (O.faults out.new) (λ limit. IsGood D.reach D.honest limit disk) (D.faults disk) (D.faults result.disk)
        (Says (E.taken err.old) (E.taken err.new) (E.faults err.old) (E.faults err.new)) result.status.0 result.report }

    // Another first word is refused.
    ensures other { asked_command (map string_bytes words.now) ≢ command.Opt → result.status.0 ≡ 2 }

    // What stays the same: a report comes with 0 alone, the disk's count never falls, a good disk stays good, and the disk
    // isn't asked where the words ask for nothing.
    ensures report { IsSome result.report ↔ (result.status.0 ≡ 0) }
    ensures count { D.faults disk ≤ D.faults result.disk }
    ensures good { (s : OptSettings) → AsksOpt (map string_bytes words.now) s → IsGood D.reach D.honest s.limit disk
        → IsGood D.reach D.honest s.limit result.disk }
    ensures unasked { result.status.0 ≡ 2 → result.disk ≡ disk }
    ensures files { SameFiles (S.tells shelf.old) (S.tells shelf.new) }
{
    match opt_settings(alloc, words) {
        Ok(settings) => serve_settings(alloc, &settings, shelf, out, err, disk),
        Err(fault) => {
            let syms = ProgramSyms::new(alloc);
            let status = refused(err, words_refusal(fault), &syms);
            OptAnswer::refused(status, disk)
        }
    }
}

/// Does what the settings say.
fn serve_settings<S: Shelf, O: Sink, E: Sink, D: Disk + Drop>(
    alloc: Global,
    settings: &OptSettings,
    shelf: &mut S,
    out: &mut O,
    err: &mut E,
    disk: D,
) -> OptAnswer<D>
    requires limit { settings.now.limit ≤ 2 ^ 30 }
    requires range { IsInRange settings.now }
    ensures promise { (words : List (List ℕ)) → AsksOpt words settings.now
        → OptPromise words (S.tells shelf.old) (S.faults shelf.old) (S.faults shelf.new) (O.taken out.old) (O.taken out.new) (O.faults out.old)
        (O.faults out.new) (λ limit. IsGood D.reach D.honest limit disk) (D.faults disk) (D.faults result.disk)
        (Says (E.taken err.old) (E.taken err.new) (E.faults err.old) (E.faults err.new)) result.status.0 result.report }
    ensures served { result.status.0 ≢ 2 }
    ensures report { IsSome result.report ↔ (result.status.0 ≡ 0) }
    ensures count { D.faults disk ≤ D.faults result.disk }
    ensures good { IsGood D.reach D.honest settings.now.limit disk → IsGood D.reach D.honest settings.now.limit result.disk }
    ensures files { SameFiles (S.tells shelf.old) (S.tells shelf.new) }
{
    let syms = ProgramSyms::new(alloc);
    let profile = match profile_for(alloc, shelf, &settings.profile) {
        Ok(profile) => profile,
        Err(fault) => {
            let refusal = profile_refusal(name_of(&settings.profile), fault);
            return OptAnswer::refused(refused(err, refusal, &syms), disk);
        }
    };
    match Loader::new(alloc, settings.limit, 1, disk) {
        Ok(loader) => {
            let paging = Paging::new(alloc, loader);
            serve_pools(alloc, settings, &profile, paging, shelf, out, err)
        }
        Err((disk, _)) => OptAnswer::refused(refused(err, Refusal::Memory, &syms), disk),
    }
}

/// Puts out the text of the planned program of the files through the pools of this loader, which has taken none yet, and tells how it
/// ended.
fn serve_pools<S: Shelf, O: Sink, E: Sink, D: Disk + Drop>(
    alloc: Global,
    settings: &OptSettings,
    profile: &Profile,
    paging: Paging<D>,
    shelf: &mut S,
    out: &mut O,
    err: &mut E,
) -> OptAnswer<D>
    requires limit { paging.loader.core.limit ≡ settings.now.limit }
    requires range { IsInRange settings.now }
    requires ready { IsReady paging.loader paging.pids.items paging.cost }
    requires none { inserted paging.loader ≡ [] }
    ensures promise { (words : List (List ℕ)) (shelf_before : List ℕ → ℕ) → AsksOpt words settings.now
        → HasCounts (S.tells shelf.old) settings.now.profile (counts_of profile.now) → NoneFalls shelf_before (S.faults shelf.old)
        → OptPromise words (S.tells shelf.old) shelf_before (S.faults shelf.new) (O.taken out.old) (O.taken out.new) (O.faults out.old) (O.faults out.new)
        (λ limit. IsGood D.reach D.honest limit paging.loader.first) (D.faults paging.loader.disk) (D.faults result.disk)
        (Says (E.taken err.old) (E.taken err.new) (E.faults err.old) (E.faults err.new)) result.status.0 result.report }
    ensures served { result.status.0 ≢ 2 }
    ensures report { IsSome result.report ↔ (result.status.0 ≡ 0) }
    ensures count { D.faults paging.loader.disk ≤ D.faults result.disk }
    ensures good { IsGood D.reach D.honest settings.now.limit paging.loader.first → IsGood D.reach D.honest settings.now.limit result.disk }
    ensures files { SameFiles (S.tells shelf.old) (S.tells shelf.new) }
{
    let mut paging = paging;
    let mut syms = ProgramSyms::new(alloc);
    let done = print_files(alloc, settings, profile, &mut paging, shelf, out, &mut syms);
    let (disk, report) = paging.close();
    match done {
        Ok(()) => {
            tell_if(err, settings.stats, &report);
            OptAnswer {
                status: Status(0),
                disk,
                report: Some(report),
            }
        }
        Err(refusal) => OptAnswer::refused(refused(err, refusal, &syms), disk),
    }
}

/// Tells a report, if it is to be told.
fn tell_if<E: Sink>(err: &mut E, stats: bool, report: &Report)
    ensures { Says (E.taken err.old) (E.taken err.new) (E.faults err.old) (E.faults err.new) (report_line stats report.now) }
{
    if stats {
        tell_report(err, report);
    }
}

/// The settings of `opt`, where the first word is that.
fn opt_settings(alloc: Global, words: &[String]) -> Result<OptSettings, WordsFault>
    ensures ok { IfOk result (λ s. AsksOpt (map string_bytes words.now) s) }
    ensures usage { result ≡ Err WordsFault.Usage → AsksNothing (map string_bytes words.now) }
    ensures other { asked_command (map string_bytes words.now) ≢ command.Opt → result ≡ Err WordsFault.Usage }
{
    if asked_command(words) == CommandName::Opt {
        read_opt(alloc, words)
    } else {
        Err(WordsFault::Usage)
    }
}

/// The name of the profile, or nothing where none is named.
fn name_of(name: &Option<FileName>) -> &str
    ensures { IfSome name.now (λ text. result.now ≡ text) }
{
    match name {
        Some(name) => name.as_str(),
        None => "",
    }
}
