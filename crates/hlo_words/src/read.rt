//! From words to settings.
ghost use Rattle.std.specs.Prelude.{◌≡◌, ℕ, List, [], ◌∷◌, IfOk, IfSome, IfNone, codes, map, string_bytes};
ghost use Rattle.clap.specs.Matches.{found_of};
ghost use Rattle.clap.specs.Walk.{all_of, first_of, rows_of};
ghost use Rattle.hlo_words.specs.Settings.{AreFiles, HasBudget, HasLimit, HasPasses, HasTurns, is_set, IsCheckSettings, IsOptSettings, IsRunIlSettings};
ghost use Rattle.hlo_words.specs.Settings.{IsRunSettings, IsTrainSettings, AreRunSettings};
ghost use Rattle.hlo_words.specs.declared.settings.CheckSettings.{CheckSettings};
ghost use Rattle.hlo_words.specs.declared.settings.OptSettings.{OptSettings};
ghost use Rattle.hlo_words.specs.declared.settings.RunIlSettings.{RunIlSettings};
ghost use Rattle.hlo_words.specs.declared.settings.RunSettings.{RunSettings};

use crate::file_name::FileName;
use crate::line::{read_files, read_opt_line, read_turns};
use crate::number::number_in;
use crate::settings::{CheckSettings, OptSettings, RunIlSettings, RunSettings, WordsFault};
use clap::ArgMatches;
use hlo_num::Seq;
use std::alloc::{AllocError, Global};

/// The greatest number of files.
const MAX_FILES: usize = 64;

/// How many turns a program may take where the words don't say.
const DEFAULT_TURNS: u64 = 1_000_000_000;

/// The greatest number of turns.
const MAX_TURNS: u64 = 1_000_000_000_000;

/// The limit in bytes where the words don't say, 64 MiB.
const DEFAULT_LIMIT: u64 = 1 << 26;

/// The greatest limit in bytes, 1 GiB.
const MAX_LIMIT: u64 = 1 << 30;

/// By how many percent the plan may make the program dearer where the words don't say.
const DEFAULT_BUDGET: u32 = 100;

/// The greatest budget in percent.
const MAX_BUDGET: u64 = 1000;

/// How many passes the plan makes where the words don't say.
const DEFAULT_PASSES: u32 = 4;

/// The greatest number of passes.
const MAX_PASSES: u64 = 8;

/// The settings of `opt --limit N --budget N --passes N --profile FILE --stats FILE...`. The limit is from 1 to
/// 1073741824 bytes, and 67108864 where it isn't given; the budget is from 0 to 1000 percent, and 100 where it
/// isn't given; the passes are from 1 to 8, and 4 where they aren't given.
///
/// The words are all those of the program, the command's name first; that one isn't looked at. They are read
/// as clap reads a command with long options whose files stand last: a word behind `--` is a file, an option
/// may stand between files, and an option that is given twice or isn't one of the command's is refused. It
/// takes time and memory linear in the words.
pub fn read_opt(alloc: Global, words: &[String]) -> Result<OptSettings, WordsFault>
    ensures ok { IfOk result (IsOptSettings (map string_bytes words.now)) }
    ensures usage { result ≡ Err WordsFault.Usage → (s : OptSettings) → IsOptSettings (map string_bytes words.now) s → ⊥ }
{
    let matches = read_opt_line(alloc, words)?;
    let Some(limit) = limit_of(&matches) else {
        return Err(WordsFault::Usage);
    };
    let Some(budget) = budget_of(&matches) else {
        return Err(WordsFault::Usage);
    };
    let Some(passes) = passes_of(&matches) else {
        return Err(WordsFault::Usage);
    };
    let profile = profile_of(alloc, &matches)?;
    let stats = has_stats(&matches);
    let files = files_of(alloc, &matches)?;
    Ok(OptSettings {
        limit,
        budget,
        passes,
        profile,
        stats,
        files,
    })
}

/// The settings of `check FILE...`, read as [`read_opt`] says.
pub fn read_check(alloc: Global, words: &[String]) -> Result<CheckSettings, WordsFault>
    ensures ok { IfOk result (IsCheckSettings (map string_bytes words.now)) }
    ensures usage { result ≡ Err WordsFault.Usage → (s : CheckSettings) → IsCheckSettings (map string_bytes words.now) s → ⊥ }
{
    let matches = read_files(alloc, "check", words)?;
    let files = files_of(alloc, &matches)?;
    Ok(CheckSettings { files })
}

/// The settings of `run --turns N FILE...`, read as [`read_opt`] says; the turns are from 0 to 1000000000000,
/// and 1000000000 where they aren't given.
pub fn read_run(alloc: Global, words: &[String]) -> Result<RunSettings, WordsFault>
    ensures ok { IfOk result (IsRunSettings (map string_bytes words.now)) }
    ensures usage { result ≡ Err WordsFault.Usage → (s : RunSettings) → IsRunSettings (map string_bytes words.now) s → ⊥ }
{
    let matches = read_turns(alloc, "run", words)?;
    run_settings(alloc, &matches)
}

/// The settings of `train --turns N FILE...`, read as [`read_run`] says.
pub fn read_train(alloc: Global, words: &[String]) -> Result<RunSettings, WordsFault>
    ensures ok { IfOk result (IsTrainSettings (map string_bytes words.now)) }
    ensures usage { result ≡ Err WordsFault.Usage → (s : RunSettings) → IsTrainSettings (map string_bytes words.now) s → ⊥ }
{
    let matches = read_turns(alloc, "train", words)?;
    run_settings(alloc, &matches)
}

/// The turns and the files.
fn run_settings(alloc: Global, matches: &ArgMatches<'_>) -> Result<RunSettings, WordsFault>
    ensures ok { IfOk result (AreRunSettings (rows_of (found_of matches.now))) }
    ensures usage { result ≡ Err WordsFault.Usage → (s : RunSettings) → AreRunSettings (rows_of (found_of matches.now)) s → ⊥ }
{
    let Some(turns) = turns_of(matches) else {
        return Err(WordsFault::Usage);
    };
    let files = files_of(alloc, matches)?;
    Ok(RunSettings { turns, files })
}

/// The settings of `runil --turns N FILE`, read as [`read_run`] says.
pub fn read_runil(alloc: Global, words: &[String]) -> Result<RunIlSettings, WordsFault>
    ensures ok { IfOk result (IsRunIlSettings (map string_bytes words.now)) }
    ensures usage { result ≡ Err WordsFault.Usage → (s : RunIlSettings) → IsRunIlSettings (map string_bytes words.now) s → ⊥ }
{
    let matches = read_turns(alloc, "runil", words)?;
    let Some(turns) = turns_of(&matches) else {
        return Err(WordsFault::Usage);
    };
    let file = file_of(alloc, &matches)?;
    Ok(RunIlSettings { turns, file })
}

/// The number of turns.
fn turns_of(matches: &ArgMatches<'_>) -> Option<u64>
    ensures found { IfSome result (HasTurns (rows_of (found_of matches.now))) }
    ensures none { IfNone result ((n : ℕ) → HasTurns (rows_of (found_of matches.now)) n → ⊥) }
{
    match matches.get_str("turns") {
        Some(text) => number_in(text, 0, MAX_TURNS),
        None => Some(DEFAULT_TURNS),
    }
}

/// The limit in bytes.
fn limit_of(matches: &ArgMatches<'_>) -> Option<u64>
    ensures found { IfSome result (HasLimit (rows_of (found_of matches.now))) }
    ensures none { IfNone result ((n : ℕ) → HasLimit (rows_of (found_of matches.now)) n → ⊥) }
{
    match matches.get_str("limit") {
        Some(text) => number_in(text, 1, MAX_LIMIT),
        None => Some(DEFAULT_LIMIT),
    }
}

/// The budget in percent.
fn budget_of(matches: &ArgMatches<'_>) -> Option<u32>
    ensures found { IfSome result (HasBudget (rows_of (found_of matches.now))) }
    ensures none { IfNone result ((n : ℕ) → HasBudget (rows_of (found_of matches.now)) n → ⊥) }
{
    let Some(text) = matches.get_str("budget") else {
        return Some(DEFAULT_BUDGET);
    };
    let budget = number_in(text, 0, MAX_BUDGET)?;
    Some(budget as u32)
}

/// The number of passes.
fn passes_of(matches: &ArgMatches<'_>) -> Option<u32>
    ensures found { IfSome result (HasPasses (rows_of (found_of matches.now))) }
    ensures none { IfNone result ((n : ℕ) → HasPasses (rows_of (found_of matches.now)) n → ⊥) }
{
    let Some(text) = matches.get_str("passes") else {
        return Some(DEFAULT_PASSES);
    };
    let passes = number_in(text, 1, MAX_PASSES)?;
    Some(passes as u32)
}

/// Whether the report is to be told.
fn has_stats(matches: &ArgMatches<'_>) -> bool
    ensures { result ≡ is_set (first_of (codes "stats") (rows_of (found_of matches.now))) }
{
    match matches.get_str("stats") {
        Some(text) => text == "true",
        None => false,
    }
}

/// The name of the profile, if there is one.
fn profile_of(alloc: Global, matches: &ArgMatches<'_>) -> Result<Option<FileName>, AllocError>
    ensures { IfOk result (λ name. first_of (codes "profile") (rows_of (found_of matches.now)) ≡ name) }
{
    match matches.get_str("profile") {
        Some(name) => Ok(Some(FileName::new(alloc, name)?)),
        None => Ok(None),
    }
}

/// The one file.
fn file_of(alloc: Global, matches: &ArgMatches<'_>) -> Result<FileName, WordsFault>
    ensures ok { IfOk result (λ file. all_of (codes "files") (rows_of (found_of matches.now)) ≡ Some (file ∷ [])) }
    ensures usage { result ≡ Err WordsFault.Usage → (file : List ℕ) → all_of (codes "files") (rows_of (found_of matches.now)) ≡ Some (file ∷ []) → ⊥ }
{
    let Some(names) = matches.get_strs("files") else {
        return Err(WordsFault::Usage);
    };
    if names.len() != 1 {
        return Err(WordsFault::Usage);
    }
    Ok(FileName::new(alloc, names[0])?)
}

/// The files, one to 64.
fn files_of(alloc: Global, matches: &ArgMatches<'_>) -> Result<Seq<FileName>, WordsFault>
    ensures ok { IfOk result (AreFiles (rows_of (found_of matches.now))) }
    ensures usage { result ≡ Err WordsFault.Usage → (files : List (List ℕ)) → AreFiles (rows_of (found_of matches.now)) files → ⊥ }
{
    let Some(names) = matches.get_strs("files") else {
        return Err(WordsFault::Usage);
    };
    if names.is_empty() {
        return Err(WordsFault::Usage);
    }
    if names.len() > MAX_FILES {
        return Err(WordsFault::Usage);
    }
    Ok(copies(alloc, names)?)
}

/// A copy of each name.
fn copies(alloc: Global, names: &[&str]) -> Result<Seq<FileName>, AllocError>
    ensures { IfOk result (λ files. files ≡ map (λ s. s.now) names.now) }
{
    let mut files = Seq::new(alloc);
    for name in names {
        files.push(FileName::new(alloc, name)?)?;
    }
    Ok(files)
}
