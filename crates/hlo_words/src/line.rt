//! The command line of each command, and what clap reads of its words.
ghost use Rattle.std.specs.Prelude.{◌≡◌, ◌≢◌, IfOk, map, string_bytes};
ghost use Rattle.clap.specs.Simple.{app_of};
ghost use Rattle.clap.specs.Matches.{found_of};
ghost use Rattle.clap.specs.Values.{kind_of};
ghost use Rattle.clap.specs.Walk.{rows_of};
ghost use Rattle.hlo_words.specs.Lines.{HasRead, IsRefused, files_app, numbers_app, opt_app, options_app, turns_app};

use crate::settings::WordsFault;
use clap::error::ErrorKind;
use clap::{Arg, ArgAction, ArgMatches, Command, Error};
use std::alloc::{AllocError, Global};

/// What clap reads of the words of a command that has files alone.
pub(crate) fn read_files<'a>(
    alloc: Global,
    name: &'a str,
    words: &'a [String],
) -> Result<ArgMatches<'a>, WordsFault>
    ensures ok { IfOk result (λ m. HasRead (files_app name.entry.now) (map string_bytes words.entry.now) (rows_of (found_of m))) }
    ensures usage { result ≡ Err WordsFault.Usage → IsRefused (files_app name.entry.now) (map string_bytes words.entry.now) }
{
    match files_line(alloc, name)?.try_get_matches_from(words) {
        Ok(matches) => Ok(matches),
        Err(error) => Err(words_fault(error)),
    }
}

/// What clap reads of the words of `opt`.
pub(crate) fn read_opt_line<'a>(
    alloc: Global,
    words: &'a [String],
) -> Result<ArgMatches<'a>, WordsFault>
    ensures ok { IfOk result (λ m. HasRead opt_app (map string_bytes words.entry.now) (rows_of (found_of m))) }
    ensures usage { result ≡ Err WordsFault.Usage → IsRefused opt_app (map string_bytes words.entry.now) }
{
    match opt_line(alloc)?.try_get_matches_from(words) {
        Ok(matches) => Ok(matches),
        Err(error) => Err(words_fault(error)),
    }
}

/// What clap reads of the words of a command that has a number of turns and files.
pub(crate) fn read_turns<'a>(
    alloc: Global,
    name: &'a str,
    words: &'a [String],
) -> Result<ArgMatches<'a>, WordsFault>
    ensures ok { IfOk result (λ m. HasRead (turns_app name.entry.now) (map string_bytes words.entry.now) (rows_of (found_of m))) }
    ensures usage { result ≡ Err WordsFault.Usage → IsRefused (turns_app name.entry.now) (map string_bytes words.entry.now) }
{
    match turns_line(alloc, name)?.try_get_matches_from(words) {
        Ok(matches) => Ok(matches),
        Err(error) => Err(words_fault(error)),
    }
}

/// `FILE...`
fn files_line<'a>(alloc: Global, name: &'a str) -> Result<Command<'a>, AllocError>
    ensures { IfOk result (λ c. app_of c ≡ files_app name.entry.now) }
{
    let files = Arg::new(alloc, "files").action(ArgAction::Append);
    Command::new(alloc, name).arg(files)
}

/// `--limit N --budget N`
fn opt_numbers<'a>(alloc: Global) -> Result<Command<'a>, AllocError>
    ensures { IfOk result (λ c. app_of c ≡ numbers_app) }
{
    let limit = Arg::new(alloc, "limit")
        .long("limit")
        .action(ArgAction::Set);
    let budget = Arg::new(alloc, "budget")
        .long("budget")
        .action(ArgAction::Set);
    Command::new(alloc, "opt").arg(limit)?.arg(budget)
}

/// `--limit N --budget N --passes N --profile FILE`
fn opt_options<'a>(alloc: Global) -> Result<Command<'a>, AllocError>
    ensures { IfOk result (λ c. app_of c ≡ options_app) }
{
    let passes = Arg::new(alloc, "passes")
        .long("passes")
        .action(ArgAction::Set);
    let profile = Arg::new(alloc, "profile")
        .long("profile")
        .action(ArgAction::Set);
    opt_numbers(alloc)?.arg(passes)?.arg(profile)
}

/// `--limit N --budget N --passes N --profile FILE --stats FILE...`
fn opt_line<'a>(alloc: Global) -> Result<Command<'a>, AllocError>
    ensures { IfOk result (λ c. app_of c ≡ opt_app) }
{
    let stats = Arg::new(alloc, "stats")
        .long("stats")
        .action(ArgAction::SetTrue);
    let files = Arg::new(alloc, "files").action(ArgAction::Append);
    opt_options(alloc)?.arg(stats)?.arg(files)
}

/// `--turns N FILE...`
fn turns_line<'a>(alloc: Global, name: &'a str) -> Result<Command<'a>, AllocError>
    ensures { IfOk result (λ c. app_of c ≡ turns_app name.entry.now) }
{
    let turns = Arg::new(alloc, "turns")
        .long("turns")
        .action(ArgAction::Set);
    let files = Arg::new(alloc, "files").action(ArgAction::Append);
    Command::new(alloc, name).arg(turns)?.arg(files)
}

/// Why clap refused some words.
fn words_fault(error: Error) -> WordsFault
    ensures { result ≡ WordsFault.Usage → kind_of error ≢ ErrorKind.OutOfMemory }
{
    if error.kind() == ErrorKind::OutOfMemory {
        WordsFault::Memory
    } else {
        WordsFault::Usage
    }
}
