//! The program `hlo`: makes the real objects, hands them to the command, and ends with its status.
#![tactic(auto)]

mod input;
mod scratch;
mod shelf;
mod stream;

use hlo_cmd::{opt_command, plain_command};
use input::Input;
use outside::QuietGate;
use scratch::ScratchFile;
use shelf::FileShelf;
use std::process::ExitCode;
use std::{env, io};
use stream::Stream;

const HELP: &str = "\
usage: hlo [--repo PATH] opt [--limit N] [--budget N] [--passes N] [--profile FILE]
           [--stats] FILE...        prints the IL of the program that the C modules in
                                    the FILEs make, optimised
       hlo check FILE...            checks that they make a program, and prints nothing
       hlo run [--turns N] FILE...  runs that program on standard input and output
       hlo train [--turns N] FILE...
                                    runs it with its output dropped, and prints the
                                    profile of its calls, whatever its ending
       hlo runil [--turns N] FILE   runs the program whose IL is in FILE
       hlo --help                   prints this text
       hlo --version                prints the version
options: --turns N  at most N turns, 0 to 1000000000000 (1000000000 if not given): each
                    call and each way back to a loop's start takes one
         --limit N  at most N bytes of routines lie in memory beside the one that is
                    worked at, 1 to 1073741824 (67108864 if not given); the others lie
                    on a scratch file
         --budget N  clones and inlined calls may make the program at most N percent
                    dearer, 0 to 1000 (100 if not given), in equal parts, one a pass
         --passes N  passes over the program, 1 to 8 (4 if not given)
         --repo PATH  the scratch file, which is emptied (hlo.repo if not given)
         --stats    tells on standard error how much was kept and moved, and the costs
         --profile FILE  the counts of routines and calls are those of the profile in
                    FILE, which train printed; without it each is 1
         1 to 64 FILEs; options may stand between them, and all words behind -- are FILEs
status: 0 success, 2 usage, 3 refused file or program, 4 no profile, 5 cannot read a
        file, 6 cannot write, 7 scratch file failed, 8 scratch file damaged, 9 limit too
        small, 10 out of memory, 11 cannot read input, 12 trap, 13 out of turns, 14 no IL
        program
";

/// The version, and the toolchain that proved and built it.
const VERSION: &str = "hlo 0.1.0, proved with rattle-kit-13f logic dac8208d650f15bf";

fn main(rt: HostRuntime) -> ExitCode {
    match words_of(&rt) {
        Ok(words) => match words.as_slice() {
            [word] if word.as_str() == "--help" => ended(&rt, print!(rt; "{HELP}")),
            [word] if word.as_str() == "--version" => ended(&rt, println!(rt; "{VERSION}")),
            words => command(&rt, words),
        },
        Err(error) => refused(&rt, error),
    }
}

/// The words behind the program's name.
fn words_of(rt: &HostRuntime) -> io::Result<Vec<String>> {
    Ok(env::args(rt)?.skip(1).collect(rt.alloc())?)
}

/// The end where the words can't be had: one that isn't UTF-8 is a faulty command line.
fn refused(rt: &HostRuntime, error: io::Error) -> ExitCode {
    let (status, line) = match error.kind() {
        io::ErrorKind::OutOfMemory => (10, "hlo: out of memory"),
        _ => (2, "hlo: usage"),
    };
    let _ = eprintln!(rt; "{line}");
    ExitCode::from(status)
}

/// The end of `--help` and `--version`.
fn ended(rt: &HostRuntime, written: io::Result<()>) -> ExitCode {
    match written {
        Ok(()) => ExitCode::SUCCESS,
        Err(_) => {
            let _ = eprintln!(rt; "hlo: cannot write");
            ExitCode::from(6)
        }
    }
}

/// Runs a command over the real objects. A leading `--repo PATH` names the scratch file.
fn command(rt: &HostRuntime, words: &[String]) -> ExitCode {
    match words {
        [flag, path, rest @ ..] if flag.as_str() == "--repo" => serve(rt, path.as_str(), rest),
        words => serve(rt, "hlo.repo", words),
    }
}

/// Runs a command with this scratch file, which `opt` alone opens.
fn serve(rt: &HostRuntime, path: &str, words: &[String]) -> ExitCode {
    let mut shelf = FileShelf::new(rt);
    let mut out = Stream::new(rt.stdout());
    let mut err = Stream::new(rt.stderr());
    let status = match words.first() {
        Some(word) if word.as_str() == "opt" => {
            let disk = ScratchFile::open(rt, path);
            let answer = opt_command(
                rt.alloc(),
                words,
                &mut shelf,
                &mut out,
                &mut err,
                disk,
                &QuietGate,
            );
            answer.status
        }
        _ => {
            let mut input = Input::new(rt.stdin());
            plain_command(
                rt.alloc(),
                words,
                &mut shelf,
                &mut input,
                &mut out,
                &mut err,
            )
        }
    };
    ExitCode::from(status.0)
}
