//! The command over objects in memory. What they are made of, what a command makes of them, and what is shown have
//! a function each: a function that holds many objects and has many ways out is dear to prove.
use crate::escapes::show;
use crate::failing::Failing;
use hlo_cmd::{opt_command, plain_command};
use outside::{BentDisk, MemDisk, MemShelf, MemSink, MemSource, QuietGate};
use std::alloc::{AllocError, Global};

/// The outside world of one command.
#[derive(Drop)]
pub struct World {
    shelf: MemShelf,
    input: MemSource,
    out: MemSink,
    err: MemSink,
    disk: BentDisk,
}

/// What a command answered and put out.
#[derive(Drop)]
struct Answer {
    status: u8,
    cost: Option<u64>,
    out: MemSink,
    err: MemSink,
}

impl World {
    /// With these files and this input.
    pub fn new(
        alloc: Global,
        files: Vec<(String, Vec<u8>)>,
        input: Vec<u8>,
        failing: Failing,
    ) -> World {
        World {
            shelf: MemShelf::new(files, failing.shelf),
            input: MemSource::new(input, failing.input),
            out: MemSink::new(alloc, failing.out),
            err: MemSink::new(alloc, failing.err),
            disk: disk(alloc, failing.disk, failing.bent.as_slice()),
        }
    }
}

/// An empty disk, of which these calls fail, and which bends so.
fn disk(alloc: Global, fails: Vec<u32>, bent: &[u32]) -> BentDisk {
    let disk = MemDisk::new(Vec::new(alloc), fails);
    match bent {
        [read, bit, ..] => BentDisk::new(disk, *read, *bit),
        _ => BentDisk::new(disk, 0, 0),
    }
}

/// Runs the command of these words, and shows what it answers.
pub fn serve(
    alloc: Global,
    words: &[String],
    world: World,
    shown: &mut Vec<u8>,
) -> Result<(), AllocError> {
    let answer = if is_opt(words) {
        serve_opt(alloc, words, world)
    } else {
        serve_plain(alloc, words, world)
    };
    show_answer(alloc, &answer, shown)
}

fn is_opt(words: &[String]) -> bool {
    match words {
        [word, ..] => word.as_str() == "opt",
        [] => false,
    }
}

fn serve_opt(alloc: Global, words: &[String], world: World) -> Answer {
    let World {
        mut shelf,
        mut out,
        mut err,
        disk,
        ..
    } = world;
    let gate = QuietGate;
    let answer = opt_command(alloc, words, &mut shelf, &mut out, &mut err, disk, &gate);
    Answer {
        status: answer.status.0,
        cost: answer.report.map(|report| report.cost_after),
        out,
        err,
    }
}

fn serve_plain(alloc: Global, words: &[String], world: World) -> Answer {
    let World {
        mut shelf,
        mut input,
        mut out,
        mut err,
        ..
    } = world;
    let status = plain_command(alloc, words, &mut shelf, &mut input, &mut out, &mut err);
    Answer {
        status: status.0,
        cost: None,
        out,
        err,
    }
}

fn show_answer(alloc: Global, answer: &Answer, shown: &mut Vec<u8>) -> Result<(), AllocError> {
    show(shown, b"", answer.out.bytes())?;
    show(shown, b"2> ", answer.err.bytes())?;
    let status = answer.status;
    let last = match answer.cost {
        Some(cost) => format!(in alloc; "[{status}, cost {cost}]\n")?,
        None => format!(in alloc; "[{status}]\n")?,
    };
    shown.extend_from_slice(last.as_str().as_bytes())?;
    Ok(())
}
