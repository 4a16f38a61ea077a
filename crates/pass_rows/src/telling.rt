//! What passes tell of routines.
ghost use Rattle.std.specs.Prelude.{◌≡◌, IfOk};
ghost use Rattle.std.specs.List.{AllByRecursion};
ghost use Rattle.il_core.specs.Limits.{IsWithinLimits};
ghost use Rattle.il_core.specs.Valid.{IsProgram};
ghost use Rattle.const_prop.specs.Tables.{IsValidRoutine};
ghost use Rattle.plan_laws.specs.Summary as plan;
ghost use Rattle.call_graph.specs.Summaries.{summary_of};

use crate::choosing::tell_choice;
use call_graph::{CallGraph, Summary, summarise};
use const_prop::site_constants;
use hlo_num::Word;
use il_core::{IlProgram, Routine};
use std::alloc::{AllocError, Global};
use std::fmt::Write;

/// Puts what a pass tells of a program behind what is shown; false where the pass tells nothing.
pub(crate) fn tell(
    alloc: Global,
    pass: &str,
    program: &IlProgram,
    shown: &mut Vec<u8>,
) -> Result<bool, AllocError>
    requires valid { IsProgram program.now }
    requires within { AllByRecursion IsWithinLimits program.now.routines }
{
    if let Some(limit) = limit_of(pass) {
        tell_choice(alloc, limit, program, shown)?;
        return Ok(true);
    }
    if pass == "site_constants" || pass == "summarise" {
        tell_routines(alloc, pass == "summarise", program, shown)?;
        Ok(true)
    } else if pass == "call_graph" {
        tell_graph(alloc, program, shown)?;
        Ok(true)
    } else {
        Ok(false)
    }
}

/// The limit of the cost, where it is asked what is inlined.
fn limit_of(pass: &str) -> Option<u64> {
    pass.strip_prefix("choose ")?.parse::<u64>().ok()
}

fn tell_routines(
    alloc: Global,
    whole: bool,
    program: &IlProgram,
    shown: &mut Vec<u8>,
) -> Result<(), AllocError>
    requires { IsProgram program.now }
{
    for routine in program.routines.as_slice() {
        let summary = summary(alloc, routine)?;
        if whole {
            tell_summary(&summary, shown)?;
        }
        tell_sites(&summary, shown)?;
    }
    Ok(())
}

pub(crate) fn summary(alloc: Global, routine: &Routine) -> Result<Summary, AllocError>
    requires { IsValidRoutine routine.now }
    ensures { IfOk result (λ s. summary_of s ≡ plan.summary routine.now) }
{
    let known = site_constants(alloc, routine)?;
    summarise(alloc, routine, known, 0)
}

/// The numbers of a summary, as one line.
fn tell_summary(summary: &Summary, shown: &mut Vec<u8>) -> Result<(), AllocError> {
    let s = summary;
    let mut line = String::new(*shown.allocator());
    write!(
        line,
        "{}: size {} charge {} params {}",
        s.pid, s.size, s.charge, s.params
    )?;
    write!(
        line,
        " returns {} regs {} arrays {}",
        s.returns, s.regs, s.arrays
    )?;
    write!(line, " elements {} entry {}", s.elements, s.entry)?;
    shown.extend_from_slice(line.as_bytes())?;
    for read in s.reads.as_slice() {
        shown.extend_from_slice(if *read { b" read" } else { b" unread" })?;
    }
    shown.extend_from_slice(if s.start_loop { b" looped\n" } else { b"\n" })
}

/// The calls of a routine, a line each.
fn tell_sites(summary: &Summary, shown: &mut Vec<u8>) -> Result<(), AllocError> {
    for site in summary.sites.as_slice() {
        let mut line = String::new(*shown.allocator());
        write!(line, "calls {} count {}:", site.callee, site.count)?;
        shown.extend_from_slice(line.as_bytes())?;
        tell_words(site.known.as_slice(), shown)?;
    }
    Ok(())
}

/// The words that are known of a call's arguments.
fn tell_words(words: &[Option<Word>], shown: &mut Vec<u8>) -> Result<(), AllocError> {
    for word in words {
        match word {
            Some(word) => tell_number(word.0, shown)?,
            None => shown.extend_from_slice(b" ?")?,
        }
    }
    shown.push(b'\n')?;
    Ok(())
}

pub(crate) fn tell_number(number: u32, shown: &mut Vec<u8>) -> Result<(), AllocError> {
    let mut text = String::new(*shown.allocator());
    write!(text, " {number}")?;
    shown.extend_from_slice(text.as_bytes())
}

/// Which routines `main` reaches, and which it doesn't.
fn tell_graph(alloc: Global, program: &IlProgram, shown: &mut Vec<u8>) -> Result<(), AllocError>
    requires { IsProgram program.now }
{
    let graph = graph(alloc, program)?;
    let main = main_of(program);
    let reached = graph.reachable(alloc, main)?;
    let dead = graph.dead_routines(alloc, main)?;
    shown.extend_from_slice(b"reached:")?;
    tell_numbers(reached.as_slice(), shown)?;
    shown.extend_from_slice(b"dead:")?;
    tell_numbers(dead.as_slice(), shown)
}

/// The call graph of a program.
fn graph(alloc: Global, program: &IlProgram) -> Result<CallGraph, AllocError>
    requires { IsProgram program.now }
{
    let mut graph = CallGraph::new(alloc);
    for routine in program.routines.as_slice() {
        let summary = summary(alloc, routine)?;
        graph.replace(summary.pid, summary)?;
    }
    Ok(graph)
}

/// The number of `main`, or 0.
pub(crate) fn main_of(program: &IlProgram) -> u32 {
    for row in program.shapes.rows.as_slice() {
        if row.name.bytes() == b"main".as_slice() {
            return row.pid;
        }
    }
    0
}

pub(crate) fn tell_numbers(numbers: &[u32], shown: &mut Vec<u8>) -> Result<(), AllocError> {
    for number in numbers {
        tell_number(*number, shown)?;
    }
    shown.push(b'\n')?;
    Ok(())
}
