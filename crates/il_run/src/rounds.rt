//! The run of a whole program.
ghost use Rattle.std.specs.Prelude.{◌≡◌, ◌≤◌, Err, IfOk, IfErr, IfSome, List, OnErr, MatchOption, MatchResult, Option, true};
ghost use Rattle.std.specs.Io.KnownBytes.{IsAtEnd, append_known, prepend_known};
ghost use Rattle.il_core.specs.Valid.{IsProgram};
ghost use Rattle.il_run.specs.Machine.{IsSound, IsTabled};
ghost use Rattle.il_core.specs.Meaning.{calls_made};
ghost use Rattle.il_run.specs.Counts.{AreNew, CountsAt, HasShape, IsCounter, StillCounts, counts_of, no_counts};
ghost use Rattle.il_run.specs.Run.{AreCounted, AsksAtGet, AsksFor, AsksWhereWanted, EndsAs, FailedAsk, HasReason, IfTold, LastRound, Round, StopsWithin};
ghost use Rattle.il_run.specs.Ready.{IsReady};
ghost use Rattle.il_run.specs.Streams.{AsksInTurn, AsksSo, GainsFront, IsAhead, ahead};
ghost use Rattle.outside.specs.declared.source.Ask.{Ask};

use crate::counter::{Counter, note_call};
use crate::counts::Counts;
use crate::ending::{Ending, RunFault};
use crate::input::Ahead;
use crate::machine::{Machine, Move};
use crate::numbering::numberings;
use crate::output::Pending;
use crate::start::start;
use crate::tables::Tables;
use il_core::IlProgram;
use outside::{Sink, Source};
use std::alloc::{AllocError, Global};
use std::mem;

/// Runs a valid program on the bytes of a source, with a bound on its turns: each call, each way
/// back to a block and each `turn` costs one. What it puts out goes to the sink.
///
/// The source is asked for at most 4,096 bytes at once, only when the program wants a byte and none
/// is left of those given before, and not again after its end. The output is written by pieces of at
/// most 4,096 bytes, and wholly before an answer `Ok`. After a fault the sink has taken a front of the
/// output. `Input` and `Output` come only where that object's count of faults rose.
///
/// Counts that are given are those of a new `Counts`; at `Ok` they have the number of calls of each
/// routine and site. Starting `main` is no call, and neither is one for which no turn is left. After a
/// fault nothing is said of them but that there is one for each routine and site.
///
/// It takes time in proportion to the instructions, plus the registers and the elements of each call,
/// and memory for the objects, the calls on their way, and some words for each PID that there can be. Where
/// calls are counted, it takes time and memory for the program's size once, and constant time a call.
pub fn run<I: Source, O: Sink>(
    alloc: Global,
    p: &IlProgram,
    input: &mut I,
    out: &mut O,
    turns: u64,
    counts: Option<&mut Counts>,
) -> Result<Ending, RunFault>
    requires valid { IsProgram p.now }
    requires counts { AreNew p.now counts }
    ensures counted { IfOk result (λ _. IfTold (I.left input.old)
        (λ bytes. CountsAt counts.entry counts.exit (λ c. c ≡ counts_of p.now (calls_made p.now bytes turns)))) }
    ensures shape { CountsAt counts.entry counts.exit (λ c. HasShape p.now c) }
    ensures ends { IfOk result (λ e. IfTold (I.left input.old) (EndsAs p.now turns e (O.taken out.old) (O.taken out.new))) }
    ensures stops { OnErr result (IfTold (I.left input.old) (StopsWithin p.now turns (O.taken out.old) (O.taken out.new))) }
    ensures cause { IfErr result (λ f. HasReason f (I.faults input.old) (I.faults input.new) (O.faults out.old) (O.faults out.new)) }
    ensures wanted { result ≡ Err RunFault.Input → IfTold (I.left input.old) (AsksFor p.now turns (I.left input.new)) }
    ensures asks { AsksInTurn (I.asks input.old) (I.asks input.new) }
    ensures asks_wanted { IfTold (I.left input.old) (AsksWhereWanted p.now turns (I.asks input.old) (I.asks input.new)) }
    ensures input_later { I.faults input.old ≤ I.faults input.new }
    ensures output_later { O.faults out.old ≤ O.faults out.new }
{
    match counts {
        None => run_counting(alloc, p, input, out, turns, &mut None),
        Some(counts) => run_counted(alloc, p, input, out, turns, counts),
    }
}

/// Runs a program with its calls counted.
fn run_counted<I: Source, O: Sink>(
    alloc: Global,
    p: &IlProgram,
    input: &mut I,
    out: &mut O,
    turns: u64,
    counts: &mut Counts,
) -> Result<Ending, RunFault>
    requires valid { IsProgram p.now }
    requires counts { counts.old ≡ no_counts p.now }
    ensures counted { IfOk result (λ _. IfTold (I.left input.old) (λ bytes. counts.new ≡ counts_of p.now (calls_made p.now bytes turns))) }
    ensures shape { HasShape p.now counts.new }
    ensures ends { IfOk result (λ e. IfTold (I.left input.old) (EndsAs p.now turns e (O.taken out.old) (O.taken out.new))) }
    ensures stops { OnErr result (IfTold (I.left input.old) (StopsWithin p.now turns (O.taken out.old) (O.taken out.new))) }
    ensures cause { IfErr result (λ f. HasReason f (I.faults input.old) (I.faults input.new) (O.faults out.old) (O.faults out.new)) }
    ensures wanted { result ≡ Err RunFault.Input → IfTold (I.left input.old) (AsksFor p.now turns (I.left input.new)) }
    ensures asks { AsksInTurn (I.asks input.old) (I.asks input.new) }
    ensures asks_wanted { IfTold (I.left input.old) (AsksWhereWanted p.now turns (I.asks input.old) (I.asks input.new)) }
    ensures input_later { I.faults input.old ≤ I.faults input.new }
    ensures output_later { O.faults out.old ≤ O.faults out.new }
{
    let Ok(numbers) = numberings(alloc, p.routines.as_slice()) else {
        return Err(RunFault::Memory);
    };
    let mut counter = Some(Counter {
        numbers,
        counts: mem::replace(counts, Counts::empty(alloc)),
        alloc,
    });
    let ended = run_counting(alloc, p, input, out, turns, &mut counter);
    if let Some(counter) = counter {
        *counts = counter.into_counts();
    }
    ended
}

/// Runs a program, whose calls are counted where there is a counter.
fn run_counting<I: Source, O: Sink>(
    alloc: Global,
    p: &IlProgram,
    input: &mut I,
    out: &mut O,
    turns: u64,
    counter: &mut Option<Counter>,
) -> Result<Ending, RunFault>
    requires valid { IsProgram p.now }
    requires counter { IfSome counter.old (λ c. IsCounter p.now c) }
    requires none { IfSome counter.old (λ c. c.counts ≡ no_counts p.now) }
    ensures counted { IfOk result (λ _. IfTold (I.left input.old) (AreCounted p.now turns counter.new)) }
    ensures counter { StillCounts p.now counter.old counter.new }
    ensures ends { IfOk result (λ e. IfTold (I.left input.old) (EndsAs p.now turns e (O.taken out.old) (O.taken out.new))) }
    ensures stops { OnErr result (IfTold (I.left input.old) (StopsWithin p.now turns (O.taken out.old) (O.taken out.new))) }
    ensures cause { IfErr result (λ f. HasReason f (I.faults input.old) (I.faults input.new) (O.faults out.old) (O.faults out.new)) }
    ensures wanted { result ≡ Err RunFault.Input → IfTold (I.left input.old) (AsksFor p.now turns (I.left input.new)) }
    ensures asks { AsksInTurn (I.asks input.old) (I.asks input.new) }
    ensures asks_wanted { IfTold (I.left input.old) (AsksWhereWanted p.now turns (I.asks input.old) (I.asks input.new)) }
    ensures input_later { I.faults input.old ≤ I.faults input.new }
    ensures output_later { O.faults out.old ≤ O.faults out.new }
{
    let Ok(mut ready) = Ready::new(alloc, p, turns) else {
        return Err(RunFault::Memory);
    };
    ready.drive(p, turns, input, out, counter)
}

/// All that a run keeps.
#[derive(Drop)]
struct Ready {
    tables: Tables,
    machine: Machine,
    given: Ahead,
    pending: Pending,
}

impl Ready {
    /// The program as it starts, with nothing of the input asked and nothing put out.
    fn new(alloc: Global, p: &IlProgram, turns: u64) -> Result<Ready, AllocError>
        requires { IsProgram p.now }
        ensures { IfOk result (IsReady p.now turns) }
    {
        let tables = Tables::new(alloc, p)?;
        let machine = start(alloc, p, &tables, turns)?;
        Ok(Ready {
            tables,
            machine,
            given: Ahead::new(alloc)?,
            pending: Pending::new(alloc)?,
        })
    }

    /// Runs the program to its end.
    fn drive<I: Source, O: Sink>(
        &mut self,
        p: &IlProgram,
        turns: u64,
        input: &mut I,
        out: &mut O,
        counter: &mut Option<Counter>,
    ) -> Result<Ending, RunFault>
        requires valid { IsProgram p.now }
        requires ready { IsReady p.now turns self.old }
        requires counter { IfSome counter.old (λ c. IsCounter p.now c) }
        requires none { IfSome counter.old (λ c. c.counts ≡ no_counts p.now) }
        ensures counted { IfOk result (λ _. IfTold (I.left input.old) (AreCounted p.now turns counter.new)) }
        ensures counter { StillCounts p.now counter.old counter.new }
        ensures ends { IfOk result (λ e. IfTold (I.left input.old) (EndsAs p.now turns e (O.taken out.old) (O.taken out.new))) }
        ensures stops { OnErr result (IfTold (I.left input.old) (StopsWithin p.now turns (O.taken out.old) (O.taken out.new))) }
        ensures cause { IfErr result (λ f. HasReason f (I.faults input.old) (I.faults input.new) (O.faults out.old) (O.faults out.new)) }
        ensures wanted { result ≡ Err RunFault.Input → IfTold (I.left input.old) (AsksFor p.now turns (I.left input.new)) }
        ensures asks { AsksInTurn (I.asks input.old) (I.asks input.new) }
        ensures asks_wanted { IfTold (I.left input.old) (AsksWhereWanted p.now turns (I.asks input.old) (I.asks input.new)) }
        ensures input_later { I.faults input.old ≤ I.faults input.new }
        ensures output_later { O.faults out.old ≤ O.faults out.new }
    {
        'rounds: loop {
            let ended = round(
                p,
                &self.tables,
                &mut self.machine,
                &mut self.given,
                &mut self.pending,
                input,
                out,
                counter,
            );
            match ended {
                Ok(over) => match over {
                    None => {}
                    Some(e) => return Ok(e),
                },
                Err(fault) => return Err(fault),
            }
        }
    }
}

/// A machine runs on to what it asks for next, and gets it.
fn round<I: Source, O: Sink>(
    p: &IlProgram,
    t: &Tables,
    machine: &mut Machine,
    given: &mut Ahead,
    pending: &mut Pending,
    input: &mut I,
    out: &mut O,
    counter: &mut Option<Counter>,
) -> Result<Option<Ending>, RunFault>
    requires valid { IsProgram p.now }
    requires tabled { IsTabled p.now t.now }
    requires sound { IsSound p.now t.now machine.old }
    requires fits { IsAhead given.old }
    requires ended { given.old.ended ≡ true → IsAtEnd (I.left input.old) }
    requires counter { IfSome counter.old (λ c. IsCounter p.now c) }
    ensures counter { StillCounts p.now counter.old counter.new }
    ensures over { IfOk result (λ o. IfSome o (λ _. counter.new ≡ counter.old)) }
    ensures asked { AsksAtGet p.now t.now machine.old given.old (I.left input.old) (I.left input.new) (I.asks input.old) (I.asks input.new) }
    ensures fits { IsAhead given.new }
    ensures ended { given.new.ended ≡ true → IsAtEnd (I.left input.new) }
    ensures moved { IfOk result (λ o. MatchOption o
        (Round p.now t.now machine.old machine.new counter.old counter.new (prepend_known (ahead given.old) (I.left input.old)) (prepend_known (ahead given.new) (I.left input.new)) (append_known (O.taken out.old) pending.old.bytes.items) (append_known (O.taken out.new) pending.new.bytes.items) given.new.ended)
        (λ e. LastRound p.now t.now machine.old e (O.taken out.old) (O.taken out.new) pending.old.bytes.items)) }
    ensures front { GainsFront (O.taken out.old) (O.taken out.new) pending.old.bytes.items }
    ensures cause { IfErr result (λ f. HasReason f (I.faults input.old) (I.faults input.new) (O.faults out.old) (O.faults out.new)) }
    ensures shut { given.old.ended ≡ true → given.new.ended ≡ true }
    ensures wanted { result ≡ Err RunFault.Input
        → FailedAsk p.now t.now machine.old given.old given.new (prepend_known (ahead given.old) (I.left input.old))
        (prepend_known (ahead given.new) (I.left input.new)) }
    ensures asks { (start : Option (List Ask)) → AsksSo start (I.asks input.old) given.old.ended
        → MatchResult result (λ _. AsksSo start (I.asks input.new) given.new.ended) (λ _. AsksInTurn start (I.asks input.new)) }
    ensures input_later { I.faults input.old ≤ I.faults input.new }
    ensures output_later { O.faults out.old ≤ O.faults out.new }
{
    match machine.advance(p, t)? {
        Move::Called => {
            note_call(counter, p, machine);
            Ok(None)
        }
        Move::Put(b) => {
            pending.put(out, b)?;
            Ok(None)
        }
        Move::Get(d) => {
            let Ok(byte) = given.next(input) else {
                return Err(RunFault::Input);
            };
            machine.store.set(d, word_of(byte));
            Ok(None)
        }
        Move::End(e) => {
            pending.flush(out)?;
            Ok(Some(e))
        }
    }
}

/// What `getchar` gives: the byte, or 4294967295 after the end.
fn word_of(byte: Option<u8>) -> u32
    ensures { MatchOption byte (result ≡ 4294967295) (λ b. result ≡ b) }
{
    match byte {
        Some(b) => b as u32,
        None => u32::MAX,
    }
}
