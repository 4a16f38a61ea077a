//! Counting the calls of a running program.
ghost use Rattle.std.specs.Prelude.{◌≡◌, ◌<◌, ◌∷◌, [], IfOk, IfSome, length};
ghost use Rattle.il_core.specs.Valid.{IsProgram};
ghost use Rattle.il_run.specs.Counts.{Counted, CountsMore, IsCounter};
ghost use Rattle.il_run.specs.Machine.{IsCalled, call_into};

use crate::counts::Counts;
use crate::machine::Machine;
use crate::numbering::Numbering;
use il_core::IlProgram;
use std::alloc::Global;

/// The counts so far, and the numbers of the sites.
#[derive(Drop)]
pub struct Counter {
    pub numbers: Vec<Numbering>,
    pub counts: Counts,
    pub alloc: Global,
}

impl Counter {
    /// The counts so far.
    pub fn into_counts(self) -> Counts
        ensures { result ≡ self.counts }
    {
        let Counter {
            numbers: _,
            counts,
            alloc: _,
        } = self;
        counts
    }

    /// The call that led into the current routine is counted, in constant time.
    fn note(&mut self, p: &IlProgram, machine: &Machine)
        requires valid { IsProgram p.now }
        requires counter { IsCounter p.now self.old }
        requires routine { machine.now.routine < length p.now.routines }
        requires called { IsCalled p.now machine.now }
        ensures { (called : IsCalled p.now machine.now) → Counted p.now self.old self.new (call_into p.now machine.now called ∷ []) }
    {
        let stack = machine.stack.as_slice();
        let caller = stack[stack.len() - 1];
        let routine = caller.routine as usize;
        let row = &self.numbers[routine];
        let at = row.starts[caller.block as usize] + caller.instr - 1;
        let site = row.numbers[at] as usize;
        self.counts
            .count(self.alloc, routine, site, machine.routine as usize);
    }
}

/// Counts the call that led into the current routine, where calls are counted.
pub fn note_call(counter: &mut Option<Counter>, p: &IlProgram, machine: &Machine)
    requires valid { IsProgram p.now }
    requires counter { IfSome counter.old (λ c. IsCounter p.now c) }
    requires routine { machine.now.routine < length p.now.routines }
    requires called { IsCalled p.now machine.now }
    ensures { (called : IsCalled p.now machine.now) → CountsMore p.now counter.old counter.new (call_into p.now machine.now called ∷ []) }
{
    match counter {
        None => {}
        Some(counter) => counter.note(p, machine),
    }
}
