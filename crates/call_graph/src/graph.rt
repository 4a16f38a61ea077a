//! The summaries of a program's routines.
ghost use Rattle.std.specs.Prelude.{◌≡◌, ◌<◌, ◌≤◌, ◌^◌, [], length, map, take, drop, OnOk, OnErr};
ghost use Rattle.std.specs.List.{AllByRecursion};
ghost use Rattle.il_core.specs.Shapes.{IsRising};
ghost use Rattle.plan_laws.specs.Summary.{cost_of};
ghost use Rattle.call_graph.specs.Summaries.{summary_of, put, without, has_at};

use crate::summary::Summary;
use std::alloc::{AllocError, Global};
use std::marker::Model;

/// The summaries of a program's routines, by rising PID. Contracts see the list of what the laws of the plan know of
/// each.
#[derive(Drop)]
pub struct CallGraph {
    pub(crate) routines: Vec<Summary>,
}

impl Model for CallGraph {
    ghost use Rattle.std.specs.Prelude.{List, map};
    ghost use Rattle.il_core.specs.Shapes.{IsRising};
    ghost use Rattle.call_graph.specs.Summaries.{Seen, summary_of};

    ghost Value = { List Seen };

    ghost view = { λ g. map summary_of g.routines.items };

    ghost invariant = { λ g. IsRising (λ s. s.pid) g.routines.items };
}

impl CallGraph {
    /// A graph of no routines. It takes no memory.
    pub fn new(alloc: Global) -> CallGraph
        ensures { result ≡ [] }
    {
        CallGraph {
            routines: Vec::new(alloc),
        }
    }

    /// The summaries, by rising PID.
    pub fn summaries(&self) -> &[Summary]
        ensures { map summary_of result.now ≡ self.now }
    {
        self.routines.as_slice()
    }

    /// Puts a routine's summary in the place of its former one, or adds it. It takes time for a search by halves; a new
    /// PID that isn't the greatest moves the summaries behind it. The only error is want of memory, and then nothing has
    /// changed.
    pub fn replace(&mut self, pid: u32, s: Summary) -> Result<(), AllocError>
        requires { s.pid ≡ pid }
        ensures ok { OnOk result (self.new ≡ put (summary_of s) self.old) }
        ensures err { OnErr result (self.new ≡ self.old) }
    {
        let at = place(self.routines.as_slice(), pid);
        if has(self.routines.as_slice(), at, pid) {
            self.routines[at] = s;
        } else {
            self.routines.insert(at, s)?;
        }
        Ok(())
    }

    /// Takes a routine's summary away, where there is one. It takes time for a search by halves, and moves the summaries
    /// behind it.
    pub fn remove(&mut self, pid: u32)
        ensures { self.new ≡ without pid self.old }
    {
        let at = place(self.routines.as_slice(), pid);
        if has(self.routines.as_slice(), at, pid) {
            self.routines.remove(at);
        }
    }

    /// The sum of the squares of the sizes. It takes time in proportion to the routines, and no memory.
    pub fn cost(&self) -> u64
        requires { cost_of self.now < 2 ^ 64 }
        ensures { result ≡ cost_of self.now }
    {
        cost_of(self.routines.as_slice())
    }
}

fn cost_of(routines: &[Summary]) -> u64
    requires { cost_of (map summary_of routines.now) < 2 ^ 64 }
    ensures { result ≡ cost_of (map summary_of routines.now) }
{
    let mut cost = 0;
    for routine in routines {
        cost += square(routine.size);
    }
    cost
}

fn square(size: u32) -> u64
    ensures { result ≡ size ^ 2 }
{
    u64::from(size) * u64::from(size)
}

/// How many summaries have a lesser PID.
pub(crate) fn place(routines: &[Summary], pid: u32) -> usize
    requires { IsRising (λ s. s.pid) routines.now }
    ensures within { result ≤ length routines.now }
    ensures before { AllByRecursion (λ s. s.pid < pid) (take result routines.now) }
    ensures behind { AllByRecursion (λ s. pid ≤ s.pid) (drop result routines.now) }
{
    let mut low = 0;
    let mut high = routines.len();
    while low < high {
        let middle = low + (high - low) / 2;
        if routines[middle].pid < pid {
            low = middle + 1;
        } else {
            high = middle;
        }
    }
    low
}

/// Whether the summary at a place has a PID.
pub(crate) fn has(routines: &[Summary], at: usize, pid: u32) -> bool
    ensures { result ≡ has_at routines.now at pid }
{
    at < routines.len() && routines[at].pid == pid
}
