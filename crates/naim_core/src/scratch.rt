//! A reserved list of numbers, to find out whether a number stands twice.
ghost use Rattle.std.specs.Prelude.{◌≡◌, ◌≤◌, length, vec_capacity, IsSorted};
ghost use Rattle.std.specs.Ordering.{nat_cmp};
ghost use Rattle.naim_core.specs.State.{has_repeat};

use std::alloc::{AllocError, Global};

/// How many numbers it has room for.
const ROOM: usize = 4096;

/// Room for 4,096 numbers.
#[derive(Drop)]
pub(crate) struct Scratch {
    numbers: Vec<u32>,
    ghost room: { 4096 ≤ vec_capacity numbers },
}

/// Whether two neighbours are equal, which tells of a sorted list whether a number stands twice.
fn has_equal_neighbours(sorted: &[u32]) -> bool
    requires { IsSorted nat_cmp sorted.now }
    ensures { result ≡ has_repeat sorted.now }
{
    for i in 1..sorted.len() {
        if sorted[i - 1] == sorted[i] {
            return true;
        }
    }
    false
}

impl Scratch {
    /// Reserves the room.
    pub(crate) fn new(alloc: Global) -> Result<Scratch, AllocError> {
        let numbers = Vec::with_capacity(alloc, ROOM)?;
        Ok(Scratch { numbers })
    }

    /// Whether some task stands twice. It sorts the tasks in the reserved room.
    pub(crate) fn has_repeat(&mut self, tasks: &[u32]) -> bool
        requires { length tasks.now ≤ 4096 }
        ensures { result ≡ has_repeat tasks.now }
    {
        self.numbers.clear();
        for task in tasks {
            self.numbers.push(*task).unwrap();
        }
        self.numbers.sort_unstable();
        has_equal_neighbours(self.numbers.as_slice())
    }
}
