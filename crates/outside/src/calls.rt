//! Which calls of a memory form fail, and how many have.
ghost use Rattle.std.specs.Prelude.{◌≡◌, ◌≤◌, ◌↔◌, Contains, IsErr};
ghost use Rattle.outside.specs.Calls.{FailsNext, CountsCall, one_more};

use crate::fault::Failed;
use std::marker::Model;

/// The numbers of the calls that are to fail, counted from 1, how many calls there were, and how
/// many of them failed. Both counts stay at 2^64 - 1 once there.
#[derive(Drop)]
pub struct Calls {
    failing: Vec<u32>,
    made: u64,
    faults: u64,
}

impl Model for Calls {
    ghost use Rattle.outside.specs.Calls.{CallCounts};

    ghost Value = { CallCounts };

    ghost view = { λ c. record { failing = c.failing.items; made = c.made; faults = c.faults } };
}

impl Calls {
    /// No call was made. It takes no memory.
    pub fn new(failing: Vec<u32>) -> Calls
        ensures list { result.failing ≡ failing.items }
        ensures none { result.made ≡ 0 }
        ensures faultless { result.faults ≡ 0 }
    {
        Calls {
            failing,
            made: 0,
            faults: 0,
        }
    }

    /// Counts one more call. It fails exactly where that call's number is in the list. It takes time
    /// linear in the list.
    pub fn count(&mut self) -> Result<(), Failed>
        ensures counted { CountsCall self.old self.new result }
        ensures listed { IsErr result ↔ FailsNext self.old }
    {
        self.made = self.made.saturating_add(1);
        let made = self.made;
        if self.failing.iter().any(|number| u64::from(*number) == made) {
            return Err(self.fault());
        }
        Ok(())
    }

    /// Counts one more fault.
    pub fn fault(&mut self) -> Failed
        ensures counted { self.new ≡ record self.old { faults = one_more self.old.faults } }
        ensures later { self.old.faults ≤ self.new.faults }
    {
        self.faults = self.faults.saturating_add(1);
        Failed
    }
}
