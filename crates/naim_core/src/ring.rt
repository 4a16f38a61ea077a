//! Slots one behind the other, of which each is let in at the front or taken out in constant time.
ghost use Rattle.std.specs.Prelude.{◌≡◌, ◌++◌, ◌∷◌, [], true, false, replicate, slice_get, IfOk, IsSome, Some};
ghost use Rattle.naim_core.specs.Links.{IsRing, InRing, held};

use std::alloc::{AllocError, Global};

/// The place of the two ends: behind it stands the first slot, and before it the last one.
pub(crate) const ENDS: u16 = 4096;

/// Slots one behind the other, each below 4,096 and at most once.
#[derive(Drop)]
pub(crate) struct Ring {
    /// At each slot that is in, and at the ends, what stands behind it.
    pub(crate) behind: Vec<u16>,
    /// What stands before it.
    pub(crate) before: Vec<u16>,
}

/// Links of which each leads to the ends.
fn no_links(alloc: Global, places: usize) -> Result<Vec<u16>, AllocError>
    ensures { IfOk result (λ v. v.items ≡ replicate places 4096) }
{
    vec![in alloc; ENDS; places]
}

impl Ring {
    /// No slots. It reserves all that the ring ever takes.
    pub(crate) fn new(alloc: Global) -> Result<Ring, AllocError>
        ensures { IfOk result (λ r. IsRing r.behind.items r.before.items []) }
    {
        let behind = no_links(alloc, ENDS as usize + 1)?;
        let before = no_links(alloc, ENDS as usize + 1)?;
        Ok(Ring { behind, before })
    }

    /// What stands before a slot, or, at the ends, the last slot; the ends themselves where nothing does.
    pub(crate) fn before(&self, slot: u16) -> u16
        requires { IsSome (slice_get self.now.before.items slot) }
        ensures { slice_get self.now.before.items slot ≡ Some result }
    {
        self.before[slot as usize]
    }

    /// Takes a slot out that is in.
    fn unlink(&mut self, slot: u16)
        requires { InRing self.old.behind.items self.old.before.items slot true }
        ensures { (at : InRing self.old.behind.items self.old.before.items slot true)
            → IsRing self.new.behind.items self.new.before.items (at.newer ++ at.older) }
    {
        let before = self.before[slot as usize];
        let behind = self.behind[slot as usize];
        self.behind[before as usize] = behind;
        self.before[behind as usize] = before;
    }

    /// Puts a slot first that isn't in.
    fn link(&mut self, slot: u16)
        requires { InRing self.old.behind.items self.old.before.items slot false }
        ensures { (at : InRing self.old.behind.items self.old.before.items slot false)
            → IsRing self.new.behind.items self.new.before.items (slot ∷ (at.newer ++ at.older)) }
    {
        let first = self.behind[ENDS as usize];
        self.behind[slot as usize] = first;
        self.behind[ENDS as usize] = slot;
        self.before[first as usize] = slot;
        self.before[slot as usize] = ENDS;
    }

    /// Takes a slot out, if it was in.
    pub(crate) fn leave(&mut self, slot: u16, was: bool)
        requires { InRing self.old.behind.items self.old.before.items slot was }
        ensures { (at : InRing self.old.behind.items self.old.before.items slot was)
            → IsRing self.new.behind.items self.new.before.items (at.newer ++ at.older) }
    {
        if was {
            self.unlink(slot);
        }
    }

    /// Puts a slot first, where `is`, or takes it out; `was` tells whether it was in.
    pub(crate) fn renew(&mut self, slot: u16, was: bool, is: bool)
        requires { InRing self.old.behind.items self.old.before.items slot was }
        ensures { (at : InRing self.old.behind.items self.old.before.items slot was)
            → IsRing self.new.behind.items self.new.before.items (held is slot (at.newer ++ at.older)) }
    {
        self.leave(slot, was);
        if is {
            self.link(slot);
        }
    }

    /// Takes a slot out, unless `is`; `was` tells whether it was in.
    pub(crate) fn keep(&mut self, slot: u16, was: bool, is: bool)
        requires was { is ≡ true → was ≡ true }
        requires ring { InRing self.old.behind.items self.old.before.items slot was }
        ensures { (at : InRing self.old.behind.items self.old.before.items slot was)
            → IsRing self.new.behind.items self.new.before.items (at.newer ++ held is slot at.older) }
    {
        if was && !is {
            self.unlink(slot);
        }
    }
}
