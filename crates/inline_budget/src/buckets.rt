//! Lists of numbers, one for each number below a bound.
ghost use Rattle.std.specs.Prelude.{◌≡◌, ◌<◌, ◌++◌, [], ◌∷◌, IfOk, OnOk, length, map, replicate, slice_index_or, slice_set};
ghost use Rattle.inline_budget.specs.Buckets.{put_in};

use std::alloc::{AllocError, Global};
use std::marker::Model;

/// A list of numbers for each number below a bound. Contracts see the lists.
#[derive(Drop)]
pub(crate) struct Buckets {
    lists: Vec<Vec<u32>>,
}

impl Model for Buckets {
    ghost use Rattle.std.specs.Prelude.{List, ℕ, map};

    ghost Value = { List (List ℕ) };

    ghost view = { λ b. map (λ l. l.items) b.lists.items };
}

impl Buckets {
    /// So many lists without an element.
    pub(crate) fn new(alloc: Global, bound: usize) -> Result<Buckets, AllocError>
        ensures { IfOk result (λ b. b ≡ replicate bound []) }
    {
        let mut lists = Vec::with_capacity(alloc, bound)?;
        for _ in 0..bound {
            lists.push(Vec::new(alloc))?;
        }
        Ok(Buckets { lists })
    }

    /// Puts a number behind the others of a list.
    pub(crate) fn put(&mut self, at: usize, number: u32) -> Result<(), AllocError>
        requires { at < length self.old }
        ensures { OnOk result (self.new ≡ put_in self.old at number) }
    {
        self.lists[at].push(number)?;
        Ok(())
    }

    /// A list.
    pub(crate) fn list(&self, at: usize) -> &[u32]
        requires { at < length self.now }
        ensures { result.now ≡ slice_index_or self.now at [] }
    {
        self.lists[at].as_slice()
    }

    /// All lists.
    pub(crate) fn into_lists(self) -> Vec<Vec<u32>>
        ensures { map (λ l. l.items) result.items ≡ self }
    {
        self.lists
    }
}
