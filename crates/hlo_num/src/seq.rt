//! A list.
ghost use Rattle.std.specs.Prelude.{◌≡◌, [], ◌∷◌, ◌++◌, ◌==◌, length, OnOk, OnErr};

use std::alloc::{AllocError, Global};
use std::marker::Model;

/// A `Vec` that contracts see as the list of its elements, so that equal lists are equal values.
#[derive(Debug, Drop)]
pub struct Seq<X> {
    items: Vec<X>,
}

impl<X> Model for Seq<X> {
    ghost use Rattle.std.specs.Prelude.{List};
    ghost use Rattle.std.specs.Coded.{coded_list};

    ghost Value = { List X };

    ghost coded = { coded_list X.code };

    ghost view = { λ s. s.items.items };
}

impl<X> Seq<X> {
    /// The empty list. It takes no memory.
    pub fn new(alloc: Global) -> Seq<X>
        ensures { result ≡ [] }
    {
        Seq {
            items: Vec::new(alloc),
        }
    }

    /// The list of a vector's elements. It takes no memory.
    pub fn from_vec(items: Vec<X>) -> Seq<X>
        ensures { result ≡ items.items }
    {
        Seq { items }
    }

    /// The vector of the list's elements. It takes no memory.
    pub fn into_vec(self) -> Vec<X>
        ensures { result.items ≡ self }
    {
        let Seq { items } = self;
        items
    }

    /// The elements.
    pub fn as_slice(&self) -> &[X]
        ensures { result.now ≡ self.now }
    {
        self.items.as_slice()
    }

    /// How many elements there are.
    pub fn len(&self) -> usize
        ensures { result ≡ length self.now }
    {
        self.items.len()
    }

    /// Whether there are none.
    pub fn is_empty(&self) -> bool
        ensures { result ≡ (length self.now == 0) }
    {
        self.items.is_empty()
    }
}

impl<X: Drop> Seq<X> {
    /// Adds an element at the end, in constant time on average. A refused call leaves the list as it was.
    pub fn push(&mut self, x: X) -> Result<(), AllocError>
        ensures ok { OnOk result (self.new ≡ self.old ++ x ∷ []) }
        ensures err { OnErr result (self.new ≡ self.old) }
    {
        self.items.push(x)?;
        Ok(())
    }
}
