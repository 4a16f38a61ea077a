//! The lists of a trail, which contracts alone see.
ghost use Rattle.std.specs.Prelude.{◌≡◌};
ghost use Rattle.naim_loader.specs.Trails.{Lists};
ghost use base.Fml.{ftrue};

use crate::table::Table;
use std::marker::{Model, PhantomData};

/// The lists of a trail. They aren't kept: it has no bytes and owns nothing. Only the clauses of the
/// calls that make one say what its lists are.
pub(crate) struct Noted<T> {
    marker: PhantomData<T>,
    pub ghost lists: { Lists T },
}

impl<T> Model for Noted<T> {
    ghost also_owns = { λ _. ftrue };
}

impl<T> Noted<T> {
    /// The lists that the caller picks.
    pub(crate) fn picked() -> Noted<T>
        ghost pick: { Lists T }
        ensures { result.lists ≡ pick }
    {
        Noted {
            marker: PhantomData,
        }
    }

    /// The lists that the caller picks from older ones and from what it shows.
    pub(crate) fn after<U>(_older: &Noted<T>, _shown: &U) -> Noted<T>
        ghost pick: { Lists T }
        ensures { result.lists ≡ pick }
    {
        Noted::picked()
    }

    /// The lists that the caller picks from older ones and from the entries of a table.
    pub(crate) fn after_entries<B>(_older: &Noted<T>, _entries: &Table<T, B>) -> Noted<T>
        ghost pick: { Lists T }
        ensures { result.lists ≡ pick }
    {
        Noted::picked()
    }
}

impl<T> Drop for Noted<T> {
    fn drop(self) {
        let Self { marker: _ } = self;
    }
}
