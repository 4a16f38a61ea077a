//! A value that contracts alone see.
ghost use Rattle.std.specs.Prelude.{◌≡◌};
ghost use base.Fml.{ftrue};

use std::marker::{Model, PhantomData};

/// A `T` that isn't kept: it has no bytes and owns nothing. Only the clauses of the calls that make
/// one say what its value is.
pub struct Unkept<T> {
    marker: PhantomData<T>,
    pub ghost value: { T },
}

impl<T> Model for Unkept<T> {
    ghost also_owns = { λ _. ftrue };
}

impl<T> Unkept<T> {
    /// The value that the caller picks.
    pub fn picked() -> Unkept<T>
        ghost pick: { T }
        ensures { result.value ≡ pick }
    {
        Unkept {
            marker: PhantomData,
        }
    }

    /// The value that the caller picks from an older one and from what it shows.
    pub fn after<U>(_older: &Unkept<T>, _shown: &U) -> Unkept<T>
        ghost pick: { T }
        ensures { result.value ≡ pick }
    {
        Unkept::picked()
    }
}

unsafe impl<T> Send for Unkept<T> {}

unsafe impl<T> Sync for Unkept<T> {}

impl<T> Drop for Unkept<T> {
    fn drop(self) {
        let Self { marker: _ } = self;
    }
}
