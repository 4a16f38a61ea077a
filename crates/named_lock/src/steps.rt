//! The rule of the table under a lock, and what each step tells the pass that makes it.
use crate::rule::Rule;
use crate::view::{Founding, Held, View};
use atomic_table::{Join, Play, Split, TableRule};
use std::marker::PhantomData;

/// The lock's rule, and what the lock needs to keep it.
pub struct Kept<R>(PhantomData<R>);

impl<R: Rule> TableRule<
    Held<R::State, R::Note>,
    Option<View<R::Name, R::State, R::Note>>,
    Founding<R::Name, R::Note>,
> for Kept<R> {
    ghost use Rattle.named_lock.specs.Keeps.{Keeps, founder};

    ghost holds = { λ f. Keeps R.holds f.name f.shares };

    ghost first = { founder };
}

/// A try to win the turn.
pub struct Takes<R>(PhantomData<R>);

impl<R: Rule> Play<Held<R::State, R::Note>, Option<View<R::Name, R::State, R::Note>>> for Takes<R> {
    ghost use Rattle.named_lock.specs.Steps.{Tries};

    ghost then = { Tries R.holds };
}

/// The turn goes back with the state.
pub struct Gives;

impl<M, S, N> Play<Held<S, N>, Option<View<M, S, N>>> for Gives {
    ghost use Rattle.named_lock.specs.Steps.{Leaves};

    ghost then = { Leaves };
}

/// The pass is told what its next step is to do.
pub struct Intends;

impl<M, S, N> Play<Held<S, N>, Option<View<M, S, N>>> for Intends {
    ghost use Rattle.named_lock.specs.Steps.{IsTold};

    ghost then = { IsTold };
}

/// A new pass learns its number, and how many gives there have been.
pub struct Settles;

impl<M, S, N> Play<Held<S, N>, Option<View<M, S, N>>> for Settles {
    ghost use Rattle.named_lock.specs.Steps.{Arrives};

    ghost then = { Arrives };
}

/// A pass learns how many gives there have been.
pub struct Looks;

impl<M, S, N> Play<Held<S, N>, Option<View<M, S, N>>> for Looks {
    ghost use Rattle.named_lock.specs.Steps.{LooksAgain};

    ghost then = { LooksAgain };
}

/// The slot goes home empty, and the turn is kept.
pub struct Closes;

impl<M, S, N> Play<Held<S, N>, Option<View<M, S, N>>> for Closes {
    ghost use Rattle.named_lock.specs.Steps.{PutsHome};

    ghost then = { PutsHome };
}

/// A pass is split in two.
pub struct Cuts;

impl<M, S, N> Split<Option<View<M, S, N>>> for Cuts {
    ghost use Rattle.named_lock.specs.Steps.{left_of, right_of};

    ghost left = { left_of };

    ghost right = { right_of };
}

/// Two passes are made one.
pub struct Merges;

impl<M, S, N> Join<Option<View<M, S, N>>> for Merges {
    ghost use Rattle.std.specs.Prelude.{None};
    ghost use Rattle.named_lock.specs.Steps.{both_of};

    ghost both = { both_of };

    ghost spent = { None };
}
