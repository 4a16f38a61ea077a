//! What a pass knows, and what the slot of the lock holds.
ghost use Rattle.std.specs.Prelude.{◌≡◌, Some, None};
ghost use Rattle.named_lock.specs.Slot.{at_rest, empty};

use std::snapshot::Snapshot;

/// What a live pass knows, for contracts. No value of it is made.
pub struct Known<M, S, N> {
    /// The lock's name.
    pub name: M,
    /// The pass's note.
    pub note: N,
    /// How many of the lock's shares the pass has.
    pub share: u32,
    /// How many shares the lock has.
    pub all: u32,
    /// The state as it was taken, while the pass has the turn.
    pub taken: Option<S>,
}

/// What the lock's rule is told of a pass. No value of it is made.
pub struct View<M, S, N> {
    pub known: Known<M, S, N>,
    // the pass's number; a pass that was just split off doesn't know it yet
    pub number: Option<u64>,
    // how many gives there had been in all when the pass last gave, or when it was made
    pub given: u64,
    // how many gives there had been in all when the pass last looked
    pub seen: u64,
    // the slot is at home without the state, and the turn is out for good
    pub closing: bool,
    pub intent: Intent<N>,
}

/// What the next step is to do, for proofs alone: a snapshot has no bytes.
#[derive(Drop)]
pub struct Intent<N> {
    // the note that the stepping pass leaves
    pub mine: Option<Snapshot<N>>,
    // the note that a new pass leaves, and its share
    pub other: Option<Snapshot<N>>,
    pub share: u32,
}

/// What the slot holds: the state or nothing, beside what a step is told.
#[derive(Drop)]
pub struct Held<S, N> {
    pub state: Option<S>,
    pub intent: Intent<N>,
}

/// What the lock is told once, as it is made.
#[derive(Drop)]
pub struct Founding<M, N> {
    pub name: M,
    pub note: N,
    pub shares: u32,
}

impl<S, N> Held<S, N> {
    /// The slot's value without the state.
    pub(crate) fn nothing() -> Held<S, N>
        ensures { result ≡ empty }
    {
        Held {
            state: None,
            intent: Intent {
                mine: None,
                other: None,
                share: 0,
            },
        }
    }

    /// The slot's value with the state, as the lock is made.
    pub(crate) fn with_state(state: S) -> Held<S, N>
        ensures { result ≡ record { state = Some state; intent = at_rest } }
    {
        Held {
            state: Some(state),
            intent: Intent {
                mine: None,
                other: None,
                share: 0,
            },
        }
    }

    /// Lets go of a value without the state. A state need not be one that may be dropped.
    pub(crate) fn discard(self)
        requires { self.state ≡ None }
    {
        let Held { state, intent: _ } = self;
        let None = state else { unreachable!() };
    }

    /// The state.
    pub(crate) fn into_state(self) -> S
        requires { (x : S) × (self.state ≡ Some x) }
        ensures { self.state ≡ Some result }
    {
        let Held { state, intent: _ } = self;
        match state {
            Some(state) => state,
            None => unreachable!(),
        }
    }
}
