//! The lock and its turns.
ghost use Rattle.std.specs.Prelude.{◌≡◌, ◌<◌, ◌≤◌, ◌+◌, ◌/◌, ◌%◌, ◌^◌, ℕ, [], ◌∷◌, Some, None, true, false};
ghost use Rattle.named_lock.specs.Slot.{empty, filled};
ghost use Rattle.named_lock.specs.Known.{taken_of, turned_to, noted};
ghost use Rattle.named_lock.specs.Rules.{Stands, Replaces};
ghost use Rattle.named_lock.specs.Steps.{IsWon};
ghost use Rattle.named_lock.specs.Pass.{id_of, IsPassOf, view_of, number_of, given_of, seen_of};

use crate::rule::Rule;
use crate::steps::{Gives, Kept, Takes};
use crate::turnstile::{Token, Turnstile};
use crate::view::{Founding, Held, Intent, View};
use std::snapshot::Snapshot;
use std::sync::Wait;

/// Counts of gives are kept modulo this number: the word has one bit more, for the turn.
const HALF: u64 = 1 << 63;

/// A lock that keeps the rule `R`. Threads share it by `&`.
///
/// A lock that isn't finished is let go of only where the state is `Drop`.
pub type Lock<R> = Turnstile<
    Held<<R as Rule>::State, <R as Rule>::Note>,
    Option<View<<R as Rule>::Name, <R as Rule>::State, <R as Rule>::Note>>,
    Founding<<R as Rule>::Name, <R as Rule>::Note>,
    Kept<R>,
>;

/// A thread's part in a lock: a note and a share. A pass that is dropped counts as live.
pub type Pass<R> = Token<
    Held<<R as Rule>::State, <R as Rule>::Note>,
    Option<View<<R as Rule>::Name, <R as Rule>::State, <R as Rule>::Note>>,
>;

/// The turn: the state, to be changed at will, and for contracts the state as it was taken.
#[derive(Drop)]
pub struct Turn<R: Rule> {
    pub state: R::State,
    pub taken: Snapshot<R::State>,
}

impl<R: Rule> Lock<R> {
    /// Waits until nobody has the turn, and takes it, in constant time but for the wait.
    ///
    /// The rule holds for the lock's name, the state and the notes of all live passes. It takes no
    /// memory. Nothing is promised of who comes first, nor that the turn ever comes.
    pub fn take<W: Wait>(&self, rt: &W, p: &mut Pass<R>) -> Turn<R>
        requires pass { IsPassOf self.now p.old }
        requires idle { taken_of (view_of p.old) ≡ None }
        ensures pass { IsPassOf self.now p.new }
        ensures number { number_of p.new ≡ number_of p.old }
        ensures given { given_of p.new ≡ given_of p.old }
        ensures taken { result.taken.value ≡ result.state }
        ensures view { view_of p.new ≡ turned_to result.state (view_of p.old) }
        ensures rule { Stands R.holds (number_of p.old) (view_of p.old) result.state }
    {
        for _ in rt.forever() {
            if self.try_win(p) {
                return self.move_out(p);
            }
            self.wait(rt);
        }
        unreachable!()
    }

    /// Gives the turn back with its state, and leaves the note, in constant time. It takes no memory.
    ///
    /// The turn is the one that this pass took. For any notes of the other passes, the rule has to go
    /// over from the state as it was taken to the state that is given back.
    pub fn give(&self, p: &mut Pass<R>, t: Turn<R>, note: R::Note)
        requires pass { IsPassOf self.now p.old }
        requires turn { taken_of (view_of p.old) ≡ Some t.taken.value }
        requires rule { Replaces R.holds (number_of p.old) (view_of p.old) t.taken.value t.state note }
        ensures pass { IsPassOf self.now p.new }
        ensures number { number_of p.new ≡ number_of p.old }
        ensures view { view_of p.new ≡ noted note (view_of p.old) }
        ensures counted { seen_of p.old < given_of p.new }
    {
        let Turn { state, taken: _ } = t;
        self.move_in(p, state, &note);
        let found = self.table.shared.fetch_add::<Gives>(&mut p.seat, 0, 1);
        p.given = (found / 2 + 1) % HALF;
        self.wake();
    }

    /// Tries once to win the turn.
    fn try_win(&self, p: &mut Pass<R>) -> bool
        requires pass { IsPassOf self.now p.old }
        requires idle { taken_of (view_of p.old) ≡ None }
        ensures same { (p.new.seat.table_id ≡ p.old.seat.table_id) × (p.new.given ≡ p.old.given) }
        ensures lost { result ≡ false → p.new ≡ p.old }
        ensures won { result ≡ true → IsWon R.holds p.old.seat.me.0 p.new.seat.me }
    {
        let word = self.table.shared.peek(0);
        if word % 2 == 1 {
            return false;
        }
        let found = self
            .table
            .shared
            .compare_exchange::<Takes<R>>(&mut p.seat, 0, word, word + 1);
        found == word
    }

    /// Moves the state out of the slot, which the pass has.
    fn move_out(&self, p: &mut Pass<R>) -> Turn<R>
        requires same { p.old.seat.table_id ≡ id_of self.now }
        requires full { (h : Held R.State R.Note) × (x : R.State) × (p.old.seat.me.1 ≡ (0, h) ∷ []) × (h.state ≡ Some x) }
        ensures same { (p.new.seat.table_id ≡ p.old.seat.table_id) × (p.new.given ≡ p.old.given) }
        ensures taken { result.taken.value ≡ result.state }
        ensures seat { p.new.seat.me ≡ (p.old.seat.me.0, (0, empty) ∷ []) }
        ensures state { (h : Held R.State R.Note) → p.old.seat.me.1 ≡ (0, h) ∷ [] → h.state ≡ Some result.state }
    {
        let held = self.table.shared.exchange(&mut p.seat, 0, Held::nothing());
        let state = held.into_state();
        let taken = Snapshot::of(&state);
        Turn { state, taken }
    }

    /// Moves the state into the slot, which the pass has.
    fn move_in(&self, p: &mut Pass<R>, state: R::State, note: &R::Note)
        requires same { p.old.seat.table_id ≡ id_of self.now }
        requires slot { p.old.seat.me.1 ≡ (0, empty) ∷ [] }
        ensures same { (p.new.seat.table_id ≡ p.old.seat.table_id) × (p.new.given ≡ p.old.given) }
        ensures seat { p.new.seat.me ≡ (p.old.seat.me.0, (0, filled state note.now) ∷ []) }
    {
        let held = Held {
            state: Some(state),
            intent: Intent {
                mine: Some(Snapshot::of(note)),
                other: None,
                share: 0,
            },
        };
        self.table.shared.exchange(&mut p.seat, 0, held).discard();
    }
}
