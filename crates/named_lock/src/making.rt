//! A lock is made and finished.
ghost use Rattle.std.specs.Prelude.{◌≡◌, ◌<◌, [], ◌∷◌, Some, None, IfOk, IfErr};
ghost use Rattle.named_lock.specs.Slot.{empty};
ghost use Rattle.named_lock.specs.Known.{knows, share_of, all_of, taken_of};
ghost use Rattle.named_lock.specs.Rules.{StandsAlone};
ghost use Rattle.named_lock.specs.Steps.{with_close};
ghost use Rattle.named_lock.specs.Pass.{id_of, IsPassOf, view_of, number_of, given_of};

use crate::lock::{Lock, Pass, Turn};
use crate::rule::Rule;
use crate::steps::{Closes, Kept};
use crate::turnstile::{Token, Turnstile};
use crate::view::{Founding, Held};
use atomic_table::{Refused, Table};
use std::alloc::{AllocError, AllocFailed, Global};
use std::sync::atomic::AtomicU64;

impl<R: Rule> Lock<R> {
    /// A lock of that name that keeps the state, with its first pass, which has all shares. Name and
    /// note are dropped: the lock keeps them for contracts alone.
    ///
    /// It takes three small blocks of memory, and gives one back. The state comes back where there is
    /// no memory.
    pub fn make(
        alloc: Global,
        name: R::Name,
        state: R::State,
        note: R::Note,
        shares: u32,
    ) -> Result<(Lock<R>, Pass<R>), (R::State, AllocError)>
        requires shares { 0 < shares }
        requires rule { R.holds name state (Some note ∷ []) }
        ensures pass { IfOk result (λ made. IsPassOf made.0 made.1) }
        ensures number { IfOk result (λ made. number_of made.1 ≡ 0) }
        ensures view { IfOk result (λ made. view_of made.1 ≡ Some (knows name note shares shares)) }
        ensures refused { IfErr result (λ e. e.0 ≡ state) }
    {
        let slots = match one_slot(alloc, Held::with_state(state)) {
            Ok(slots) => slots,
            Err((held, error)) => return Err((held.into_state(), error)),
        };
        let founding = Founding { name, note, shares };
        match Table::<_, _, _, Kept<R>, Global>::new(alloc, &[0], slots, &founding) {
            Ok((table, seat)) => Ok((
                Turnstile {
                    table,
                    sleepers: AtomicU64::new(0),
                },
                Token { seat, given: 0 },
            )),
            Err(Refused { slots }) => Err((only_slot(slots).into_state(), AllocError)),
        }
    }

    /// Gives the turn's state out for good, and frees the lock's memory. It takes no memory.
    ///
    /// The rule held for the state as it was taken, with this pass's note as the only one.
    pub fn finish(self, p: Pass<R>, t: Turn<R>) -> R::State
        requires pass { IsPassOf self p }
        requires turn { taken_of (view_of p) ≡ Some t.taken.value }
        requires all { share_of (view_of p) ≡ all_of (view_of p) }
        ensures state { result ≡ t.state }
        ensures rule { StandsAlone R.holds (number_of p) (view_of p) t.taken.value }
    {
        let mut p = p;
        self.bring_home(&mut p);
        let Token { seat, given: _ } = p;
        let Turnstile { table, sleepers: _ } = self;
        let mut closed = table.close_with(seat);
        closed.take(0).discard();
        closed.free();
        let Turn { state, taken: _ } = t;
        state
    }

    /// Brings the slot home without the state. The pass keeps the turn.
    fn bring_home(&self, p: &mut Pass<R>)
        requires same { p.old.seat.table_id ≡ id_of self.now }
        requires slot { p.old.seat.me.1 ≡ (0, empty) ∷ [] }
        requires turn { (x : R.State) × (taken_of (view_of p.old) ≡ Some x) }
        ensures same { (p.new.seat.table_id ≡ p.old.seat.table_id) × (p.new.seat.id ≡ p.old.seat.id) }
        ensures seat { p.new.seat.me ≡ (with_close p.old.seat.me.0, []) }
    {
        self.table.shared.fetch_add::<Closes>(&mut p.seat, 0, 0);
    }
}

/// A list of the one value, or the value back.
fn one_slot<T>(alloc: Global, value: T) -> Result<Vec<T>, (T, AllocError)>
    ensures ok { IfOk result (λ v. v.items ≡ value ∷ []) }
    ensures err { IfErr result (λ e. e.0 ≡ value) }
{
    let mut slots = Vec::new(alloc);
    if let Err(failed) = slots.push(value) {
        let AllocFailed { value } = failed;
        slots.destroy_empty();
        return Err((value, AllocError));
    }
    Ok(slots)
}

/// The value of a list that has one.
fn only_slot<T>(mut slots: Vec<T>) -> T
    requires { (x : T) × (slots.items ≡ x ∷ []) }
    ensures { slots.items ≡ result ∷ [] }
{
    let Some(value) = slots.pop() else {
        unreachable!()
    };
    slots.destroy_empty();
    value
}
