//! Passes are split and ended.
ghost use Rattle.std.specs.Prelude.{◌≡◌, ◌<◌, ◌≤◌, ◌%◌, ◌^◌, None, Some, true, IsOkAnd, IfOk};
ghost use Rattle.named_lock.specs.Known.{is_live, share_of, taken_of, lessened, split_off, merged};
ghost use Rattle.named_lock.specs.Rules.{MaySplit, MayEnd};
ghost use Rattle.named_lock.specs.Steps.{with_intent};
ghost use Rattle.named_lock.specs.Pass.{id_of, IsPassOf, is_placed, view_of, number_of, given_of, seen_of};

use crate::lock::{Lock, Pass};
use crate::rule::Rule;
use crate::steps::{Cuts, Intends, Merges, Settles};
use crate::turnstile::Token;
use crate::view::{Held, Intent};
use std::alloc::AllocError;
use std::snapshot::Snapshot;

impl<R: Rule> Lock<R> {
    /// Moves so much of the pass's share to a new pass, and each of the two leaves a note, in constant
    /// time. The pass may have the turn, and keeps it.
    ///
    /// It takes no memory, and so is never refused.
    pub fn split(
        &self,
        p: &mut Pass<R>,
        share: u32,
        mine: R::Note,
        other: R::Note,
    ) -> Result<Pass<R>, AllocError>
        requires pass { IsPassOf self.now p.old }
        requires some { 0 < share }
        requires less { share < share_of (view_of p.old) }
        requires rule { MaySplit R.holds (number_of p.old) (view_of p.old) mine other }
        ensures pass { IsPassOf self.now p.new }
        ensures number { number_of p.new ≡ number_of p.old }
        ensures given { given_of p.new ≡ given_of p.old }
        ensures view { view_of p.new ≡ lessened share mine (view_of p.old) }
        ensures other { IsOkAnd result (λ q. IsPassOf self.now q × (view_of q ≡ split_off share other (view_of p.old))) }

        // The new pass rests for gives that come after all that its maker had seen.
        ensures since { IfOk result (λ q. seen_of p.old ≤ given_of q) }
    {
        let intent = Intent {
            mine: Some(Snapshot::of(&mine)),
            other: Some(Snapshot::of(&other)),
            share,
        };
        self.tell(p, intent);
        let seat = self.table.shared.split_seat::<Cuts>(&mut p.seat);
        let mut q = Token { seat, given: 0 };
        self.settle(&mut q);
        Ok(q)
    }

    /// Joins the pass `q` into `p`, which gets its share and leaves one note for both, in constant
    /// time. `q` has no turn; `p` may have it, and keeps it. It takes no memory.
    pub fn end(&self, p: &mut Pass<R>, q: Pass<R>, note: R::Note)
        requires pass { IsPassOf self.now p.old }
        requires other { IsPassOf self.now q }
        requires idle { taken_of (view_of q) ≡ None }
        requires rule { MayEnd R.holds (number_of p.old) (view_of p.old) (number_of q) (view_of q) note }
        ensures pass { IsPassOf self.now p.new }
        ensures number { number_of p.new ≡ number_of p.old }
        ensures given { given_of p.new ≡ given_of p.old }
        ensures view { view_of p.new ≡ merged note (view_of p.old) (view_of q) }
    {
        let intent = Intent {
            mine: Some(Snapshot::of(&note)),
            other: None,
            share: 0,
        };
        self.tell(p, intent);
        let Token { seat, given: _ } = q;
        self.table.shared.join_seat::<Merges>(&mut p.seat, seat);
    }

    /// Tells the pass what its next step is to do. The word stays as it is.
    fn tell(&self, p: &mut Pass<R>, intent: Intent<R::Note>)
        requires same { p.old.seat.table_id ≡ id_of self.now }
        requires live { is_placed p.old.seat.me.0 ≡ true }
        ensures same { (p.new.seat.table_id ≡ p.old.seat.table_id) × (p.new.seat.id ≡ p.old.seat.id) × (p.new.given ≡ p.old.given) }
        ensures seat { p.new.seat.me ≡ (with_intent intent p.old.seat.me.0, p.old.seat.me.1) }
    {
        let said = Held {
            state: None,
            intent,
        };
        self.table
            .shared
            .compare_exchange_with::<Intends>(&mut p.seat, 0, 0, 0, &said);
        said.discard();
    }

    /// A new pass learns its number, and how many gives there have been.
    fn settle(&self, q: &mut Pass<R>)
        requires same { q.old.seat.table_id ≡ id_of self.now }
        requires live { is_live (view_of q.old) ≡ true }
        ensures same { (q.new.seat.table_id ≡ q.old.seat.table_id) × (q.new.seat.me.1 ≡ q.old.seat.me.1) }
        ensures placed { is_placed q.new.seat.me.0 ≡ true }
        ensures view { view_of q.new ≡ view_of q.old }
        ensures given { q.new.given ≡ given_of q.new % 2 ^ 63 }
        ensures since { seen_of q.old ≤ given_of q.new }
    {
        q.given = self.table.shared.load::<Settles>(&mut q.seat, 0) / 2;
    }
}
