//! The trail, and the end of a loader.
ghost use Rattle.std.specs.Prelude.{◌≡◌, ◌≤◌, ◌++◌, ◌∷◌, [], nat_eq, true, false, None};
ghost use Rattle.std.specs.List.{IsDistinct, list_all};
ghost use Rattle.std.specs.Map.{keys_of};
ghost use Rattle.naim_core.specs.State.{is_empty_hand};
ghost use Rattle.naim_loader.specs.Paged.{IsGood, IsTrusted, contents};
ghost use Rattle.naim_loader.specs.Parts.{untold_len};

use crate::home::home_disk;
use crate::loader::Loader;
use crate::noted::Noted;
use crate::trail::Trail;
use outside::Disk;
use pool_laws::Poolable;

impl<T: Poolable + Drop, B: Drop, D: Disk + Drop> Loader<T, B, D> {
    /// Notes the contents as they are now: they are the last of the trail's programs. It is no event, and
    /// takes constant time and no memory.
    pub fn mark(&mut self)
        requires closed { self.old.core.in_wave ≡ false }
        requires free { list_all is_empty_hand self.old.core.hands ≡ true }
        requires running { self.old.core.failure ≡ None }
        ensures marked { self.new ≡ record self.old { trail = record self.old.trail { programs = self.old.trail.programs ++ contents self.old ∷ [] } } }
        ensures differ { IsDistinct nat_eq (keys_of (contents self.old)) }
    {
        self.trail = Noted::after_entries(&self.trail, &self.table);
    }

    /// Ends the loader: the disk, and the trail of what was done. Where all hands are empty, no failure is
    /// kept and the disk is trusted, the pools whose compact spelling isn't a contiguous part of the disk's
    /// bytes have spellings of at most `limit` bytes in all. It takes what letting the bodies go takes.
    pub fn close(self) -> (D, Trail<T>)
        requires home { self.home ≡ true }
        ensures disk { result.0 ≡ self.disk }
        ensures trail { result.1 ≡ record { limit = self.core.limit; counters = self.counters; lists = self.trail } }
        ensures honest { IsTrusted D.reach D.honest self → IsGood D.reach D.honest self.core.limit result.0 }
        ensures rest { list_all is_empty_hand self.core.hands ≡ true → self.core.failure ≡ None → IsTrusted D.reach D.honest self
            → untold_len T.encoding (D.bytes self.disk) (contents self) ≤ self.core.limit }
    {
        let Loader {
            limit,
            core: _,
            table: _,
            disk,
            first: _,
            counters,
            trail,
        } = self;
        (home_disk(disk), Trail::of(limit, counters, trail))
    }
}
