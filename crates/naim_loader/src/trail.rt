//! What a loader leaves behind.
ghost use Rattle.std.specs.Prelude.{◌≡◌, ◌≤◌};

use crate::counters::Counters;
use crate::noted::Noted;
use std::marker::Model;

/// What a loader did: its limit, its peaks and counts, and two lists without bytes that contracts see,
/// of the contents at each mark and of the insertions. It can't be copied, and `Loader::close` alone
/// makes one.
#[derive(Drop)]
pub struct Trail<T> {
    limit: u64,
    counters: Counters,
    lists: Noted<T>,
}

impl<T> Model for Trail<T> {
    ghost use Rattle.std.specs.Prelude.{◌≤◌};
    ghost use Rattle.naim_loader.specs.Trails.{History};

    ghost Value = { History T };

    ghost view = { λ t. record { limit = t.limit; counters = t.counters; lists = t.lists.lists } };

    ghost invariant = { λ t. t.counters.under_peak ≤ t.limit };
}

impl<T> Trail<T> {
    /// The trail of a loader.
    pub(crate) fn of(limit: u64, counters: Counters, lists: Noted<T>) -> Trail<T>
        requires { counters.under_peak ≤ limit }
        ensures { result ≡ record { limit = limit; counters = counters; lists = lists.lists } }
    {
        Trail {
            limit,
            counters,
            lists,
        }
    }

    /// The loader's limit in bytes. Constant time.
    pub fn limit(&self) -> u64
        ensures { result ≡ self.now.limit }
    {
        self.limit
    }

    /// The loader's peaks and counts. Constant time.
    pub fn counters(&self) -> Counters
        ensures value { result ≡ self.now.counters }
        ensures within { result.under_peak ≤ self.now.limit }
    {
        self.counters
    }
}
