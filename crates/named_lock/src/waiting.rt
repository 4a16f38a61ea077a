//! How a thread waits for the turn, or for another thread's give.
ghost use Rattle.std.specs.Prelude.{◌≡◌, ◌≢◌, ◌/◌, ◌<◌};
ghost use Rattle.named_lock.specs.Pass.{IsPassOf, view_of, number_of, given_of, seen_of};

use crate::lock::{Lock, Pass};
use crate::rule::Rule;
use crate::steps::Looks;
use std::hint::spin_loop;
use std::sync::Wait;
use std::sync::atomic::Ordering;

/// How often a thread looks whether the turn is back before it sleeps.
const LOOKS: u32 = 100;

impl<R: Rule> Lock<R> {
    /// Waits until some pass has given since this pass last gave, or since it was made where it never
    /// gave. It sleeps in between, and takes no memory.
    ///
    /// Nothing is promised of when it returns. A pass that has the turn keeps the others from giving,
    /// and so may rest for ever. After just 2^63 gives the count stands where it stood, and the wait
    /// goes on to the next.
    pub fn rest<W: Wait>(&self, rt: &W, p: &mut Pass<R>)
        requires pass { IsPassOf self.now p.old }
        ensures pass { IsPassOf self.now p.new }
        ensures number { number_of p.new ≡ number_of p.old }
        ensures view { view_of p.new ≡ view_of p.old }
        ensures given { given_of p.new ≡ given_of p.old }
        ensures since { given_of p.old < seen_of p.new }
    {
        for _ in rt.forever() {
            let word = self.look(p);
            if word / 2 != p.given {
                return;
            }
            self.sleep(rt, word);
        }
        unreachable!()
    }

    /// Looks at the word, and the pass learns how many gives there have been.
    fn look(&self, p: &mut Pass<R>) -> u64
        requires pass { IsPassOf self.now p.old }
        ensures pass { IsPassOf self.now p.new }
        ensures number { number_of p.new ≡ number_of p.old }
        ensures view { view_of p.new ≡ view_of p.old }
        ensures given { given_of p.new ≡ given_of p.old }
        ensures since { result / 2 ≢ p.new.given → given_of p.old < seen_of p.new }
    {
        self.table.shared.load::<Looks>(&mut p.seat, 0)
    }

    /// Waits a while for the turn to come back. It may return before it does.
    pub(crate) fn wait<W: Wait>(&self, rt: &W) {
        for _ in 0..LOOKS {
            if self.table.shared.peek(0) % 2 == 0 {
                return;
            }
            spin_loop();
        }
        let word = self.table.shared.peek(0);
        if word % 2 == 1 {
            self.sleep(rt, word);
        }
    }

    /// Sleeps until the next give, where the word still is this one. It may return for no reason.
    ///
    /// A sleeper is counted before the word is compared, and a giver changes the word before it reads
    /// the count, so that a give in between wakes the sleeper or keeps it from sleeping. (The low 32
    /// bits are compared: after just 2^31 gives in between it sleeps until the next.)
    fn sleep<W: Wait>(&self, rt: &W, word: u64) {
        self.sleepers.fetch_add(1, Ordering::SeqCst);
        self.table.shared.park(rt, 0, (word % (1 << 32)) as u32);
        self.sleepers.fetch_sub(1, Ordering::SeqCst);
    }

    /// Wakes all who sleep. Where nobody does, it costs a load and no system call.
    pub(crate) fn wake(&self) {
        if self.sleepers.load(Ordering::SeqCst) != 0 {
            self.table.shared.wake_all(0);
        }
    }
}
