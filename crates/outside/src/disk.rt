//! What keeps bytes by place.
ghost use Rattle.std.specs.Prelude.{◌≡◌, ◌+◌, ◌<◌, ◌≤◌, ℕ, Bool, IsTrue, IsSome, List, Option, IfOk, length};
ghost use Rattle.std.specs.Io.{WritesAtMost};
ghost use Rattle.outside.specs.Faults.{HasCause};
ghost use Rattle.outside.specs.Places.{ReadsPlaces, WritesPlaces};

use crate::fault::Failed;

/// Keeps a byte at each place. It need not be believed: what a call gives is promised only of a disk
/// that is honest, and only where the call ends at or below its reach.
pub trait Disk {
    /// The bytes from place 0 on, where they are told. Places past the end have a 0.
    ghost bytes: { Self → Option (List ℕ) };
    /// The calls that end at or below this number keep an honest disk honest. It never changes.
    ghost reach: { Self → ℕ };
    /// Whether it gives what it tells.
    ghost honest: { Self → Bool };
    /// How many calls failed.
    ghost faults: { Self → ℕ };

    /// Fills a front of `b` with the bytes from place `at` on, and answers how many bytes that were.
    fn read_at(&mut self, at: u64, b: &mut [u8]) -> Result<usize, Failed>
        ensures bound { IfOk result (λ n. n ≤ length b.new) }
        ensures kept_length { length b.new ≡ length b.old }
        ensures progress { 0 < length b.old → IfOk result (λ n. 0 < n) }
        ensures cause { HasCause (faults self.old) (faults self.new) result }
        ensures kept_reach { reach self.new ≡ reach self.old }
        ensures places { IsTrue (honest self.old) → at + length b.old ≤ reach self.old
            → ReadsPlaces (bytes self.old) (bytes self.new) (honest self.new) at result b.new };

    /// Puts a front of `b` at the places from `at` on, and answers how many bytes that were.
    fn write_at(&mut self, at: u64, b: &[u8]) -> Result<usize, Failed>
        ensures bound { WritesAtMost result b.now }
        ensures progress { 0 < length b.now → IfOk result (λ n. 0 < n) }
        ensures cause { HasCause (faults self.old) (faults self.new) result }
        ensures kept_reach { reach self.new ≡ reach self.old }
        ensures places { IsTrue (honest self.old) → at + length b.now ≤ reach self.old
            → WritesPlaces (bytes self.old) (bytes self.new) (honest self.new) at result b.now };

    /// A disk is honest only where its bytes are told.
    ghost told: { (d : Self) → IsTrue (honest d) → IsSome (bytes d) };
}
