//! A number under a lock, to which each pass adds.
ghost use Rattle.std.specs.Prelude.{◌≡◌, ◌<◌, ◌*◌, ◌^◌, IfOk};

use crate::job::Job;
use crate::workers::{work_after_another, work_in_halves};
use named_lock::{Lock, Rule};
use std::alloc::{AllocError, Global};
use std::sync::Wait;
use std::thread::Threads;

/// The rule "the number is the sum of the notes", modulo 2^64: each note is what its pass has added.
pub struct Counted;

impl Rule for Counted {
    type Name = ();

    type State = u64;

    type Note = u64;

    ghost use Rattle.lock_join.specs.Sum.{IsSum};

    ghost holds = { λ _ number notes. IsSum number notes };
}

impl Job for Counted {
    ghost amount = { λ n. n };

    #[tactic(auto, using(crate::proofs::Sums::one_more))]
    fn step(state: u64, note: u64) -> (u64, u64) {
        (state.wrapping_add(1), note + 1)
    }

    #[tactic(auto, using(crate::proofs::Sums::nothing_more))]
    fn fresh() -> u64 {
        0
    }

    #[tactic(auto, using(crate::proofs::Sums::both_in_one))]
    fn together(one: u64, two: u64) -> u64 {
        one + two
    }
}

/// So many workers add 1 so many times each to a number that begins at 0.
pub fn count<W: Threads + Wait + Sync>(
    rt: &W,
    alloc: Global,
    workers: u32,
    times: u64,
) -> Result<u64, AllocError>
    requires some { 0 < workers }
    requires room { workers * times < 2 ^ 64 }
    ensures { IfOk result (λ number. number ≡ workers * times) }
{
    let (lock, p) = match Lock::<Counted>::make(alloc, (), 0, 0, workers) {
        Ok(made) => made,
        Err((_, error)) => return Err(error),
    };
    let (p, _) = work_in_halves(rt, &lock, p, 0, workers, times);
    let mut p = p;
    let t = lock.take(rt, &mut p);
    Ok(lock.finish(p, t))
}

/// Two workers add 1 each to a number that begins at 0, one after the other. The answer is the number
/// in the end, and the number that the second found.
pub fn count_in_order<W: Threads + Wait + Sync>(
    rt: &W,
    alloc: Global,
) -> Result<(u64, u64), AllocError>
    ensures { IfOk result (λ numbers. numbers.0 ≡ 2) }
{
    let (lock, p) = match Lock::<Counted>::make(alloc, (), 0, 0, 2) {
        Ok(made) => made,
        Err((_, error)) => return Err(error),
    };
    let (p, _, found) = work_after_another(rt, &lock, p, 0);
    let mut p = p;
    let t = lock.take(rt, &mut p);
    Ok((lock.finish(p, t), found))
}
