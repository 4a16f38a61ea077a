//! One worker, and as many as a pass has shares.
ghost use Rattle.std.specs.Prelude.{◌≡◌, ◌<◌, ◌+◌, ◌-◌, ◌*◌, ◌^◌};
ghost use Rattle.std.specs.Thread.{IsSend, IsSync};
ghost use Rattle.named_lock.specs.Known.{share_of};
ghost use Rattle.named_lock.specs.Pass.{view_of};
ghost use Rattle.lock_join.specs.Worker.{IsReady, HasWorked};

use crate::job::Job;
use named_lock::{Lock, Pass, Turn};
use std::sync::Wait;
use std::thread::{Threads, join};

/// Takes the turn so many times, and does a piece of work each time.
pub fn work<R: Job, W: Wait>(
    rt: &W,
    lock: &Lock<R>,
    p: Pass<R>,
    note: R::Note,
    times: u64,
) -> (Pass<R>, R::Note)
where
    R::Note: Copy,
    requires ready { IsReady lock.now p note }
    requires room { R.amount note + times < 2 ^ 64 }
    ensures pass { HasWorked lock.now p result.0 result.1 }
    ensures amount { R.amount result.1 ≡ R.amount note + times }
{
    let mut p = p;
    let mut note = note;
    for _ in 0..times {
        note = work_once(rt, lock, &mut p, note);
    }
    (p, note)
}

/// Takes the turn, does a piece of work and gives the turn back.
fn work_once<R: Job, W: Wait>(rt: &W, lock: &Lock<R>, p: &mut Pass<R>, note: R::Note) -> R::Note
where
    R::Note: Copy,
    requires ready { IsReady lock.now p.old note }
    requires room { R.amount note + 1 < 2 ^ 64 }
    ensures pass { HasWorked lock.now p.old p.new result }
    ensures amount { R.amount result ≡ R.amount note + 1 }
{
    let Turn { state, taken } = lock.take(rt, p);
    let (state, note) = R::step(state, note);
    lock.give(p, Turn { state, taken }, note);
    note
}

/// Does so many pieces of work for each share of the pass, by a worker for each share: the pass is
/// split into halves, both halves work in threads of their own, and the second ends in the first.
///
/// Where no thread can be made, the halves work one after another.
#[cycle(halves)]
pub fn work_in_halves<R: Job + Send, W: Threads + Wait + Sync>(
    rt: &W,
    lock: &Lock<R>,
    p: Pass<R>,
    note: R::Note,
    share: u32,
    times: u64,
) -> (Pass<R>, R::Note)
where
    R::Name: Send,
    R::State: Send,
    R::Note: Copy + Send,
    requires ready { IsReady lock.now p note }
    requires share { share_of (view_of p) ≡ share }
    requires some { 0 < share }
    requires room { R.amount note + share * times < 2 ^ 64 }
    ensures pass { HasWorked lock.now p result.0 result.1 }
    ensures amount { R.amount result.1 ≡ R.amount note + share * times }
{
    if share == 1 {
        return work(rt, lock, p, note, times);
    }
    let half = share / 2;
    let rest = share - half;
    let (mut p, fresh) = (p, R::fresh());
    let Ok(q) = lock.split(&mut p, half, note, fresh) else {
        unreachable!()
    };
    let first = move || -> (Pass<R>, R::Note)
        requires { IsSync W.row × IsSend R.row × IsSend R.Name.row × IsSend R.State.row × IsSend R.Note.row × IsReady lock.now p note ×
            (share_of (view_of p) ≡ rest) × (0 < rest) × (R.amount note + rest * times < 2 ^ 64) }
        ensures { HasWorked lock.entry.now p result.0 result.1 × (R.amount result.1 ≡ R.amount note + rest * times) }
    { work_in_halves(rt, lock, p, note, rest, times) };
    let second = move || -> (Pass<R>, R::Note)
        requires { IsSync W.row × IsSend R.row × IsSend R.Name.row × IsSend R.State.row × IsSend R.Note.row × IsReady lock.now q fresh ×
            (share_of (view_of q) ≡ half) × (0 < half) × (R.amount fresh + half * times < 2 ^ 64) }
        ensures { HasWorked lock.entry.now q result.0 result.1 × (R.amount result.1 ≡ R.amount fresh + half * times) }
    { work_in_halves(rt, lock, q, fresh, half, times) };
    let ((mut p, one), (q, two)) = join(rt, first, second);
    let note = R::together(one, two);
    lock.end(&mut p, q, note);
    (p, note)
}

/// Two workers, of which one rests until the other has given. The last part of the answer is the
/// state in which the one that rested found the lock.
pub fn work_after_another<R: Job + Send, W: Threads + Wait + Sync>(
    rt: &W,
    lock: &Lock<R>,
    p: Pass<R>,
    note: R::Note,
) -> (Pass<R>, R::Note, R::State)
where
    R::Name: Send,
    R::State: Copy + Send,
    R::Note: Copy + Send,
    requires ready { IsReady lock.now p note }
    requires share { 1 < share_of (view_of p) }
    requires room { R.amount note + 2 < 2 ^ 64 }
    ensures pass { HasWorked lock.now p result.0 result.1 }
    ensures amount { R.amount result.1 ≡ R.amount note + 2 }
{
    let (mut p, fresh) = (p, R::fresh());
    let Ok(q) = lock.split(&mut p, 1, note, fresh) else {
        unreachable!()
    };
    let ((q, two), (mut p, one, found)) = join(
        rt,
        move || work(rt, lock, q, fresh, 1),
        move || rest_and_work(rt, lock, p, note),
    );
    let note = R::together(one, two);
    lock.end(&mut p, q, note);
    (p, note, found)
}

/// Rests until another pass has given, and then does one piece of work. It answers the state in which
/// it found the lock too.
fn rest_and_work<R: Job, W: Wait>(
    rt: &W,
    lock: &Lock<R>,
    p: Pass<R>,
    note: R::Note,
) -> (Pass<R>, R::Note, R::State)
where
    R::State: Copy,
    R::Note: Copy,
    requires ready { IsReady lock.now p note }
    requires room { R.amount note + 1 < 2 ^ 64 }
    ensures pass { HasWorked lock.now p result.0 result.1 }
    ensures amount { R.amount result.1 ≡ R.amount note + 1 }
{
    let mut p = p;
    lock.rest(rt, &mut p);
    let Turn { state, taken } = lock.take(rt, &mut p);
    let (next, note) = R::step(state, note);
    lock.give(&mut p, Turn { state: next, taken }, note);
    (p, note, state)
}
