//! A list of events.
ghost use Rattle.std.specs.Prelude.{◌≡◌, ◌<◌, ◌≤◌, ◌^◌, IfOk};
ghost use Rattle.naim_core.specs.Runs.{EachNames, state_after, replies_to};
ghost use Rattle.naim_core.specs.Sound.{IsSound};
ghost use Rattle.naim_core.specs.State.{start};

use crate::event::{Event, Refusal};
use crate::state::CoreState;
use std::alloc::{AllocError, Global};

/// The replies to a list of events, taken or refused, from a new state on, and the state after them,
/// which is sound. It takes memory for the state and for the replies alone.
pub fn replay(
    alloc: Global,
    limit: u64,
    workers: u32,
    events: Vec<Event>,
) -> Result<(CoreState, Vec<Result<(), Refusal>>), AllocError>
    requires limit { limit ≤ 2 ^ 30 }
    requires some_worker { 0 < workers }
    requires few_workers { workers ≤ 64 }
    requires named { EachNames workers events.items }
    ensures replies { IfOk result (λ r. r.1.items ≡ replies_to (start limit workers) events.items) }
    ensures state { IfOk result (λ r. r.0 ≡ state_after (start limit workers) events.items) }
    ensures sound { IfOk result (λ r. IsSound r.0) }
{
    let mut state = CoreState::new(alloc, limit, workers)?;
    let mut replies = Vec::new(alloc);
    for event in events {
        let reply = state.step(event);
        replies.push(reply)?;
    }
    Ok((state, replies))
}
