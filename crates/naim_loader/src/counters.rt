//! Peaks and counts, and the one way to an event.
ghost use Rattle.std.specs.Prelude.{◌≡◌, length, IfErr, IfOk, MatchResult};
ghost use Rattle.naim_core.specs.Sound.{IsSound, RecordsApart};
ghost use Rattle.naim_core.specs.Steps.{Follows, NamesWorker, step_of};
ghost use Rattle.naim_loader.specs.Counting.{Refused, Stepped, counted, is_compact_end, is_offload_end, is_reload_end, one_more};

use naim_core::{CoreState, Event, Refusal};

/// What a loader has done so far. A count stops at 2^64 - 1.
#[derive(Clone, Copy, Debug, PartialEq, Eq)]
pub struct Counters {
    /// The most bytes that were charged after an event: those that nobody held, and those that workers held.
    pub charged_peak: u64,
    /// The most bytes that nobody held after an event; they count against the limit.
    pub under_peak: u64,
    /// How many pools were compacted.
    pub compactions: u64,
    /// How many were written to the disk.
    pub offloads: u64,
    /// How many were expanded again.
    pub reloads: u64,
}

impl Counters {
    /// Nothing was done yet.
    pub(crate) const NONE: Counters = Counters {
        charged_peak: 0,
        under_peak: 0,
        compactions: 0,
        offloads: 0,
        reloads: 0,
    };
}

/// One more, where the event is of the kind that is counted.
fn counted_once(count: u64, is_one: bool) -> u64
    ensures { result ≡ one_more is_one count }
{
    if is_one {
        count.saturating_add(1)
    } else {
        count
    }
}

/// Takes the event, or refuses it. An event that is taken is counted.
pub(crate) fn step(
    core: &mut CoreState,
    counters: &mut Counters,
    event: Event,
) -> Result<(), Refusal>
    requires { NamesWorker (length core.old.hands) event }
    ensures means { Follows (step_of core.old event) core.old result core.new }
    ensures counted { MatchResult result (λ _. counters.new ≡ counted event counters.old core.new) (λ _. counters.new ≡ counters.old) }
    ensures sound { IsSound core.new }
    ensures apart { RecordsApart core.new }
    ensures limit { core.new.limit ≡ core.old.limit }
    ensures workers { length core.new.hands ≡ length core.old.hands }
    ensures taken { IfOk result (λ _. Stepped core.old event core.new counters.old counters.new) }
    ensures refused { IfErr result (λ r. Refused core.old event r core.new counters.old counters.new) }
{
    let compacts = matches!(event, Event::CompactEnd { .. });
    let offloads = matches!(event, Event::OffloadEnd { .. });
    let reloads = matches!(event, Event::ReloadEnd { .. });
    let Counters {
        charged_peak,
        under_peak,
        compactions,
        offloads: filed,
        reloads: back,
    } = *counters;
    core.step(event)?;
    *counters = Counters {
        charged_peak: charged_peak.max(core.charged()),
        under_peak: under_peak.max(core.under()),
        compactions: counted_once(compactions, compacts),
        offloads: counted_once(filed, offloads),
        reloads: counted_once(back, reloads),
    };
    Ok(())
}
