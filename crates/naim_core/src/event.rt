//! The events, and why one is refused.
ghost use Rattle.std.specs.Prelude.{◌≡◌};
ghost use Rattle.naim_core.specs.Steps.{is_fail};

use hlo_num::Seq;
use thiserror::Error;

/// The form in which a free pool lies in memory.
#[derive(Clone, Copy, Debug, PartialEq, Eq)]
pub enum Form {
    Expanded,
    Compacted,
}

/// What a pool is pinned or reloaded for. A write states how many bytes the new value may take.
#[derive(Clone, Copy, Debug, PartialEq, Eq)]
pub enum Mode {
    Read,
    Write { room: u64 },
}

/// An event of the paging core. `e` is a body's charge and `c` the length of its compact spelling, both
/// in bytes; `wanted` is how many bytes the worker is about to place.
#[derive(Debug, Drop)]
pub enum Event {
    /// A new pool, free in the form.
    Insert {
        pid: u32,
        form: Form,
        e: u64,
        c: u32,
    },
    /// A pool goes.
    Remove {
        pid: u32,
    },
    /// A wave begins with these tasks.
    BeginWave {
        tasks: Seq<u32>,
    },
    /// The wave ends.
    EndWave,
    /// The worker takes the first task that nobody claimed.
    Claim {
        worker: u32,
    },
    /// The worker reads a body.
    PinRead {
        worker: u32,
        pid: u32,
    },
    /// The worker writes a body, whose new value takes at most `room` bytes.
    PinWrite {
        worker: u32,
        pid: u32,
        room: u64,
    },
    /// The worker begins to expand a pool, from its compact bytes or from the disk.
    ReloadBegin {
        worker: u32,
        pid: u32,
        mode: Mode,
    },
    /// The pool is expanded and pinned by the worker.
    ReloadEnd {
        worker: u32,
        pid: u32,
    },
    /// The worker reads no longer. The last reader leaves the pool in the form.
    UnpinRead {
        worker: u32,
        pid: u32,
        form: Form,
    },
    /// The worker has written a new value, which it leaves in the form.
    UnpinWrite {
        worker: u32,
        pid: u32,
        form: Form,
        e: u64,
        c: u32,
    },
    /// The worker begins to compact the victim.
    CompactBegin {
        worker: u32,
        pid: u32,
        wanted: u64,
    },
    /// The pool is compacted.
    CompactEnd {
        worker: u32,
        pid: u32,
    },
    /// The worker begins to write the victim to the disk.
    OffloadBegin {
        worker: u32,
        pid: u32,
        wanted: u64,
    },
    /// The pool lies on the disk alone.
    OffloadEnd {
        worker: u32,
        pid: u32,
    },
    /// The worker tells a failure. The first one is kept, and no event but `Fail` follows.
    Fail {
        worker: u32,
        failure: Failure,
    },
}

impl Event {
    /// Whether it tells a failure.
    pub(crate) fn is_fail(&self) -> bool
        ensures { result ≡ is_fail self.now }
    {
        matches!(self, Event::Fail { .. })
    }
}

/// Why an event is refused, in the order in which the parts of its row are tested.
#[derive(Clone, Copy, Debug, Drop, PartialEq, Eq, Error)]
pub enum Refusal {
    /// A failure is kept.
    #[error("a failure is kept")]
    Stopped,
    /// The pool, or some task's pool, is not there.
    #[error("there is no such pool")]
    Absent,
    /// The pool is there already, or a task stands twice.
    #[error("the pool is there already, or a task stands twice")]
    Present,
    /// The worker does not hold the pool in that way.
    #[error("the worker does not hold the pool in that way")]
    NotHeld,
    /// The worker's hand lacks a free place that the event needs.
    #[error("no place is free in the worker's hand")]
    HandFull,
    /// No task is unclaimed, no wave is open, or the pool is not the worker's task.
    #[error("there is no such task")]
    NoTask,
    /// The pool is on its way between two forms.
    #[error("the pool is on its way between two forms")]
    Moving,
    /// The pool has a form that the event does not take.
    #[error("the pool has another form")]
    WrongForm,
    /// A pin, a wave, a full hand or a task that is not done stands against it.
    #[error("a pin, a wave, a full hand or an open task stands against it")]
    InUse,
    /// A worker has the disk.
    #[error("a worker has the disk")]
    DiskOut,
    /// The bytes wanted fit without a move.
    #[error("the bytes fit without a move")]
    Fits,
    /// Another pool is to go first.
    #[error("another pool is to go first")]
    NotVictim,
    /// 4,096 pools are there.
    #[error("4,096 pools are there")]
    Full,
    /// A number is outside its range.
    #[error("a number is outside its range")]
    BadSize,
    /// The compact form, of so many bytes, is longer than the limit.
    #[error("a compact form of {0} bytes is above the limit")]
    TooSmall(u32),
    /// The form, of so many bytes, does not fit now.
    #[error("a form of {0} bytes does not fit now")]
    NeedsRoom(u64),
}

/// A failure that stops the events.
#[derive(Clone, Copy, Debug, Drop, PartialEq, Eq, Error)]
pub enum Failure {
    /// The disk failed.
    #[error("the disk failed")]
    Repository,
    /// A record has other bytes than those filed: their SHA-256 and the one kept differ.
    #[error("the record at {place} has other bytes than those filed")]
    Damaged {
        place: u64,
        kept: [u8; 32],
        found: [u8; 32],
    },
    /// A record's bytes spell no body.
    #[error("the record at {place} spells no body")]
    Unreadable {
        place: u64,
    },
    /// A body is not fit for the job.
    #[error("the body of pool {pid} does not fit the job")]
    Unfit {
        pid: u32,
    },
    /// A compact form is longer than the limit.
    #[error("the compact form of pool {pid}, of {need} bytes, is above the limit of {limit}")]
    TooSmall {
        pid: u32,
        need: u32,
        limit: u64,
    },
    /// Memory was wanting.
    #[error("out of memory")]
    Memory,
}
