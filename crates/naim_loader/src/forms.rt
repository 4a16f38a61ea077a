//! What is handed in and out: new values, pins and moves, and the answers that carry them.
ghost use Rattle.std.specs.Prelude.{◌≡◌, length, true, IfSome};
ghost use Rattle.std.specs.Arc.{arc_value};
ghost use Rattle.naim_loader.specs.Calls.{disk_of};
ghost use Rattle.naim_loader.specs.Drafts.{draft_value, draft_form, IsDraft};
ghost use Rattle.naim_loader.specs.Forms.{LiesIn};
ghost use Rattle.naim_loader.specs.Moves.{IsPinWith, LiesWith, is_reload, pid_of};

use crate::table::Lying;
use naim_core::Form;
use pool_laws::Poolable;
use repository::Filed;
use std::alloc::Global;
use std::snapshot::Snapshot;
use std::sync::Arc;

/// A new value: whole, or as the bytes of its compact spelling with its charge in bytes. What contracts
/// see as the value of those bytes has no bytes of its own.
#[derive(Drop)]
pub enum Draft<T> {
    Whole(Arc<T, Global>),
    Packed {
        bytes: Vec<u8>,
        charge: u64,
        value: Snapshot<T>,
    },
}

/// The answer to a new value.
#[derive(Drop)]
pub enum Put<T, B> {
    /// It is in.
    Done,
    /// Its form, of so many bytes, doesn't fit now. What was handed in comes back.
    NeedsRoom {
        bytes: u64,
        draft: Draft<T>,
        brief: B,
    },
    /// Its compact spelling, of `need` bytes, is longer than the limit. That is the failure from now on.
    TooSmall {
        pid: u32,
        need: u32,
        limit: u64,
    },
    /// A failure is kept.
    Stopped,
}

/// A body that is read. It must be spent by `unpin_read`.
pub struct ReadPin<T> {
    pub pid: u32,
    pub body: Arc<T, Global>,
}

/// A body in whose place a new value is to come. It must be spent by `unpin_write`.
pub struct WritePin<T> {
    pub pid: u32,
    pub body: Arc<T, Global>,
}

/// A pin of either kind.
pub enum Pin<T> {
    Read(ReadPin<T>),
    Write(WritePin<T>),
}

/// A pool on its way between two forms. It must be spent by the call that ends it, or by `fail`.
pub enum Move<T, D> {
    /// The body is to be spelled compactly.
    Compacting {
        pid: u32,
        body: Arc<T, Global>,
    },
    /// The bytes are to be filed at the place.
    Offloading {
        pid: u32,
        place: u64,
        bytes: Vec<u8>,
        disk: D,
    },
    /// The bytes are to be read as a body.
    FromBytes {
        pid: u32,
        bytes: Vec<u8>,
    },
    /// The record is to be fetched and read as a body of that charge.
    FromDisk {
        pid: u32,
        filed: Filed,
        charge: u64,
        disk: D,
    },
}

/// The answer to a pin that is wanted.
pub enum PinAnswer<T, D> {
    /// Here it is.
    Ready(Pin<T>),
    /// The pool is away: the worker is to bring it back, by `reload_end`, which gives the pin.
    Reload(Move<T, D>),
    /// The pool is on its way between two forms.
    Moving,
    /// Another pin stands against it.
    InUse,
    /// The pool lies on the disk, which a worker has.
    DiskOut,
    /// A failure is kept.
    Stopped,
    /// Memory is wanting to share the body.
    Memory,
}

/// The answer to a wish for room.
pub enum Evict<T, D> {
    /// The worker is to bring this pool into its next form.
    Begun(Move<T, D>),
    /// The bytes wanted fit.
    Fits,
    /// They don't, and no pool is free.
    NoVictim,
    /// They don't, and the pool that is to go next is compacted, but a worker has the disk.
    DiskOut,
    /// A failure is kept.
    Stopped,
}

impl<T: Poolable> Draft<T> {
    /// Whole or compacted.
    pub(crate) fn form(&self) -> Form
        ensures { result ≡ draft_form self.now }
    {
        match self {
            Draft::Whole(_) => Form::Expanded,
            Draft::Packed { .. } => Form::Compacted,
        }
    }

    /// The value's charge in bytes.
    pub(crate) fn charge(&self) -> u64
        requires { IsDraft T.charge_of T.encoding T.is_value self.now }
        ensures { result ≡ T.charge_of (draft_value self.now) }
    {
        match self {
            Draft::Whole(body) => body.charge(),
            Draft::Packed { charge, .. } => *charge,
        }
    }

    /// The length of the value's compact spelling in bytes.
    pub(crate) fn compact_len(&self) -> u32
        requires { IsDraft T.charge_of T.encoding T.is_value self.now }
        ensures len { result ≡ length (T.encoding (draft_value self.now)) }
        ensures value { T.is_value (draft_value self.now) }
    {
        match self {
            Draft::Whole(body) => body.compact_len(),
            Draft::Packed { bytes, .. } => bytes.len() as u32,
        }
    }

    /// The form in which it is to lie, and the value for contracts.
    pub(crate) fn into_parts(self) -> (Lying<T>, Snapshot<T>)
        requires { IsDraft T.charge_of T.encoding T.is_value self }
        ensures body { LiesIn T.encoding (draft_form self) result.0 (draft_value self) }
        ensures value { result.1.value ≡ draft_value self }
    {
        match self {
            Draft::Whole(body) => {
                let value = Snapshot::of(&*body);
                (Lying::Whole(body), value)
            }
            Draft::Packed { bytes, value, .. } => (Lying::Packed(bytes), value),
        }
    }
}

impl<T: Drop, D> Move<T, D> {
    /// The pool that is reloaded, and the disk where it came from there.
    pub(crate) fn into_reload(self) -> (u32, Option<D>)
        requires { is_reload self ≡ true }
        ensures pid { result.0 ≡ pid_of self }
        ensures disk { result.1 ≡ disk_of self }
    {
        match self {
            Move::FromBytes { pid, bytes: _ } => (pid, None),
            Move::FromDisk {
                pid,
                filed: _,
                charge: _,
                disk,
            } => (pid, Some(disk)),
            _ => unreachable!(),
        }
    }
}

/// A body that was reloaded: how it lies in the pool, and the pin that has it or a second share.
pub(crate) fn spread<T>(
    pid: u32,
    body: Arc<T, Global>,
    again: Option<Arc<T, Global>>,
) -> (Lying<T>, Pin<T>)
    requires { IfSome again (λ a. arc_value a ≡ arc_value body) }
    ensures lies { LiesWith again result.0 (arc_value body) }
    ensures pin { IsPinWith again pid (arc_value body) result.1 }
{
    match again {
        Some(again) => {
            let pin = ReadPin { pid, body: again };
            (Lying::Whole(body), Pin::Read(pin))
        }
        None => (Lying::Out, Pin::Write(WritePin { pid, body })),
    }
}
