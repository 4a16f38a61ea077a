//! Whether a pool and a hand allow an event, and the pool that the event leaves.
ghost use Rattle.std.specs.Prelude.{◌≡◌, ◌+◌, ◌<◌, ◌≤◌, ◌^◌, if◌then◌else◌, Some, None};
ghost use Rattle.naim_core.specs.Charges.{room_of};
ghost use Rattle.naim_core.specs.Rows;
ghost use Rattle.naim_core.specs.Rows.{free_in};
ghost use Rattle.naim_core.specs.Sound.{IsFitStage};
ghost use Rattle.naim_core.specs.State.{is_offloaded, moves_by_disk, readers_at};
ghost use Rattle.naim_core.specs.Steps.{permit};

use crate::event::{Form, Mode, Refusal};
use crate::pool::{Pool, Stage};
use crate::state::Hand;

/// The largest charge of a body, 2^40 bytes.
const MAX_CHARGE: u64 = 1 << 40;

/// The largest room of a writer, 2^41 bytes.
const MAX_ROOM: u64 = 1 << 41;

impl Mode {
    /// The room that it states.
    fn room(self) -> u64
        ensures { result ≡ room_of self }
    {
        match self {
            Mode::Read => 0,
            Mode::Write { room } => room,
        }
    }
}

impl Form {
    /// Free in the form.
    fn free(self) -> Stage
        ensures { result ≡ free_in self }
    {
        match self {
            Form::Expanded => Stage::Free,
            Form::Compacted => Stage::Compacted,
        }
    }
}

/// Whether the form fits beside `under` bytes.
pub(crate) fn fit(limit: u64, under: u64, form: Form, e: u64, c: u32) -> Result<(), Refusal>
    requires { under ≤ limit }
    ensures { result ≡ permit (Rows.fit_row limit under form e c) tt }
{
    match form {
        Form::Expanded => {
            if limit - under < e {
                return Err(Refusal::NeedsRoom(e));
            }
        }
        Form::Compacted => {
            if limit < u64::from(c) {
                return Err(Refusal::TooSmall(c));
            }
            if limit - under < u64::from(c) {
                return Err(Refusal::NeedsRoom(u64::from(c)));
            }
        }
    }
    Ok(())
}

/// One more reader.
pub(crate) fn pin_read(pool: Pool, hand: Hand) -> Result<Pool, Refusal>
    requires { readers_at pool.stage < 2 ^ 31 }
    ensures { result ≡ permit (Rows.pin_read_row pool hand) (record pool { stage = Rows.with_reader pool.stage }) }
{
    if hand.read.is_some() {
        return Err(Refusal::HandFull);
    }
    let readers = match pool.stage {
        Stage::Free => 1,
        Stage::Read { readers } => readers + 1,
        Stage::Written { .. } => return Err(Refusal::InUse),
        Stage::Compacted | Stage::Offloaded => return Err(Refusal::WrongForm),
        Stage::Compacting | Stage::Offloading | Stage::Reloading { .. } => {
            return Err(Refusal::Moving);
        }
    };
    Ok(Pool {
        stage: Stage::Read { readers },
        ..pool
    })
}

/// A writer; in a wave the pool has to be the worker's task.
pub(crate) fn pin_write(
    pool: Pool,
    hand: Hand,
    in_wave: bool,
    pid: u32,
    room: u64,
) -> Result<Pool, Refusal>
    ensures { result ≡ permit (Rows.pin_write_row pool hand in_wave pid room) (record pool { stage = Stage.Written room }) }
{
    if hand.written.is_some() {
        return Err(Refusal::HandFull);
    }
    if in_wave && hand.task != Some(pid) {
        return Err(Refusal::NoTask);
    }
    match pool.stage {
        Stage::Free => {}
        Stage::Read { .. } | Stage::Written { .. } => return Err(Refusal::InUse),
        Stage::Compacted | Stage::Offloaded => return Err(Refusal::WrongForm),
        Stage::Compacting | Stage::Offloading | Stage::Reloading { .. } => {
            return Err(Refusal::Moving);
        }
    }
    if room > MAX_ROOM {
        return Err(Refusal::BadSize);
    }
    Ok(Pool {
        stage: Stage::Written { room },
        ..pool
    })
}

/// The begin of a reload, for a reader or a writer.
pub(crate) fn reload_begin(
    pool: Pool,
    hand: Hand,
    in_wave: bool,
    pid: u32,
    mode: Mode,
    disk: Option<u32>,
) -> Result<Pool, Refusal>
    ensures { result ≡ permit (Rows.reload_begin_row pool hand in_wave pid mode disk) (record pool { stage = Stage.Reloading mode (is_offloaded pool.stage) }) }
{
    let (pin, writes) = match mode {
        Mode::Read => (hand.read, false),
        Mode::Write { .. } => (hand.written, true),
    };
    if hand.moved.is_some() || pin.is_some() {
        return Err(Refusal::HandFull);
    }
    if writes && in_wave && hand.task != Some(pid) {
        return Err(Refusal::NoTask);
    }
    let from_disk = match pool.stage {
        Stage::Compacted => false,
        Stage::Offloaded => true,
        Stage::Free | Stage::Read { .. } | Stage::Written { .. } => return Err(Refusal::WrongForm),
        Stage::Compacting | Stage::Offloading | Stage::Reloading { .. } => {
            return Err(Refusal::Moving);
        }
    };
    if from_disk && disk.is_some() {
        return Err(Refusal::DiskOut);
    }
    if mode.room() > MAX_ROOM {
        return Err(Refusal::BadSize);
    }
    Ok(Pool {
        stage: Stage::Reloading { mode, from_disk },
        ..pool
    })
}

/// The end of a reload: pinned as it was meant.
pub(crate) fn reload_end(pool: Pool, hand: Hand, pid: u32) -> Result<Pool, Refusal>
    ensures { result ≡ permit (Rows.reload_end_row pool hand pid) (record pool { stage = Rows.reloaded pool.stage }) }
{
    if hand.moved != Some(pid) {
        return Err(Refusal::NotHeld);
    }
    let Stage::Reloading { mode, .. } = pool.stage else {
        return Err(Refusal::NotHeld);
    };
    let stage = match mode {
        Mode::Read => Stage::Read { readers: 1 },
        Mode::Write { room } => Stage::Written { room },
    };
    Ok(Pool { stage, ..pool })
}

/// One reader less; the last leaves the pool in the form.
pub(crate) fn unpin_read(
    limit: u64,
    under: u64,
    pool: Pool,
    hand: Hand,
    pid: u32,
    form: Form,
) -> Result<Pool, Refusal>
    requires fits { under ≤ limit }
    requires read { IsFitStage pool.stage }
    ensures { result ≡ permit (Rows.unpin_read_row limit under pool hand pid form) (record pool { stage = Rows.without_reader form pool.stage }) }
{
    if hand.read != Some(pid) {
        return Err(Refusal::NotHeld);
    }
    let Stage::Read { readers } = pool.stage else {
        return Err(Refusal::NotHeld);
    };
    if readers > 1 {
        return Ok(Pool {
            stage: Stage::Read {
                readers: readers - 1,
            },
            ..pool
        });
    }
    fit(limit, under, form, pool.e, pool.c)?;
    Ok(Pool {
        stage: form.free(),
        ..pool
    })
}

/// A new value of charge `e` and compact length `c`, free in the form.
pub(crate) fn unpin_write(
    limit: u64,
    under: u64,
    pool: Pool,
    hand: Hand,
    pid: u32,
    form: Form,
    e: u64,
    c: u32,
) -> Result<Pool, Refusal>
    requires { under ≤ limit }
    ensures { result ≡ permit (Rows.unpin_write_row limit under pool hand pid form e c) (Rows.inserted form e c) }
{
    if hand.written != Some(pid) {
        return Err(Refusal::NotHeld);
    }
    let Stage::Written { room } = pool.stage else {
        return Err(Refusal::NotHeld);
    };
    if e < u64::from(c) || e > MAX_CHARGE || room < e + u64::from(c) {
        return Err(Refusal::BadSize);
    }
    fit(limit, under, form, e, c)?;
    Ok(Pool {
        stage: form.free(),
        e,
        c,
    })
}

/// The begin of a compaction of the victim.
pub(crate) fn compact_begin(
    limit: u64,
    under: u64,
    victim: Option<u32>,
    pool: Pool,
    hand: Hand,
    pid: u32,
    wanted: u64,
) -> Result<Pool, Refusal>
    requires { under ≤ limit }
    ensures { result ≡ permit (Rows.compact_begin_row limit under victim pool hand pid wanted) (record pool { stage = Stage.Compacting }) }
{
    if hand.moved.is_some() {
        return Err(Refusal::HandFull);
    }
    if pool.stage.is_moving() {
        return Err(Refusal::Moving);
    }
    if pool.stage.is_away() {
        return Err(Refusal::WrongForm);
    }
    if wanted <= limit - under {
        return Err(Refusal::Fits);
    }
    if victim != Some(pid) {
        return Err(Refusal::NotVictim);
    }
    Ok(Pool {
        stage: Stage::Compacting,
        ..pool
    })
}

/// The end of a compaction.
pub(crate) fn compact_end(pool: Pool, hand: Hand, pid: u32) -> Result<Pool, Refusal>
    ensures { result ≡ permit (Rows.compact_end_row pool hand pid) (record pool { stage = Stage.Compacted }) }
{
    if hand.moved != Some(pid) || !matches!(pool.stage, Stage::Compacting) {
        return Err(Refusal::NotHeld);
    }
    Ok(Pool {
        stage: Stage::Compacted,
        ..pool
    })
}

/// The begin of an offload of the victim.
pub(crate) fn offload_begin(
    limit: u64,
    under: u64,
    victim: Option<u32>,
    pool: Pool,
    hand: Hand,
    pid: u32,
    wanted: u64,
    disk: Option<u32>,
) -> Result<Pool, Refusal>
    requires { under ≤ limit }
    ensures { result ≡ permit (Rows.offload_begin_row limit under victim pool hand pid wanted disk) (record pool { stage = Stage.Offloading }) }
{
    if hand.moved.is_some() {
        return Err(Refusal::HandFull);
    }
    if pool.stage.is_moving() {
        return Err(Refusal::Moving);
    }
    if pool.stage.is_expanded() || pool.stage.is_offloaded() {
        return Err(Refusal::WrongForm);
    }
    if disk.is_some() {
        return Err(Refusal::DiskOut);
    }
    if limit - under >= wanted {
        return Err(Refusal::Fits);
    }
    if Some(pid) != victim {
        return Err(Refusal::NotVictim);
    }
    Ok(Pool {
        stage: Stage::Offloading,
        ..pool
    })
}

/// The end of an offload.
pub(crate) fn offload_end(pool: Pool, hand: Hand, pid: u32) -> Result<Pool, Refusal>
    ensures { result ≡ permit (Rows.offload_end_row pool hand pid) (record pool { stage = Stage.Offloaded }) }
{
    if hand.moved != Some(pid) || !matches!(pool.stage, Stage::Offloading) {
        return Err(Refusal::NotHeld);
    }
    Ok(Pool {
        stage: Stage::Offloaded,
        ..pool
    })
}

/// A new pool, where none with its PID is there and `used` pools are.
pub(crate) fn insert(
    limit: u64,
    under: u64,
    present: bool,
    used: u32,
    form: Form,
    e: u64,
    c: u32,
) -> Result<Pool, Refusal>
    requires { under ≤ limit }
    ensures { result ≡ permit (Rows.insert_row limit under present used form e c) (Rows.inserted form e c) }
{
    if present {
        return Err(Refusal::Present);
    }
    if used >= 4096 {
        return Err(Refusal::Full);
    }
    if e < u64::from(c) || e > MAX_CHARGE {
        return Err(Refusal::BadSize);
    }
    fit(limit, under, form, e, c)?;
    Ok(Pool {
        stage: form.free(),
        e,
        c,
    })
}

/// Who has the disk once the worker reloads a pool at this stage.
pub(crate) fn lent(stage: Stage, worker: u32, disk: Option<u32>) -> Option<u32>
    ensures { result ≡ (if is_offloaded stage then Some worker else disk) }
{
    if stage.is_offloaded() {
        Some(worker)
    } else {
        disk
    }
}

/// Who has the disk once the reload of a pool at this stage has ended.
pub(crate) fn returned(stage: Stage, disk: Option<u32>) -> Option<u32>
    ensures { result ≡ (if moves_by_disk stage then None else disk) }
{
    if stage.moves_by_disk() { None } else { disk }
}
