//! The calls of two workers over one loader. A worker ends its move before the other one goes on, and an answer that isn't
//! awaited ends the test.
ghost use Rattle.std.specs.Prelude.{◌≡◌, ◌<◌, ◌≤◌, ◌+◌, ◌*◌, [], ◌∷◌, ℕ, length, true, false, None, Some, IsSome};
ghost use Rattle.std.specs.Arc.{arc_value};
ghost use Rattle.std.specs.declared.alloc.Global.{Global as GlobalData};
ghost use Rattle.std.specs.declared.sync.Arc.{Arc as ArcData};
ghost use Rattle.naim_core.specs.State.{empty_hand, holds, pool_at};
ghost use Rattle.naim_core.specs.declared.pool.Pool.{Pool as PoolData};
ghost use Rattle.naim_core.specs.declared.event.Mode.TheVariants as mode;
ghost use Rattle.naim_core.specs.declared.pool.Stage.TheVariants as stage;
ghost use Rattle.naim_loader.specs.Calls.{ComesBack, disk_of};
ghost use Rattle.naim_loader.specs.Contents.{StandsFor};
ghost use Rattle.naim_loader.specs.Drafts.{IsDraft};
ghost use Rattle.naim_loader.specs.Moves.{EndsReload, pid_of};
ghost use Rattle.naim_loader.specs.Paged.{content_at, kept_at};
ghost use Rattle.paging_rows.specs.Pairs.{HasBody, HoldsWrite, InWave, Moves, Stands, pool_of, tasked, tasked_writer};
ghost use Rattle.repository.specs.Filing.{record_of};

use naim_loader::{Draft, Evict, Loader, Move, Pin, PinAnswer, Put, ReadPin, WritePin};
use outside::Disk;
use pool_laws::Poolable;
use repository::{Filed, fetch, file};
use std::alloc::Global;
use std::process::Abort;
use std::sync::Arc;

/// The pools of a script: each has a number as its brief.
pub(crate) type Pools<T, D> = Loader<T, u32, D>;

/// At any moment the loader stands for its contents.
pub(crate) fn stands<T: Poolable + Drop, D: Disk + Drop>(pools: &Pools<T, D>)
    ensures { StandsFor T.charge_of T.encoding T.is_value D.bytes D.reach D.honest pools.now }
{
    let _ = pools.failure();
}

/// Puts a pool in; whether there was room.
pub(crate) fn put<T: Poolable + Drop, D: Disk + Drop>(
    rt: &impl Abort,
    pools: &mut Pools<T, D>,
    pid: u32,
    draft: Draft<T>,
    brief: u32,
    first: &Option<ReadPin<T>>,
    second: &Option<ReadPin<T>>,
) -> bool
    requires stands { Stands pools.old 0 first.now second.now }
    requires absent { kept_at pools.old pid ≡ None }
    requires below { pid < 131072 }
    requires room { length pools.old.core.pools < 4096 }
    requires draft { IsDraft T.charge_of T.encoding T.is_value draft }
    ensures { Stands pools.new 0 first.now second.now }
{
    match pools.insert(pid, draft, brief) {
        Put::Done => return true,
        Put::NeedsRoom {
            bytes: _,
            draft: _,
            brief: _,
        } => return false,
        _ => panic!(rt; "not put"),
    }
}

/// Ends a compaction.
fn compact<T: Poolable + Drop, D: Disk + Drop>(
    rt: &impl Abort,
    alloc: Global,
    pools: &mut Pools<T, D>,
    worker: u32,
    pid: u32,
    body: Arc<T, Global>,
    mine: &Option<ReadPin<T>>,
    other: &Option<ReadPin<T>>,
)
    requires worker { worker < 2 }
    requires moves { Moves pools.old worker mine.now other.now (pool_of mine.now) pid false (λ st. st ≡ stage.Compacting) }
    requires content { content_at pools.old pid ≡ Some (arc_value body) }
    ensures { Stands pools.new worker mine.now other.now }
{
    let Ok(bytes) = body.encode(alloc) else {
        panic!(rt; "no memory")
    };
    pools.compact_end(worker, Move::Compacting { pid, body }, bytes);
}

/// Ends an offload.
fn offload<T: Poolable + Drop, D: Disk + Drop>(
    rt: &impl Abort,
    pools: &mut Pools<T, D>,
    worker: u32,
    pid: u32,
    place: u64,
    bytes: Vec<u8>,
    disk: D,
    mine: &Option<ReadPin<T>>,
    other: &Option<ReadPin<T>>,
)
    requires lies { (d : D) → D.honest d ≡ false }
    requires worker { worker < 2 }
    requires moves { Moves pools.old worker mine.now other.now (pool_of mine.now) pid true (λ st. st ≡ stage.Offloading) }
    requires place { place ≡ pid * pools.old.core.limit }
    requires content { (k : T) × (content_at pools.old pid ≡ Some k) × (bytes.items ≡ T.encoding k) }
    ensures { Stands pools.new worker mine.now other.now }
{
    let mut disk = disk;
    if bytes.len() > 4096 || place > 1_000_000 {
        panic!(rt; "a long spelling");
    }
    let Ok(filed) = file(&mut disk, place, bytes.as_slice()) else {
        panic!(rt; "not filed")
    };
    let m = Move::Offloading {
        pid,
        place,
        bytes,
        disk,
    };
    pools.offload_end(worker, m, filed);
}

/// Makes room by one step; whether the bytes fitted before.
pub(crate) fn evict<T: Poolable + Drop, D: Disk + Drop>(
    rt: &impl Abort,
    alloc: Global,
    pools: &mut Pools<T, D>,
    worker: u32,
    wanted: u64,
    mine: &Option<ReadPin<T>>,
    other: &Option<ReadPin<T>>,
) -> bool
    requires lies { (d : D) → D.honest d ≡ false }
    requires worker { worker < 2 }
    requires stands { Stands pools.old worker mine.now other.now }
    requires wanted { wanted ≤ pools.old.core.limit }
    ensures { Stands pools.new worker mine.now other.now }
{
    stands(pools);
    match pools.evict_begin(worker, wanted) {
        Evict::Fits => true,
        Evict::Begun(Move::Compacting { pid, body }) => {
            compact(rt, alloc, pools, worker, pid, body, mine, other);
            false
        }
        Evict::Begun(
            Move::Offloading {
                pid,
                place,
                bytes,
                disk,
            },
        ) => {
            offload(rt, pools, worker, pid, place, bytes, disk, mine, other);
            false
        }
        _ => panic!(rt; "no victim"),
    }
}

/// Reads a pool, which is brought back first where it is away.
pub(crate) fn read<T: Poolable + Drop, D: Disk + Drop>(
    rt: &impl Abort,
    alloc: Global,
    pools: &mut Pools<T, D>,
    worker: u32,
    pid: u32,
    other: &Option<ReadPin<T>>,
) -> ReadPin<T>
    requires lies { (d : D) → D.honest d ≡ false }
    requires worker { worker < 2 }
    requires stands { Stands pools.old worker None other.now }
    requires present { IsSome (kept_at pools.old pid) }
    ensures { Stands pools.new worker (Some result) other.now }
{
    stands(pools);
    match pools.pin_read(worker, pid) {
        PinAnswer::Ready(Pin::Read(pin)) => pin,
        PinAnswer::Reload(Move::FromBytes { pid, bytes }) => {
            unpack(rt, alloc, pools, worker, pid, bytes, other)
        }
        PinAnswer::Reload(
            Move::FromDisk {
                pid,
                filed,
                charge,
                disk,
            },
        ) => restore(rt, alloc, pools, worker, pid, filed, charge, disk, other),
        _ => panic!(rt; "no pin"),
    }
}

/// Brings a pool back from its spelling in memory.
fn unpack<T: Poolable + Drop, D: Disk + Drop>(
    rt: &impl Abort,
    alloc: Global,
    pools: &mut Pools<T, D>,
    worker: u32,
    pid: u32,
    bytes: Vec<u8>,
    other: &Option<ReadPin<T>>,
) -> ReadPin<T>
    requires lies { (d : D) → D.honest d ≡ false }
    requires worker { worker < 2 }
    requires moves { Moves pools.old worker None other.now (Some pid) pid false (λ st. st ≡ stage.Reloading mode.Read false) }
    requires content { (k : T) × (content_at pools.old pid ≡ Some k) × (bytes.items ≡ T.encoding k) }
    ensures { Stands pools.new worker (Some result) other.now }
{
    match T::decode(alloc, bytes.as_slice()) {
        Ok(Some(body)) => finish(
            rt,
            alloc,
            pools,
            worker,
            Move::FromBytes { pid, bytes },
            false,
            body,
            other,
        ),
        _ => panic!(rt; "no body"),
    }
}

/// Brings a pool back from the disk.
fn restore<T: Poolable + Drop, D: Disk + Drop>(
    rt: &impl Abort,
    alloc: Global,
    pools: &mut Pools<T, D>,
    worker: u32,
    pid: u32,
    filed: Filed,
    charge: u64,
    disk: D,
    other: &Option<ReadPin<T>>,
) -> ReadPin<T>
    requires lies { (d : D) → D.honest d ≡ false }
    requires worker { worker < 2 }
    requires moves { Moves pools.old worker None other.now (Some pid) pid true (λ st. st ≡ stage.Reloading mode.Read true) }
    requires content { (k : T) × (content_at pools.old pid ≡ Some k) × (filed ≡ record_of (pid * pools.old.core.limit) (T.encoding k)) ×
        (charge ≡ T.charge_of k) }
    ensures { Stands pools.new worker (Some result) other.now }
{
    let mut disk = disk;
    if filed.place > 1_000_000 {
        panic!(rt; "a far place");
    }
    let Ok(bytes) = fetch(alloc, &mut disk, &filed) else {
        panic!(rt; "not fetched")
    };
    match T::decode(alloc, bytes.as_slice()) {
        Ok(Some(body)) => {
            if body.charge() != charge {
                panic!(rt; "another charge");
            }
            let m = Move::FromDisk {
                pid,
                filed,
                charge,
                disk,
            };
            finish(rt, alloc, pools, worker, m, true, body, other)
        }
        _ => panic!(rt; "no body"),
    }
}

/// Ends a reload for reading with that body.
fn finish<T: Poolable + Drop, D: Disk + Drop>(
    rt: &impl Abort,
    alloc: Global,
    pools: &mut Pools<T, D>,
    worker: u32,
    m: Move<T, D>,
    by_disk: bool,
    body: T,
    other: &Option<ReadPin<T>>,
) -> ReadPin<T>
    requires lies { (d : D) → D.honest d ≡ false }
    requires worker { worker < 2 }
    requires moves { Moves pools.old worker None other.now (Some (pid_of m)) (pid_of m) by_disk (λ st. st ≡ stage.Reloading mode.Read by_disk) }
    requires ends { (again : ArcData T GlobalData) → EndsReload T.charge_of T.encoding D.bytes D.reach D.honest pools.old worker m body (Some again) }
    requires value { T.is_value body }
    requires back { ComesBack D.reach D.honest pools.old (disk_of m) }
    ensures { Stands pools.new worker (Some result) other.now }
{
    let Ok(body) = Arc::new(alloc, body) else {
        panic!(rt; "no memory")
    };
    let Ok(again) = Arc::try_clone(&body) else {
        panic!(rt; "no memory")
    };
    match pools.reload_end(worker, m, body, Some(again)) {
        PinAnswer::Ready(Pin::Read(pin)) => pin,
        _ => panic!(rt; "not ended"),
    }
}

/// Gives a body back, whole or packed; the pin where there is no room for it.
pub(crate) fn give_back<T: Poolable + Drop, D: Disk + Drop>(
    rt: &impl Abort,
    alloc: Global,
    pools: &mut Pools<T, D>,
    worker: u32,
    pin: ReadPin<T>,
    is_packed: bool,
    other: &Option<ReadPin<T>>,
) -> Option<ReadPin<T>>
    requires worker { worker < 2 }
    requires stands { Stands pools.old worker (Some pin) other.now }
    ensures { Stands pools.new worker result other.now }
{
    stands(pools);
    let packed = if is_packed {
        Some(pin.body.encode(alloc).expect(rt, "memory"))
    } else {
        None
    };
    match pools.unpin_read(worker, pin, packed) {
        Ok(()) => None,
        Err((pin, _)) => Some(pin),
    }
}

/// Removes a pool that neither worker reads.
pub(crate) fn remove<T: Poolable + Drop, D: Disk + Drop>(
    pools: &mut Pools<T, D>,
    pid: u32,
    first: &Option<ReadPin<T>>,
    second: &Option<ReadPin<T>>,
)
    requires stands { Stands pools.old 0 first.now second.now }
    requires present { IsSome (kept_at pools.old pid) }
    requires first { holds (pool_of first.now) pid ≡ false }
    requires second { holds (pool_of second.now) pid ≡ false }
    ensures { Stands pools.new 0 first.now second.now }
{
    stands(pools);
    pools.remove(pid);
}

/// Writes a pool that lies whole; whether nobody reads it.
pub(crate) fn write<T: Poolable + Drop, D: Disk + Drop>(
    rt: &impl Abort,
    alloc: Global,
    pools: &mut Pools<T, D>,
    worker: u32,
    pid: u32,
    body: T,
    brief: u32,
    other: &Option<ReadPin<T>>,
) -> bool
    requires worker { worker < 2 }
    requires stands { Stands pools.old worker None other.now }
    requires present { IsSome (kept_at pools.old pid) }
    ensures { Stands pools.new worker None other.now }
{
    stands(pools);
    let charge = body.charge();
    if charge > 1000 {
        panic!(rt; "a great charge");
    }
    let room = charge + u64::from(body.compact_len());
    let Ok(body) = Arc::new(alloc, body) else {
        panic!(rt; "no memory")
    };
    match pools.pin_write(worker, pid, room) {
        PinAnswer::Ready(Pin::Write(pin)) => {
            end_write(rt, pools, worker, pin, body, room, brief, other);
            return true;
        }
        PinAnswer::InUse => return false,
        _ => panic!(rt; "not pinned"),
    }
}

/// Ends a pin for writing within that room.
fn end_write<T: Poolable + Drop, D: Disk + Drop>(
    rt: &impl Abort,
    pools: &mut Pools<T, D>,
    worker: u32,
    pin: WritePin<T>,
    body: Arc<T, Global>,
    room: u64,
    brief: u32,
    other: &Option<ReadPin<T>>,
)
    requires worker { worker < 2 }
    requires writes { HoldsWrite pools.old worker other.now pin.pid room }
    requires fits { T.charge_of (arc_value body) + length (T.encoding (arc_value body)) ≤ room }
    ensures { Stands pools.new worker None other.now }
{
    let _room = room;
    match pools.unpin_write(worker, pin, Draft::Whole(body), brief) {
        Ok(Put::Done) => return,
        _ => panic!(rt; "not written"),
    }
}

/// A worker writes a pool that lies whole as the one task of a wave; the other worker has no pin.
pub(crate) fn wave<T: Poolable + Drop, D: Disk + Drop>(
    rt: &impl Abort,
    alloc: Global,
    pools: &mut Pools<T, D>,
    worker: u32,
    pid: u32,
    body: T,
    brief: u32,
    other: &Option<ReadPin<T>>,
)
    requires worker { worker ≡ 0 }
    requires other { other.now ≡ None }
    requires stands { Stands pools.old worker None other.now }
    requires present { IsSome (kept_at pools.old pid) }
    ensures { Stands pools.new worker None other.now }
{
    let _worker = worker;
    lone_wave(rt, alloc, pools, pid, body, brief);
}

/// Worker 0 writes a pool that lies whole as the one task of a wave.
fn lone_wave<T: Poolable + Drop, D: Disk + Drop>(
    rt: &impl Abort,
    alloc: Global,
    pools: &mut Pools<T, D>,
    pid: u32,
    body: T,
    brief: u32,
)
    requires stands { Stands pools.old 0 None None }
    requires present { IsSome (kept_at pools.old pid) }
    ensures { Stands pools.new 0 None None }
{
    stands(pools);
    let Ok(tasks) = vec![in alloc; pid] else {
        panic!(rt; "no memory")
    };
    pools.begin_wave(tasks);
    let Some(_) = pools.claim(0) else {
        panic!(rt; "no task")
    };
    write_task(rt, alloc, pools, pid, body, brief);
    pools.end_wave();
}

/// Worker 0 writes its task.
fn write_task<T: Poolable + Drop, D: Disk + Drop>(
    rt: &impl Abort,
    alloc: Global,
    pools: &mut Pools<T, D>,
    pid: u32,
    body: T,
    brief: u32,
)
    requires wave { InWave pools.old pid (tasked pid) [] [] }
    requires present { IsSome (pool_at pools.old.core.pools pid) }
    ensures { InWave pools.new pid empty_hand [] (pid ∷ []) }
{
    let charge = body.charge();
    if charge > 1000 {
        panic!(rt; "a great charge");
    }
    let room = charge + u64::from(body.compact_len());
    let Ok(body) = Arc::new(alloc, body) else {
        panic!(rt; "no memory")
    };
    match pools.pin_write(0, pid, room) {
        PinAnswer::Ready(Pin::Write(pin)) => {
            end_task(rt, pools, pid, pin, body, room, brief);
            return;
        }
        _ => panic!(rt; "not pinned"),
    }
}

/// Ends the pin for writing of a task.
fn end_task<T: Poolable + Drop, D: Disk + Drop>(
    rt: &impl Abort,
    pools: &mut Pools<T, D>,
    pid: u32,
    pin: WritePin<T>,
    body: Arc<T, Global>,
    room: u64,
    brief: u32,
)
    requires pid { pin.pid ≡ pid }
    requires wave { InWave pools.old pid (tasked_writer pid) [] [] }
    requires pool { (x : PoolData) × (pool_at pools.old.core.pools pid ≡ Some x) × (x.stage ≡ stage.Written room) }
    requires fits { T.charge_of (arc_value body) + length (T.encoding (arc_value body)) ≤ room }
    ensures { InWave pools.new pid empty_hand [] (pid ∷ []) }
{
    let (_pid, _room) = (pid, room);
    match pools.unpin_write(0, pin, Draft::Whole(body), brief) {
        Ok(Put::Done) => return,
        _ => panic!(rt; "not written"),
    }
}
