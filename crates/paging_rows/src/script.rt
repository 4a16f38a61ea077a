//! A script of 200 calls by two workers over one loader, beside a plain map.
ghost use Rattle.std.specs.Prelude.{◌≡◌, ◌<◌, ◌≤◌, ◌↔◌, ◌⊎◌, length, true, false, Some, None, IsSome};
ghost use Rattle.naim_core.specs.State.{holds};
ghost use Rattle.naim_loader.specs.Paged.{kept_at};
ghost use Rattle.paging_rows.specs.Pairs.{Stands, pool_of};

use crate::marks::Mark;
use crate::pairs::{Pools, evict, give_back, put, read, remove, stands, wave, write};
use naim_loader::{Counters, Draft, Loader, ReadPin};
use outside::{BentDisk, Disk, MemDisk};
use pool_laws::Poolable;
use std::alloc::Global;
use std::process::Abort;
use std::snapshot::Snapshot;
use std::sync::Arc;
use std::test::Fail;

/// How many bytes may lie about that nobody holds.
const LIMIT: u64 = 25;

/// A call of the script.
#[derive(Clone, Copy)]
struct Draw {
    kind: u32,
    pid: u32,
    worker: u32,
    is_packed: bool,
    number: u8,
}

/// What a call answered.
#[derive(Clone, Copy, Debug, PartialEq, Eq)]
enum Told {
    /// A pool came in.
    Put,
    /// There was no room for it.
    NoRoom,
    /// A worker reads a pool.
    Read,
    /// It gave it back.
    Given,
    /// It wanted to, and there was no room.
    Kept,
    /// The bytes fit.
    Fits,
    /// They didn't, and a pool went one form further.
    Moved,
    /// A pool went.
    Removed,
    /// It has another value.
    Written,
    /// The other worker reads it.
    InUse,
    /// It has another value, by a wave.
    Waved,
}

/// How many calls answered so.
#[derive(Clone, Copy, Debug, PartialEq, Eq)]
struct Counts {
    put: u32,
    no_room: u32,
    read: u32,
    given: u32,
    kept: u32,
    fits: u32,
    moved: u32,
    removed: u32,
    written: u32,
    in_use: u32,
    waved: u32,
}

impl Counts {
    /// No call yet.
    const NONE: Counts = Counts {
        put: 0,
        no_room: 0,
        read: 0,
        given: 0,
        kept: 0,
        fits: 0,
        moved: 0,
        removed: 0,
        written: 0,
        in_use: 0,
        waved: 0,
    };

    /// One call more.
    fn count(&mut self, told: Told) {
        let place = match told {
            Told::Put => &mut self.put,
            Told::NoRoom => &mut self.no_room,
            Told::Read => &mut self.read,
            Told::Given => &mut self.given,
            Told::Kept => &mut self.kept,
            Told::Fits => &mut self.fits,
            Told::Moved => &mut self.moved,
            Told::Removed => &mut self.removed,
            Told::Written => &mut self.written,
            Told::InUse => &mut self.in_use,
            Told::Waved => &mut self.waved,
        };
        *place = place.wrapping_add(1);
    }
}

/// The pins that the workers have.
struct Held {
    first: Option<ReadPin<Mark>>,
    second: Option<ReadPin<Mark>>,
}

/// The value of each PID, as a plain map has it.
type Plain = [Option<u8>; 6];

/// The call that a number stands for.
fn drawn(seed: u32) -> Draw
    ensures { result.pid < 6 }
{
    Draw {
        kind: seed % 8,
        pid: seed / 8 % 6,
        worker: seed / 48 % 2,
        is_packed: seed / 96 % 2 == 1,
        number: (seed % 251) as u8,
    }
}

/// Whether the pin is of that pool.
fn is_of(pin: &Option<ReadPin<Mark>>, pid: u32) -> bool
    ensures { result ≡ holds (pool_of pin.now) pid }
{
    match pin {
        Some(pin) => pin.pid == pid,
        None => false,
    }
}

/// A new pool comes in.
fn come<D: Disk + Drop>(
    rt: &impl Abort,
    alloc: Global,
    pools: &mut Pools<Mark, D>,
    draw: Draw,
    plain: &mut Plain,
    held: &Held,
) -> Told
    requires stands { Stands pools.old 0 held.now.first held.now.second }
    requires absent { kept_at pools.old draw.pid ≡ None }
    requires pid { draw.pid < 6 }
    ensures { Stands pools.new 0 held.now.first held.now.second }
{
    if pools.used() >= 4096 {
        panic!(rt; "too many pools");
    }
    let mark = Mark {
        number: draw.number,
    };
    let brief = u32::from(draw.number);
    let draft = if draw.is_packed {
        let value = Snapshot::of(&mark);
        let charge = mark.charge();
        let bytes = mark.encode(alloc).expect(rt, "memory");
        Draft::Packed {
            bytes,
            charge,
            value,
        }
    } else {
        Draft::Whole(Arc::new(alloc, mark).expect(rt, "memory"))
    };
    if put(rt, pools, draw.pid, draft, brief, &held.first, &held.second) {
        plain[draw.pid as usize] = Some(draw.number);
        Told::Put
    } else {
        Told::NoRoom
    }
}

/// A worker makes room.
fn room<D: Disk + Drop>(
    rt: &impl Abort,
    alloc: Global,
    pools: &mut Pools<Mark, D>,
    draw: Draw,
    worker: u32,
    mine: &Option<ReadPin<Mark>>,
    other: &Option<ReadPin<Mark>>,
) -> Told
    requires worker { worker < 2 }
    requires lies { (d : D) → D.honest d ≡ false }
    requires stands { Stands pools.old worker mine.now other.now }
    ensures { Stands pools.new worker mine.now other.now }
{
    let wanted = if draw.is_packed { LIMIT } else { 10 };
    if wanted > pools.limit() {
        panic!(rt; "another limit");
    }
    if evict(rt, alloc, pools, worker, wanted, mine, other) {
        Told::Fits
    } else {
        Told::Moved
    }
}

/// A worker without a pin writes a pool, which it brings back first; where there is no room for that, it has the pin. The
/// first worker writes an even number by a wave, where the other one has no pin.
fn rewrite<D: Disk + Drop>(
    rt: &impl Abort,
    alloc: Global,
    pools: &mut Pools<Mark, D>,
    draw: Draw,
    worker: u32,
    other: &Option<ReadPin<Mark>>,
    plain: &mut Plain,
) -> (Option<ReadPin<Mark>>, Told)
    requires worker { worker < 2 }
    requires lies { (d : D) → D.honest d ≡ false }
    requires pid { draw.pid < 6 }
    requires stands { Stands pools.old worker None other.now }
    requires present { IsSome (kept_at pools.old draw.pid) }
    ensures { Stands pools.new worker result.0 other.now }
{
    let pin = read(rt, alloc, pools, worker, draw.pid, other);
    assert!(rt; Some(pin.body.number) == plain[draw.pid as usize]);
    if let Some(pin) = give_back(rt, alloc, pools, worker, pin, false, other) {
        return (Some(pin), Told::Kept);
    }
    if !pools.has(draw.pid) {
        panic!(rt; "a pool went");
    }
    let mark = Mark {
        number: draw.number,
    };
    let brief = u32::from(draw.number);
    if worker == 0 && other.is_none() && draw.number % 2 == 0 {
        wave(rt, alloc, pools, worker, draw.pid, mark, brief, other);
        plain[draw.pid as usize] = Some(draw.number);
        return (None, Told::Waved);
    }
    let is_free = !is_of(other, draw.pid);
    let is_written = write(rt, alloc, pools, worker, draw.pid, mark, brief, other);
    assert!(rt; is_written == is_free);
    if is_written {
        plain[draw.pid as usize] = Some(draw.number);
        return (None, Told::Written);
    }
    (None, Told::InUse)
}

/// A call of a worker that has no pin, or of one that has one.
fn work<D: Disk + Drop>(
    rt: &impl Abort,
    alloc: Global,
    pools: &mut Pools<Mark, D>,
    draw: Draw,
    worker: u32,
    mine: Option<ReadPin<Mark>>,
    other: &Option<ReadPin<Mark>>,
    plain: &mut Plain,
) -> (Option<ReadPin<Mark>>, Told)
    requires worker { worker < 2 }
    requires lies { (d : D) → D.honest d ≡ false }
    requires pid { draw.pid < 6 }
    requires stands { Stands pools.old worker mine other.now }
    ensures { Stands pools.new worker result.0 other.now }
{
    let Some(pin) = mine else {
        if draw.kind < 5 && pools.has(draw.pid) {
            let pin = read(rt, alloc, pools, worker, draw.pid, other);
            assert!(rt; Some(pin.body.number) == plain[draw.pid as usize]);
            return (Some(pin), Told::Read);
        }
        if draw.kind == 7 && !draw.is_packed && pools.has(draw.pid) {
            return rewrite(rt, alloc, pools, draw, worker, other, plain);
        }
        let told = room(rt, alloc, pools, draw, worker, &None, other);
        return (None, told);
    };
    if draw.kind < 6 {
        return match give_back(rt, alloc, pools, worker, pin, draw.is_packed, other) {
            None => (None, Told::Given),
            Some(pin) => (Some(pin), Told::Kept),
        };
    }
    let mine = Some(pin);
    let told = room(rt, alloc, pools, draw, worker, &mine, other);
    (mine, told)
}

/// A call of the script.
fn call<D: Disk + Drop>(
    rt: &impl Abort,
    alloc: Global,
    pools: &mut Pools<Mark, D>,
    draw: Draw,
    held: Held,
    plain: &mut Plain,
) -> (Held, Told)
    requires lies { (d : D) → D.honest d ≡ false }
    requires pid { draw.pid < 6 }
    requires stands { Stands pools.old 0 held.first held.second }
    ensures { Stands pools.new 0 result.0.first result.0.second }
{
    let is_there = pools.has(draw.pid);
    if draw.kind < 3 && !is_there {
        let told = come(rt, alloc, pools, draw, plain, &held);
        return (held, told);
    }
    let is_read = is_of(&held.first, draw.pid) || is_of(&held.second, draw.pid);
    if draw.kind == 6 && is_there && !is_read {
        remove(pools, draw.pid, &held.first, &held.second);
        plain[draw.pid as usize] = None;
        return (held, Told::Removed);
    }
    let Held { first, second } = held;
    if draw.worker == 0 {
        let (first, told) = work(rt, alloc, pools, draw, 0, first, &second, plain);
        (Held { first, second }, told)
    } else {
        let (second, told) = work(rt, alloc, pools, draw, 1, second, &first, plain);
        (Held { first, second }, told)
    }
}

/// The loader tells what the plain map has.
fn compare<D: Disk + Drop>(rt: &impl Abort, pools: &Pools<Mark, D>, plain: &Plain) {
    let mut used = 0;
    for pid in 0..6 {
        let number = plain[pid as usize];
        assert!(rt; pools.has(pid) == number.is_some());
        if let Some(number) = number {
            assert!(rt; matches!(pools.brief(pid), Some(brief) if *brief == u32::from(number)));
            used += 1;
        }
    }
    assert!(rt; pools.used() == used);
    assert!(rt; pools.counters().under_peak <= LIMIT);
}

/// The whole script; what its calls answered.
fn play<D: Disk + Drop>(rt: &impl Abort, alloc: Global, pools: &mut Pools<Mark, D>) -> Counts
    requires lies { (d : D) → D.honest d ≡ false }
    requires stands { Stands pools.old 0 None None }
    ensures home { pools.new.home ≡ true }
{
    let mut held = Held {
        first: None,
        second: None,
    };
    let mut plain = [None; 6];
    let mut counts = Counts::NONE;
    let mut seed = 355;
    for _ in 0..200 {
        seed = (seed * 75 + 74) % 65_537;
        let (now, told) = call(rt, alloc, pools, drawn(seed), held, &mut plain);
        held = now;
        counts.count(told);
        compare(rt, pools, &plain);
    }
    stands(pools);
    let Held { first, second } = held;
    spend(first);
    spend(second);
    counts
}

/// Lets a pin go, whose loader ends.
fn spend(pin: Option<ReadPin<Mark>>) {
    if let Some(pin) = pin {
        let ReadPin { pid: _, body: _ } = pin;
    }
}

#[test]
fn two_workers_and_a_plain_map(rt: HostRuntime) -> Result<(), Fail> {
    let alloc = rt.alloc();
    let disk = BentDisk::new(MemDisk::new(Vec::new(alloc), Vec::new(alloc)), 0, 0);
    let Ok(loader) = Loader::new(alloc, LIMIT, 2, disk) else {
        panic!(rt; "no memory")
    };
    let mut pools = loader;
    let counts = play(&rt, alloc, &mut pools);
    let Counters {
        compactions,
        offloads,
        reloads,
        ..
    } = pools.counters();
    let _ = pools.close();
    assert_eq!(rt;
        counts,
        Counts {
            put: 20,
            no_room: 2,
            read: 45,
            given: 44,
            kept: 2,
            fits: 24,
            moved: 40,
            removed: 15,
            written: 4,
            in_use: 2,
            waved: 2
        }
    );
    assert_eq!(rt; (compactions, offloads, reloads), (22, 18, 39));
    Ok(())
}
