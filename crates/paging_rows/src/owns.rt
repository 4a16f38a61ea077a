//! Rows of a loader that one worker has alone: each call of its disk fails in turn.
ghost use Rattle.std.specs.Prelude.{◌≡◌, ℕ, length, None, true, IsSome, IfOk, OnErr};
ghost use Rattle.naim_loader.specs.Paged.{kept_at};
ghost use Rattle.one_owner.specs.Alone.{IsResting};

use crate::compact::ZERO;
use compact_form::RoutineBody;
use naim_core::Failure;
use naim_loader::Loader;
use one_owner::{give_back, place, take};
use outside::{Disk, MemDisk};
use pool_laws::Poolable;
use std::alloc::Global;
use std::test::Fail;

/// How a script ended.
#[derive(Clone, Copy, Debug, PartialEq, Eq)]
enum Ended {
    /// Each body came back as it was; so many were written to the disk, and so many brought back.
    Whole { offloads: u64, reloads: u64 },
    /// The disk failed.
    Disk,
    /// Something else came.
    Other,
}

/// The body with these bytes.
fn zero(alloc: Global) -> Option<RoutineBody> {
    RoutineBody::decode(alloc, &ZERO).ok()?
}

/// Three bodies come in.
fn put_three<D: Disk + Drop>(
    alloc: Global,
    pools: &mut Loader<RoutineBody, (), D>,
    bodies: (RoutineBody, RoutineBody, RoutineBody),
) -> Result<(), Failure>
    requires rests { IsResting pools.old }
    requires none { (q : ℕ) → kept_at pools.old q ≡ None }
    requires empty { length pools.old.core.pools ≡ 0 }
    ensures rests { IfOk result (λ _. IsResting pools.new) }
    ensures there { IfOk result (λ _. IsSome (kept_at pools.new 0) × IsSome (kept_at pools.new 1) × IsSome (kept_at pools.new 2)) }
    ensures home { OnErr result (pools.new.home ≡ true) }
{
    let (first, second, third) = bodies;
    match place(alloc, pools, 0, first, ()) {
        Ok(()) => {}
        Err(failure) => return Err(failure),
    }
    match place(alloc, pools, 1, second, ()) {
        Ok(()) => {}
        Err(failure) => return Err(failure),
    }
    place(alloc, pools, 2, third, ())
}

/// Reads a body and gives it back; whether it is as it was.
fn read<D: Disk + Drop>(
    alloc: Global,
    pools: &mut Loader<RoutineBody, (), D>,
    pid: u32,
) -> Result<bool, Failure>
    requires rests { IsResting pools.old }
    requires present { IsSome (kept_at pools.old pid) }
    ensures rests { IfOk result (λ _. IsResting pools.new) }
    ensures there { IfOk result (λ _. (q : ℕ) → IsSome (kept_at pools.old q) → IsSome (kept_at pools.new q)) }
    ensures home { OnErr result (pools.new.home ≡ true) }
{
    match take(alloc, pools, pid) {
        Ok(pin) => {
            let same = is_zero(alloc, &pin.body);
            match give_back(alloc, pools, pin) {
                Ok(()) => Ok(same),
                Err(failure) => Err(failure),
            }
        }
        Err(failure) => Err(failure),
    }
}

/// Whether a body has these bytes.
fn is_zero(alloc: Global, body: &RoutineBody) -> bool {
    match body.encode(alloc) {
        Ok(bytes) => bytes.as_slice() == ZERO.as_slice(),
        Err(_) => false,
    }
}

/// Reads each of three bodies, and the first again; whether all are as they were.
fn read_all<D: Disk + Drop>(
    alloc: Global,
    pools: &mut Loader<RoutineBody, (), D>,
) -> Result<bool, Failure>
    requires rests { IsResting pools.old }
    requires first { IsSome (kept_at pools.old 0) }
    requires second { IsSome (kept_at pools.old 1) }
    requires third { IsSome (kept_at pools.old 2) }
    ensures rests { IfOk result (λ _. IsResting pools.new) }
    ensures home { OnErr result (pools.new.home ≡ true) }
{
    let first = match read(alloc, pools, 0) {
        Ok(same) => same,
        Err(failure) => return Err(failure),
    };
    let second = match read(alloc, pools, 1) {
        Ok(same) => same,
        Err(failure) => return Err(failure),
    };
    let third = match read(alloc, pools, 2) {
        Ok(same) => same,
        Err(failure) => return Err(failure),
    };
    match read(alloc, pools, 0) {
        Ok(same) => Ok(first & second & third & same),
        Err(failure) => Err(failure),
    }
}

/// Three bodies come into a loader of 37 bytes, in which one has room, and are read; the disk's call of this number fails.
fn play(alloc: Global, failing: u32) -> Option<Ended> {
    let bodies = (zero(alloc)?, zero(alloc)?, zero(alloc)?);
    let disk = MemDisk::new(Vec::new(alloc), vec![in alloc; failing; 1].ok()?);
    let Ok(loader) = Loader::new(alloc, 37, 1, disk) else {
        return None;
    };
    let mut pools = loader;
    let came = match put_three(alloc, &mut pools, bodies) {
        Ok(()) => read_all(alloc, &mut pools),
        Err(failure) => Err(failure),
    };
    let counters = pools.counters();
    let _ = pools.close();
    match came {
        Ok(true) => Some(Ended::Whole {
            offloads: counters.offloads,
            reloads: counters.reloads,
        }),
        Err(Failure::Repository) => Some(Ended::Disk),
        _ => Some(Ended::Other),
    }
}

#[test]
fn each_call_of_the_disk_fails_in_turn(rt: HostRuntime) -> Result<(), Fail> {
    for call in 1..11 {
        assert_eq!(rt; play(rt.alloc(), call), Some(Ended::Disk));
    }
    assert_eq!(rt;
        play(rt.alloc(), 11),
        Some(Ended::Whole {
            offloads: 6,
            reloads: 4
        })
    );
    Ok(())
}
