//! Waves of callers that take in their callees.
ghost use Rattle.std.specs.Prelude.{◌≡◌, length, map, nat_eq, IfErr, IfOk, Some};
ghost use Rattle.std.specs.List.{AllByRecursion, IsDistinct};
ghost use Rattle.compact_form.specs.Compact.{compact};
ghost use Rattle.il_core.specs.Routine.{RoutineParts};
ghost use Rattle.il_core.specs.Valid.{IsValid};
ghost use Rattle.naim_loader.specs.Paged.{IsTrusted};
ghost use Rattle.one_owner.specs.Alone.{IsResting};
ghost use Rattle.plan_pools.specs.Contents.{routine_in};
ghost use Rattle.plan_pools.specs.Passes.{ChangesOne};
ghost use Rattle.plan_pools.specs.Accepting.{bodies_at, is_accepted, sites_of, taken_in};
ghost use Rattle.plan_pools.specs.Fitting.{AreFit};
ghost use Rattle.plan_pools.specs.Stopping.{Becomes, StopsInlining};
ghost use Rattle.plan_pools.specs.Waving.{after_wave, after_waves, IsWaveNeed, IsWavesNeed, SuitWaves, SuitsWave};

use crate::accepted::Accepted;
use crate::callers::grown;
use crate::pools::PlanLoader;
use crate::replacing::replace;
use il_core::Shapes;
use naim_core::Failure;
use outside::Disk;
use std::alloc::Global;

/// Inlines accepted calls wave by wave: the callers of a wave take in their callees as they stand, one after another. The errors and
/// the cost are those of each caller.
pub(crate) fn inline_waves<D: Disk + Drop>(
    alloc: Global,
    loader: &mut PlanLoader<D>,
    shapes: &Shapes,
    accepted: &Accepted,
    waves: &[Vec<u32>],
) -> Result<(), Failure>
    requires rests { IsResting loader.old }
    requires differ { AllByRecursion (λ w. IsDistinct nat_eq w.items) waves.now }
    ensures ok { IfOk result (λ _. Becomes D.reach D.honest D.faults
        (SuitWaves shapes.now (is_accepted accepted.now) (map (λ w. w.items) waves.now) (routine_in loader.old))
        (after_waves (is_accepted accepted.now) (map (λ w. w.items) waves.now) (routine_in loader.old)) loader.old loader.new) }
    ensures err { IfErr result (λ f. StopsInlining D.reach D.honest D.faults
        (λ q. IsTrusted D.reach D.honest loader.old → SuitWaves shapes.now (is_accepted accepted.now) (map (λ w. w.items) waves.now) (routine_in loader.old)
        → ⊥) (λ q n. IsTrusted D.reach D.honest loader.old
        → SuitWaves shapes.now (is_accepted accepted.now) (map (λ w. w.items) waves.now) (routine_in loader.old)
        → IsWavesNeed (is_accepted accepted.now) (map (λ w. w.items) waves.now) (routine_in loader.old) q n) loader.old loader.new f) }
{
    for wave in waves {
        match inline_wave(alloc, loader, shapes, accepted, wave.as_slice()) {
            Ok(()) => {}
            Err(failure) => return Err(failure),
        }
    }
    Ok(())
}

/// One wave.
fn inline_wave<D: Disk + Drop>(
    alloc: Global,
    loader: &mut PlanLoader<D>,
    shapes: &Shapes,
    accepted: &Accepted,
    pids: &[u32],
) -> Result<(), Failure>
    requires rests { IsResting loader.old }
    requires differ { IsDistinct nat_eq pids.now }
    ensures ok { IfOk result (λ _. Becomes D.reach D.honest D.faults (SuitsWave shapes.now (is_accepted accepted.now) pids.now (routine_in loader.old))
        (after_wave (is_accepted accepted.now) pids.now (routine_in loader.old)) loader.old loader.new) }
    ensures err { IfErr result (λ f. StopsInlining D.reach D.honest D.faults
        (λ q. IsTrusted D.reach D.honest loader.old → SuitsWave shapes.now (is_accepted accepted.now) pids.now (routine_in loader.old) → ⊥)
        (λ q n. IsTrusted D.reach D.honest loader.old → SuitsWave shapes.now (is_accepted accepted.now) pids.now (routine_in loader.old)
        → IsWaveNeed (is_accepted accepted.now) pids.now (routine_in loader.old) q n) loader.old loader.new f) }
{
    for pid in pids {
        match inline_one(alloc, loader, shapes, accepted, *pid) {
            Ok(()) => {}
            Err(failure) => return Err(failure),
        }
    }
    Ok(())
}

/// The routine of a PID takes in what stands at the callees of its accepted calls, if there is one.
fn inline_one<D: Disk + Drop>(
    alloc: Global,
    loader: &mut PlanLoader<D>,
    shapes: &Shapes,
    accepted: &Accepted,
    pid: u32,
) -> Result<(), Failure>
    requires rests { IsResting loader.old }
    ensures ok { IfOk result (λ _. ChangesOne D.reach D.honest D.faults (taken_in (is_accepted accepted.now) (routine_in loader.old)) pid
        loader.old loader.new) }
    ensures err { IfErr result (λ f. StopsInlining D.reach D.honest D.faults
        (λ q. IsTrusted D.reach D.honest loader.old
        → (r : RoutineParts) × (routine_in loader.old pid ≡ Some r) ×
        (IsValid shapes.now r → AreFit shapes.now r (bodies_at (routine_in loader.old) (sites_of (is_accepted accepted.now) r)) → ⊥))
        (λ q n. (q ≡ pid) × (IsTrusted D.reach D.honest loader.old
        → (r : RoutineParts) × (routine_in loader.old pid ≡ Some r) × (n ≡ length (compact (taken_in (is_accepted accepted.now) (routine_in loader.old) r)))))
        loader.old loader.new f) }
{
    if !loader.has(pid) {
        return Ok(());
    }
    match grown(alloc, loader, shapes, accepted, pid) {
        Ok(routine) => replace(alloc, loader, pid, routine),
        Err(failure) => Err(failure),
    }
}
