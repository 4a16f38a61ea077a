//! The ends of reloads.
ghost use Rattle.std.specs.Prelude.{◌≡◌, ◌<◌, ◌*◌, length, true, Some, None, IfSome, is_some};
ghost use Rattle.std.specs.Arc.{arc_value};
ghost use Rattle.naim_core.specs.Rows.{pinned_for};
ghost use Rattle.naim_core.specs.Sound.{IsSound};
ghost use Rattle.naim_core.specs.declared.event.Mode.{Mode as ModeData};
ghost use Rattle.naim_core.specs.declared.pool.Stage.TheVariants as stage;
ghost use Rattle.naim_loader.specs.Calls.{ComesBack, disk_of};
ghost use Rattle.naim_loader.specs.Forms.{LiesAs};
ghost use Rattle.naim_loader.specs.Moves.{AnswersReload, Brings, EndsReload, IsMoving, Reloads};
ghost use Rattle.naim_loader.specs.Paged.{content_at};

use crate::counters::step;
use crate::forms::{Move, PinAnswer, spread};
use crate::home::bring_if;
use crate::loader::Loader;
use crate::table::Lying;
use naim_core::Event;
use outside::Disk;
use pool_laws::Poolable;
use std::alloc::Global;
use std::snapshot::Snapshot;
use std::sync::Arc;

impl<T: Poolable + Drop, B: Drop, D: Disk + Drop> Loader<T, B, D> {
    /// Ends a reload while no failure is kept: the body lies so, and the disk, if the pool came from it,
    /// is home.
    fn end_reload(
        &mut self,
        worker: u32,
        pid: u32,
        body: Lying<T>,
        value: Snapshot<T>,
        disk: Option<D>,
    )
        requires running { self.old.core.failure ≡ None }
        requires worker { worker < length self.old.core.hands }
        requires moving { (m : ModeData) × IsMoving self.old.core worker pid (λ st. st ≡ stage.Reloading m (is_some disk)) × LiesAs T.encoding
            (pid * self.old.core.limit) (pinned_for m) body value.value }
        requires value { T.is_value value.value }
        requires was { (k : T) × (content_at self.old pid ≡ Some k) × Brings T.charge_of T.encoding D.bytes D.reach D.honest self.old pid disk value.value k }
        requires disk { ComesBack D.reach D.honest self.old disk }
        ensures reloads { Reloads T.charge_of T.encoding D.reach D.honest self.old self.new worker pid disk value.value }
        ensures sound { IsSound self.new.core }
    {
        let event = Event::ReloadEnd { worker, pid };
        let Ok(()) = step(&mut self.core, &mut self.counters, event) else {
            unreachable!()
        };
        self.table.reset(pid, body, value);
        bring_if(&mut self.disk, disk);
    }

    /// Ends a reload: the pool has its body again, and the worker the pin that it wanted. A reload for
    /// reading is handed a second share of the body, which becomes the pin's. Where it came from the
    /// disk, the disk comes home. The body is that of the contents where it came from bytes in memory or
    /// the disk is trusted; over another disk the pool has the body that is handed in from now on. Once a
    /// failure is kept, the move is taken back and nothing else changes. Constant time.
    pub fn reload_end(
        &mut self,
        worker: u32,
        m: Move<T, D>,
        body: Arc<T, Global>,
        again: Option<Arc<T, Global>>,
    ) -> PinAnswer<T, D>
        requires worker { worker < length self.old.core.hands }
        requires ends { EndsReload T.charge_of T.encoding D.bytes D.reach D.honest self.old worker m (arc_value body) again }
        requires again { IfSome again (λ a. arc_value a ≡ arc_value body) }
        requires value { T.is_value (arc_value body) }
        requires disk { ComesBack D.reach D.honest self.old (disk_of m) }
        ensures answer { AnswersReload T.charge_of T.encoding D.reach D.honest self.old self.new worker m (arc_value body) again result }
        ensures sound { IsSound self.new.core }
    {
        if self.is_stopped() {
            self.take_back(m);
            return PinAnswer::Stopped;
        }
        let (pid, disk) = m.into_reload();
        let value = Snapshot::of(&*body);
        let (lying, pin) = spread(pid, body, again);
        self.end_reload(worker, pid, lying, value, disk);
        PinAnswer::Ready(pin)
    }
}
