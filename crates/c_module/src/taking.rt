//! What takes the routines of a program, one after another.
ghost use Rattle.std.specs.Prelude.{◌≡◌, ◌<◌, ◌++◌, ◌∷◌, [], None, OnOk, OnErr, length};
ghost use Rattle.il_core.specs.Limits.{max_routines};
ghost use Rattle.il_core.specs.Program.{routine_at};
ghost use Rattle.il_core.specs.Routine.{RoutineParts};

use il_core::Routine;

/// A routine was refused; the taker knows why.
#[derive(Clone, Copy, Debug, Drop, PartialEq, Eq)]
pub struct Refused;

/// Takes the routines of a program, one after another.
pub trait RoutineTaker {
    ghost use Rattle.std.specs.Prelude.{List};

    /// The routines taken so far, in order.
    ghost taken: { Self → List RoutineParts };
    /// It can take one more.
    ghost ready: { Self → Type 0 };
    /// What holds between an earlier moment and a later one, whatever was taken or refused in between.
    ghost keeps: { Self → Self → Type 0 };
    /// What a refusal says: how the taker was before, how it is now, and the routine.
    ghost refuses: { Self → Self → RoutineParts → Type 0 };

    /// Takes one more, behind the others, and is ready for another then. No routine taken before has its PID, and they are fewer than a program may
    /// have.
    fn take(&mut self, routine: Routine) -> Result<(), Refused>
        requires ready { ready self.old }
        requires apart { routine_at (taken self.old) routine.pid ≡ None }
        requires few { length (taken self.old) < max_routines }
        ensures ok { OnOk result (taken self.new ≡ taken self.old ++ routine ∷ []) }
        ensures still { OnOk result (ready self.new) }
        ensures err { OnErr result (refuses self.old self.new routine) }
        ensures kept { keeps self.old self.new };

    /// It holds of one moment.
    ghost stays: { (t : Self) → keeps t t };
    /// It holds over a moment in between.
    ghost goes_on: { (a b c : Self) → keeps a b → keeps b c → keeps a c };
}

/// A vector takes each routine, and refuses one only for want of memory. It takes amortised constant time.
impl RoutineTaker for Vec<Routine> {
    ghost use Rattle.std.specs.Prelude.{⊤};

    ghost taken = { λ v. v.items };

    ghost ready = { λ v. ⊤ };

    ghost keeps = { λ a b. ⊤ };

    ghost refuses = { λ a b r. ⊤ };

    ghost stays = { λ t. tt };

    ghost goes_on = { λ a b c h k. tt };

    fn take(&mut self, routine: Routine) -> Result<(), Refused> {
        match self.push(routine) {
            Ok(()) => Ok(()),
            Err(_) => Err(Refused),
        }
    }
}
