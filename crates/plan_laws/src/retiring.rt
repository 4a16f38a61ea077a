//! The laws of dead routines.

ghost use Rattle.plan_laws.specs.DeadLaws.{ReachableStay, DeadGo};

/// What `main` reaches by summaries are the routines that stay when the program is pruned, and the others go.
pub fn dead_known()
    ensures stay { ReachableStay }
    ensures go { DeadGo }
{}
