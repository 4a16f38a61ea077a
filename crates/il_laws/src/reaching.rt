//! The laws of pruned programs.

ghost use Rattle.il_laws.specs.ReachLaws.{ReachCloses, PrunedFollows};

/// What `main` reaches is closed under calls.
pub fn reach_closes()
    ensures { ReachCloses }
{}

/// The routines that `main` doesn't reach may be removed.
pub fn pruned_keeps()
    ensures { PrunedFollows }
{}
