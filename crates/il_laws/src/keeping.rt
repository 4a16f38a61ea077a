//! The laws of every program and of every change.

ghost use Rattle.il_laws.specs.Laws.{ValidRuns, FollowThen, EachFollows, RoutineFollows, RunKept};

/// A valid program has a run on each input with each number of turns.
pub fn valid_runs()
    ensures { ValidRuns }
{}

/// Where a program may follow another and a third one may follow it, the third may follow the first.
pub fn follow_then()
    ensures { FollowThen }
{}

/// Routines may be replaced, one or all at once, by routines that are called alike, are valid and do the
/// same under the program's calls as they are.
pub fn replaced_follow()
    ensures each { EachFollows }
    ensures one { RoutineFollows }
{}

/// A program that may follow another has the same run on each input with each number of turns.
pub fn run_kept()
    ensures { RunKept }
{}
