//! The laws of meaning.

ghost use Rattle.plan_laws.specs.PlanLaws.{PlanFollows, FinalRuns, RowsRight};

/// Each program of the plan is valid, keeps what each routine does that stood in the program before it,
/// and has that program's run on each input with each number of turns.
pub fn plan_keeps()
    ensures { PlanFollows }
{}

/// The last program of the plan has the run of the first one.
pub fn final_keeps()
    ensures { FinalRuns }
{}

/// In every state of the plan each row of the clone table is right where both of its routines stand.
pub fn table_keeps()
    ensures { RowsRight }
{}
