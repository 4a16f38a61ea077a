//! The laws of optimised programs.

ghost use Rattle.optimise_laws.specs.Laws.{OptimisedMeansTheSame, OptimisedStaysInBudget};

/// Each program of the plan of linked modules is valid and has the run of the modules, for every profile, budget
/// and number of passes, every input and every number of turns; so has the last one.
pub fn optimised_means_the_same()
    ensures { OptimisedMeansTheSame }
{}

/// The last program costs at most so many percent more than the lowered program as the budget says.
pub fn optimised_stays_in_budget()
    ensures { OptimisedStaysInBudget }
{}
