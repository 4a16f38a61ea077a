//! The laws of lowered programs.

ghost use Rattle.lower_laws.specs.ProgramLaws.{LoweredIsProgram, LoweredMeansTheSame};

/// The lowered program of linked modules has the run of the modules, for every profile, every input and every
/// number of turns.
pub fn lowered_means_the_same()
    ensures { LoweredMeansTheSame }
{}

/// The lowered program of linked modules whose functions fit it is valid, for every profile.
pub fn lowered_is_program()
    ensures { LoweredIsProgram }
{}
