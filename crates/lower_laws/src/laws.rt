//! The laws of lowering.

ghost use Rattle.lower_laws.specs.Laws.{CallsMeanTheSame, RunsMeanTheSame, SizesAreNumbers};

/// A call of a routine of a lowered program does what the call of its function does, for every input, every
/// number of turns and every list of arguments.
pub fn lowered_calls_mean_the_same()
    ensures { CallsMeanTheSame }
{}

/// A whole lowered program runs as its functions do from `main`.
pub fn lowered_runs_mean_the_same()
    ensures { RunsMeanTheSame }
{}

/// A lowered routine is as large as its numbers say.
pub fn lowered_sizes_are_numbers()
    ensures { SizesAreNumbers }
{}
