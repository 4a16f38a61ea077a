//! The laws of typed programs.

ghost use Rattle.program_laws.specs.Laws.{LinkingModulesAreLinked, LinkingModulesRun, LoweredProgramsAreRight};

/// Modules that follow the rules of types and linkage one after another, and link, have what lowering asks of a
/// program's functions and of the table of its names.
pub fn linking_modules_are_linked()
    ensures { LinkingModulesAreLinked }
{}

/// The lowered program of such modules is valid, and has the run of the modules, for every profile, every input
/// and every number of turns.
pub fn lowered_programs_are_right()
    ensures { LoweredProgramsAreRight }
{}

/// The meaning of C is never stuck on such modules: for every input and every number of turns there is a run.
pub fn linking_modules_run()
    ensures { LinkingModulesRun }
{}
