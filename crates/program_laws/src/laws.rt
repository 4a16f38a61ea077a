//! The laws of typed modules and programs.

ghost use Rattle.program_laws.specs.Laws.{FunctionsStandOn, TypedModulesAreGiven, TypedModulesFit, TypedProgramsAreWhole};

/// The functions of a module that the typing rules give go with the table that it leaves, together with those of
/// the modules before it, and the table has grown.
pub fn typed_modules_fit()
    ensures { TypedModulesFit }
{}

/// A function that stands in a table stands in each table that has grown from it.
pub fn functions_stand_on()
    ensures { FunctionsStandOn }
{}

/// The functions of modules that follow the rules one after another go with the table that they leave.
pub fn typed_programs_are_whole()
    ensures { TypedProgramsAreWhole }
{}

/// Modules that follow the rules have typed modules.
pub fn typed_modules_are_given()
    ensures { TypedModulesAreGiven }
{}
