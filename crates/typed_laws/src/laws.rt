//! The laws of typed trees.

ghost use Rattle.typed_laws.specs.Laws.{TypedModulesAreWellTyped, TypedProgramsAreWellTyped, WellTypedStays};

use program_laws::typed_programs_are_whole;

/// Each function of a module that the typing rules give is well typed with the table that the module leaves, and
/// the table has grown.
pub fn typed_modules_are_well_typed()
    ensures { TypedModulesAreWellTyped }
{}

/// A well-typed function stays well typed as the table grows.
pub fn well_typed_stays()
    ensures { WellTypedStays }
{}

/// Modules that follow the rules one after another are well typed with the table that the last one leaves: their
/// functions, and what the table says of functions and objects.
pub fn typed_programs_are_well_typed()
    ensures { TypedProgramsAreWellTyped }
{
    typed_programs_are_whole();
}
