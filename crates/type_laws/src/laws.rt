//! The law of typed modules.

ghost use Rattle.type_laws.specs.Laws.{TypedModulesAreBound};

/// Each function of a module that the typing rules give is bound: each parameter and local that is named is
/// declared before, as a variable or an array, locals are numbered in the order of their declarators, and what
/// is used as a value has one.
pub fn typed_modules_are_bound()
    ensures { TypedModulesAreBound }
{}
