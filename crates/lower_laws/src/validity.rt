//! The law of valid routines.

ghost use Rattle.lower_laws.specs.ValidityLaws.{LoweredIsValid};

/// The routine of a function whose names are bound and stand for what the program has is valid.
pub fn lowered_is_valid()
    ensures { LoweredIsValid }
{}
