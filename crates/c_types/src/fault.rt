//! Why a module is refused by the rules of types and linkage.

use std::alloc::{AllocError, AllocFailed};
use thiserror::Error;

/// Why a module isn't typed.
#[derive(Clone, Copy, Debug, Drop, PartialEq, Eq, Error)]
pub enum TypeFault {
    /// The first rule that is broken, with the line of the name or token that it is about.
    #[error("line {line}: {kind}")]
    At { line: u32, kind: TypeKind },
    /// Memory ended.
    #[error("out of memory")]
    Memory,
}

impl From<AllocError> for TypeFault {
    ghost use Rattle.std.specs.Prelude.{◌≡◌};
    ghost use Rattle.c_types.specs.declared.fault.TypeFault.TheVariants.{Memory};

    ghost from_gives = { λ e f. f ≡ Memory };

    fn from(_: AllocError) -> TypeFault {
        TypeFault::Memory
    }
}

impl<T: Drop> From<AllocFailed<T>> for TypeFault {
    ghost use Rattle.std.specs.Prelude.{◌≡◌};
    ghost use Rattle.c_types.specs.declared.fault.TypeFault.TheVariants.{Memory};

    ghost from_gives = { λ _ e. e ≡ Memory };

    fn from(_: AllocFailed<T>) -> TypeFault {
        TypeFault::Memory
    }
}

/// The rules that a module may break (ISO C90, 6.1.2, 6.3 to 6.7).
#[derive(Clone, Copy, Debug, Drop, PartialEq, Eq, Error)]
pub enum TypeKind {
    /// Specifiers that don't go together, or not here; an object of type void; a declaration of nothing.
    #[error("specifiers that don't go together, or not here")]
    Specifiers,
    /// A name or tag without a declaration.
    #[error("a name or tag without a declaration")]
    Undeclared,
    /// A second declaration in one scope.
    #[error("a second declaration in one scope")]
    Redeclared,
    /// A name that other modules declare as something else.
    #[error("a name that another module declares as something else")]
    TypeClash,
    /// A name that is defined already.
    #[error("a name that is defined already")]
    Duplicate,
    /// A name with external and with internal linkage.
    #[error("a name with external and with internal linkage")]
    Linkage,
    /// A name of the library that is defined, or declared as something else.
    #[error("a name of the library that is defined, or declared as something else")]
    Library,
    /// A length that an array can't have, or a length that isn't given.
    #[error("a length that no array has, or that isn't given")]
    ArraySize,
    /// An initialiser that doesn't fit what it is for.
    #[error("an initialiser that doesn't fit")]
    Initialiser,
    /// Too many names, routines, parameters or array elements.
    #[error("too many names, routines, parameters or array elements")]
    TooMany,
    /// An expression that isn't constant where one is wanted.
    #[error("an expression that isn't constant")]
    NotConstant,
    /// A constant expression that has no value.
    #[error("a constant expression without a value")]
    ConstTrap,
    /// A value of an enumeration that int doesn't hold.
    #[error("a value of an enumeration that int doesn't hold")]
    EnumRange,
    /// A function or an array used as a value, or a subscript on no array.
    #[error("a function or an array used as a value, or a subscript on no array")]
    NotObject,
    /// A call of no function.
    #[error("a call of no function")]
    NotFunction,
    /// A call with another number of arguments.
    #[error("a call with another number of arguments")]
    Arguments,
    /// A void expression where a value is wanted.
    #[error("a void expression where a value is wanted")]
    VoidValue,
    /// An assignment or a step on what isn't a variable or an element.
    #[error("a write to no variable or element")]
    NotLvalue,
    /// An assignment or a step on what is `const`.
    #[error("a write to what is const")]
    ConstWrite,
    /// A `break` in no loop and no switch.
    #[error("a break in no loop and no switch")]
    BreakOutside,
    /// A `continue` in no loop.
    #[error("a continue in no loop")]
    ContinueOutside,
    /// A case label that stands neither directly in a switch's block nor right after another such label.
    #[error("a label that no switch has directly")]
    CaseOutside,
    /// A second case label with the same value, or a second default.
    #[error("a label that the switch has already")]
    CaseRepeat,
    /// A value returned from a function without one.
    #[error("a value returned from a function without one")]
    ReturnValue,
    /// A parameter without a name in a definition.
    #[error("a parameter without a name in a definition")]
    NoName,
}
