//! What can be wrong with a routine.
ghost use Rattle.std.specs.Prelude.{◌≡◌, [], ◌∷◌};
ghost use Rattle.il_check.specs.Conditions.{first_broken};

use thiserror::Error;

/// The first condition of a valid routine that is broken: the first in the order of the text, and of several
/// at one instruction or end the first in this order.
#[derive(Clone, Copy, Debug, Drop, PartialEq, Eq, Error)]
pub enum Flaw {
    /// There are more parameters than registers.
    #[error("more parameters than registers")]
    Params,
    /// There is no such register, or a `clear` goes past the last one.
    #[error("no such register")]
    Register,
    /// There is no such local array, or a `clear` goes past the last one.
    #[error("no such local array")]
    Array,
    /// The PID isn't an object's.
    #[error("a PID that isn't an object's")]
    Object,
    /// The PID isn't a routine's.
    #[error("a PID that isn't a routine's")]
    Callee,
    /// A call has another number of arguments than its callee has parameters.
    #[error("a call with another number of arguments")]
    Arguments,
    /// A call wants a value that its callee doesn't give, or drops one without a destination.
    #[error("a call that wants a value which isn't given, or drops one")]
    Result,
    /// A jump or a branch doesn't go to a later block, or a loop goes to a later one, or there is no block.
    #[error("a jump or a loop to a block where it may not go, or no block")]
    Target,
    /// A return has a register where the routine gives no value, or none where it gives one.
    #[error("a return with a value where there is none, or without one")]
    ReturnKind,
}

/// The first of two conditions that isn't met: the registers exist, and another one.
pub(crate) fn flaw_unless(registers: bool, other: bool, flaw: Flaw) -> Option<Flaw>
    ensures { result ≡ first_broken ((registers, Flaw.Register) ∷ (other, flaw) ∷ []) }
{
    if !registers {
        Some(Flaw::Register)
    } else if !other {
        Some(flaw)
    } else {
        None
    }
}
