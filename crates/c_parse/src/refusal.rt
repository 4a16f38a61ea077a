//! Why a part isn't read.

ghost use Rattle.std.specs.Prelude.{◌≡◌};

use c_tree::Token;
use std::alloc::AllocError;

/// Why a part isn't read: the tokens from the first one on with which nothing goes on, or with which only
/// what is too high goes on.
#[derive(Clone, Copy)]
pub enum Refusal<'a> {
    Memory,
    Wrong(&'a [Token]),
    Deep(&'a [Token]),
}

impl<'a> From<AllocError> for Refusal<'a> {
    ghost use Rattle.c_parse.specs.declared.refusal.Refusal.TheVariants.{Memory};

    ghost from_gives = { λ _ e. e ≡ Memory };

    fn from(_: AllocError) -> Refusal<'a> {
        Refusal::Memory
    }
}
