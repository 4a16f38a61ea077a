//! What makes calls of one clone: their callee, and the constants of its parameters.
ghost use Rattle.std.specs.Prelude.{◌≡◌, IfOk};
ghost use Rattle.clone_groups.specs.Fixing.{fixed_of};
ghost use Rattle.clone_groups.specs.Keys.{fixed_in, pairs_of};

use hlo_num::Word;
use std::alloc::{AllocError, Global};

/// A callee, and constants of its parameters.
#[derive(Drop, PartialEq, Eq, PartialOrd, Ord, Hash)]
pub(crate) struct CloneKey {
    pub(crate) callee: u32,
    /// Parameters, rising, each with its constant as a number, by which constants are compared.
    pub(crate) fixed: Vec<(u32, u32)>,
}

/// The constants as numbers.
pub(crate) fn numbers_of(
    alloc: Global,
    fixed: &[(u32, Word)],
) -> Result<Vec<(u32, u32)>, AllocError>
    ensures { IfOk result (λ v. fixed_in v.items ≡ fixed_of fixed.now) }
{
    let mut numbers = Vec::with_capacity(alloc, fixed.len())?;
    for (param, word) in fixed {
        numbers.push((*param, word.0))?;
    }
    Ok(numbers)
}

/// The numbers as constants.
pub(crate) fn words_of(alloc: Global, fixed: &[(u32, u32)]) -> Result<Vec<(u32, Word)>, AllocError>
    ensures { IfOk result (λ v. v.items ≡ pairs_of (fixed_in fixed.now)) }
{
    let mut words = Vec::with_capacity(alloc, fixed.len())?;
    for (param, number) in fixed {
        words.push((*param, Word(*number)))?;
    }
    Ok(words)
}
