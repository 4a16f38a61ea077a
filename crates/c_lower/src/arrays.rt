//! The local arrays of a function.
ghost use Rattle.std.specs.Prelude.{◌≡◌, IfOk};
ghost use Rattle.lower_laws.specs.Functions.{array_lengths};
ghost use Rattle.c_lower.specs.Lowering as specs;

use crate::fault::LowerFault;
use crate::writer::after;
use c_typed::Local;
use std::alloc::Global;

/// How long the arrays among locals are.
pub(crate) fn array_lengths(alloc: Global, locals: &[Local]) -> Result<Vec<u32>, LowerFault>
    ensures { IfOk result (λ v. v.items ≡ array_lengths locals.now) }
{
    let mut lengths = Vec::new(alloc);
    for local in locals {
        if let Some(length) = local.length {
            lengths.push(length)?;
        }
    }
    Ok(lengths)
}

/// How many arrays are before each of the locals.
pub(crate) fn array_places(alloc: Global, locals: &[Local]) -> Result<Vec<u32>, LowerFault>
    ensures { IfOk result (λ v. v.items ≡ specs.array_places locals.now 0) }
{
    let mut places = Vec::new(alloc);
    let mut count = 0;
    for local in locals {
        places.push(count)?;
        if local.length.is_some() {
            count = after(count)?;
        }
    }
    Ok(places)
}
