//! Arrays that stand side by side.
ghost use Rattle.std.specs.Prelude.{◌≡◌, ◌+◌, ◌^◌, ◌<◌, ◌≤◌, IfOk, MatchResult, length, sum, slice_index};
ghost use Rattle.hlo_num.specs.declared.word.Trap.TheVariants.{Index};
ghost use Rattle.il_core.specs.Limits.{max_pids};
ghost use Rattle.il_run.specs.Words.{AreStarts, start_of};

use hlo_num::Trap;
use std::alloc::{AllocError, Global};

/// How many elements each array has, and where it begins among the elements of all.
#[derive(Drop)]
pub struct Layout {
    pub sizes: Vec<u32>,
    /// One more than there are arrays: the last is the number of all elements.
    pub starts: Vec<usize>,
}

impl Layout {
    /// The layout of arrays of these lengths, in time linear in their number.
    pub fn new(alloc: Global, sizes: Vec<u32>) -> Result<Layout, AllocError>
        requires { length sizes.items ≤ max_pids }
        ensures sizes { IfOk result (λ l. l.sizes.items ≡ sizes.items) }
        ensures starts { IfOk result (λ l. AreStarts sizes.items l.starts.items) }
    {
        let starts = starts_of(alloc, &sizes)?;
        Ok(Layout { sizes, starts })
    }

    /// How many elements there are in all.
    pub fn total(&self) -> usize
        requires { AreStarts self.now.sizes.items self.now.starts.items }
        ensures { result ≡ sum self.now.sizes.items }
    {
        self.starts[self.sizes.len()]
    }

    /// Where an element of an array is among all elements, or a trap where its index isn't below the
    /// array's length.
    #[inline]
    pub fn find(&self, array: u32, index: u32) -> Result<usize, Trap>
        requires starts { AreStarts self.now.sizes.items self.now.starts.items }
        requires array { array < length self.now.sizes.items }
        requires few { sum self.now.sizes.items < 2 ^ 63 }
        ensures { MatchResult result (λ at. (index < slice_index self.now.sizes.items array) × (at ≡ start_of self.now.sizes.items array + index))
            (λ t. (t ≡ Index) × (slice_index self.now.sizes.items array ≤ index)) }
    {
        let array = array as usize;
        if self.sizes[array] <= index {
            return Err(Trap::Index);
        }
        Ok(self.starts[array] + index as usize)
    }
}

fn starts_of(alloc: Global, sizes: &[u32]) -> Result<Vec<usize>, AllocError>
    requires { length sizes.now ≤ max_pids }
    ensures { IfOk result (λ v. AreStarts sizes.now v.items) }
{
    let mut starts = Vec::with_capacity(alloc, sizes.len() + 1)?;
    let mut at = 0;
    starts.push(0)?;
    for size in sizes {
        at += *size as usize;
        starts.push(at)?;
    }
    Ok(starts)
}
