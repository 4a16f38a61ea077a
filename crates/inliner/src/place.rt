//! Where a call site is.
ghost use Rattle.std.specs.Prelude.{◌≡◌, ◌≤◌, None};
ghost use Rattle.il_core.specs.Meaning.{sites_of};
ghost use Rattle.inliner.specs.Places.{call_place, site_place};

use il_core::{Block, Instr};

/// Where a call site is: its block, and the call's place in that.
#[derive(Clone, Copy)]
pub(crate) struct Place {
    pub block: usize,
    pub instr: usize,
}

/// Where a call site of blocks is.
pub(crate) fn place_of(blocks: &[Block], site: u32) -> Option<Place>
    ensures { result ≡ site_place 0 site blocks.now }
{
    let mut left = site as usize;
    for (b, block) in blocks.iter().enumerate() {
        let (instr, passed) = find_call(block.instrs.as_slice(), left);
        if let Some(instr) = instr {
            return Some(Place { block: b, instr });
        }
        left -= passed;
    }
    None
}

/// The place of the call before which so many others stand, and how many calls were passed.
fn find_call(instrs: &[Instr], number: usize) -> (Option<usize>, usize)
    ensures place { result.0 ≡ call_place 0 number instrs.now }
    ensures few { result.1 ≤ number }
    ensures passed { result.0 ≡ None → result.1 ≡ sites_of instrs.now }
{
    let mut passed = 0;
    for (i, instr) in instrs.iter().enumerate() {
        if let Instr::Call { .. } = instr {
            if passed == number {
                return (Some(i), passed);
            }
            passed += 1;
        }
    }
    (None, passed)
}
