//! The blocks that are reachable from the first.
ghost use Rattle.std.specs.Prelude.{◌≡◌, ◌<◌, length, IfOk, OnOk, slice_set, true};
ghost use Rattle.il_core.specs.Operands.{targets};
ghost use Rattle.cleanup.specs.Marks.{NamesBlocks, EndsName, AreLeast, seen, noted, noted_all};

use il_core::{Block, End};
use std::alloc::{AllocError, Global};

/// Marks of the blocks that are reachable from the first. It takes time in proportion to the blocks.
pub(crate) fn reach(alloc: Global, blocks: &[Block]) -> Result<Vec<bool>, AllocError>
    requires some { 0 < length blocks.now }
    requires inside { EndsName (length blocks.now) blocks.now }
    ensures { IfOk result (λ v. AreLeast blocks.now v.items) }
{
    let mut marks = vec![in alloc; false; blocks.len()]?;
    let mut found = Vec::with_capacity(alloc, blocks.len())?;
    find(marks.as_mut_slice(), &mut found, 0)?;
    let mut next = 0;
    'spread: while next < found.len() {
        let end = blocks[found[next] as usize].end;
        find_targets(marks.as_mut_slice(), &mut found, end)?;
        next += 1;
    }
    Ok(marks)
}

/// Marks the blocks that an end names, and notes those that weren't marked.
fn find_targets(marks: &mut [bool], found: &mut Vec<u32>, end: End) -> Result<(), AllocError>
    requires { NamesBlocks (length marks.old) end }
    ensures marks { OnOk result (marks.new ≡ seen (targets end) marks.old) }
    ensures found { OnOk result (found.new.items ≡ noted_all (targets end) marks.old found.old.items) }
{
    match end {
        End::Jump(t) | End::Loop(t) => find(marks, found, t),
        End::Branch(_, t, u) => {
            find(marks, found, t)?;
            find(marks, found, u)
        }
        End::Return(_) | End::Exit(_) => Ok(()),
    }
}

/// Marks a block, and notes it where it wasn't marked.
fn find(marks: &mut [bool], found: &mut Vec<u32>, t: u32) -> Result<(), AllocError>
    requires { t < length marks.old }
    ensures marks { OnOk result (marks.new ≡ slice_set marks.old t true) }
    ensures found { OnOk result (found.new.items ≡ noted t marks.old found.old.items) }
{
    let was = marks[t as usize];
    marks[t as usize] = true;
    if was {
        return Ok(());
    }
    found.push(t)?;
    Ok(())
}
