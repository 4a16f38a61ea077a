//! What has files to read, by name.
ghost use Rattle.std.specs.Prelude.{◌≡◌, ◌≤◌, ℕ, List, IfOk, length, Err};
ghost use Rattle.outside.specs.Faults.{HasCause, NoneFalls, Rose};
ghost use Rattle.outside.specs.Told.{Told, SameFiles, ReadsTold, IsFile, IsLongerThan};

use crate::fault::Failed;
use std::alloc::{AllocError, Global};
use thiserror::Error;

/// Has files by name, and gives their bytes.
pub trait Shelf {
    /// What it tells of the file of a name, a name being its bytes.
    ghost tells: { Self → List ℕ → Told };
    /// How many calls that asked for a name failed.
    ghost faults: { Self → List ℕ → ℕ };

    /// Fills a front of `b` with the bytes of the named file from `at` on, and answers how many
    /// bytes that were: 0 only at the file's end, and where `b` is empty. The rest of `b` may hold
    /// anything.
    fn read(&mut self, name: &str, at: u64, b: &mut [u8]) -> Result<usize, Failed>
        ensures bound { IfOk result (λ n. n ≤ length b.new) }
        ensures kept_length { length b.new ≡ length b.old }
        ensures same { SameFiles (tells self.old) (tells self.new) }
        ensures contents { ReadsTold (tells self.old name.now) at result b.new }

        // No count falls, and a failure is counted at the name that was asked.
        ensures counts { NoneFalls (faults self.old) (faults self.new) }
        ensures cause { HasCause (faults self.old name.now) (faults self.new name.now) result };
}

/// Why a file wasn't read.
#[derive(Clone, Copy, Debug, Drop, PartialEq, Eq, Error)]
pub enum ReadFault {
    /// The shelf failed; its count of the name rose.
    #[error("reading the file failed")]
    Failed,
    /// The file has more bytes than were allowed.
    #[error("the file has more bytes than are allowed")]
    TooLong,
    /// Memory ran out.
    #[error("out of memory")]
    Memory,
}

impl From<Failed> for ReadFault {
    ghost use Rattle.std.specs.Prelude.{◌≡◌};
    ghost use Rattle.outside.specs.declared.shelf.ReadFault.TheVariants.{Failed as failed};

    ghost from_gives = { λ _ e. e ≡ failed };

    fn from(_fault: Failed) -> ReadFault {
        ReadFault::Failed
    }
}

impl From<AllocError> for ReadFault {
    ghost use Rattle.std.specs.Prelude.{◌≡◌};
    ghost use Rattle.outside.specs.declared.shelf.ReadFault.TheVariants.{Memory};

    ghost from_gives = { λ _ e. e ≡ Memory };

    fn from(_fault: AllocError) -> ReadFault {
        ReadFault::Memory
    }
}

/// The greatest number of bytes that [`read_whole`] asks for in one call.
const BLOCK: usize = 4096;

/// The whole file of a name, where it has at most `max` bytes.
///
/// `Failed` comes only where the shelf's count of that name rose in this call, `TooLong` exactly
/// where the shelf gave more than `max` bytes. Of a longer file it reads at most `max` + 1 bytes. It
/// asks for at most 4,096 bytes a call, takes time linear in the bytes read, and its vector never
/// has room for more than `max` bytes.
pub fn read_whole<S: Shelf>(
    alloc: Global,
    s: &mut S,
    name: &str,
    max: u32,
) -> Result<Vec<u8>, ReadFault>
    ensures whole { IfOk result (λ v. IsFile (S.tells s.old name.now) v.items) }
    ensures size { IfOk result (λ v. length v.items ≤ max) }
    ensures too_long { result ≡ Err ReadFault.TooLong → IsLongerThan (S.tells s.old name.now) max }
    ensures failed { result ≡ Err ReadFault.Failed → Rose (S.faults s.old name.now) (S.faults s.new name.now) }
    ensures same { SameFiles (S.tells s.old) (S.tells s.new) }
    ensures counts { NoneFalls (S.faults s.old) (S.faults s.new) }
{
    let most = max as usize;
    let mut block = [0; BLOCK];
    let mut v = Vec::new(alloc);
    'rest: loop {
        let left = most - v.len();
        let asked = if left < BLOCK { left + 1 } else { BLOCK };
        let n = s.read(name, v.len() as u64, &mut block[..asked])?;
        if n == 0 {
            return Ok(v);
        }
        if left < n {
            return Err(ReadFault::TooLong);
        }
        grow(&mut v, n, left)?;
        v.extend_from_slice(&block[..n])?;
    }
}

/// Makes room for `n` more elements where it is missing: twice as much as there was, but no more
/// than `left` elements.
fn grow(v: &mut Vec<u8>, n: usize, left: usize) -> Result<(), AllocError>
    requires { n ≤ left }
    ensures items { v.new.items ≡ v.old.items }
{
    if v.capacity() - v.len() < n {
        let twice = v.len().max(n).min(left);
        v.reserve_exact(twice)?;
    }
    Ok(())
}
