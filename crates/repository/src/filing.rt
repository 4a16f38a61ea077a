//! Records on a disk, each kept with its digest.
ghost use Rattle.std.specs.Prelude.{◌≡◌, ◌+◌, ◌^◌, ◌<◌, ◌≤◌, List, ℕ, IfErr, IfOk, IsTrue, length};
ghost use Rattle.outside.specs.Faults.{HasCause};
ghost use Rattle.sha2.specs.Sha256.{sha256};
ghost use Rattle.repository.specs.Record.{HasBytes, WritesRange};
ghost use Rattle.repository.specs.Filing.{record_of, IsCountedFault, FetchFault, FetchesRecord, GivesFiled, ReadFault, ReadsRecord};

use crate::places::{read_range, write_range};
use outside::{Disk, Failed};
use sha2::{Digest, Sha256};
use std::alloc::{AllocError, Global};
use thiserror::Error;

/// Where bytes were filed: their first place, how many they are, and their SHA-256.
#[derive(Clone, Copy, Debug, PartialEq, Eq)]
pub struct Filed {
    pub place: u64,
    pub len: u32,
    pub digest: [u8; 32],
}

/// Why bytes weren't filed or fetched.
#[derive(Clone, Copy, Debug, Drop, PartialEq, Eq, Error)]
pub enum RepoFault {
    /// The disk failed; its count rose.
    #[error("the disk failed")]
    Failed,
    /// The bytes read have another SHA-256 than the one that was kept.
    #[error("the record has other bytes than those filed")]
    Damaged { kept: [u8; 32], found: [u8; 32] },
    /// Memory ran out.
    #[error("out of memory")]
    Memory,
}

impl From<Failed> for RepoFault {
    ghost use Rattle.std.specs.Prelude.{◌≡◌};
    ghost use Rattle.repository.specs.declared.filing.RepoFault.TheVariants.{Failed as failed};

    ghost from_gives = { λ _ e. e ≡ failed };

    fn from(_fault: Failed) -> RepoFault {
        RepoFault::Failed
    }
}

impl From<AllocError> for RepoFault {
    ghost use Rattle.std.specs.Prelude.{◌≡◌};
    ghost use Rattle.repository.specs.declared.filing.RepoFault.TheVariants.{Memory};

    ghost from_gives = { λ _ e. e ≡ Memory };

    fn from(_fault: AllocError) -> RepoFault {
        RepoFault::Memory
    }
}

/// Files `b` at `place`: writes it there, and answers the record to fetch it by.
///
/// It takes no memory. Its only error is `Failed`, where the disk's count rose in this call; a front
/// of `b` may then lie at its places. It asks the disk only for the record's own places, and takes
/// time linear in `b`.
pub fn file<D: Disk>(d: &mut D, place: u64, b: &[u8]) -> Result<Filed, RepoFault>
    requires short { length b.now < 2 ^ 32 }
    requires within { place + length b.now < 2 ^ 64 }
    ensures record { IfOk result (λ f. f ≡ record_of place b.now) }
    ensures fault { IfErr result (IsCountedFault (D.faults d.old) (D.faults d.new)) }
    ensures later { D.faults d.old ≤ D.faults d.new }
    ensures kept_reach { D.reach d.new ≡ D.reach d.old }
    ensures places { IsTrue (D.honest d.old) → place + length b.now ≤ D.reach d.old
        → WritesRange (D.bytes d.old) (D.bytes d.new) (D.honest d.new) place result b.now }
{
    write_range(d, place, b)?;
    Ok(Filed {
        place,
        len: b.len() as u32,
        digest: Sha256::digest(b),
    })
}

/// Fetches what was filed: reads the record's bytes, and hands them out only where they have the
/// kept SHA-256.
///
/// `Failed` comes only where the disk's count rose in this call, and `Damaged` exactly where the
/// bytes read have another SHA-256; it carries both. It asks the disk only for the record's own
/// places, and takes time linear in the record.
pub fn fetch<D: Disk>(alloc: Global, d: &mut D, f: &Filed) -> Result<Vec<u8>, RepoFault>
    requires { f.now.place + f.now.len < 2 ^ 64 }
    ensures length { IfOk result (λ v. length v.items ≡ f.now.len) }
    ensures digest { IfOk result (λ v. sha256 v.items ≡ f.now.digest) }
    ensures fault { IfErr result (FetchFault f.now (D.faults d.old) (D.faults d.new)) }
    ensures later { D.faults d.old ≤ D.faults d.new }
    ensures kept_reach { D.reach d.new ≡ D.reach d.old }
    ensures places { IsTrue (D.honest d.old) → f.now.place + f.now.len ≤ D.reach d.old
        → FetchesRecord (D.bytes d.old) (D.bytes d.new) (D.honest d.new) f.now result }

    // What was filed comes back as long as its places still have it.
    ensures filed { (bytes : List ℕ) → IsTrue (D.honest d.old) → f.now.place + f.now.len ≤ D.reach d.old
        → f.now ≡ record_of f.now.place bytes → HasBytes (D.bytes d.old) f.now.place bytes → GivesFiled result bytes }
{
    let v = read_record(alloc, d, f)?;
    let found = Sha256::digest(v.as_slice());
    if found.as_slice() != f.digest.as_slice() {
        return Err(RepoFault::Damaged {
            kept: f.digest,
            found,
        });
    }
    Ok(v)
}

/// The bytes at a record's places, whatever their digest.
fn read_record<D: Disk>(alloc: Global, d: &mut D, f: &Filed) -> Result<Vec<u8>, RepoFault>
    requires { f.now.place + f.now.len < 2 ^ 64 }
    ensures length { IfOk result (λ v. length v.items ≡ f.now.len) }
    ensures fault { IfErr result (ReadFault (D.faults d.old) (D.faults d.new)) }
    ensures later { D.faults d.old ≤ D.faults d.new }
    ensures kept_reach { D.reach d.new ≡ D.reach d.old }
    ensures places { IsTrue (D.honest d.old) → f.now.place + f.now.len ≤ D.reach d.old
        → ReadsRecord (D.bytes d.old) (D.bytes d.new) (D.honest d.new) f.now.place result }
{
    let mut v = vec![in alloc; 0; f.len as usize]?;
    read_range(d, f.place, &mut v)?;
    Ok(v)
}
