//! The profile that the words of a command name.
ghost use Rattle.std.specs.Prelude.{◌≡◌, IfOk, IfErr};
ghost use Rattle.outside.specs.Faults.{NoneFalls};
ghost use Rattle.outside.specs.Told.{SameFiles};
ghost use Rattle.profile.specs.Counts.{counts_of};
ghost use Rattle.hlo_cmd.specs.Profiles.{HasCounts, HoldsProfile, IsProfileCause, IsProfileCauseOf, read_fault};

use hlo_words::FileName;
use outside::{ReadFault, Shelf, read_whole};
use profile::{ProfFault, Profile, read};
use std::alloc::Global;

/// The greatest number of bytes of a profile, 16 MiB.
const MAX_PROFILE: u32 = 1 << 24;

/// Why there is no profile.
#[derive(Clone, Copy, PartialEq, Eq)]
pub(crate) enum ProfileFault {
    /// This line, from 1, is the first one that doesn't fit; 0 stands for a file that is too long.
    Line(u32),
    /// Reading the file failed.
    CannotRead,
    /// Memory ran out.
    Memory,
}

/// The profile that is named, or the flat one where none is.
pub(crate) fn profile_for<S: Shelf>(
    alloc: Global,
    shelf: &mut S,
    name: &Option<FileName>,
) -> Result<Profile, ProfileFault>
    ensures ok { IfOk result (λ p. HasCounts (S.tells shelf.old) name.now (counts_of p)) }
    ensures err { IfErr result (λ f. IsProfileCauseOf f name.now (S.tells shelf.old) (S.faults shelf.old) (S.faults shelf.new)) }
    ensures same { SameFiles (S.tells shelf.old) (S.tells shelf.new) }
    ensures counts { NoneFalls (S.faults shelf.old) (S.faults shelf.new) }
{
    match name {
        None => Ok(Profile::flat()),
        Some(name) => read_profile(alloc, shelf, name.as_str()),
    }
}

/// The profile in a file.
fn read_profile<S: Shelf>(alloc: Global, shelf: &mut S, name: &str) -> Result<Profile, ProfileFault>
    ensures ok { IfOk result (HoldsProfile (S.tells shelf.old name.now)) }
    ensures err { IfErr result (λ f. IsProfileCause f (S.tells shelf.old name.now) (S.faults shelf.old name.now) (S.faults shelf.new name.now)) }
    ensures same { SameFiles (S.tells shelf.old) (S.tells shelf.new) }
    ensures counts { NoneFalls (S.faults shelf.old) (S.faults shelf.new) }
{
    let bytes = match read_whole(alloc, shelf, name, MAX_PROFILE) {
        Ok(bytes) => bytes,
        Err(fault) => return Err(read_fault(fault)),
    };
    match read(alloc, bytes.as_slice()) {
        Ok(profile) => Ok(profile),
        Err(ProfFault::Line(line)) => Err(ProfileFault::Line(line)),
        Err(ProfFault::Memory) => Err(ProfileFault::Memory),
    }
}

/// Why a file wasn't read.
fn read_fault(fault: ReadFault) -> ProfileFault
    ensures { result ≡ read_fault fault }
{
    match fault {
        ReadFault::Failed => ProfileFault::CannotRead,
        ReadFault::TooLong => ProfileFault::Line(0),
        ReadFault::Memory => ProfileFault::Memory,
    }
}
