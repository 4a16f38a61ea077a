//! Profiles.
ghost use Rattle.std.specs.Prelude.{◌≡◌, true, is_some};

use crate::telling::tell_numbers;
use hlo_num::Name;
use profile::{ProfFault, Profile, read, scale, write};
use std::alloc::{AllocError, Global};

/// Puts behind what is shown what `rewrite` makes of a profile's text, what `scale COUNT SITE ENTRY` gives, or the profile of
/// `count SITE COUNT ENTRIES`, which sets the count of a site of the routine `f`, and then its entries; false for another word.
pub(crate) fn tell_profile(
    alloc: Global,
    word: &str,
    numbers: &[u32],
    text: &[u8],
    shown: &mut Vec<u8>,
) -> Result<bool, AllocError> {
    match (word, numbers) {
        ("rewrite", []) => rewrite(alloc, text, shown)?,
        ("scale", [count, site, entry]) => tell_numbers(&[scale(*count, *site, *entry)], shown)?,
        ("count", [site, count, entries]) => set_counts(alloc, *site, *count, *entries, shown)?,
        _ => return Ok(false),
    }
    Ok(true)
}

/// The text of the profile that this text is read as, or the first line that doesn't fit.
fn rewrite(alloc: Global, text: &[u8], shown: &mut Vec<u8>) -> Result<(), AllocError> {
    match read(alloc, text) {
        Ok(profile) => show(alloc, &profile, shown),
        Err(ProfFault::Line(line)) => {
            shown.extend_from_slice(b"line")?;
            tell_numbers(&[line], shown)
        }
        Err(ProfFault::Memory) => Err(AllocError),
    }
}

/// The profile where a site of `f` has a count, and then `f` its entries.
fn set_counts(
    alloc: Global,
    site: u32,
    count: u32,
    entries: u32,
    shown: &mut Vec<u8>,
) -> Result<(), AllocError> {
    let name = Name::new(alloc, b"f")?;
    let mut profile = Profile::empty(alloc);
    profile.set_site(&name, site, count)?;
    profile.set_entry(&name, entries)?;
    show(alloc, &profile, shown)
}

/// Puts the text of a profile behind what is shown.
fn show(alloc: Global, profile: &Profile, shown: &mut Vec<u8>) -> Result<(), AllocError>
    requires { is_some profile.now ≡ true }
{
    let text = write(alloc, profile)?;
    shown.extend_from_slice(text.as_slice())
}
