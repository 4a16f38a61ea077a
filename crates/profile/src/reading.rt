//! Reading the text of a profile.
ghost use Rattle.std.specs.Prelude.{◌≡◌, true, false, [], IfOk, IfErr};
ghost use Rattle.std.specs.Option.{is_some};
ghost use Rattle.profile.specs.Reading.{IsLineFault, IsReadAs, Takes, behind_first};

use crate::counts::Profile;
use crate::fault::ProfFault;
use crate::line::{entry_line, site_line};
use hlo_num::Name;
use std::alloc::{AllocError, Global};
use text_lines::next_line;

/// The profile that a text spells: the line `profile 1`, any number of lines `entry NAME COUNT` and
/// `site NAME K COUNT`, and the line `end`, each ended by a line feed, with nothing behind. Numbers are decimal, from 0 to
/// 4294967295, without leading zeros. A later line for one count replaces an earlier one.
///
/// `Line` comes with the number, from 1, of the first line with which no text goes on; one past the last where lines are
/// missing. `Memory` comes for want of memory. It takes expected time in proportion to the bytes, and memory in
/// proportion to the counts that are set.
pub fn read(alloc: Global, b: &[u8]) -> Result<Profile, ProfFault>
    ensures ok { IfOk result (IsReadAs b.now) }
    ensures err { IfErr result (IsLineFault b.now) }
{
    let Some((first, rest)) = next_line(b) else {
        return Err(ProfFault::Line(1));
    };
    if !is_same(first, b"profile 1") {
        return Err(ProfFault::Line(1));
    }
    read_lines(alloc, rest)
}

/// The lines behind the first one.
fn read_lines(alloc: Global, b: &[u8]) -> Result<Profile, ProfFault>
    ensures ok { IfOk result (IsReadAs (behind_first b.now)) }
    ensures err { IfErr result (IsLineFault (behind_first b.now)) }
{
    let mut profile = Profile::empty(alloc);
    let mut rest = b;
    let mut number: u32 = 2;
    'lines: while let Some((line, behind)) = next_line(rest) {
        if is_same(line, b"end") {
            if is_nothing(behind) {
                return Ok(profile);
            }
            return Err(ProfFault::Line(number.saturating_add(1)));
        }
        if !take_line(alloc, &mut profile, line)? {
            return Err(ProfFault::Line(number));
        }
        rest = behind;
        number = number.saturating_add(1);
    }
    Err(ProfFault::Line(number))
}

/// Takes in a line; false where it is none.
fn take_line(alloc: Global, profile: &mut Profile, line: &[u8]) -> Result<bool, AllocError>
    requires { is_some profile.old ≡ true }
    ensures { IfOk result (λ taken. Takes taken line.now profile.old profile.new) }
{
    if let Some((name, count)) = entry_line(line) {
        let name = Name::new(alloc, name)?;
        profile.set_entry(&name, count)?;
        return Ok(true);
    }
    if let Some((name, k, count)) = site_line(line) {
        let name = Name::new(alloc, name)?;
        profile.set_site(&name, k, count)?;
        return Ok(true);
    }
    Ok(false)
}

/// Whether the bytes are these.
fn is_same(bytes: &[u8], others: &[u8]) -> bool
    ensures yes { result ≡ true → bytes.now ≡ others.now }
    ensures no { result ≡ false → bytes.now ≡ others.now → ⊥ }
{
    bytes == others
}

/// Whether there are no bytes.
fn is_nothing(bytes: &[u8]) -> bool
    ensures yes { result ≡ true → bytes.now ≡ [] }
    ensures no { result ≡ false → bytes.now ≡ [] → ⊥ }
{
    bytes.is_empty()
}
