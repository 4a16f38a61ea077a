//! Writing the text of a profile.
ghost use Rattle.std.specs.Prelude.{◌≡◌, ◌++◌, ◌∷◌, [], ℕ, IfOk, true};
ghost use Rattle.std.specs.Fmt.{decimal};
ghost use Rattle.std.specs.Option.{is_some};
ghost use Rattle.std.specs.List.{IsDistinct};
ghost use Rattle.std.specs.Map.{keys_of};
ghost use Rattle.profile.specs.Counts.{Profiled};
ghost use Rattle.profile.specs.Names.{same_name};
ghost use Rattle.profile.specs.Reading.{IsReadAs};
ghost use Rattle.profile.specs.Texts as texts;
ghost use Rattle.profile.specs.Texts.{DoesNotFit};
ghost use Rattle.profile.specs.Writing.{Adds, AddsName, AddsNames, IsSameProfile, IsWritten, site_lines};

use crate::counts::Profile;
use crate::tally::Tally;
use hlo_num::Name;
use indexmap::IndexMap;
use itoa::Buffer;
use std::alloc::{AllocError, Global};

/// The text of a profile, which [`crate::read`] reads: the names in the order in which they were first named, each with
/// a line `entry NAME COUNT`, also where that count is 0, and a line `site NAME K COUNT` for each of its call sites, by
/// rising K. It asks that the profile isn't flat. What `read` gives of it is the same profile, unless memory runs out.
///
/// It takes time in proportion to the bytes, and to the call sites of each name by the logarithm of their number; memory
/// for the bytes and the call sites of one name.
pub fn write(alloc: Global, p: &Profile) -> Result<Vec<u8>, AllocError>
    requires { is_some p.now ≡ true }
    ensures text { IfOk result (λ b. IsWritten b.items p.now) }
    ensures read { IfOk result (λ b. (q : Profiled) → IsReadAs b.items q → IsSameProfile p.now q) }
    ensures fits { IfOk result (λ b. (n : ℕ) → DoesNotFit b.items n → ⊥) }
{
    let mut out = Vec::new(alloc);
    out.extend_from_slice(b"profile 1\n")?;
    write_names(&mut out, p.names())?;
    out.extend_from_slice(b"end\n")?;
    Ok(out)
}

/// Adds the lines of all names.
fn write_names(out: &mut Vec<u8>, names: &IndexMap<Name, Tally>) -> Result<(), AllocError>
    ensures names { IsDistinct same_name (keys_of names.now.entries) }
    ensures lines { IfOk result (λ _. AddsNames names.now.entries out.old.items out.new.items) }
{
    for (name, tally) in names.iter() {
        write_name(out, name, tally)?;
    }
    Ok(())
}

/// Adds the lines of one name.
fn write_name(out: &mut Vec<u8>, name: &Name, tally: &Tally) -> Result<(), AllocError>
    ensures { IfOk result (λ _. AddsName name.now tally.now out.old.items out.new.items) }
{
    let sites = tally.sites_by_number(*out.allocator())?;
    write_entry(out, name, tally.entry())?;
    write_sites(out, name, sites.as_slice())
}

/// Adds the line of a routine's entry.
fn write_entry(out: &mut Vec<u8>, name: &Name, count: u32) -> Result<(), AllocError>
    ensures line { IfOk result (λ _. texts.IsLine (texts.Entry name.now count)) }
    ensures bytes { IfOk result (λ _. out.new.items ≡ out.old.items ++ (texts.line_bytes (texts.Entry name.now count) ++ 10 ∷ [])) }
{
    out.extend_from_slice(b"entry ")?;
    out.extend_from_slice(name.bytes())?;
    write_number(out, count)?;
    out.push(b'\n')?;
    Ok(())
}

/// Adds the lines of call sites.
fn write_sites(out: &mut Vec<u8>, name: &Name, sites: &[(u32, u32)]) -> Result<(), AllocError>
    ensures { IfOk result (λ _. Adds (site_lines name.now sites.now) out.old.items out.new.items) }
{
    for (k, count) in sites {
        write_site(out, name, *k, *count)?;
    }
    Ok(())
}

/// Adds the line of a call site.
fn write_site(out: &mut Vec<u8>, name: &Name, k: u32, count: u32) -> Result<(), AllocError>
    ensures line { IfOk result (λ _. texts.IsLine (texts.Site name.now k count)) }
    ensures bytes { IfOk result (λ _. out.new.items ≡ out.old.items ++ (texts.line_bytes (texts.Site name.now k count) ++ 10 ∷ [])) }
{
    out.extend_from_slice(b"site ")?;
    out.extend_from_slice(name.bytes())?;
    write_number(out, k)?;
    write_number(out, count)?;
    out.push(b'\n')?;
    Ok(())
}

/// Adds a number behind a space.
fn write_number(out: &mut Vec<u8>, number: u32) -> Result<(), AllocError>
    ensures { IfOk result (λ _. out.new.items ≡ out.old.items ++ 32 ∷ decimal number) }
{
    let mut buffer = Buffer::new();
    out.push(b' ')?;
    out.extend_from_slice(buffer.format(number).as_bytes())
}
