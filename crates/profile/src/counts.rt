//! The counts of a profile.
ghost use Rattle.std.specs.Prelude.{◌≡◌, [], Some, None, OnOk, OnErr, true, false};
ghost use Rattle.std.specs.Option.{is_some, option_map};
ghost use Rattle.std.specs.Map.{lookup};
ghost use Rattle.indexmap.specs.IndexMap.{insert_entry};
ghost use Rattle.profile.specs.Counts.{counts_of, flat_counts};
ghost use Rattle.profile.specs.Names.{same_name, with_entry, with_site};

use crate::tally::Tally;
use hlo_num::Name;
use indexmap::IndexMap;
use std::alloc::{AllocError, Global};
use std::marker::Model;

/// How often the routines of a program are entered, and how often the call sites of each are passed, by their
/// program names. Counts are no part of what a program means. Contracts see the names with their counts in the
/// order in which they were first named, or none where the profile is flat; `counts_of` has the counts of all names.
#[derive(Drop)]
pub struct Profile {
    /// None where every count is 1.
    names: Option<IndexMap<Name, Tally>>,
}

impl Model for Profile {
    ghost use Rattle.profile.specs.Counts.{Profiled};
    ghost use Rattle.std.specs.Option.{option_map};

    ghost Value = { Profiled };

    ghost view = { λ p. option_map (λ m. m.entries) p.names };
}

/// Each count of the flat profile.
const FLAT_COUNT: u32 = 1;

impl Profile {
    /// The profile in which every count is 1. It takes constant time and no memory.
    pub fn flat() -> Profile
        ensures profile { result ≡ None }
        ensures counts { counts_of result ≡ flat_counts }
    {
        Profile { names: None }
    }

    /// The profile that names nothing: every count is 0. It takes constant time and no memory.
    pub fn empty(alloc: Global) -> Profile
        ensures { result ≡ Some [] }
    {
        Profile {
            names: Some(IndexMap::new(alloc)),
        }
    }

    /// How often the routine of a name is entered. It takes expected constant time and no memory.
    pub fn entry(&self, name: &Name) -> u32
        ensures { result ≡ (counts_of self.now).entry name.now }
    {
        let Some(names) = &self.names else {
            return FLAT_COUNT;
        };
        match names.get(name) {
            Some(tally) => tally.entry(),
            None => 0,
        }
    }

    /// How often the call site `k` of the routine of a name is passed, where its sites are numbered from 0 in
    /// the order of its code. It takes expected constant time and no memory.
    pub fn site(&self, name: &Name, k: u32) -> u32
        ensures { result ≡ (counts_of self.now).site name.now k }
    {
        let Some(names) = &self.names else {
            return FLAT_COUNT;
        };
        match names.get(name) {
            Some(tally) => tally.site(k),
            None => 0,
        }
    }

    /// Sets the count of a routine's entry. A name that is there keeps its place, and a new one goes last. A refused
    /// call, for want of memory, changes nothing. It takes expected constant time.
    pub fn set_entry(&mut self, name: &Name, count: u32) -> Result<(), AllocError>
        requires { is_some self.old ≡ true }
        ensures set { OnOk result (self.new ≡ option_map (with_entry name.now count) self.old) }
        ensures kept { OnErr result (self.new ≡ self.old) }
    {
        match &mut self.names {
            Some(names) => set_entry_in(names, name, count),
            None => unreachable!(),
        }
    }

    /// Sets the count of a call site, as [`Profile::set_entry`] does that of an entry.
    pub fn set_site(&mut self, name: &Name, k: u32, count: u32) -> Result<(), AllocError>
        requires { is_some self.old ≡ true }
        ensures set { OnOk result (self.new ≡ option_map (with_site name.now k count) self.old) }
        ensures kept { OnErr result (self.new ≡ self.old) }
    {
        match &mut self.names {
            Some(names) => set_site_in(names, name, k, count),
            None => unreachable!(),
        }
    }

    /// The names with their counts.
    pub(crate) fn names(&self) -> &IndexMap<Name, Tally>
        requires { is_some self.now ≡ true }
        ensures { self.now ≡ Some result.now.entries }
    {
        match &self.names {
            Some(names) => names,
            None => unreachable!(),
        }
    }
}

fn set_entry_in(
    names: &mut IndexMap<Name, Tally>,
    name: &Name,
    count: u32,
) -> Result<(), AllocError>
    ensures set { OnOk result (names.new.entries ≡ with_entry name.now count names.old.entries) }
    ensures kept { OnErr result (names.new.entries ≡ names.old.entries) }
{
    match names.get_index_of(name) {
        Some(at) => {
            let tally = names.get_index_mut(at).unwrap();
            tally.set_entry(count);
            Ok(())
        }
        None => {
            let mut tally = Tally::new(*names.allocator());
            tally.set_entry(count);
            add(names, name, tally)
        }
    }
}

fn set_site_in(
    names: &mut IndexMap<Name, Tally>,
    name: &Name,
    k: u32,
    count: u32,
) -> Result<(), AllocError>
    ensures set { OnOk result (names.new.entries ≡ with_site name.now k count names.old.entries) }
    ensures kept { OnErr result (names.new.entries ≡ names.old.entries) }
{
    match names.get_index_of(name) {
        Some(at) => {
            let tally = names.get_index_mut(at).unwrap();
            tally.set_site(k, count)
        }
        None => {
            let mut tally = Tally::new(*names.allocator());
            tally.set_site(k, count)?;
            add(names, name, tally)
        }
    }
}

/// Adds a name that is new.
fn add(names: &mut IndexMap<Name, Tally>, name: &Name, tally: Tally) -> Result<(), AllocError>
    requires { lookup (same_name name.now) names.old.entries ≡ None }
    ensures set { OnOk result (names.new.entries ≡ insert_entry same_name names.old.entries name.now tally) }
    ensures kept { OnErr result (names.new.entries ≡ names.old.entries) }
{
    let key = name.clone()?;
    match names.insert(key, tally) {
        Ok(_) => Ok(()),
        Err(_) => Err(AllocError),
    }
}
