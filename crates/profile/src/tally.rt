//! What is counted of one name.
ghost use Rattle.std.specs.Prelude.{◌≡◌, [], OnOk, OnErr, IfOk, IfErr, nat_eq};
ghost use Rattle.std.specs.List.{IsDistinct};
ghost use Rattle.std.specs.List.Sorted.{IsNonDecreasingBy, IsPermutation};
ghost use Rattle.std.specs.Map.{keys_of};
ghost use Rattle.indexmap.specs.IndexMap.{insert_entry};
ghost use Rattle.profile.specs.Names.{nothing, site_of};

use indexmap::IndexMap;
use std::alloc::{AllocError, Global};
use std::marker::Model;

/// How often the routine of a name is entered, and how often each of its call sites is passed.
#[derive(Drop)]
pub(crate) struct Tally {
    entry: u32,
    sites: IndexMap<u32, u32>,
}

impl Model for Tally {
    ghost use Rattle.profile.specs.Names.{Tallied};

    ghost Value = { Tallied };

    ghost view = { λ t. record { entry = t.entry; sites = t.sites.entries } };
}

impl Tally {
    /// Nothing is counted.
    pub(crate) fn new(alloc: Global) -> Tally
        ensures { result ≡ nothing }
    {
        Tally {
            entry: 0,
            sites: IndexMap::new(alloc),
        }
    }

    pub(crate) fn entry(&self) -> u32
        ensures { result ≡ self.now.entry }
    {
        self.entry
    }

    /// The count of a call site, in expected constant time.
    pub(crate) fn site(&self, k: u32) -> u32
        ensures { result ≡ site_of self.now k }
    {
        match self.sites.get(&k) {
            Some(count) => *count,
            None => 0,
        }
    }

    pub(crate) fn set_entry(&mut self, count: u32)
        ensures { self.new ≡ record self.old { entry = count } }
    {
        self.entry = count;
    }

    /// A refused call changes nothing.
    pub(crate) fn set_site(&mut self, k: u32, count: u32) -> Result<(), AllocError>
        ensures set { OnOk result (self.new ≡ record self.old { sites = insert_entry nat_eq self.old.sites k count }) }
        ensures kept { OnErr result (self.new ≡ self.old) }
    {
        match self.sites.insert(k, count) {
            Ok(_) => Ok(()),
            Err(_) => Err(AllocError),
        }
    }
    /// The call sites with their counts, by rising number. It takes memory for them, and time in proportion to their number
    /// by its logarithm.
    pub(crate) fn sites_by_number(&self, alloc: Global) -> Result<Vec<(u32, u32)>, AllocError>
        ensures each { IfOk result (λ v. IsPermutation self.now.sites v.items) }
        ensures rising { IfOk result (λ v. IsNonDecreasingBy (λ s. s.0) v.items) }
        ensures distinct { IsDistinct nat_eq (keys_of self.now.sites) }
    {
        let mut sites = Vec::with_capacity(alloc, self.sites.len())?;
        for (k, count) in self.sites.iter() {
            sites.push((*k, *count))?;
        }
        sites.sort_unstable_by_key(|site| site.0);
        Ok(sites)
    }
}
