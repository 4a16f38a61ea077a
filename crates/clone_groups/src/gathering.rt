//! Call sites that may go to one clone, found by their keys.
ghost use Rattle.std.specs.Prelude.{◌≡◌, ◌∷◌, [], ◌++◌, ◌^◌, ◌<◌, ◌≤◌, ℕ, List, Option, length, map, IfOk, OnOk};
ghost use Rattle.std.specs.Option.{option_map};
ghost use Rattle.std.specs.List.{AllByRecursion};
ghost use Rattle.il_core.specs.Limits.{max_size};
ghost use Rattle.const_prop.specs.Sites.{words_at};
ghost use Rattle.plan_laws.specs.Choosing.{is_candidate};
ghost use Rattle.plan_laws.specs.Groups.{fixed_at as fixed_one, fixed_from, grouped, joined};
ghost use Rattle.plan_laws.specs.Summary.{call_sites, numbered};
ghost use Rattle.call_graph.specs.Summaries.{site_of, summary_of};
ghost use Rattle.clone_groups.specs.Gathering.{IsSmall, all_joined, groups_in, no_sites, site_at, site_by, with_site};
ghost use Rattle.clone_groups.specs.Keys.{fixed_in};
ghost use Rattle.clone_groups.specs.Places.{Finds};

use crate::keys::CloneKey;
use crate::places::find;
use call_graph::{Site, Summary};
use hlo_num::Word;
use indexmap::IndexMap;
use std::alloc::{AllocError, Global};
use std::marker::Model;

/// The call sites with one key.
#[derive(Drop)]
pub(crate) struct KeySites {
    /// Their callers and their numbers there, the last one first.
    members: Vec<(u32, u32)>,
    /// The sum of their counts.
    count: u128,
}

impl Model for KeySites {
    ghost use Rattle.std.specs.Prelude.{◌*◌, ◌^◌, ◌≤◌, length, reverse};
    ghost use Rattle.clone_groups.specs.Gathering.{Joint};

    ghost Value = { Joint };

    ghost view = { λ s. record { members = reverse s.members.items; count = s.count } };

    ghost invariant = { λ s. s.count ≤ length s.members.items * 2 ^ 32 };
}

impl KeySites {
    fn new(alloc: Global) -> KeySites
        ensures { result ≡ no_sites }
    {
        KeySites {
            members: Vec::new(alloc),
            count: 0,
        }
    }

    /// The sum of the counts.
    pub(crate) fn count(&self) -> u128
        ensures { result ≡ self.now.count }
    {
        self.count
    }

    /// The callers with their sites, in order.
    pub(crate) fn into_members(self) -> Vec<(u32, u32)>
        ensures { result.items ≡ self.members }
    {
        let KeySites { mut members, .. } = self;
        members.reverse();
        members
    }

    /// Adds a site before the others.
    fn add(&mut self, caller: u32, site: u32, count: u32) -> Result<(), AllocError>
        ensures { OnOk result (self.new ≡ with_site caller site count self.old) }
    {
        self.members.push((caller, site))?;
        self.count += u128::from(count);
        Ok(())
    }
}

/// The sites of routines by their keys.
pub(crate) fn gather(
    alloc: Global,
    routines: &[Summary],
    places: &[Option<usize>],
    main: u32,
) -> Result<IndexMap<CloneKey, KeySites>, AllocError>
    requires few { AllByRecursion IsSmall (map summary_of routines.now) }
    requires finds { Finds places.now (map summary_of routines.now) }
    ensures { IfOk result (λ m. groups_in m.entries ≡ grouped (map summary_of routines.now) main (call_sites (map summary_of routines.now))) }
{
    let mut groups = IndexMap::new(alloc);
    let mut left = routines;
    while let Some((caller, before)) = left.split_last() {
        join_sites(alloc, &mut groups, routines, places, main, caller)?;
        left = before;
    }
    Ok(groups)
}

/// Joins the sites of a caller to the groups, the last one first.
fn join_sites(
    alloc: Global,
    groups: &mut IndexMap<CloneKey, KeySites>,
    routines: &[Summary],
    places: &[Option<usize>],
    main: u32,
    caller: &Summary,
) -> Result<(), AllocError>
    requires few { AllByRecursion IsSmall (map summary_of routines.now) }
    requires sites { length caller.now.sites ≤ max_size }
    requires finds { Finds places.now (map summary_of routines.now) }
    ensures { OnOk result (groups_in groups.new.entries ≡ all_joined (map summary_of routines.now) main
        (numbered caller.now.pid 0 (map site_of caller.now.sites)) (groups_in groups.old.entries)) }
{
    let mut left = caller.sites.as_slice();
    while let Some((site, before)) = left.split_last() {
        join_site(
            alloc,
            groups,
            routines,
            places,
            main,
            caller.pid,
            before.len() as u32,
            site,
        )?;
        left = before;
    }
    Ok(())
}

/// Joins a site to the groups, where it may go to a clone.
fn join_site(
    alloc: Global,
    groups: &mut IndexMap<CloneKey, KeySites>,
    routines: &[Summary],
    places: &[Option<usize>],
    main: u32,
    caller: u32,
    number: u32,
    site: &Site,
) -> Result<(), AllocError>
    requires few { AllByRecursion IsSmall (map summary_of routines.now) }
    requires finds { Finds places.now (map summary_of routines.now) }
    ensures { OnOk result (groups_in groups.new.entries ≡ all_joined (map summary_of routines.now) main (site_at caller number site.now ∷ [])
        (groups_in groups.old.entries)) }
{
    if !may_call_clone(main, site) {
        return Ok(());
    }
    let Some(callee) = find(routines, places, site.callee) else {
        return Ok(());
    };
    let fixed = fixed_at(alloc, callee.reads.as_slice(), site.known.as_slice())?;
    if fixed.is_empty() {
        return Ok(());
    }
    let key = CloneKey {
        callee: site.callee,
        fixed,
    };
    join(alloc, groups, key, caller, number, site.count)
}

/// Whether a site doesn't call `main`, and was ever passed.
fn may_call_clone(main: u32, site: &Site) -> bool
    ensures { (caller number : ℕ) → result ≡ is_candidate main (site_at caller number site.now) }
{
    site.callee != main && site.count > 0
}

/// The parameters that are read and known, each with its constant.
fn fixed_at(
    alloc: Global,
    reads: &[bool],
    known: &[Option<Word>],
) -> Result<Vec<(u32, u32)>, AllocError>
    requires { length reads.now < 2 ^ 32 }
    ensures { IfOk result (λ v. fixed_in v.items ≡ fixed_from 0 reads.now (words_at known.now)) }
{
    let mut fixed = Vec::new(alloc);
    let mut param = 0;
    let mut left = known;
    for is_read in reads {
        let Some((word, rest)) = left.split_first() else {
            return Ok(fixed);
        };
        add_fixed(&mut fixed, param, *is_read, *word)?;
        param += 1;
        left = rest;
    }
    Ok(fixed)
}

/// Adds a parameter with its constant, where it is read and known.
fn add_fixed(
    fixed: &mut Vec<(u32, u32)>,
    param: u32,
    is_read: bool,
    known: Option<Word>,
) -> Result<(), AllocError>
    ensures { OnOk result (fixed_in fixed.new.items ≡ fixed_in fixed.old.items ++ fixed_one param is_read (option_map (λ w. w.0) known) []) }
{
    if let Some(word) = known {
        if is_read {
            fixed.push((param, word.0))?;
        }
    }
    Ok(())
}

/// Joins a site to the group of its key, or makes its group, behind the others.
fn join(
    alloc: Global,
    groups: &mut IndexMap<CloneKey, KeySites>,
    key: CloneKey,
    caller: u32,
    number: u32,
    count: u32,
) -> Result<(), AllocError>
    ensures { (known : List (Option ℕ))
        → OnOk result (groups_in groups.new.entries ≡ joined (site_by key caller number count known) (fixed_in key.fixed.items)
        (groups_in groups.old.entries)) }
{
    match groups.get_index_of(&key) {
        Some(at) => {
            let sites = groups.get_index_mut(at).unwrap();
            sites.add(caller, number, count)
        }
        None => {
            let mut sites = KeySites::new(alloc);
            sites.add(caller, number, count)?;
            match groups.insert(key, sites) {
                Ok(_) => Ok(()),
                Err(_) => Err(AllocError),
            }
        }
    }
}
