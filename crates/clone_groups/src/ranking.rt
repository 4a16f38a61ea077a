//! Groups of call sites by rank.
ghost use Rattle.std.specs.Prelude.{◌≡◌, [], ◌∷◌, List, None, length, map, replicate, reverse, IfOk};
ghost use Rattle.std.specs.List.{AllByRecursion};
ghost use Rattle.std.specs.Ordering.{is_lt};
ghost use Rattle.il_laws.specs.Table.{Row};
ghost use Rattle.clone_groups.specs.Gathering.{groups_in};
ghost use Rattle.clone_groups.specs.Ranking.{AreRanked, HasClone, candidate_of, clone_for, group_of, rank_order};

use crate::gathering::KeySites;
use crate::keys::CloneKey;
use crate::table::{CloneRow, CloneTable};
use indexmap::IndexMap;
use std::alloc::{AllocError, Global};
use std::cmp::Ordering;

/// A group of call sites, with the clone that the table has for its key.
#[derive(Drop)]
pub(crate) struct Candidate {
    pub(crate) key: CloneKey,
    pub(crate) sites: KeySites,
    pub(crate) old: Option<u32>,
}

/// The groups by rank: the greater count first, then the lower callee, then the constants.
pub(crate) fn ranked(
    alloc: Global,
    groups: IndexMap<CloneKey, KeySites>,
    table: &CloneTable,
) -> Result<Vec<Candidate>, AllocError>
    ensures ranked { IfOk result (λ v. AreRanked (groups_in groups.entries) (map group_of v.items)) }
    ensures clones { IfOk result (λ v. AllByRecursion (HasClone table.now) v.items) }
{
    let mut candidates = candidates(alloc, groups, table)?;
    candidates.sort_unstable_by(|a, b| rank(a, b));
    Ok(candidates)
}

/// How candidates rank.
fn rank(a: &Candidate, b: &Candidate) -> Ordering
    ensures order { result ≡ rank_order a.now b.now }
    ensures first { is_lt result ≡ is_lt (rank_order a.now b.now) }
{
    let by_count = b.sites.count().cmp(&a.sites.count());
    by_count.then_with(|| a.key.cmp(&b.key))
}

/// The groups with the clones that the table has for them.
fn candidates(
    alloc: Global,
    groups: IndexMap<CloneKey, KeySites>,
    table: &CloneTable,
) -> Result<Vec<Candidate>, AllocError>
    ensures { IfOk result (λ v. v.items ≡ map (candidate_of table.now) groups.entries) }
{
    let clones = clones_of(alloc, &groups, table)?;
    let mut candidates = Vec::with_capacity(alloc, groups.len())?;
    let mut at = 0;
    for (key, sites) in groups {
        candidates.push(Candidate {
            key,
            sites,
            old: clones[at],
        })?;
        at += 1;
    }
    Ok(candidates)
}

/// For each group the newest clone that the table has for its key.
fn clones_of(
    alloc: Global,
    groups: &IndexMap<CloneKey, KeySites>,
    table: &CloneTable,
) -> Result<Vec<Option<u32>>, AllocError>
    ensures { IfOk result (λ v. v.items ≡ map (clone_for table.now) groups.now.entries) }
{
    let mut clones = no_clones(alloc, groups.len())?;
    note_clones(clones.as_mut_slice(), groups, table.rows());
    Ok(clones)
}

fn no_clones(alloc: Global, groups: usize) -> Result<Vec<Option<u32>>, AllocError>
    ensures { IfOk result (λ v. v.items ≡ replicate groups None) }
{
    Ok(vec![in alloc; None; groups]?)
}

/// Writes clones to the places of the groups with their keys, the oldest one first.
fn note_clones(clones: &mut [Option<u32>], groups: &IndexMap<CloneKey, KeySites>, rows: &[CloneRow])
    requires { clones.old ≡ map (clone_for []) groups.now.entries }
    ensures { clones.new ≡ map (clone_for (reverse rows.now)) groups.now.entries }
{
    for row in rows {
        note_clone(clones, groups, row);
    }
}

/// Writes a clone to the place of the group with its key, where there is one.
fn note_clone(clones: &mut [Option<u32>], groups: &IndexMap<CloneKey, KeySites>, row: &CloneRow)
    requires { length clones.old ≡ length groups.now.entries }
    ensures { (rows : List Row) → clones.old ≡ map (clone_for rows) groups.now.entries → clones.new ≡ map (clone_for (row.now ∷ rows)) groups.now.entries }
{
    if let Some(at) = groups.get_index_of(row.key()) {
        clones[at] = Some(row.pid());
    }
}
