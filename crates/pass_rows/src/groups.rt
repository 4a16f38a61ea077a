//! Groups of calls that get a clone.
ghost use Rattle.std.specs.Prelude.{◌≡◌, true, map};
ghost use Rattle.std.specs.List.{AllByRecursion};
ghost use Rattle.il_core.specs.Valid.{IsProgram};
ghost use Rattle.call_graph.specs.Summaries.{summary_of};
ghost use Rattle.clone_groups.specs.Gathering.{IsSmall};

use crate::calls::constants;
use crate::choosing::summaries;
use crate::telling::{main_of, tell_number, tell_numbers};
use call_graph::Summary;
use clone_groups::{CloneTable, Group, group};
use il_core::{IlProgram, limits};
use std::alloc::{AllocError, Global};

/// Puts the groups of `group NEXT LIMIT` behind what is shown, or those of `group NEXT LIMIT CALLEE CLONE PARAMETER WORD ..`
/// where the table has that clone; false where there are fewer numbers.
pub(crate) fn tell_groups(
    alloc: Global,
    numbers: &[u32],
    program: &IlProgram,
    shown: &mut Vec<u8>,
) -> Result<bool, AllocError>
    requires { IsProgram program.now }
{
    let [next, limit, row @ ..] = numbers else {
        return Ok(false);
    };
    let summaries = summaries(alloc, program)?;
    if !are_small(summaries.as_slice()) {
        return Ok(false);
    }
    let table = table_of(alloc, row)?;
    let main = main_of(program);
    let limit = u64::from(*limit);
    let groups = group(alloc, summaries.as_slice(), &table, main, *next, limit)?;
    for group in &groups {
        tell_group(group, shown)?;
    }
    Ok(true)
}

/// Whether the numbers of summaries are within the limits.
fn are_small(summaries: &[Summary]) -> bool
    ensures { result ≡ true → AllByRecursion IsSmall (map summary_of summaries.now) }
{
    for summary in summaries {
        if !is_small(summary) {
            return false;
        }
    }
    true
}

/// Whether a summary has a mark for each of at most 31 parameters, and no more sites than a routine may have.
fn is_small(s: &Summary) -> bool
    ensures { result ≡ true → IsSmall (summary_of s.now) }
{
    s.params <= limits::PARAMETERS
        && s.reads.len() == s.params as usize
        && s.sites.len() <= limits::SIZE as usize
}

/// A table with that clone, if one is told.
fn table_of(alloc: Global, row: &[u32]) -> Result<CloneTable, AllocError> {
    let mut table = CloneTable::new(alloc);
    if let [callee, clone, fixed @ ..] = row {
        let fixed = constants(alloc, fixed)?;
        table.add(*callee, fixed.as_slice(), *clone)?;
    }
    Ok(table)
}

/// A line for a group: its callee, the constants by parameter, the callers with the numbers of their sites, and the clone.
fn tell_group(group: &Group, shown: &mut Vec<u8>) -> Result<(), AllocError> {
    shown.extend_from_slice(b"group of")?;
    tell_number(group.callee, shown)?;
    shown.extend_from_slice(b" with")?;
    for (parameter, word) in group.fixed.as_slice() {
        tell_number(*parameter, shown)?;
        tell_number(word.0, shown)?;
    }
    tell_members(group.members.as_slice(), shown)?;
    shown.extend_from_slice(if group.old.is_some() {
        b", the clone"
    } else {
        b", a new clone"
    })?;
    tell_numbers(&[group.clone], shown)
}

fn tell_members(members: &[(u32, u32)], shown: &mut Vec<u8>) -> Result<(), AllocError> {
    shown.extend_from_slice(b", at")?;
    for (caller, site) in members {
        tell_number(*caller, shown)?;
        tell_number(*site, shown)?;
    }
    Ok(())
}
