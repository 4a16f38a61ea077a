//! Whether objects and routines are in order.
ghost use Rattle.std.specs.Prelude.{◌≡◌, ◌++◌, ◌∷◌, [], not, ◌&&◌, IfOk, OnOk, List, None, IfSome, ◌<◌, length};
ghost use Rattle.il_text.specs.Order.{Item, first_misplaced, has_name, has_pid, is_above, object_items, routine_items};
ghost use Rattle.il_text.specs.Known.{Knows};

use crate::line::{NamedObject, NamedRoutine};
use crate::routine::text_of;
use hlo_num::Name;
use std::alloc::AllocError;
use std::collections::BTreeSet;

/// The PIDs and the names that were used.
#[derive(Drop)]
pub(crate) struct Used<'a> {
    pub(crate) pids: BTreeSet<u32>,
    pub(crate) names: BTreeSet<&'a str>,
}

/// Notes a PID and a name, and answers whether neither was used before.
fn note<'a>(used: &mut Used<'a>, pid: u32, name: &'a Name) -> Result<bool, AllocError>
    ensures fresh { (items : List Item) → Knows used.old items → IfOk result (λ fresh. fresh ≡ (not (has_pid items pid) && not (has_name items name.now))) }
    ensures known { (items : List Item) → Knows used.old items → OnOk result (Knows used.new (items ++ (record { pid = pid; name = name.now }) ∷ [])) }
{
    let new_pid = used.pids.insert(pid)?;
    let new_name = used.names.insert(text_of(name))?;
    Ok(both(new_pid, new_name))
}

/// Whether a PID is above the one before, if there is one.
fn is_above(before: Option<u32>, pid: u32) -> bool
    ensures { result ≡ is_above before pid }
{
    match before {
        Some(before) => before < pid,
        None => true,
    }
}

fn both(a: bool, b: bool) -> bool
    ensures { result ≡ (a && b) }
{
    a && b
}

/// The first object that is out of order behind what was used, which is noted. It takes a logarithm of the names for each.
pub(crate) fn misplaced_object<'a>(
    used: &mut Used<'a>,
    objects: &'a [NamedObject],
) -> Result<Option<usize>, AllocError>
    ensures first { (items : List Item) → Knows used.old items → IfOk result (λ o. o ≡ first_misplaced items None (object_items objects.now)) }
    ensures known { (items : List Item) → Knows used.old items → IfOk result (λ o. o ≡ None → Knows used.new (items ++ object_items objects.now)) }
    ensures within { IfOk result (λ o. IfSome o (λ k. k < length objects.now)) }
{
    let mut before = None;
    for (k, named) in objects.iter().enumerate() {
        let pid = named.pid();
        let fresh = note(used, pid, &named.name)?;
        if !both(is_above(before, pid), fresh) {
            return Ok(Some(k));
        }
        before = Some(pid);
    }
    Ok(None)
}

/// The first routine that is out of order behind what was used, which is noted. It takes a logarithm of the names for each.
pub(crate) fn misplaced_routine<'a>(
    used: &mut Used<'a>,
    routines: &'a [NamedRoutine],
) -> Result<Option<usize>, AllocError>
    ensures first { (items : List Item) → Knows used.old items → IfOk result (λ o. o ≡ first_misplaced items None (routine_items routines.now)) }
    ensures known { (items : List Item) → Knows used.old items → IfOk result (λ o. o ≡ None → Knows used.new (items ++ routine_items routines.now)) }
    ensures within { IfOk result (λ o. IfSome o (λ k. k < length routines.now)) }
{
    let mut before = None;
    for (k, named) in routines.iter().enumerate() {
        let pid = named.pid();
        let fresh = note(used, pid, &named.name)?;
        if !both(is_above(before, pid), fresh) {
            return Ok(Some(k));
        }
        before = Some(pid);
    }
    Ok(None)
}
