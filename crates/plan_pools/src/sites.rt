//! The accepted call sites of a routine.
ghost use Rattle.std.specs.Prelude.{◌≡◌, ◌≤◌, ◌++◌, IfOk, OnOk, length};
ghost use Rattle.il_core.specs.Limits.{max_size};
ghost use Rattle.il_core.specs.Operands.{callee_of};
ghost use Rattle.il_laws.specs.Sites.{callees, callees_in, listed};
ghost use Rattle.plan_pools.specs.Accepting.{is_accepted, site_if, sites_from, sites_of};

use crate::accepted::Accepted;
use il_core::{Block, Instr, Routine};
use std::alloc::{AllocError, Global};

/// A call site of a routine, by the number of its call, and the callee's PID.
#[derive(Clone, Copy, Drop)]
pub(crate) struct CalledSite {
    pub site: u32,
    pub callee: u32,
}

/// The accepted sites of a routine, in order. It takes time in proportion to its instructions, and memory for its calls.
pub(crate) fn accepted_sites(
    alloc: Global,
    r: &Routine,
    accepted: &Accepted,
) -> Result<Vec<CalledSite>, AllocError>
    ensures { IfOk result (λ v. v.items ≡ sites_of (is_accepted accepted.now) r.now) }
{
    has_few(r);
    let callees = callees_of(alloc, r.blocks.as_slice())?;
    picked(alloc, r.pid, callees.as_slice(), accepted)
}

/// A routine has no more calls than its size.
fn has_few(r: &Routine)
    ensures { length (callees r.now.blocks) ≤ max_size }
{
    let _size = r.size();
}

/// The callees of calls in blocks, in order.
fn callees_of(alloc: Global, blocks: &[Block]) -> Result<Vec<u32>, AllocError>
    ensures { IfOk result (λ v. v.items ≡ callees blocks.now) }
{
    let mut callees = Vec::new(alloc);
    for block in blocks {
        add_callees(&mut callees, block.instrs.as_slice())?;
    }
    Ok(callees)
}

/// Adds the callees of calls.
fn add_callees(callees: &mut Vec<u32>, instrs: &[Instr]) -> Result<(), AllocError>
    ensures { OnOk result (callees.new.items ≡ callees.old.items ++ callees_in instrs.now) }
{
    for instr in instrs {
        add_callee(callees, instr)?;
    }
    Ok(())
}

/// Adds the callee of an instruction, if it is a call.
fn add_callee(callees: &mut Vec<u32>, instr: &Instr) -> Result<(), AllocError>
    ensures { OnOk result (callees.new.items ≡ callees.old.items ++ listed (callee_of instr.now)) }
{
    if let Instr::Call { callee, .. } = instr {
        callees.push(*callee)?;
    }
    Ok(())
}

/// The accepted ones of a caller's calls with these callees.
fn picked(
    alloc: Global,
    caller: u32,
    callees: &[u32],
    accepted: &Accepted,
) -> Result<Vec<CalledSite>, AllocError>
    requires { length callees.now ≤ max_size }
    ensures { IfOk result (λ v. v.items ≡ sites_from (is_accepted accepted.now caller) 0 callees.now) }
{
    let mut sites = Vec::new(alloc);
    for (number, callee) in callees.iter().enumerate() {
        pick(
            &mut sites,
            accepted.has(caller, number),
            number as u32,
            *callee,
        )?;
    }
    Ok(sites)
}

/// Adds a site, if it is accepted.
fn pick(
    sites: &mut Vec<CalledSite>,
    accepted: bool,
    site: u32,
    callee: u32,
) -> Result<(), AllocError>
    ensures { OnOk result (sites.new.items ≡ sites.old.items ++ site_if accepted site callee) }
{
    if accepted {
        sites.push(CalledSite { site, callee })?;
    }
    Ok(())
}
