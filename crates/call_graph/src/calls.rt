//! The calls of a routine.
ghost use Rattle.std.specs.Prelude.{◌≡◌, ◌++◌, IfOk, OnOk, flat_map, length};
ghost use Rattle.call_graph.specs.Calls.{call_of, calls_in, with_known};

use crate::summary::Site;
use const_prop::KnownArgs;
use hlo_num::{Seq, Word};
use il_core::{Block, Instr};
use std::alloc::{AllocError, Global};
use std::mem;

/// The calls of blocks in order, with what is known of their arguments.
pub(crate) fn sites_of(
    alloc: Global,
    blocks: &[Block],
    known: KnownArgs,
) -> Result<Vec<Site>, AllocError>
    requires { length known ≡ length (calls_in blocks.now) }
    ensures { IfOk result (λ v. v.items ≡ with_known known (calls_in blocks.now)) }
{
    let mut known = known.into_vec();
    let mut sites = Vec::with_capacity(alloc, known.len())?;
    for block in blocks {
        add_calls(alloc, &mut sites, block.instrs.as_slice())?;
    }
    put_known(alloc, sites.as_mut_slice(), known.as_mut_slice());
    Ok(sites)
}

/// Adds the calls of instructions, with nothing known.
fn add_calls(alloc: Global, sites: &mut Vec<Site>, instrs: &[Instr]) -> Result<(), AllocError>
    ensures { OnOk result (sites.new.items ≡ sites.old.items ++ flat_map call_of instrs.now) }
{
    for instr in instrs {
        add_call(alloc, sites, instr)?;
    }
    Ok(())
}

/// Adds a call, where the instruction is one.
fn add_call(alloc: Global, sites: &mut Vec<Site>, instr: &Instr) -> Result<(), AllocError>
    ensures { OnOk result (sites.new.items ≡ sites.old.items ++ call_of instr.now) }
{
    if let Instr::Call { callee, count, .. } = instr {
        sites.push(Site {
            callee: *callee,
            count: *count,
            known: Seq::new(alloc),
        })?;
    }
    Ok(())
}

/// Gives each call what is known of its arguments, which is taken.
fn put_known(alloc: Global, sites: &mut [Site], known: &mut [Seq<Option<Word>>])
    requires { length known.old ≡ length sites.old }
    ensures { sites.new ≡ with_known known.old sites.old }
{
    for k in 0..sites.len() {
        sites[k].known = mem::replace(&mut known[k], Seq::new(alloc));
    }
}
