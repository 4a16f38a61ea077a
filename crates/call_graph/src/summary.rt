//! What the plan knows of a routine.
ghost use Rattle.std.specs.Prelude.{◌≡◌, ◌<◌, ◌≤◌, ◌^◌, IfOk, length, sum};
ghost use Rattle.il_core.specs.Limits.{max_size};
ghost use Rattle.il_laws.specs.Facts.{looped};
ghost use Rattle.il_laws.specs.Known.{site_constants};
ghost use Rattle.il_laws.specs.Splice.{value_returns};
ghost use Rattle.plan_laws.specs.Summary.{summary};
ghost use Rattle.const_prop.specs.Sites.{words_of};
ghost use Rattle.call_graph.specs.Summaries.{summary_of};

use crate::calls::sites_of;
use crate::reads::reads_of;
use const_prop::KnownArgs;
use hlo_num::{Seq, Word};
use il_core::{Block, End, Routine};
use std::alloc::{AllocError, Global};

/// A call: its callee, its count, and each argument's word where it is known there.
#[derive(Drop)]
pub struct Site {
    pub callee: u32,
    pub count: u32,
    pub known: Seq<Option<Word>>,
}

/// What the plan knows of a routine. Contracts see it by `summary_of`, without its compact length.
#[derive(Drop)]
pub struct Summary {
    pub pid: u32,
    /// Its instructions and the ends of its blocks.
    pub size: u32,
    /// The bytes that its expanded form is charged with.
    pub charge: u64,
    /// The bytes of its compact form.
    pub compact: u32,
    pub params: u32,
    /// By parameter, whether some instruction or end reads it.
    pub reads: Seq<bool>,
    /// How many of its returns give a value.
    pub returns: u32,
    pub regs: u32,
    /// How many local arrays it has, and how many elements these have together.
    pub arrays: u32,
    pub elements: u32,
    /// How often a profile has seen it entered.
    pub entry: u32,
    /// Whether some `loop` goes to block 0.
    pub start_loop: bool,
    /// Its calls in order.
    pub sites: Seq<Site>,
}

/// The summary of a routine, of which it is known what `const_prop::site_constants` tells, and how long its compact form
/// is. It takes time in proportion to the routine, and memory for its sites. The only error is want of memory.
pub fn summarise(
    alloc: Global,
    r: &Routine,
    known: KnownArgs,
    compact: u32,
) -> Result<Summary, AllocError>
    requires { words_of known ≡ site_constants r.now }
    ensures value { IfOk result (λ s. summary_of s ≡ summary r.now) }
    ensures compact { IfOk result (λ s. s.compact ≡ compact) }
{
    let blocks = r.blocks.as_slice();
    let size = r.size();
    let charge = r.charge();
    let returns = value_returns(blocks);
    let elements = total(r.arrays.as_slice());
    let start_loop = is_looped(blocks);
    let reads = reads_of(alloc, r.params, blocks)?;
    let sites = sites_of(alloc, blocks, known)?;
    Ok(Summary {
        pid: r.pid,
        size,
        charge,
        compact,
        params: r.params,
        reads: Seq::from_vec(reads),
        returns,
        regs: r.regs,
        arrays: r.arrays.len() as u32,
        elements,
        entry: r.entry,
        start_loop,
        sites: Seq::from_vec(sites),
    })
}

/// How many returns of blocks give a value.
fn value_returns(blocks: &[Block]) -> u32
    requires { length blocks.now ≤ max_size }
    ensures { result ≡ value_returns blocks.now }
{
    let mut count = 0;
    for block in blocks {
        if let End::Return(Some(_)) = block.end {
            count += 1;
        }
    }
    count
}

/// The sum of numbers.
fn total(numbers: &[u32]) -> u32
    requires { sum numbers.now < 2 ^ 32 }
    ensures { result ≡ sum numbers.now }
{
    numbers.iter().sum()
}

/// Whether some `loop` goes to the first block.
fn is_looped(blocks: &[Block]) -> bool
    ensures { result ≡ looped blocks.now 0 }
{
    for block in blocks {
        if let End::Loop(0) = block.end {
            return true;
        }
    }
    false
}
