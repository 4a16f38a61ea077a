//! The number of calls.
ghost use Rattle.std.specs.Prelude.{◌≡◌, [], ◌^◌, ◌<◌, ◌≤◌, IfOk, List, length, slice_index_or, map, replicate, ℕ};
ghost use Rattle.il_core.specs.Limits.{max_size};
ghost use Rattle.il_core.specs.Meaning.{sites_in, sites_of};
ghost use Rattle.il_core.specs.Routine.{RoutineParts};
ghost use Rattle.il_core.specs.Size.{blocks_size};
ghost use Rattle.il_run.specs.Counts.{counted, no_counts, raised, sites_of_blocks};

use crate::store::zeros;
use hlo_num::Seq;
use il_core::{Block, IlProgram, Instr, Routine};
use std::alloc::{AllocError, Global};
use std::mem;

/// How often each routine of a program was called, in the order of its routines, and how often each
/// site, which is a call of a routine, was executed, in the order of blocks and instructions. Each
/// number stops at 4294967295.
#[derive(Debug, Drop)]
pub struct Counts {
    pub entries: Seq<u32>,
    pub sites: Seq<Seq<u32>>,
}

impl Counts {
    /// No call yet. It takes time in proportion to the instructions, and memory to the routines and
    /// calls.
    pub fn new(alloc: Global, p: &IlProgram) -> Result<Counts, AllocError>
        ensures { IfOk result (λ c. c ≡ no_counts p.now) }
    {
        let routines = p.routines.as_slice();
        let entries = zeros(alloc, routines.len())?;
        let sites = no_sites(alloc, routines)?;
        Ok(Counts {
            entries: Seq::from_vec(entries),
            sites: Seq::from_vec(sites),
        })
    }

    /// No counts. It takes no memory.
    pub(crate) fn empty(alloc: Global) -> Counts
        ensures entries { result.entries ≡ [] }
        ensures sites { result.sites ≡ [] }
    {
        Counts {
            entries: Seq::new(alloc),
            sites: Seq::new(alloc),
        }
    }

    /// One call more, of the routine at the place `callee`, by a site of the routine at the place
    /// `caller`.
    pub(crate) fn count(&mut self, alloc: Global, caller: usize, site: usize, callee: usize)
        requires caller { caller < length self.old.sites }
        requires site { (row : List ℕ) → row ≡ slice_index_or self.old.sites caller row → site < length row }
        requires callee { callee < length self.old.entries }
        ensures { self.new ≡ counted self.old caller site callee }
    {
        raise(alloc, &mut self.entries, callee);
        let mut sites = mem::replace(&mut self.sites, Seq::new(alloc)).into_vec();
        raise(alloc, &mut sites[caller], site);
        self.sites = Seq::from_vec(sites);
    }
}

/// One more at a place of a list. Its elements stay where they are.
fn raise(alloc: Global, list: &mut Seq<u32>, at: usize)
    requires { at < length list.old }
    ensures { list.new ≡ raised list.old at }
{
    let mut items = mem::replace(list, Seq::new(alloc)).into_vec();
    items[at] = items[at].saturating_add(1);
    *list = Seq::from_vec(items);
}

/// A 0 for each site of each routine.
fn no_sites(alloc: Global, routines: &[Routine]) -> Result<Vec<Seq<u32>>, AllocError>
    ensures { IfOk result (λ v. v.items ≡ map (λ (r : RoutineParts). replicate (sites_of_blocks r.blocks) 0) routines.now) }
{
    let mut sites = Vec::with_capacity(alloc, routines.len())?;
    for routine in routines {
        let count = sites_in_blocks(routine.blocks.as_slice());
        sites.push(Seq::from_vec(zeros(alloc, count)?))?;
    }
    Ok(sites)
}

/// How many calls some blocks have.
fn sites_in_blocks(blocks: &[Block]) -> usize
    requires { blocks_size blocks.now ≤ max_size }
    ensures { result ≡ sites_of_blocks blocks.now }
{
    let mut count = 0;
    for block in blocks {
        count += sites_in_instrs(block.instrs.as_slice());
    }
    count
}

/// How many calls some instructions have.
fn sites_in_instrs(instrs: &[Instr]) -> usize
    ensures count { result ≡ sites_of instrs.now }
    ensures few { result ≤ length instrs.now }
{
    let mut count = 0;
    for instr in instrs {
        count += sites_at(instr) as usize;
    }
    count
}

/// 1 for a call, and 0 for any other instruction.
pub fn sites_at(instr: &Instr) -> u32
    ensures count { result ≡ sites_in instr.now }
    ensures few { result ≤ 1 }
{
    match instr {
        Instr::Call { .. } => 1,
        _ => 0,
    }
}
