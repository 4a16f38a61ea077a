//! Calls that go to another routine.
ghost use Rattle.std.specs.Prelude.{◌≡◌, ◌+◌, ◌<◌, ◌≤◌, [], length, IfOk, OnOk, None};
ghost use Rattle.std.specs.List.{AllByRecursion};
ghost use Rattle.il_core.specs.Limits.{max_pids, max_size};
ghost use Rattle.il_core.specs.Meaning.{sites_in, sites_of};
ghost use Rattle.il_core.specs.Size.{blocks_size};
ghost use Rattle.il_laws.specs.Retarget.{retarget};
ghost use Rattle.clone_groups.specs.Moves.{HasMoves, callee_in, moves_of, put_callee, sites_of_blocks, with_callee, with_callees, with_block_callees};

use const_prop::copy_routine;
use hlo_num::Seq;
use il_core::{Block, Instr, Routine};
use std::alloc::{AllocError, Global};
use std::mem;

/// The routine with other callees at some of its call sites, which are numbered from 0 in the order of its code. A move
/// is a site and its new callee; of several for one site the first one counts, and one for a number that is no site
/// does nothing. It does what the routine did where each move goes to a clone whose constants are known at its site
/// (`il_laws::retarget_serves`). The only error is want of memory. It takes time and memory for a copy of the routine,
/// and what `retarget_owned` takes.
pub fn retarget(alloc: Global, r: &Routine, moves: &[(u32, u32)]) -> Result<Routine, AllocError>
    requires { AllByRecursion (λ m. m.1 < max_pids) moves.now }
    ensures { IfOk result (λ q. q ≡ retarget r.now (moves_of moves.now)) }
{
    retarget_owned(alloc, copy_routine(alloc, r)?, moves)
}

/// The same of a routine that isn't wanted any more: its calls are changed in place. It takes time in proportion to the
/// moves and the routine's instructions, and memory for a number for each of its call sites.
pub fn retarget_owned(
    alloc: Global,
    r: Routine,
    moves: &[(u32, u32)],
) -> Result<Routine, AllocError>
    requires { AllByRecursion (λ m. m.1 < max_pids) moves.now }
    ensures { IfOk result (λ q. q ≡ retarget r (moves_of moves.now)) }
{
    let Routine {
        pid,
        params,
        value,
        regs,
        entry,
        arrays,
        blocks,
    } = r;
    let mut blocks = blocks.into_vec();
    let sites = count_sites(blocks.as_slice());
    let table = table_of(alloc, moves, sites)?;
    retarget_blocks(alloc, blocks.as_mut_slice(), table.as_slice());
    Ok(Routine {
        pid,
        params,
        value,
        regs,
        entry,
        arrays,
        blocks: Seq::from_vec(blocks),
    })
}

/// How many calls blocks have.
fn count_sites(blocks: &[Block]) -> usize
    requires { blocks_size blocks.now ≤ max_size }
    ensures { result ≡ sites_of_blocks blocks.now }
{
    let mut sites = 0;
    for block in blocks {
        sites += count_calls(block.instrs.as_slice());
    }
    sites
}

fn count_calls(instrs: &[Instr]) -> usize
    ensures count { result ≡ sites_of instrs.now }
    ensures few { result ≤ length instrs.now }
{
    let mut calls = 0;
    for instr in instrs {
        if let Instr::Call { .. } = instr {
            calls += 1;
        }
    }
    calls
}

/// A place for each of so many sites, with its new callee where a move gives one.
fn table_of(
    alloc: Global,
    moves: &[(u32, u32)],
    sites: usize,
) -> Result<Vec<Option<u32>>, AllocError>
    ensures size { IfOk result (λ t. length t.items ≡ sites) }
    ensures moves { IfOk result (λ t. HasMoves sites t.items (moves_of moves.now)) }
{
    let mut table = vec![in alloc; None; sites]?;
    fill(table.as_mut_slice(), moves);
    Ok(table)
}

/// Writes moves to their places, the last one first.
fn fill(table: &mut [Option<u32>], moves: &[(u32, u32)])
    requires { HasMoves (length table.old) table.old (moves_of []) }
    ensures { HasMoves (length table.old) table.new (moves_of moves.now) }
{
    let mut left = moves;
    while let Some(((site, callee), before)) = left.split_last() {
        put(table, *site as usize, *callee);
        left = before;
    }
}

fn put(table: &mut [Option<u32>], site: usize, callee: u32)
    ensures { table.new ≡ put_callee table.old site callee }
{
    if site < table.len() {
        table[site] = Some(callee);
    }
}

/// Gives the calls of blocks their new callees.
fn retarget_blocks(alloc: Global, blocks: &mut [Block], table: &[Option<u32>])
    requires { sites_of_blocks blocks.old ≤ length table.now }
    ensures { blocks.new ≡ with_block_callees (callee_in table.now) 0 blocks.old }
{
    let mut next = 0;
    for block in blocks.iter_mut() {
        next = retarget_block(alloc, block, table, next);
    }
}

/// The same of a block before which so many calls stand, and the number of the next call.
fn retarget_block(alloc: Global, block: &mut Block, table: &[Option<u32>], site: usize) -> usize
    requires { sites_of block.old.instrs + site ≤ length table.now }
    ensures block { block.new ≡ record block.old { instrs = with_callees (callee_in table.now) site block.old.instrs } }
    ensures next { result ≡ sites_of block.old.instrs + site }
{
    let mut instrs = mem::replace(&mut block.instrs, Seq::new(alloc)).into_vec();
    let next = retarget_instrs(instrs.as_mut_slice(), table, site);
    block.instrs = Seq::from_vec(instrs);
    next
}

fn retarget_instrs(instrs: &mut [Instr], table: &[Option<u32>], site: usize) -> usize
    requires { sites_of instrs.old + site ≤ length table.now }
    ensures instrs { instrs.new ≡ with_callees (callee_in table.now) site instrs.old }
    ensures next { result ≡ sites_of instrs.old + site }
{
    let mut next = site;
    for instr in instrs.iter_mut() {
        next = retarget_instr(instr, table, next);
    }
    next
}

fn retarget_instr(instr: &mut Instr, table: &[Option<u32>], site: usize) -> usize
    requires { sites_in instr.old + site ≤ length table.now }
    ensures instr { instr.new ≡ with_callee (callee_in table.now) site instr.old }
    ensures next { result ≡ sites_in instr.old + site }
{
    if let Instr::Call { callee, .. } = instr {
        *callee = moved(table, site, *callee);
        return site + 1;
    }
    site
}

/// The new callee of a site, or the old one.
fn moved(table: &[Option<u32>], site: usize, callee: u32) -> u32
    requires { site < length table.now }
    ensures { result ≡ callee_in table.now site callee }
{
    match table[site] {
        Some(to) => to,
        None => callee,
    }
}
