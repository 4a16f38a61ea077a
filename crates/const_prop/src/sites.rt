//! What is known at each call.
ghost use Rattle.std.specs.Prelude.{◌≡◌, ◌<◌, ◌++◌, IfOk, OnOk, length, map};
ghost use Rattle.std.specs.List.{AllByRecursion};
ghost use Rattle.il_laws.specs.Facts.{through};
ghost use Rattle.il_laws.specs.Known.{site_constants, site_of, known_from, known_in};
ghost use Rattle.const_prop.specs.Tables.{AreNamed, Has, NamesRegisters, IsValidRoutine, facts_in};
ghost use Rattle.const_prop.specs.Flow.{Follows, bare};
ghost use Rattle.const_prop.specs.Sites.{words_of, words_at};

use crate::facts::step;
use crate::flow::Flow;
use hlo_num::{Seq, Word};
use il_core::{Block, Instr, Routine};
use std::alloc::{AllocError, Global};

/// By site of a routine, in order, each argument's word where it is known.
pub type KnownArgs = Seq<Seq<Option<Word>>>;

/// What is known at each call of a routine. The only error is want of memory. It takes one pass of facts over the
/// routine (`Flow`), and memory for the arguments of its calls.
pub fn site_constants(alloc: Global, r: &Routine) -> Result<KnownArgs, AllocError>
    requires { IsValidRoutine r.now }
    ensures { IfOk result (λ known. words_of known ≡ site_constants r.now) }
{
    let blocks = r.blocks.as_slice();
    let mut flow = Flow::new(alloc, r.params, r.regs, blocks)?;
    let mut table = flow.table(alloc)?;
    let mut known = Seq::new(alloc);
    put_blocks(alloc, &mut known, &mut flow, table.as_mut_slice(), blocks)?;
    Ok(known)
}

/// Adds what is known at each call of these blocks, as the facts go from one to the next.
fn put_blocks(
    alloc: Global,
    known: &mut KnownArgs,
    flow: &mut Flow,
    table: &mut [Option<u32>],
    blocks: &[Block],
) -> Result<(), AllocError>
    requires named { AreNamed flow.old.regs blocks.now }
    requires follows { Follows flow.old.regs flow.old.params blocks.now 0 flow.old }
    requires count { length table.old ≡ flow.old.regs }
    ensures { OnOk result (words_of known.new ≡ words_of known.old ++ map (λ s. s.known) (known_from (bare flow.old.params blocks.now) 0 blocks.now)) }
{
    for (b, block) in blocks.iter().enumerate() {
        flow.enter(b, table);
        put_sites(alloc, known, table, block.instrs.as_slice())?;
        flow.leave(alloc, block.end, table)?;
    }
    Ok(())
}

/// Adds what is known at each call of these instructions, as the facts go through them.
fn put_sites(
    alloc: Global,
    known: &mut KnownArgs,
    table: &mut [Option<u32>],
    instrs: &[Instr],
) -> Result<(), AllocError>
    requires { AllByRecursion (NamesRegisters (length table.old)) instrs.now }
    ensures sites { OnOk result (words_of known.new ≡ words_of known.old ++ map (λ s. s.known) (known_in (facts_in table.old) instrs.now)) }
    ensures facts { OnOk result (Has (length table.old) table.new (through instrs.now (facts_in table.old))) }
{
    for instr in instrs {
        put_site(alloc, known, table, instr)?;
        step(table, instr);
    }
    Ok(())
}

/// Adds what is known of the arguments of a call, where the instruction is one.
fn put_site(
    alloc: Global,
    known: &mut KnownArgs,
    table: &[Option<u32>],
    instr: &Instr,
) -> Result<(), AllocError>
    requires { NamesRegisters (length table.now) instr.now }
    ensures { OnOk result (words_of known.new ≡ words_of known.old ++ map (λ s. s.known) (site_of (facts_in table.now) instr.now)) }
{
    match instr {
        Instr::Call { args, .. } => {
            known.push(words_at(alloc, table, args.as_slice())?)?;
            Ok(())
        }
        _ => Ok(()),
    }
}

/// What is known of arguments.
fn words_at(
    alloc: Global,
    table: &[Option<u32>],
    args: &[u32],
) -> Result<Seq<Option<Word>>, AllocError>
    requires { AllByRecursion (λ x. x < length table.now) args.now }
    ensures { IfOk result (λ s. words_at s ≡ map (facts_in table.now) args.now) }
{
    let mut words = Vec::with_capacity(alloc, args.len())?;
    for arg in args {
        words.push(match table[*arg as usize] {
            Some(word) => Some(Word(word)),
            None => None,
        })?;
    }
    Ok(Seq::from_vec(words))
}
