//! Copies of routines.
ghost use Rattle.std.specs.Prelude.{◌≡◌, IfOk};
ghost use Rattle.il_core.specs.declared.instr.Instr.TheVariants.{Call};

use hlo_num::Seq;
use il_core::{Block, Instr, Routine};
use std::alloc::{AllocError, Global};

/// A copy of a routine. It takes time in proportion to its instructions and their arguments. The only error is want of
/// memory.
pub fn copy_routine(alloc: Global, r: &Routine) -> Result<Routine, AllocError>
    ensures { IfOk result (λ q. q ≡ r.now) }
{
    Ok(Routine {
        pid: r.pid,
        params: r.params,
        value: r.value,
        regs: r.regs,
        entry: r.entry,
        arrays: copy_numbers(alloc, r.arrays.as_slice())?,
        blocks: copy_blocks(alloc, r.blocks.as_slice())?,
    })
}

fn copy_numbers(alloc: Global, numbers: &[u32]) -> Result<Seq<u32>, AllocError>
    ensures { IfOk result (λ s. s ≡ numbers.now) }
{
    Ok(Seq::from_vec(Vec::from_slice(alloc, numbers)?))
}

fn copy_blocks(alloc: Global, blocks: &[Block]) -> Result<Seq<Block>, AllocError>
    ensures { IfOk result (λ s. s ≡ blocks.now) }
{
    let mut copies = Vec::with_capacity(alloc, blocks.len())?;
    for block in blocks {
        copies.push(Block {
            instrs: copy_instrs(alloc, block.instrs.as_slice())?,
            end: block.end,
        })?;
    }
    Ok(Seq::from_vec(copies))
}

fn copy_instrs(alloc: Global, instrs: &[Instr]) -> Result<Seq<Instr>, AllocError>
    ensures { IfOk result (λ s. s ≡ instrs.now) }
{
    let mut copies = Vec::with_capacity(alloc, instrs.len())?;
    for instr in instrs {
        copies.push(copy_instr(alloc, instr)?)?;
    }
    Ok(Seq::from_vec(copies))
}

fn copy_instr(alloc: Global, instr: &Instr) -> Result<Instr, AllocError>
    ensures { IfOk result (λ i. i ≡ instr.now) }
{
    match instr {
        Instr::Const(d, word) => Ok(Instr::Const(*d, *word)),
        Instr::Move(d, s) => Ok(Instr::Move(*d, *s)),
        Instr::Conv(d, ty, s) => Ok(Instr::Conv(*d, *ty, *s)),
        Instr::Bin(op, d, a, b) => Ok(Instr::Bin(*op, *d, *a, *b)),
        Instr::Get(d, g) => Ok(Instr::Get(*d, *g)),
        Instr::Set(g, s) => Ok(Instr::Set(*g, *s)),
        Instr::GetX(d, g, i) => Ok(Instr::GetX(*d, *g, *i)),
        Instr::SetX(g, i, s) => Ok(Instr::SetX(*g, *i, *s)),
        Instr::GetA(d, a, i) => Ok(Instr::GetA(*d, *a, *i)),
        Instr::SetA(a, i, s) => Ok(Instr::SetA(*a, *i, *s)),
        Instr::Clear(r, c, a, m) => Ok(Instr::Clear(*r, *c, *a, *m)),
        Instr::Turn => Ok(Instr::Turn),
        Instr::Call {
            dest,
            callee,
            count,
            args,
        } => copy_call(alloc, *dest, *callee, *count, args.as_slice()),
        Instr::GetChar(d) => Ok(Instr::GetChar(*d)),
        Instr::PutChar(d, s) => Ok(Instr::PutChar(*d, *s)),
    }
}

fn copy_call(
    alloc: Global,
    dest: Option<u32>,
    callee: u32,
    count: u32,
    args: &[u32],
) -> Result<Instr, AllocError>
    ensures { IfOk result (λ i. i ≡ Call dest callee count args.now) }
{
    Ok(Instr::Call {
        dest,
        callee,
        count,
        args: copy_numbers(alloc, args)?,
    })
}
