//! The callee's blocks in the caller.
ghost use Rattle.std.specs.Prelude.{◌≡◌, ◌+◌, ◌<◌, ◌≤◌, ◌++◌, map, OnOk, IfOk};
ghost use Rattle.std.specs.List.{AllByRecursion};
ghost use Rattle.il_core.specs.declared.instr.Instr.TheVariants.{Call};
ghost use Rattle.il_core.specs.Limits.{max_arrays, max_registers};
ghost use Rattle.il_core.specs.Operands.{renamed};
ghost use Rattle.il_core.specs.World.{each};
ghost use Rattle.il_laws.specs.Splice.{copied, copied_end, handed};
ghost use Rattle.inliner.specs.Copies.{names_of, few_blocks, IsCopied, IsCopiedBlock, NamesBlocks, ReadsRegister, IsRaise};

use hlo_num::Seq;
use il_core::{Block, End, Instr};
use profile::scale;
use std::alloc::{AllocError, Global};

/// A callee's names in its caller: what its registers and local arrays are raised by, the count of the call and that of
/// the callee's entry.
#[derive(Clone, Copy)]
pub(crate) struct Raise {
    pub regs: u32,
    pub arrays: u32,
    pub count: u32,
    pub entry: u32,
}

/// Where a callee's blocks stand in its caller: the first one, and the one to which returns go, with the register that
/// gets the value.
#[derive(Clone, Copy)]
pub(crate) struct Stand {
    pub first: u32,
    pub rest: u32,
    pub dest: Option<u32>,
}

/// The callee's blocks in its caller.
pub(crate) fn put_copies(
    alloc: Global,
    out: &mut Vec<Block>,
    blocks: &[Block],
    by: Raise,
    at: Stand,
) -> Result<(), AllocError>
    requires raise { IsRaise by }
    requires first { at.first ≤ few_blocks }
    requires blocks { AllByRecursion (IsCopiedBlock max_registers max_arrays few_blocks) blocks.now }
    ensures { OnOk result (out.new.items ≡ out.old.items ++ map (copied (names_of by) at.dest at.first at.rest) blocks.now) }
{
    for block in blocks {
        out.push(copy(alloc, block, by, at)?)?;
    }
    Ok(())
}

/// A block of the callee in its caller.
fn copy(alloc: Global, block: &Block, by: Raise, at: Stand) -> Result<Block, AllocError>
    requires raise { IsRaise by }
    requires first { at.first ≤ few_blocks }
    requires block { IsCopiedBlock max_registers max_arrays few_blocks block.now }
    ensures { IfOk result (λ x. x ≡ copied (names_of by) at.dest at.first at.rest block.now) }
{
    let mut instrs = Vec::with_capacity(alloc, block.instrs.len().saturating_add(1))?;
    put_raised(alloc, &mut instrs, block.instrs.as_slice(), by)?;
    put_handed(&mut instrs, block.end, by, at.dest)?;
    Ok(Block {
        instrs: Seq::from_vec(instrs),
        end: copied_end(block.end, by, at),
    })
}

/// Adds instructions of the callee under its names in the caller.
fn put_raised(
    alloc: Global,
    out: &mut Vec<Instr>,
    instrs: &[Instr],
    by: Raise,
) -> Result<(), AllocError>
    requires raise { IsRaise by }
    requires instrs { AllByRecursion (IsCopied max_registers max_arrays) instrs.now }
    ensures { OnOk result (out.new.items ≡ out.old.items ++ map (renamed (names_of by)) instrs.now) }
{
    for instr in instrs {
        out.push(raised(alloc, instr, by)?)?;
    }
    Ok(())
}

/// Adds the `move` of a returned value to where the call wants it.
fn put_handed(
    out: &mut Vec<Instr>,
    end: End,
    by: Raise,
    dest: Option<u32>,
) -> Result<(), AllocError>
    requires raise { IsRaise by }
    requires end { ReadsRegister max_registers end }
    ensures { OnOk result (out.new.items ≡ out.old.items ++ handed (names_of by) end dest) }
{
    if let (End::Return(Some(x)), Some(d)) = (end, dest) {
        out.push(Instr::Move(d, by.regs + x))?;
    }
    Ok(())
}

/// An end of the callee in its caller: a return goes to where the caller goes on.
fn copied_end(end: End, by: Raise, at: Stand) -> End
    requires raise { IsRaise by }
    requires first { at.first ≤ few_blocks }
    requires reads { ReadsRegister max_registers end }
    requires targets { NamesBlocks few_blocks end }
    ensures { result ≡ copied_end (names_of by) at.first at.rest end }
{
    match end {
        End::Jump(t) => End::Jump(at.first + t),
        End::Branch(r, t, u) => End::Branch(by.regs + r, at.first + t, at.first + u),
        End::Loop(t) => End::Loop(at.first + t),
        End::Return(_) => End::Jump(at.rest),
        End::Exit(r) => End::Exit(by.regs + r),
    }
}

/// An instruction of the callee under its names in the caller.
fn raised(alloc: Global, instr: &Instr, by: Raise) -> Result<Instr, AllocError>
    requires raise { IsRaise by }
    requires instr { IsCopied max_registers max_arrays instr.now }
    ensures { IfOk result (λ i. i ≡ renamed (names_of by) instr.now) }
{
    let r = by.regs;
    let a = by.arrays;
    match instr {
        Instr::Const(d, word) => Ok(Instr::Const(r + *d, *word)),
        Instr::Move(d, s) => Ok(Instr::Move(r + *d, r + *s)),
        Instr::Conv(d, ty, s) => Ok(Instr::Conv(r + *d, *ty, r + *s)),
        Instr::Bin(op, d, x, y) => Ok(Instr::Bin(*op, r + *d, r + *x, r + *y)),
        Instr::Get(d, g) => Ok(Instr::Get(r + *d, *g)),
        Instr::Set(g, s) => Ok(Instr::Set(*g, r + *s)),
        Instr::GetX(d, g, i) => Ok(Instr::GetX(r + *d, *g, r + *i)),
        Instr::SetX(g, i, s) => Ok(Instr::SetX(*g, r + *i, r + *s)),
        Instr::GetA(d, x, i) => Ok(Instr::GetA(r + *d, a + *x, r + *i)),
        Instr::SetA(x, i, s) => Ok(Instr::SetA(a + *x, r + *i, r + *s)),
        Instr::Clear(x, c, y, m) => Ok(Instr::Clear(r + *x, *c, a + *y, *m)),
        Instr::Turn => Ok(Instr::Turn),
        Instr::Call {
            dest,
            callee,
            count,
            args,
        } => raised_call(alloc, *dest, *callee, *count, args.as_slice(), by),
        Instr::GetChar(d) => Ok(Instr::GetChar(r + *d)),
        Instr::PutChar(d, s) => Ok(Instr::PutChar(r + *d, r + *s)),
    }
}

#[tactic(auto, using(crate::proofs::Counts::scaled_is))]
fn raised_call(
    alloc: Global,
    dest: Option<u32>,
    callee: u32,
    count: u32,
    args: &[u32],
    by: Raise,
) -> Result<Instr, AllocError>
    requires raise { IsRaise by }
    requires call { IsCopied max_registers max_arrays (Call dest callee count args.now) }
    ensures { IfOk result (λ i. i ≡ renamed (names_of by) (Call dest callee count args.now)) }
{
    let args = raised_args(alloc, args, by.regs)?;
    let dest = match dest {
        Some(d) => Some(by.regs + d),
        None => None,
    };
    Ok(Instr::Call {
        dest,
        callee,
        count: scale(count, by.count, by.entry),
        args,
    })
}

fn raised_args(alloc: Global, args: &[u32], by: u32) -> Result<Seq<u32>, AllocError>
    requires raise { by ≤ max_registers }
    requires args { AllByRecursion (λ x. x < max_registers) args.now }
    ensures { IfOk result (λ s. s ≡ each (λ x. by + x) args.now) }
{
    let mut raised = Vec::with_capacity(alloc, args.len())?;
    for arg in args {
        raised.push(by + *arg)?;
    }
    Ok(Seq::from_vec(raised))
}
