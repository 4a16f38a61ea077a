//! Routines, their size and their charge.
ghost use Rattle.std.specs.Prelude.{◌≡◌, ◌+◌, ◌*◌, ◌≤◌, length};
ghost use Rattle.std.specs.Prelude.{sum_by};
ghost use Rattle.std.specs.List.{AllByRecursion};
ghost use Rattle.il_core.specs.Limits.{IsBlock, IsInstr, max_parameters, max_size};
ghost use Rattle.il_core.specs.Size.{arguments, block_size, blocks_size, blocks_arguments, size, charge};

use crate::instr::{Block, Instr};
use hlo_num::Seq;
use std::marker::Model;

/// One routine of a program, within the [`limits`](crate::limits) of the language. All registers but the parameters, which are the first ones, and all arrays are 0 at a call.
#[derive(Drop)]
pub struct Routine {
    pub pid: u32,
    pub params: u32,
    /// Whether it gives a value.
    pub value: bool,
    /// How many registers it has.
    pub regs: u32,
    /// How often a profile has seen it entered; no part of the meaning.
    pub entry: u32,
    /// How many elements each local array has.
    pub arrays: Seq<u32>,
    /// The basic blocks. A call begins at the first.
    pub blocks: Seq<Block>,
}

impl Model for Routine {
    ghost use Rattle.il_core.specs.Routine.{RoutineParts};
    ghost use Rattle.il_core.specs.Limits.{IsWithinLimits};

    ghost Value = { RoutineParts };

    ghost view = { λ r. record { pid = r.pid; params = r.params; value = r.value; regs = r.regs; entry = r.entry; arrays = r.arrays; blocks = r.blocks } };

    ghost invariant = { λ r. IsWithinLimits (record {
      pid = r.pid;
      params = r.params;
      value = r.value;
      regs = r.regs;
      entry = r.entry;
      arrays = r.arrays;
      blocks = r.blocks;
    }) };
}

impl Routine {
    /// How large it is: its instructions and the ends of its blocks. It takes time in proportion to the
    /// blocks.
    pub fn size(&self) -> u32
        ensures size { result ≡ size self.now }
        ensures bound { result ≤ max_size }
    {
        size_of_blocks(self.blocks.as_slice())
    }

    /// The bytes that its expanded form is charged with. It takes time in proportion to the instructions.
    pub fn charge(&self) -> u64
        ensures { result ≡ charge self.now }
    {
        let blocks = self.blocks.as_slice();
        let sizes = 16 * blocks.len() as u64 + 32 * size_of_blocks(blocks) as u64;
        64 + sizes + 8 * arguments_of_blocks(blocks) + 8 * self.arrays.len() as u64
    }
}

fn size_of_blocks(blocks: &[Block]) -> u32
    requires { blocks_size blocks.now ≤ max_size }
    ensures { result ≡ blocks_size blocks.now }
{
    let mut size = 0;
    for block in blocks {
        size += block.instrs.len() as u32 + 1;
    }
    size
}

fn arguments_of_blocks(blocks: &[Block]) -> u64
    requires few { AllByRecursion IsBlock blocks.now }
    requires sized { blocks_size blocks.now ≤ max_size }
    ensures value { result ≡ blocks_arguments blocks.now }
    ensures bound { result ≤ max_parameters * blocks_size blocks.now }
{
    let mut arguments = 0;
    for block in blocks {
        arguments += arguments_of_instrs(block.instrs.as_slice());
    }
    arguments
}

fn arguments_of_instrs(instrs: &[Instr]) -> u64
    requires few { AllByRecursion IsInstr instrs.now }
    requires sized { length instrs.now ≤ max_size }
    ensures value { result ≡ sum_by arguments instrs.now }
    ensures bound { result ≤ max_parameters * length instrs.now }
{
    let mut total = 0;
    for instr in instrs {
        if let Instr::Call { args, .. } = instr {
            total += args.len() as u64;
        }
    }
    total
}
