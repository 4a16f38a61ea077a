//! The writer of a routine's draft.
ghost use Rattle.std.specs.Prelude.{◌≡◌, suc, [], map, slice_index, IfOk, OnOk};
ghost use Rattle.lower_laws.specs.Code.{past_reg, past_instr, past_end, past_site, past_new, past_label};
ghost use Rattle.c_lower.specs.Drafts as drafts;
ghost use Rattle.c_lower.specs.Lowering.{nothing};
ghost use Rattle.c_lower.specs.Settled.{settle, settled};

use crate::fault::LowerFault;
use hlo_num::Seq;
use il_core::{Block, End, Instr};
use std::alloc::Global;
use std::marker::Model;

/// The code of a function that is written so far. The ends of its blocks name labels where a routine names
/// blocks: a label is a place of `targets`, which says its block.
#[derive(Drop)]
pub(crate) struct Writer {
    /// The blocks that are finished, and the instructions of the one that is open.
    done: Vec<Block>,
    here: Vec<Instr>,
    /// The block of each label. It is 0 until the label's place is reached.
    targets: Vec<u32>,
    /// The register of each local that is declared so far.
    locals: Vec<u32>,
    /// The next register, the block that is open or begins next, the next call site, and how many
    /// instructions and ends there are.
    reg: u32,
    block: u32,
    site: u32,
    size: u32,
}

impl Model for Writer {
    ghost use Rattle.c_lower.specs.Drafts.{Writing};

    ghost Value = { Writing };

    ghost view = { λ w. record {
      numbers = record { reg = w.reg; block = w.block; site = w.site; size = w.size };
      draft = record { done = w.done.items; here = w.here.items; targets = w.targets.items; locals = w.locals.items };
    } };
}

/// The next number. Numbers past 32 bits don't fit any memory.
pub(crate) fn after(n: u32) -> Result<u32, LowerFault>
    ensures { IfOk result (λ m. m ≡ suc n) }
{
    match n.checked_add(1) {
        Some(next) => Ok(next),
        None => Err(LowerFault::Memory),
    }
}

/// The place behind a list of this length.
fn place(len: usize) -> Result<u32, LowerFault>
    ensures { IfOk result (λ n. n ≡ len) }
{
    if len > u32::MAX as usize {
        return Err(LowerFault::Memory);
    }
    Ok(len as u32)
}

/// The block of a label, and 0 for one that isn't there.
fn target(targets: &[u32], label: u32) -> u32
    ensures { result ≡ slice_index targets.now label }
{
    match targets.get(label as usize) {
        Some(block) => *block,
        None => 0,
    }
}

/// An end with the block of each label that it names.
fn settle(targets: &[u32], end: End) -> End
    ensures { result ≡ settle (slice_index targets.now) end }
{
    match end {
        End::Jump(label) => End::Jump(target(targets, label)),
        End::Branch(register, yes, no) => {
            End::Branch(register, target(targets, yes), target(targets, no))
        }
        End::Loop(label) => End::Loop(target(targets, label)),
        End::Return(register) => End::Return(register),
        End::Exit(register) => End::Exit(register),
    }
}

/// The ends of blocks name blocks in place of labels.
fn settle_blocks(blocks: &mut [Block], targets: &[u32])
    ensures { blocks.new ≡ map (settled (slice_index targets.now)) blocks.old }
{
    for block in blocks.iter_mut() {
        block.end = settle(targets, block.end);
    }
}

impl Writer {
    /// A writer of nothing so far, where so many registers are taken.
    pub(crate) fn new(alloc: Global, params: u32) -> Writer
        ensures numbers { result.numbers ≡ record { reg = params; block = 0; site = 0; size = 0 } }
        ensures draft { result.draft ≡ nothing }
    {
        Writer {
            done: Vec::new(alloc),
            here: Vec::new(alloc),
            targets: Vec::new(alloc),
            locals: Vec::new(alloc),
            reg: params,
            block: 0,
            site: 0,
            size: 0,
        }
    }

    /// The finished blocks, whose ends name blocks.
    pub(crate) fn into_blocks(self) -> Vec<Block>
        ensures { result.items ≡ map (settled (slice_index self.draft.targets)) self.draft.done }
    {
        let Writer {
            mut done,
            targets,
            ..
        } = self;
        settle_blocks(done.as_mut_slice(), targets.as_slice());
        done
    }

    /// How many instructions and ends there are.
    pub(crate) fn size(&self) -> u32
        ensures { result ≡ self.now.numbers.size }
    {
        self.size
    }

    /// The next register.
    pub(crate) fn reg(&self) -> u32
        ensures { result ≡ self.now.numbers.reg }
    {
        self.reg
    }

    /// The block that is open, or begins next.
    pub(crate) fn block(&self) -> u32
        ensures { result ≡ self.now.numbers.block }
    {
        self.block
    }

    /// The next call site.
    pub(crate) fn site(&self) -> u32
        ensures { result ≡ self.now.numbers.site }
    {
        self.site
    }

    /// The register of a local that is declared, and 0 for one that isn't.
    pub(crate) fn local(&self, x: u32) -> u32
        ensures { result ≡ slice_index self.now.draft.locals x }
    {
        match self.locals.get(x as usize) {
            Some(register) => *register,
            None => 0,
        }
    }

    /// An empty list of registers.
    pub(crate) fn no_registers(&self) -> Vec<u32>
        ensures { result.items ≡ [] }
    {
        Vec::new(*self.done.allocator())
    }

    /// A new register.
    pub(crate) fn new_register(&mut self) -> Result<u32, LowerFault>
        ensures register { IfOk result (λ r. r ≡ self.old.numbers.reg) }
        ensures numbers { OnOk result (self.new.numbers ≡ past_reg self.old.numbers) }
        ensures draft { self.new.draft ≡ self.old.draft }
    {
        let register = self.reg;
        self.reg = after(register)?;
        Ok(register)
    }

    /// A new call site.
    pub(crate) fn count_site(&mut self) -> Result<(), LowerFault>
        ensures numbers { OnOk result (self.new.numbers ≡ past_site self.old.numbers) }
        ensures draft { self.new.draft ≡ self.old.draft }
    {
        self.site = after(self.site)?;
        Ok(())
    }

    /// An instruction.
    #[tactic(auto, unfolding(crate::specs::Drafts::write))]
    pub(crate) fn put(&mut self, instr: Instr) -> Result<(), LowerFault>
        ensures numbers { OnOk result (self.new.numbers ≡ past_instr self.old.numbers) }
        ensures draft { OnOk result (self.new.draft ≡ drafts.write instr self.old.draft) }
    {
        self.size = after(self.size)?;
        self.here.push(instr)?;
        Ok(())
    }

    /// An instruction that gives the next register its word.
    pub(crate) fn put_new(&mut self, instr: Instr) -> Result<(), LowerFault>
        ensures numbers { OnOk result (self.new.numbers ≡ past_new self.old.numbers) }
        ensures draft { OnOk result (self.new.draft ≡ drafts.write instr self.old.draft) }
    {
        self.new_register()?;
        self.put(instr)
    }

    /// The end of the block that is open.
    #[tactic(auto, unfolding(crate::specs::Drafts::finish))]
    pub(crate) fn finish(&mut self, end: End) -> Result<(), LowerFault>
        ensures numbers { OnOk result (self.new.numbers ≡ past_end self.old.numbers) }
        ensures draft { OnOk result (self.new.draft ≡ drafts.finish end self.old.draft) }
    {
        self.size = after(self.size)?;
        self.block = after(self.block)?;
        let empty = Vec::new(*self.done.allocator());
        let instrs = std::mem::replace(&mut self.here, empty);
        let block = Block {
            instrs: Seq::from_vec(instrs),
            end,
        };
        self.done.push(block)?;
        Ok(())
    }

    /// The label that comes next.
    #[tactic(auto, unfolding(crate::specs::Drafts::next_label))]
    pub(crate) fn next_label(&self) -> Result<u32, LowerFault>
        ensures { IfOk result (λ l. l ≡ drafts.next_label self.now.draft) }
    {
        place(self.targets.len())
    }

    /// A label at a block that is known, or, with 0, one whose place is reached later.
    #[tactic(auto, unfolding(crate::specs::Drafts::mark, crate::specs::Drafts::next_label))]
    pub(crate) fn mark(&mut self, block: u32) -> Result<u32, LowerFault>
        ensures label { IfOk result (λ l. l ≡ drafts.next_label self.old.draft) }
        ensures numbers { self.new.numbers ≡ self.old.numbers }
        ensures draft { OnOk result (self.new.draft ≡ drafts.mark block self.old.draft) }
    {
        let label = place(self.targets.len())?;
        self.targets.push(block)?;
        Ok(label)
    }

    /// The place of a label is reached.
    #[tactic(auto, unfolding(crate::specs::Drafts::reach))]
    pub(crate) fn reach(&mut self, label: u32)
        ensures numbers { self.new.numbers ≡ self.old.numbers }
        ensures draft { self.new.draft ≡ drafts.reach label self.old.numbers.block self.old.draft }
    {
        let block = self.block;
        if let Some(target) = self.targets.get_mut(label as usize) {
            *target = block;
        }
    }

    /// The next local has a register.
    #[tactic(auto, unfolding(crate::specs::Drafts::declare))]
    pub(crate) fn declare(&mut self, register: u32) -> Result<(), LowerFault>
        ensures numbers { self.new.numbers ≡ self.old.numbers }
        ensures draft { OnOk result (self.new.draft ≡ drafts.declare register self.old.draft) }
    {
        self.locals.push(register)?;
        Ok(())
    }

    /// The next block, begun by a jump to it where a block is open.
    pub(crate) fn begin_block(&mut self, opened: bool) -> Result<(), LowerFault>
        ensures numbers { OnOk result (self.new.numbers ≡ past_label opened self.old.numbers) }
        ensures draft { OnOk result (self.new.draft ≡ drafts.begin_block opened self.old.numbers self.old.draft) }
    {
        if !opened {
            return Ok(());
        }
        let next = self.mark(after(self.block)?)?;
        self.finish(End::Jump(next))
    }

    /// Goes on in the next block where a register isn't 0, and else at a label.
    pub(crate) fn branch(&mut self, register: u32, label: u32) -> Result<(), LowerFault>
        ensures numbers { OnOk result (self.new.numbers ≡ past_end self.old.numbers) }
        ensures draft { OnOk result (self.new.draft ≡ drafts.branch register label self.old.numbers self.old.draft) }
    {
        let next = self.mark(after(self.block)?)?;
        self.finish(End::Branch(register, next, label))
    }
}
