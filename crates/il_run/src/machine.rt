//! A running program, from one thing that it asks for to the next.
ghost use Rattle.std.specs.Prelude.{◌≡◌, ◌<◌, ◌≤◌, IfOk, MatchResult, length};
ghost use Rattle.il_core.specs.Limits.{max_size};
ghost use Rattle.il_core.specs.Size.{blocks_size};
ghost use Rattle.il_core.specs.Valid.{IsProgram};
ghost use Rattle.il_run.specs.Machine.{IsNext, IsSound, IsTabled, Moved, Returning, RunsPlain, Steps, block_in, routine_in};
ghost use Rattle.il_run.specs.Plain.{IsPlain};

use crate::ending::Ending;
use crate::store::{Store, is_plain};
use crate::tables::Tables;
use hlo_num::{Trap, Word};
use il_core::{End, IlProgram, Instr, Routine};
use std::alloc::AllocError;

/// A call that waits for another one to return: where it goes on, the register that gets the value,
/// and where its registers and elements begin.
#[derive(Clone, Copy)]
pub struct Suspended {
    pub routine: u32,
    pub block: u32,
    pub instr: usize,
    pub dest: Option<u32>,
    pub at_regs: usize,
    pub at_elements: usize,
}

/// A running program: its words, where the current call stands, the calls that wait, the first one
/// first, and the turns left.
#[derive(Drop)]
pub struct Machine {
    pub store: Store,
    /// The current call's routine, by its position in the program.
    pub routine: u32,
    pub block: u32,
    /// How many of the block's instructions are done.
    pub instr: usize,
    pub stack: Vec<Suspended>,
    pub turns: u64,
}

/// What a program asks for where it doesn't go on by itself.
#[derive(Clone, Copy)]
pub enum Move {
    /// Nothing, but a call was made: the last one that waits made it.
    Called,
    /// A register gets the next byte of the input, or 4294967295 at its end.
    Get(u32),
    /// A byte is put out.
    Put(u8),
    /// The program has ended.
    End(Ending),
}

impl Machine {
    /// Runs on until the program makes a call, meets the outside or ends. Want of memory leaves the
    /// machine in no state that anything is said of.
    pub fn advance(&mut self, p: &IlProgram, t: &Tables) -> Result<Move, AllocError>
        requires valid { IsProgram p.now }
        requires tabled { IsTabled p.now t.now }
        requires sound { IsSound p.now t.now self.old }
        ensures { IfOk result (λ move. Moved p.now t.now self.old self.new move) }
    {
        'running: loop {
            if let Some(asked) = self.run_block(p, t)? {
                return Ok(asked);
            }
        }
    }

    /// The current block from its next instruction on: the plain ones that follow in a row, and then
    /// one that isn't plain, or the block's end.
    #[inline]
    fn run_block(&mut self, p: &IlProgram, t: &Tables) -> Result<Option<Move>, AllocError>
        requires valid { IsProgram p.now }
        requires tabled { IsTabled p.now t.now }
        requires sound { IsSound p.now t.now self.old }
        ensures { IfOk result (λ asked. Steps p.now t.now self.old self.new asked) }
    {
        let routine = &p.routines.as_slice()[self.routine as usize];
        let block = &routine.blocks.as_slice()[self.block as usize];
        let instrs = block.instrs.as_slice();
        match self.run_plain(p, t, routine, instrs) {
            Ok(()) => {}
            Err(trap) => return Ok(Some(Move::End(Ending::Trapped(trap)))),
        }
        if self.instr < instrs.len() {
            self.execute(p, t, routine, &instrs[self.instr])
        } else {
            Ok(self.finish(p, t, routine, &block.end))
        }
    }

    /// The plain instructions in a row from the next one on, up to one that isn't plain, or to the
    /// block's end.
    #[inline]
    fn run_plain(
        &mut self,
        p: &IlProgram,
        t: &Tables,
        routine: &Routine,
        instrs: &[Instr],
    ) -> Result<(), Trap>
        requires valid { IsProgram p.now }
        requires tabled { IsTabled p.now t.now }
        requires sound { IsSound p.now t.now self.old }
        requires routine { routine.now ≡ routine_in p.now self.old.routine }
        requires instrs { instrs.now ≡ (block_in (routine_in p.now self.old.routine) self.old.block).instrs }
        ensures { MatchResult result (λ _. RunsPlain p.now t.now self.old self.new)
            (λ trap. Moved p.now t.now self.old self.new (Move.End (Ending.Trapped trap))) }
    {
        let arrays = &t.arrays[self.routine as usize];
        let mut at = self.instr;
        'instrs: while at < instrs.len() {
            let instr = &instrs[at];
            if !is_plain(instr) {
                self.instr = at;
                return Ok(());
            }
            match self.store.plain(routine, arrays, &t.objects, instr) {
                Ok(()) => {}
                Err(trap) => return Err(trap),
            }
            at += 1;
        }
        self.instr = at;
        Ok(())
    }

    /// An instruction that isn't plain.
    #[inline]
    fn execute(
        &mut self,
        p: &IlProgram,
        t: &Tables,
        routine: &Routine,
        instr: &Instr,
    ) -> Result<Option<Move>, AllocError>
        requires valid { IsProgram p.now }
        requires tabled { IsTabled p.now t.now }
        requires sound { IsSound p.now t.now self.old }
        requires routine { routine.now ≡ routine_in p.now self.old.routine }
        requires next { IsNext p.now self.old instr.now }
        requires special { IsPlain instr.now → ⊥ }
        ensures { IfOk result (λ asked. Steps p.now t.now self.old self.new asked) }
    {
        match instr {
            Instr::Turn => Ok(self.take_turn(p, t)),
            Instr::Call {
                dest,
                callee,
                count,
                args,
            } => {
                let made = self.call(p, t, routine, *dest, *callee, *count, args.as_slice())?;
                Ok(Some(made))
            }
            Instr::GetChar(d) => Ok(Some(self.get(p, t, *d))),
            Instr::PutChar(d, s) => Ok(Some(self.put(p, t, *d, *s))),
            _ => unreachable!(),
        }
    }

    /// A turn, where one is left.
    fn take_turn(&mut self, p: &IlProgram, t: &Tables) -> Option<Move>
        requires tabled { IsTabled p.now t.now }
        requires sound { IsSound p.now t.now self.old }
        requires next { IsNext p.now self.old Instr.Turn }
        ensures { Steps p.now t.now self.old self.new result }
    {
        if self.turns == 0 {
            return Some(Move::End(Ending::OutOfTurns));
        }
        self.turns -= 1;
        self.instr += 1;
        None
    }

    /// The next byte is wanted.
    fn get(&mut self, p: &IlProgram, t: &Tables, d: u32) -> Move
        requires tabled { IsTabled p.now t.now }
        requires sound { IsSound p.now t.now self.old }
        requires next { IsNext p.now self.old (Instr.GetChar d) }
        requires reg { d < (routine_in p.now self.old.routine).regs }
        ensures { Moved p.now t.now self.old self.new result }
    {
        self.instr += 1;
        Move::Get(d)
    }

    /// A byte is put out.
    fn put(&mut self, p: &IlProgram, t: &Tables, d: u32, x: u32) -> Move
        requires tabled { IsTabled p.now t.now }
        requires sound { IsSound p.now t.now self.old }
        requires next { IsNext p.now self.old (Instr.PutChar d x) }
        requires reg { d < (routine_in p.now self.old.routine).regs }
        requires source { x < (routine_in p.now self.old.routine).regs }
        ensures { Moved p.now t.now self.old self.new result }
    {
        let v = self.store.reg(x);
        let b = v % 256;
        self.store.set(d, b);
        self.instr += 1;
        Move::Put(b as u8)
    }

    /// A call, where a turn is left.
    fn call(
        &mut self,
        p: &IlProgram,
        t: &Tables,
        routine: &Routine,
        dest: Option<u32>,
        callee: u32,
        count: u32,
        args: &[u32],
    ) -> Result<Move, AllocError>
        requires valid { IsProgram p.now }
        requires tabled { IsTabled p.now t.now }
        requires sound { IsSound p.now t.now self.old }
        requires routine { routine.now ≡ routine_in p.now self.old.routine }
        requires next { IsNext p.now self.old (Instr.Call dest callee count args.now) }
        ensures { IfOk result (λ move. Moved p.now t.now self.old self.new move) }
    {
        if self.turns == 0 {
            return Ok(Move::End(Ending::OutOfTurns));
        }
        let position = t.position[callee as usize];
        let called = &p.routines.as_slice()[position as usize];
        let elements = t.arrays[position as usize].total();
        let waiting = Suspended {
            routine: self.routine,
            block: self.block,
            instr: self.instr + 1,
            dest,
            at_regs: self.store.at_regs,
            at_elements: self.store.at_elements,
        };
        self.store.enter(routine, args, called.regs, elements)?;
        self.stack.push(waiting)?;
        self.routine = position;
        self.block = 0;
        self.instr = 0;
        self.turns -= 1;
        Ok(Move::Called)
    }

    /// The end of a block.
    fn finish(&mut self, p: &IlProgram, t: &Tables, routine: &Routine, end: &End) -> Option<Move>
        requires valid { IsProgram p.now }
        requires tabled { IsTabled p.now t.now }
        requires sound { IsSound p.now t.now self.old }
        requires routine { routine.now ≡ routine_in p.now self.old.routine }
        requires few { blocks_size routine.now.blocks ≤ max_size }
        requires done { length (block_in (routine_in p.now self.old.routine) self.old.block).instrs ≤ self.old.instr }
        requires end { end.now ≡ (block_in (routine_in p.now self.old.routine) self.old.block).end }
        ensures { Steps p.now t.now self.old self.new result }
    {
        match end {
            End::Jump(u) => {
                self.block = *u;
                self.instr = 0;
                None
            }
            End::Branch(x, u, v) => {
                let c = self.store.reg(*x);
                self.instr = 0;
                if c == 0 {
                    self.block = *v;
                    return None;
                }
                self.block = *u;
                None
            }
            End::Loop(u) => {
                if self.turns == 0 {
                    return Some(Move::End(Ending::OutOfTurns));
                }
                self.turns -= 1;
                self.block = *u;
                self.instr = 0;
                None
            }
            End::Return(x) => {
                let v = self.store.value(routine, *x);
                self.give(p, t, v)
            }
            End::Exit(x) => Some(Move::End(Ending::Exit(Word(self.store.reg(*x))))),
        }
    }

    /// The current call returns a word.
    fn give(&mut self, p: &IlProgram, t: &Tables, v: u32) -> Option<Move>
        requires tabled { IsTabled p.now t.now }
        requires sound { IsSound p.now t.now self.old }
        requires returns { Returning p.now self.old v }
        ensures { Steps p.now t.now self.old self.new result }
    {
        let Some(waiting) = self.stack.pop() else {
            return Some(Move::End(Ending::Exit(Word(v))));
        };
        self.store.leave(waiting.at_regs, waiting.at_elements);
        self.store.receive(waiting.dest, v);
        self.routine = waiting.routine;
        self.block = waiting.block;
        self.instr = waiting.instr;
        None
    }
}
