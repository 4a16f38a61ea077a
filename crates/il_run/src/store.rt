//! The words of a running program: registers, local arrays and objects.
ghost use Rattle.std.specs.Prelude.{◌≡◌, ◌+◌, ◌-◌, ◌<◌, ◌≤◌, ◌++◌, ⊤, length, replicate, slice_index, sum, IfOk, OnOk, MatchBool, MatchOption};
ghost use Rattle.std.specs.List.{AllByRecursion};
ghost use Rattle.il_core.specs.Meaning.{returned};
ghost use Rattle.il_core.specs.Valid.{IsRegIfSome};
ghost use Rattle.il_core.specs.World.{each};
ghost use Rattle.il_run.specs.Frames.{Enters, Leaves, Receives};
ghost use Rattle.il_run.specs.Words.{AreStarts, Zeroed, start_of};
ghost use Rattle.il_run.specs.Plain.{Executes, Fits, Clears, frame_in, Holds, IsPlain, SetsElement, SetsReg, SetsWord};

use crate::layout::Layout;
use hlo_num::{Trap, Word, binary, convert};
use il_core::{Instr, Routine};
use std::alloc::{AllocError, Global};

/// The registers and the elements of all calls on their way, the current call's last, and the words
/// of all objects.
#[derive(Drop)]
pub struct Store {
    pub regs: Vec<u32>,
    pub elements: Vec<u32>,
    pub words: Vec<u32>,
    /// Where the current call's registers begin.
    pub at_regs: usize,
    /// Where its elements begin.
    pub at_elements: usize,
}

impl Store {
    /// A register's word.
    #[inline]
    pub fn reg(&self, x: u32) -> u32
        requires { self.now.at_regs + x < length self.now.regs.items }
        ensures { result ≡ slice_index self.now.regs.items (self.now.at_regs + x) }
    {
        self.regs[self.at_regs + x as usize]
    }

    /// A register gets a word.
    #[inline]
    pub fn set(&mut self, d: u32, v: u32)
        requires { self.old.at_regs + d < length self.old.regs.items }
        ensures { SetsReg self.old self.new d v }
    {
        self.regs[self.at_regs + d as usize] = v;
    }

    /// A word of the objects is replaced.
    #[inline]
    fn set_word(&mut self, at: usize, v: u32)
        requires { at < length self.old.words.items }
        ensures { SetsWord self.old self.new at v }
    {
        self.words[at] = v;
    }

    /// An element of the current call is replaced.
    #[inline]
    fn set_element(&mut self, at: usize, v: u32)
        requires { self.old.at_elements + at < length self.old.elements.items }
        ensures { SetsElement self.old self.new at v }
    {
        self.elements[self.at_elements + at] = v;
    }

    /// Some registers from `k` on, `c` of them, and all elements of some arrays from `a` on, `m` of
    /// them, become 0.
    fn clear(&mut self, arrays: &Layout, k: u32, c: u32, a: u32, m: u32)
        requires starts { AreStarts arrays.now.sizes.items arrays.now.starts.items }
        requires regs { self.old.at_regs + k + c ≤ length self.old.regs.items }
        requires arrays { a + m ≤ length arrays.now.sizes.items }
        requires elements { self.old.at_elements + sum arrays.now.sizes.items ≤ length self.old.elements.items }
        ensures { Clears self.old self.new k c (start_of arrays.now.sizes.items a) (start_of arrays.now.sizes.items (a + m)) }
    {
        let regs = self.at_regs + k as usize;
        zero(&mut self.regs, regs, regs + c as usize);
        let from = arrays.starts[a as usize];
        let to = arrays.starts[a as usize + m as usize];
        let base = self.at_elements;
        zero(&mut self.elements, base + from, base + to);
    }

    /// A call begins: its registers are the arguments and then 0, and its elements are 0.
    pub fn enter(
        &mut self,
        r: &Routine,
        args: &[u32],
        regs: u32,
        elements: usize,
    ) -> Result<(), AllocError>
        requires holds { self.old.at_regs + r.now.regs ≡ length self.old.regs.items }
        requires args { AllByRecursion (λ x. x < r.now.regs) args.now }
        requires fit { length args.now ≤ regs }
        ensures { OnOk result (Enters self.old self.new (each (frame_in self.old r.now).regs args.now) regs elements) }
    {
        let at_regs = self.regs.len();
        let at_elements = self.elements.len();
        for x in args {
            let v = self.reg(*x);
            self.regs.push(v)?;
        }
        lengthen(&mut self.regs, at_regs, regs as usize)?;
        lengthen(&mut self.elements, at_elements, elements)?;
        self.at_regs = at_regs;
        self.at_elements = at_elements;
        Ok(())
    }

    /// The current call's words go, and those of a call that waited, which begin at these places,
    /// are the last ones again.
    pub fn leave(&mut self, at_regs: usize, at_elements: usize)
        ensures { Leaves self.old self.new at_regs at_elements }
    {
        self.regs.truncate(self.at_regs);
        self.elements.truncate(self.at_elements);
        self.at_regs = at_regs;
        self.at_elements = at_elements;
    }

    /// What a call returns: a register's word, or 0 where it gives no value.
    pub fn value(&self, r: &Routine, x: Option<u32>) -> u32
        requires holds { self.now.at_regs + r.now.regs ≡ length self.now.regs.items }
        requires reg { IsRegIfSome r.now.regs x }
        ensures { result ≡ returned (frame_in self.now r.now) x }
    {
        match x {
            Some(x) => self.reg(x),
            None => 0,
        }
    }

    /// A register gets a word, where one is wanted.
    pub fn receive(&mut self, dest: Option<u32>, v: u32)
        requires { MatchOption dest ⊤ (λ d. self.old.at_regs + d < length self.old.regs.items) }
        ensures { Receives self.old self.new dest v }
    {
        if let Some(d) = dest {
            self.set(d, v);
        }
    }

    /// Executes an instruction that neither calls nor takes a turn nor meets the outside, and no
    /// other one.
    #[inline]
    pub fn plain(
        &mut self,
        r: &Routine,
        arrays: &Layout,
        objects: &Layout,
        instr: &Instr,
    ) -> Result<(), Trap>
        requires fits { Fits r.now objects.now.sizes.items instr.now }
        requires holds { Holds self.old r.now objects.now.sizes.items }
        requires arrays { arrays.now.sizes.items ≡ r.now.arrays }
        requires starts { AreStarts arrays.now.sizes.items arrays.now.starts.items }
        requires objects { AreStarts objects.now.sizes.items objects.now.starts.items }
        ensures { Executes r.now objects.now.sizes.items instr.now self.old self.new result }
    {
        match instr {
            Instr::Const(d, w) => {
                self.set(*d, w.0);
                Ok(())
            }
            Instr::Move(d, s) => {
                let v = self.reg(*s);
                self.set(*d, v);
                Ok(())
            }
            Instr::Conv(d, t, s) => {
                let v = self.reg(*s);
                self.set(*d, convert(*t, Word(v)).0);
                Ok(())
            }
            Instr::Bin(o, d, a, b) => {
                let x = self.reg(*a);
                let y = self.reg(*b);
                let v = binary(*o, Word(x), Word(y))?;
                self.set(*d, v.0);
                Ok(())
            }
            Instr::Get(d, g) => {
                let v = self.words[objects.starts[*g as usize]];
                self.set(*d, v);
                Ok(())
            }
            Instr::Set(g, s) => {
                let v = self.reg(*s);
                self.set_word(objects.starts[*g as usize], v);
                Ok(())
            }
            Instr::GetX(d, g, i) => {
                let index = self.reg(*i);
                let at = objects.find(*g, index)?;
                let v = self.words[at];
                self.set(*d, v);
                Ok(())
            }
            Instr::SetX(g, i, s) => {
                let index = self.reg(*i);
                let at = objects.find(*g, index)?;
                let v = self.reg(*s);
                self.set_word(at, v);
                Ok(())
            }
            Instr::GetA(d, a, i) => {
                let index = self.reg(*i);
                let at = arrays.find(*a, index)?;
                let v = self.elements[self.at_elements + at];
                self.set(*d, v);
                Ok(())
            }
            Instr::SetA(a, i, s) => {
                let index = self.reg(*i);
                let at = arrays.find(*a, index)?;
                let v = self.reg(*s);
                self.set_element(at, v);
                Ok(())
            }
            Instr::Clear(k, c, a, m) => {
                self.clear(arrays, *k, *c, *a, *m);
                Ok(())
            }
            _ => Ok(()),
        }
    }
}

/// Whether an instruction neither calls nor takes a turn nor meets the outside.
#[inline]
pub fn is_plain(instr: &Instr) -> bool
    ensures { MatchBool result (IsPlain instr.now) (IsPlain instr.now → ⊥) }
{
    match instr {
        Instr::Turn | Instr::Call { .. } | Instr::GetChar(_) | Instr::PutChar(_, _) => false,
        _ => true,
    }
}

/// So many zeros.
pub fn zeros(alloc: Global, n: usize) -> Result<Vec<u32>, AllocError>
    ensures { IfOk result (λ v. v.items ≡ replicate n 0) }
{
    vec![in alloc; 0; n]
}

/// Adds zeros, until `n` words stand behind the first `at`.
fn lengthen(words: &mut Vec<u32>, at: usize, n: usize) -> Result<(), AllocError>
    requires front { at ≤ length words.old.items }
    requires fit { length words.old.items ≤ at + n }
    ensures { OnOk result (words.new.items ≡ words.old.items ++ replicate (n - (length words.old.items - at)) 0) }
{
    let Some(end) = at.checked_add(n) else {
        return Err(AllocError);
    };
    words.resize(end, 0)?;
    Ok(())
}

/// The words from a place to another become 0.
fn zero(words: &mut Vec<u32>, from: usize, to: usize)
    requires order { from ≤ to }
    requires within { to ≤ length words.old.items }
    ensures { Zeroed words.old.items words.new.items from to }
{
    words[from..to].fill(0);
}
