//! The operands of instructions and ends.
ghost use Rattle.std.specs.Prelude.{◌≡◌};
ghost use Rattle.il_core.specs.Operands.{array_of, callee_of, can_trap, destination, end_source, is_named, is_pure, jumps, loops_to, object_of};
ghost use Rattle.il_core.specs.Operands.{operator_can_trap, reads, sources, targets, writes};

use crate::instr::{End, Instr};
use hlo_num::Op;
use std::marker::Model;

/// Operands of one kind, in the order of the text: it gives their numbers one by one. Contracts see the list of
/// those that are left.
#[derive(Drop)]
pub struct Operands<'a> {
    first: Option<u32>,
    second: Option<u32>,
    others: &'a [u32],
}

impl<'a> Model for Operands<'a> {
    ghost use Rattle.std.specs.Prelude.{ℕ, List, ◌++◌, option_to_list};

    ghost Value = { List ℕ };

    ghost view = { λ s. option_to_list s.first ++ (option_to_list s.second ++ s.others.now) };
}

impl<'a> Iterator for Operands<'a> {
    type Item = u32;

    ghost use Rattle.std.specs.Iterator.{YieldsFirst, item_count};

    ghost next_gives = { YieldsFirst (λ s. s) };

    ghost remaining = { item_count (λ s. s) };

    fn next(&mut self) -> Option<u32> {
        if let Some(x) = self.first.take() {
            return Some(x);
        }
        if let Some(x) = self.second.take() {
            return Some(x);
        }
        let (x, others) = self.others.split_first()?;
        self.others = others;
        Some(*x)
    }
}

impl Instr {
    /// The registers that it reads.
    pub fn sources(&self) -> Operands<'_>
        ensures { result ≡ sources self.now }
    {
        let (first, second) = match self {
            Instr::Const(..)
            | Instr::Get(..)
            | Instr::Clear(..)
            | Instr::Turn
            | Instr::GetChar(_) => (None, None),
            Instr::Move(_, s)
            | Instr::Conv(_, _, s)
            | Instr::Set(_, s)
            | Instr::GetX(_, _, s)
            | Instr::GetA(_, _, s)
            | Instr::PutChar(_, s) => (Some(*s), None),
            Instr::Bin(_, _, a, b) | Instr::SetX(_, a, b) | Instr::SetA(_, a, b) => (
                Some(*a),
                Some(*b),
            ),
            Instr::Call { args, .. } => {
                return Operands {
                    first: None,
                    second: None,
                    others: args.as_slice(),
                };
            }
        };
        Operands {
            first,
            second,
            others: &[],
        }
    }

    /// The register that gets a word, where one does. A `clear` has none: it sets registers to 0.
    pub fn destination(&self) -> Option<u32>
        ensures { result ≡ destination self.now }
    {
        match self {
            Instr::Const(d, _)
            | Instr::Move(d, _)
            | Instr::Conv(d, _, _)
            | Instr::Bin(_, d, _, _)
            | Instr::Get(d, _)
            | Instr::GetX(d, _, _)
            | Instr::GetA(d, _, _)
            | Instr::GetChar(d)
            | Instr::PutChar(d, _) => Some(*d),
            Instr::Call { dest, .. } => *dest,
            _ => None,
        }
    }

    /// Whether it reads a register. It takes time in proportion to the arguments of a call.
    pub fn reads(&self, register: u32) -> bool
        ensures { result ≡ reads self.now register }
    {
        self.sources().any(|source| register == source)
    }

    /// Whether it writes a register, as a destination or by a `clear`.
    pub fn writes(&self, register: u32) -> bool
        ensures { result ≡ writes self.now register }
    {
        match self {
            Instr::Clear(first, count, _, _) => {
                *first <= register && u64::from(register) < u64::from(*first) + u64::from(*count)
            }
            _ => is_named(self.destination(), register),
        }
    }

    /// The local array of which it reads or writes one element.
    pub fn array(&self) -> Option<u32>
        ensures { result ≡ array_of self.now }
    {
        match self {
            Instr::GetA(_, a, _) | Instr::SetA(a, _, _) => Some(*a),
            _ => None,
        }
    }

    /// The PID of the object that it reads or writes itself.
    pub fn object(&self) -> Option<u32>
        ensures { result ≡ object_of self.now }
    {
        match self {
            Instr::Get(_, pid)
            | Instr::Set(pid, _)
            | Instr::GetX(_, pid, _)
            | Instr::SetX(pid, _, _) => Some(*pid),
            _ => None,
        }
    }

    /// The PID of the routine that it calls.
    pub fn callee(&self) -> Option<u32>
        ensures { result ≡ callee_of self.now }
    {
        match self {
            Instr::Call { callee, .. } => Some(*callee),
            _ => None,
        }
    }

    /// Whether it traps on some words itself: an operator that can, or an access by an index.
    pub fn can_trap(&self) -> bool
        ensures { result ≡ can_trap self.now }
    {
        match self {
            Instr::Bin(op, ..) => operator_can_trap(*op),
            Instr::GetX(..) | Instr::SetX(..) | Instr::GetA(..) | Instr::SetA(..) => true,
            _ => false,
        }
    }

    /// Whether all that it does is to write registers: it can't trap, and leaves arrays, objects, input, output and
    /// turns as they are.
    pub fn is_pure(&self) -> bool
        ensures { result ≡ is_pure self.now }
    {
        match self {
            Instr::Const(..) | Instr::Move(..) | Instr::Conv(..) | Instr::Get(..) => true,
            Instr::Bin(op, ..) => !operator_can_trap(*op),
            Instr::Clear(_, _, _, arrays) => *arrays == 0,
            _ => false,
        }
    }
}

impl End {
    /// The register that it reads, where it reads one.
    pub fn source(&self) -> Option<u32>
        ensures { result ≡ end_source self.now }
    {
        match self {
            End::Branch(r, _, _) | End::Exit(r) => Some(*r),
            End::Return(r) => *r,
            End::Jump(_) | End::Loop(_) => None,
        }
    }

    /// The later blocks that it can go on at.
    pub fn jumps(&self) -> Operands<'static>
        ensures { result ≡ jumps self.now }
    {
        let (first, second) = match self {
            End::Jump(t) => (Some(*t), None),
            End::Branch(_, t, u) => (Some(*t), Some(*u)),
            _ => (None, None),
        };
        Operands {
            first,
            second,
            others: &[],
        }
    }

    /// The block that it goes back to, where it is a loop.
    pub fn loops_to(&self) -> Option<u32>
        ensures { result ≡ loops_to self.now }
    {
        match self {
            End::Loop(t) => Some(*t),
            _ => None,
        }
    }

    /// All blocks that it names.
    pub fn targets(&self) -> Operands<'static>
        ensures { result ≡ targets self.now }
    {
        let (first, second) = match self {
            End::Jump(t) | End::Loop(t) => (Some(*t), None),
            End::Branch(_, t, u) => (Some(*t), Some(*u)),
            End::Return(_) | End::Exit(_) => (None, None),
        };
        Operands {
            first,
            second,
            others: &[],
        }
    }
}

/// Whether a number is that one, where there is one.
fn is_named(named: Option<u32>, number: u32) -> bool
    ensures { result ≡ is_named named number }
{
    match named {
        Some(n) => number == n,
        None => false,
    }
}

/// Whether an operator traps on some words: quotients and remainders, and shifts.
pub fn operator_can_trap(op: Op) -> bool
    ensures { result ≡ operator_can_trap op }
{
    matches!(
        op,
        Op::DivS | Op::DivU | Op::RemS | Op::RemU | Op::Shl | Op::ShrS | Op::ShrU
    )
}
