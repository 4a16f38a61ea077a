//! A program as it starts.
ghost use Rattle.std.specs.Prelude.{◌≡◌, ◌+◌, ◌<◌, ◌≤◌, ℕ, IfOk, length, slice_index, sum};
ghost use Rattle.std.specs.List.{AllByRecursion};
ghost use Rattle.il_core.specs.Program.{main_pid, words_of};
ghost use Rattle.il_core.specs.Shapes.{IsRising};
ghost use Rattle.il_core.specs.Valid.{IsProgram};
ghost use Rattle.il_run.specs.Machine.{IsTabled};
ghost use Rattle.il_run.specs.Start.{Copies, HasWords, Starts};
ghost use Rattle.il_run.specs.Words.{AreStarts};

use crate::layout::Layout;
use crate::machine::Machine;
use crate::store::{Store, zeros};
use crate::tables::Tables;
use hlo_num::Word;
use il_core::{IlProgram, Object, Shapes};
use std::alloc::{AllocError, Global};

/// The program with its `main` called, which is no turn.
pub fn start(alloc: Global, p: &IlProgram, t: &Tables, turns: u64) -> Result<Machine, AllocError>
    requires valid { IsProgram p.now }
    requires tabled { IsTabled p.now t.now }
    ensures { IfOk result (Starts p.now t.now turns) }
{
    let pid = main_of(&p.shapes);
    let position = t.position[pid as usize];
    let routine = &p.routines.as_slice()[position as usize];
    let regs = zeros(alloc, routine.regs as usize)?;
    let elements = zeros(alloc, t.arrays[position as usize].total())?;
    let words = initial_words(alloc, p.objects.as_slice(), &t.objects)?;
    let store = Store {
        regs,
        elements,
        words,
        at_regs: 0,
        at_elements: 0,
    };
    Ok(Machine {
        store,
        routine: position,
        block: 0,
        instr: 0,
        stack: Vec::new(alloc),
        turns,
    })
}

/// The PID of the name `main`, or 0 where there is none. It takes time linear in the shapes.
pub fn main_of(shapes: &Shapes) -> u32
    ensures { result ≡ main_pid shapes.now }
{
    for row in shapes.rows.as_slice() {
        if row.name.bytes() == b"main".as_slice() {
            return row.pid;
        }
    }
    0
}

/// The words of all objects as the program starts.
fn initial_words(alloc: Global, objects: &[Object], layout: &Layout) -> Result<Vec<u32>, AllocError>
    requires starts { AreStarts layout.now.sizes.items layout.now.starts.items }
    requires sizes { (g : ℕ) → slice_index layout.now.sizes.items g ≡ words_of objects.now g }
    requires rising { IsRising (λ o. o.pid) objects.now }
    requires some { AllByRecursion (λ o. 0 < o.words) objects.now }
    ensures count { IfOk result (λ v. length v.items ≡ sum layout.now.sizes.items) }
    ensures each { IfOk result (λ v. HasWords objects.now layout.now.sizes.items 0 v.items) }
{
    let mut words = zeros(alloc, layout.total())?;
    let mut i = objects.len();
    'back: while 0 < i {
        i -= 1;
        let object = &objects[i];
        let at = layout.starts[object.pid as usize];
        copy(&mut words, at, object.init.as_slice());
    }
    Ok(words)
}

/// Puts some words at the places from `at` on.
fn copy(words: &mut Vec<u32>, at: usize, init: &[Word])
    requires { at + length init.now ≤ length words.old.items }
    ensures { Copies words.old.items words.new.items at init.now }
{
    for (k, w) in init.iter().enumerate() {
        words[at + k] = w.0;
    }
}
