//! The clones that a plan has made, each with its root.
ghost use Rattle.std.specs.Prelude.{◌≡◌, ◌+◌, ◌<◌, ◌∷◌, ◌++◌, [], codes, decimal, length, IfOk, IsTrue, OnErr, OnOk};
ghost use Rattle.std.specs.List.{list_all};
ghost use Rattle.hlo_num.specs.Name.{is_name_byte};
ghost use Rattle.clone_names.specs.Made.{next_pid};
ghost use Rattle.il_core.specs.Limits.{max_pids};
ghost use Rattle.il_core.specs.Program.{name_at};
ghost use Rattle.plan_laws.specs.Plan.{clone_name, clones_of, root_of};

use hlo_num::Name;
use il_check::row_of;
use il_core::Shapes;
use itoa::Buffer;
use std::alloc::{AllocError, Global};
use std::marker::Model;

/// The clones that a plan has made so far, whose PIDs follow one another, each with its root: the routine of the first program
/// that it comes from, through clones of clones.
#[derive(Drop)]
pub struct MadeClones {
    first: u32,
    roots: Vec<u32>,
    counts: Vec<u32>,
}

impl Model for MadeClones {
    ghost use Rattle.std.specs.Prelude.{[]};
    ghost use Rattle.clone_names.specs.Made.{AreCounted, Clones, made_from};

    ghost Value = { Clones };

    ghost view = { λ m. record { first = m.first; made = made_from m.first m.roots.items [] } };

    ghost invariant = { λ m. AreCounted m.first m.roots.items m.counts.items };
}

impl MadeClones {
    /// None yet. The first one takes that PID, which is above all of the first program. It takes memory for a number for each
    /// PID below it.
    pub fn new(alloc: Global, first: u32) -> Result<MadeClones, AllocError>
        ensures { IfOk result (λ m. m ≡ record { first = first; made = [] }) }
    {
        Ok(MadeClones {
            first,
            roots: Vec::new(alloc),
            counts: vec![in alloc; 0; first as usize]?,
        })
    }

    /// The root of a routine, which is itself where it isn't a clone. It takes constant time.
    pub fn root_of(&self, pid: u32) -> u32
        ensures { result ≡ root_of self.now.made pid }
    {
        if pid < self.first {
            return pid;
        }
        let place = (pid - self.first) as usize;
        if place < self.roots.len() {
            self.roots[place]
        } else {
            pid
        }
    }

    /// How many clones have that root. It takes constant time.
    pub fn count(&self, root: u32) -> u32
        ensures { result ≡ clones_of self.now.made root }
    {
        let place = root as usize;
        if place < self.counts.len() {
            self.counts[place]
        } else {
            0
        }
    }

    /// The name of the next clone of a routine: its root's name in the first program, `$`, and the next number of that root. It
    /// takes a search by halves for the name, and time in proportion to it.
    pub fn name(&self, alloc: Global, names: &Shapes, callee: u32) -> Result<Name, AllocError>
        requires { length self.now.made < max_pids }
        ensures { IfOk result (λ n. n ≡ clone_name names.now self.now.made (root_of self.now.made callee)) }
    {
        let root = self.root_of(callee);
        let number = self.count(root) + 1;
        numbered_name(alloc, name_of(names, root), number)
    }

    /// Adds a clone of a routine of the program: it has the next PID. A refused call, for want of memory, changes nothing. It
    /// takes constant time on average.
    pub fn add(&mut self, callee: u32) -> Result<(), AllocError>
        requires known { callee < next_pid self.old }
        requires room { next_pid self.old < max_pids }
        ensures ok { OnOk result (self.new ≡ record self.old {
          made = record { clone = next_pid self.old; root = root_of self.old.made callee }
              ∷ self.old.made;
        }) }
        ensures err { OnErr result (self.new ≡ self.old) }
    {
        let root = self.root_of(callee);
        self.roots.push(root)?;
        self.counts[root as usize] += 1;
        Ok(())
    }
}

/// The bytes of the name of a PID, of which there are none where it has no row.
fn name_of(names: &Shapes, pid: u32) -> &[u8]
    ensures name { result.now ≡ name_at names.now pid }
    ensures bytes { IsTrue (list_all is_name_byte result.now) }
{
    match row_of(names, pid) {
        Some(row) => row.name.bytes(),
        None => &[],
    }
}

/// A name with `$` and a number behind it.
fn numbered_name(alloc: Global, name: &[u8], number: u32) -> Result<Name, AllocError>
    requires { IsTrue (list_all is_name_byte name.now) }
    ensures { IfOk result (λ n. n ≡ name.now ++ (codes "$" ++ decimal number)) }
{
    let mut buffer = Buffer::new();
    let mut bytes = Vec::from_slice(alloc, name)?;
    bytes.push(b'$')?;
    bytes.extend_from_slice(buffer.format(number).as_bytes())?;
    Name::new(alloc, bytes.as_slice())
}
