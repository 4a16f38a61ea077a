//! What is looked up by number while a program runs.
ghost use Rattle.std.specs.Prelude.{◌≡◌, ◌^◌, ◌<◌, ◌≤◌, IfOk, length};
ghost use Rattle.std.specs.List.{AllByRecursion};
ghost use Rattle.il_core.specs.Limits.{max_pids, max_routines};
ghost use Rattle.il_core.specs.Valid.{IsProgram};
ghost use Rattle.il_run.specs.Machine.{IsTabled};
ghost use Rattle.il_run.specs.Tables.{AreLayouts, HasPositions, HasSizes};

use crate::layout::Layout;
use crate::store::zeros;
use il_core::{IlProgram, Object, Routine, limits};
use std::alloc::{AllocError, Global};

/// Where each routine stands in its program, by PID; each routine's local arrays; and the objects,
/// by PID.
#[derive(Drop)]
pub struct Tables {
    pub position: Vec<u32>,
    pub arrays: Vec<Layout>,
    pub objects: Layout,
}

impl Tables {
    /// The tables of a program, in time and memory linear in the PIDs, the routines, their arrays and
    /// the objects.
    pub fn new(alloc: Global, p: &IlProgram) -> Result<Tables, AllocError>
        requires { IsProgram p.now }
        ensures { IfOk result (IsTabled p.now) }
    {
        let routines = p.routines.as_slice();
        let position = positions(alloc, routines)?;
        let arrays = layouts(alloc, routines)?;
        let sizes = sizes_of(alloc, p.objects.as_slice())?;
        let objects = Layout::new(alloc, sizes)?;
        Ok(Tables {
            position,
            arrays,
            objects,
        })
    }
}

/// The position of each routine, by PID. Of two with one PID it is the first one's.
fn positions(alloc: Global, routines: &[Routine]) -> Result<Vec<u32>, AllocError>
    requires { length routines.now ≤ max_routines }
    ensures count { IfOk result (λ v. length v.items ≡ max_pids) }
    ensures each { IfOk result (λ v. HasPositions routines.now 0 v.items) }
{
    let mut position = zeros(alloc, limits::PIDS as usize)?;
    let mut i = routines.len();
    'back: while 0 < i {
        i -= 1;
        let routine = &routines[i];
        position[routine.pid as usize] = i as u32;
    }
    Ok(position)
}

/// The local arrays of each routine.
fn layouts(alloc: Global, routines: &[Routine]) -> Result<Vec<Layout>, AllocError>
    ensures { IfOk result (λ v. AreLayouts routines.now v.items) }
{
    let mut arrays = Vec::with_capacity(alloc, routines.len())?;
    for routine in routines {
        let sizes = Vec::from_slice(alloc, routine.arrays.as_slice())?;
        arrays.push(Layout::new(alloc, sizes)?)?;
    }
    Ok(arrays)
}

/// How many words each object has, by PID.
fn sizes_of(alloc: Global, objects: &[Object]) -> Result<Vec<u32>, AllocError>
    requires { AllByRecursion (λ o. o.pid < max_pids) objects.now }
    ensures count { IfOk result (λ v. length v.items ≡ max_pids) }
    ensures each { IfOk result (λ v. HasSizes objects.now 0 v.items) }
{
    let mut sizes = zeros(alloc, limits::PIDS as usize)?;
    let mut i = objects.len();
    'back: while 0 < i {
        i -= 1;
        let object = &objects[i];
        sizes[object.pid as usize] = object.words;
    }
    Ok(sizes)
}
