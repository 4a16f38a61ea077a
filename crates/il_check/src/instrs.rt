//! The conditions of instructions.
ghost use Rattle.std.specs.Prelude.{◌≡◌, [], ◌∷◌, flat_map, option_to_list};
ghost use Rattle.il_core.specs.Operands.{sources};
ghost use Rattle.il_check.specs.Conditions.{first_broken, exist, callee_conditions, object_conditions, registers_exist, instr_conditions};

use crate::flaw::Flaw;
use crate::rows::shape_of;
use il_core::{Instr, Shape, Shapes};

/// What is wrong with instructions of a routine with so many registers and arrays, in order.
pub(crate) fn instrs_flaw(
    shapes: &Shapes,
    regs: u32,
    arrays: usize,
    instrs: &[Instr],
) -> Option<Flaw>
    ensures { result ≡ first_broken (flat_map (λ i. instr_conditions shapes.now regs arrays i) instrs.now) }
{
    for instr in instrs {
        if let Some(flaw) = instr_flaw(shapes, regs, arrays, instr) {
            return Some(flaw);
        }
    }
    None
}

/// What is wrong with an instruction of a routine with so many registers and arrays.
fn instr_flaw(shapes: &Shapes, regs: u32, arrays: usize, instr: &Instr) -> Option<Flaw>
    ensures { result ≡ first_broken (instr_conditions shapes.now regs arrays instr.now) }
{
    if !registers_exist(regs, instr) {
        return Some(Flaw::Register);
    }
    match instr {
        Instr::GetA(_, a, _) | Instr::SetA(a, _, _) => array_flaw((*a as usize) < arrays),
        Instr::Clear(_, _, a, m) => array_flaw(u64::from(*a) + u64::from(*m) <= arrays as u64),
        Instr::Call {
            dest,
            callee,
            args,
            ..
        } => callee_flaw(shape_of(shapes, *callee), args.len(), dest.is_some()),
        _ => object_flaw(shapes, instr.object()),
    }
}

/// Whether the registers that an instruction names exist.
fn registers_exist(regs: u32, instr: &Instr) -> bool
    ensures { result ≡ registers_exist regs instr.now }
{
    match instr {
        Instr::Clear(r, c, _, _) => u64::from(*r) + u64::from(*c) <= u64::from(regs),
        _ => dest_exists(regs, instr.destination()) && sources_exist(regs, instr),
    }
}

/// Whether the registers that an instruction reads exist.
fn sources_exist(regs: u32, instr: &Instr) -> bool
    ensures { result ≡ exist regs (sources instr.now) }
{
    instr.sources().all(|source| source < regs)
}

/// Whether a destination exists, where there is one.
fn dest_exists(regs: u32, dest: Option<u32>) -> bool
    ensures { result ≡ exist regs (option_to_list dest) }
{
    match dest {
        Some(d) => d < regs,
        None => true,
    }
}

/// The flaw of local arrays that may not exist.
fn array_flaw(exist: bool) -> Option<Flaw>
    ensures { result ≡ first_broken ((exist, Flaw.Array) ∷ []) }
{
    if exist { None } else { Some(Flaw::Array) }
}

/// The flaw of an access to an object, where there is one.
fn object_flaw(shapes: &Shapes, pid: Option<u32>) -> Option<Flaw>
    ensures { result ≡ first_broken (object_conditions shapes.now pid) }
{
    match shape_of(shapes, pid?) {
        Some(Shape::Object { .. }) => None,
        _ => Some(Flaw::Object),
    }
}

/// What is wrong with calling what has a shape, with so many arguments, for a value or for none.
fn callee_flaw(shape: Option<Shape>, args: usize, wanted: bool) -> Option<Flaw>
    ensures { result ≡ first_broken (callee_conditions shape args wanted) }
{
    match shape {
        Some(Shape::Routine { params, value }) => {
            if params as usize != args {
                Some(Flaw::Arguments)
            } else if value != wanted {
                Some(Flaw::Result)
            } else {
                None
            }
        }
        _ => Some(Flaw::Callee),
    }
}
