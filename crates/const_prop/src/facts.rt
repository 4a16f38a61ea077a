//! Facts through an instruction. A table has a register's word where it is known.
ghost use Rattle.std.specs.Prelude.{◌≡◌, ◌+◌, ◌≤◌, length};
ghost use Rattle.std.specs.List.{AllByRecursion};
ghost use Rattle.il_laws.specs.Facts.{known_result, gives, after, through};
ghost use Rattle.il_laws.specs.Propagate.{propagated, propagated_all};
ghost use Rattle.const_prop.specs.Tables.{NamesRegisters, facts_in, Has, Cleared};

use hlo_num::{Op, Word, binary, convert};
use il_core::Instr;

/// The result of an operator, where its operands are known and nothing traps.
fn known_result(op: Op, a: Option<u32>, b: Option<u32>) -> Option<u32>
    ensures { result ≡ known_result op a b }
{
    match (a, b) {
        (Some(a), Some(b)) => match binary(op, Word(a), Word(b)) {
            Ok(word) => Some(word.0),
            Err(_) => None,
        },
        _ => None,
    }
}

/// What an instruction gives to the registers that it writes, where that is known.
fn gives(table: &[Option<u32>], instr: &Instr) -> Option<u32>
    requires { NamesRegisters (length table.now) instr.now }
    ensures { result ≡ gives (facts_in table.now) instr.now }
{
    match instr {
        Instr::Const(_, word) => Some(word.0),
        Instr::Move(_, s) => table[*s as usize],
        Instr::Conv(_, ty, s) => match table[*s as usize] {
            Some(word) => Some(convert(*ty, Word(word)).0),
            None => None,
        },
        Instr::Bin(op, _, a, b) => known_result(*op, table[*a as usize], table[*b as usize]),
        Instr::Clear(..) => Some(0),
        _ => None,
    }
}

/// So many registers become known as 0.
fn clear(table: &mut [Option<u32>], first: u32, count: u32)
    requires { first + count ≤ length table.old }
    ensures { Cleared table.old table.new first count }
{
    let first = first as usize;
    table[first..first + count as usize].fill(Some(0));
}

/// What an instruction writes becomes what it gives.
fn put(table: &mut [Option<u32>], instr: &Instr, fact: Option<u32>)
    requires named { NamesRegisters (length table.old) instr.now }
    requires given { fact ≡ gives (facts_in table.old) instr.now }
    ensures { Has (length table.old) table.new (after instr.now (facts_in table.old)) }
{
    match instr {
        Instr::Clear(first, count, _, _) => clear(table, *first, *count),
        _ => {
            if let Some(d) = instr.destination() {
                table[d as usize] = fact;
            }
        }
    }
}

/// Takes the facts through an instruction, which becomes a constant where its result is known.
pub(crate) fn propagate_instr(table: &mut [Option<u32>], instr: &mut Instr)
    requires { NamesRegisters (length table.old) instr.old }
    ensures instr { instr.new ≡ propagated (facts_in table.old) instr.old }
    ensures facts { Has (length table.old) table.new (after instr.old (facts_in table.old)) }
{
    let fact = gives(table, instr);
    put(table, instr, fact);
    if let Some(word) = fact {
        if let Instr::Move(d, _) | Instr::Conv(d, _, _) | Instr::Bin(_, d, _, _) = instr {
            *instr = Instr::Const(*d, Word(word));
        }
    }
}

/// Takes the facts through instructions, each of which becomes a constant where its result is known.
pub(crate) fn propagate_instrs(table: &mut [Option<u32>], instrs: &mut [Instr])
    requires { AllByRecursion (NamesRegisters (length table.old)) instrs.old }
    ensures instrs { instrs.new ≡ propagated_all (facts_in table.old) instrs.old }
    ensures facts { Has (length table.old) table.new (through instrs.old (facts_in table.old)) }
{
    for instr in instrs.iter_mut() {
        propagate_instr(table, instr);
    }
}

/// Takes the facts through instructions, in time in proportion to them and to the registers that `clear`s name.
pub fn pass(table: &mut [Option<u32>], instrs: &[Instr])
    requires { AllByRecursion (NamesRegisters (length table.old)) instrs.now }
    ensures { Has (length table.old) table.new (through instrs.now (facts_in table.old)) }
{
    for instr in instrs {
        step(table, instr);
    }
}

/// Takes the facts through an instruction.
pub(crate) fn step(table: &mut [Option<u32>], instr: &Instr)
    requires { NamesRegisters (length table.old) instr.now }
    ensures { Has (length table.old) table.new (after instr.now (facts_in table.old)) }
{
    let fact = gives(table, instr);
    put(table, instr, fact);
}
