//! A routine as a body that lies in a pool.
ghost use Rattle.std.specs.Prelude.{◌≡◌, IfOk, IfErr, Err, None, Some, sum, nat_le, ◌≤◌, ◌^◌, length};
ghost use Rattle.il_core.specs.Limits.{max_arrays, max_elements, max_size};
ghost use Rattle.il_core.specs.Size.{blocks_size};
ghost use Rattle.compact_form.specs.declared.fault.Fault.TheVariants.{Unreadable};
ghost use Rattle.compact_form.specs.Reading.{flag_at, read_routine};

use crate::cursor::Cursor;
use crate::fault::Fault;
use crate::lengths::routine_len;
use crate::ranges::tell;
use crate::writing::put_routine;
use hlo_num::Seq;
use il_core::{Block, Routine, limits};
use pool_laws::Poolable;
use std::alloc::{AllocError, Global};

/// A routine as a body of a pool.
#[derive(Drop)]
pub struct RoutineBody {
    pub routine: Routine,
}

impl Poolable for RoutineBody {
    ghost use Rattle.il_core.specs.Size.{charge as charge_in_bytes};
    ghost use Rattle.compact_form.specs.Compact.{IsRoutine, compact};
    ghost use Rattle.compact_form.specs.Laws.{one_routine, within_charge};

    ghost is_value = { λ b. IsRoutine b.routine };

    ghost charge_of = { λ b. charge_in_bytes b.routine };

    ghost encoding = { λ b. compact b.routine };

    /// The stated charge of the expanded form, in bytes. It takes time in proportion to the instructions,
    /// and no memory.
    fn charge(&self) -> u64 {
        tell(&self.routine);
        self.routine.charge()
    }

    /// The length of the compact form. It takes one pass over the routine, and no memory.
    fn compact_len(&self) -> u32 {
        tell(&self.routine);
        routine_len(&self.routine)
    }

    /// The compact form: one pass for its length, and one that writes it into a buffer of that size.
    fn encode(&self, alloc: Global) -> Result<Vec<u8>, AllocError> {
        tell(&self.routine);
        let mut out = Vec::with_capacity(alloc, routine_len(&self.routine) as usize)?;
        put_routine(&mut out, &self.routine)?;
        Ok(out)
    }

    /// The routine with this compact form; none for any other bytes: an opcode, a narrow type or a flag
    /// that there isn't, a number that is spelled in more bytes than it needs, a routine past the limits,
    /// bytes that end too early, and bytes behind the end. It takes one pass over the bytes, and memory
    /// in proportion to them.
    fn decode(alloc: Global, b: &[u8]) -> Result<Option<RoutineBody>, AllocError> {
        let mut cursor = Cursor { rest: b };
        match cursor.routine(alloc) {
            Ok(routine) => {
                if cursor.rest.is_empty() {
                    Ok(Some(RoutineBody { routine }))
                } else {
                    Ok(None)
                }
            }
            Err(Fault::Unreadable) => Ok(None),
            Err(Fault::Memory) => Err(AllocError),
        }
    }

    ghost tells_apart = { λ x y h g e. let same = one_routine x.routine y.routine h g e in λ i. record { routine = same i } };

    ghost bounds = { λ x h. within_charge x.routine h };
}

/// Whether a routine gives a value, by number.
fn checked_flag(number: u32) -> Result<bool, Fault>
    ensures found { IfOk result (λ b. flag_at number ≡ Some b) }
    ensures none { IfErr result (λ e. (e ≡ Unreadable) × (flag_at number ≡ None)) }
{
    match number {
        0 => Ok(false),
        1 => Ok(true),
        _ => Err(Fault::Unreadable),
    }
}

/// Whether the arrays have at most so many elements.
fn has_few_elements(arrays: &[u32]) -> bool
    requires { length arrays.now ≤ max_arrays }
    ensures { result ≡ nat_le (sum arrays.now) max_elements }
{
    let mut elements: u64 = 0;
    for length in arrays {
        elements += u64::from(*length);
    }
    elements <= u64::from(limits::ELEMENTS)
}

/// Whether the blocks have at most so many instructions and ends.
fn has_size(blocks: &[Block]) -> bool
    ensures { result ≡ nat_le (blocks_size blocks.now) max_size }
{
    let mut left = limits::SIZE as usize;
    for block in blocks {
        let instrs = block.instrs.len();
        if instrs >= left {
            return false;
        }
        left -= instrs + 1;
    }
    true
}

impl Cursor<'_> {
    /// Reads a routine.
    fn routine(&mut self, alloc: Global) -> Result<Routine, Fault>
        ensures found { IfOk result (λ r. read_routine self.old.rest.now ≡ Some (r, self.new.rest.now)) }
        ensures none { result ≡ Err Unreadable → read_routine self.old.rest.now ≡ None }
    {
        let (pid, params, number) = self.triple()?;
        let (regs, entry) = self.pair()?;
        let value = checked_flag(number)?;
        let length = self.number()?;
        let arrays = self.numbers(alloc, length, limits::ARRAYS)?;
        let count = self.number()?;
        let blocks = self.blocks(alloc, count)?;
        if pid >= limits::PIDS || params > limits::PARAMETERS || regs > limits::REGISTERS {
            return Err(Fault::Unreadable);
        }
        if !has_few_elements(arrays.as_slice()) || !has_size(blocks.as_slice()) {
            return Err(Fault::Unreadable);
        }
        Ok(Routine {
            pid,
            params,
            value,
            regs,
            entry,
            arrays: Seq::from_vec(arrays),
            blocks: Seq::from_vec(blocks),
        })
    }
}
