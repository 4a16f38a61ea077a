//! Reading routines, from bytes that may be anything.
ghost use Rattle.std.specs.Prelude.{◌≡◌, IfOk, IfErr, Err, None, Some, true, false};
ghost use Rattle.il_core.specs.Limits.{max_size};
ghost use Rattle.compact_form.specs.declared.fault.Fault.TheVariants.{Unreadable};
ghost use Rattle.compact_form.specs.Reading.{is_pid, list_up_to, read_block, read_call, read_end, read_end_operands, read_instr, read_operands};

use crate::cursor::Cursor;
use crate::fault::Fault;
use crate::opcode::{EndCode, Opcode, end_code_of, narrow_type, opcode_of};
use hlo_num::{Seq, Word};
use il_core::{Block, End, Instr, limits};
use std::alloc::Global;

/// A PID, where it is in its range.
fn checked_pid(pid: u32) -> Result<u32, Fault>
    ensures found { IfOk result (λ p. (p ≡ pid) × (is_pid pid ≡ true)) }
    ensures none { IfErr result (λ e. (e ≡ Unreadable) × (is_pid pid ≡ false)) }
{
    if pid < limits::PIDS {
        Ok(pid)
    } else {
        Err(Fault::Unreadable)
    }
}

impl Cursor<'_> {
    /// Reads one instruction.
    fn instr(&mut self, alloc: Global) -> Result<Instr, Fault>
        ensures found { IfOk result (λ i. read_instr self.old.rest.now ≡ Some (i, self.new.rest.now)) }
        ensures none { result ≡ Err Unreadable → read_instr self.old.rest.now ≡ None }
    {
        let byte = self.byte()?;
        let Some(opcode) = opcode_of(byte) else {
            return Err(Fault::Unreadable);
        };
        self.operands(alloc, opcode)
    }

    /// Reads the numbers of an instruction.
    fn operands(&mut self, alloc: Global, opcode: Opcode) -> Result<Instr, Fault>
        ensures found { IfOk result (λ i. read_operands opcode self.old.rest.now ≡ Some (i, self.new.rest.now)) }
        ensures none { result ≡ Err Unreadable → read_operands opcode self.old.rest.now ≡ None }
    {
        Ok(match opcode {
            Opcode::Const => {
                let (d, w) = self.pair()?;
                Instr::Const(d, Word(w))
            }
            Opcode::Move => {
                let (d, s) = self.pair()?;
                Instr::Move(d, s)
            }
            Opcode::Conv => {
                let (d, number, s) = self.triple()?;
                let Some(ty) = narrow_type(number) else {
                    return Err(Fault::Unreadable);
                };
                Instr::Conv(d, ty, s)
            }
            Opcode::Get => {
                let (d, pid) = self.pair()?;
                Instr::Get(d, checked_pid(pid)?)
            }
            Opcode::Set => {
                let (pid, s) = self.pair()?;
                Instr::Set(checked_pid(pid)?, s)
            }
            Opcode::GetX => {
                let (d, pid, i) = self.triple()?;
                Instr::GetX(d, checked_pid(pid)?, i)
            }
            Opcode::SetX => {
                let (pid, i, s) = self.triple()?;
                Instr::SetX(checked_pid(pid)?, i, s)
            }
            Opcode::GetA => {
                let (d, a, i) = self.triple()?;
                Instr::GetA(d, a, i)
            }
            Opcode::SetA => {
                let (a, i, s) = self.triple()?;
                Instr::SetA(a, i, s)
            }
            Opcode::Clear => {
                let (r, registers) = self.pair()?;
                let (a, arrays) = self.pair()?;
                Instr::Clear(r, registers, a, arrays)
            }
            Opcode::Turn => Instr::Turn,
            Opcode::CallVoid => self.call(alloc, None)?,
            Opcode::CallValue => {
                let d = self.number()?;
                self.call(alloc, Some(d))?
            }
            Opcode::GetChar => Instr::GetChar(self.number()?),
            Opcode::PutChar => {
                let (d, s) = self.pair()?;
                Instr::PutChar(d, s)
            }
            Opcode::Bin(op) => {
                let (d, a, b) = self.triple()?;
                Instr::Bin(op, d, a, b)
            }
        })
    }

    /// Reads a call behind its destination.
    fn call(&mut self, alloc: Global, dest: Option<u32>) -> Result<Instr, Fault>
        ensures found { IfOk result (λ i. read_call dest self.old.rest.now ≡ Some (i, self.new.rest.now)) }
        ensures none { result ≡ Err Unreadable → read_call dest self.old.rest.now ≡ None }
    {
        let (pid, count, length) = self.triple()?;
        let callee = checked_pid(pid)?;
        let args = self.numbers(alloc, length, limits::PARAMETERS)?;
        Ok(Instr::Call {
            dest,
            callee,
            count,
            args: Seq::from_vec(args),
        })
    }

    /// Reads the end of a block.
    fn end(&mut self) -> Result<End, Fault>
        ensures found { IfOk result (λ e. read_end self.old.rest.now ≡ Some (e, self.new.rest.now)) }
        ensures none { IfErr result (λ e. (e ≡ Unreadable) × (read_end self.old.rest.now ≡ None)) }
    {
        let byte = self.byte()?;
        let Some(code) = end_code_of(byte) else {
            return Err(Fault::Unreadable);
        };
        self.end_operands(code)
    }

    /// Reads the numbers of an end.
    fn end_operands(&mut self, code: EndCode) -> Result<End, Fault>
        ensures found { IfOk result (λ e. read_end_operands code self.old.rest.now ≡ Some (e, self.new.rest.now)) }
        ensures none { IfErr result (λ e. (e ≡ Unreadable) × (read_end_operands code self.old.rest.now ≡ None)) }
    {
        Ok(match code {
            EndCode::Jump => End::Jump(self.number()?),
            EndCode::Branch => {
                let (r, t, u) = self.triple()?;
                End::Branch(r, t, u)
            }
            EndCode::Loop => End::Loop(self.number()?),
            EndCode::ReturnVoid => End::Return(None),
            EndCode::ReturnValue => End::Return(Some(self.number()?)),
            EndCode::Exit => End::Exit(self.number()?),
        })
    }

    /// Reads so many instructions.
    fn instrs(&mut self, alloc: Global, count: u32) -> Result<Vec<Instr>, Fault>
        ensures found { IfOk result (λ v. list_up_to read_instr max_size count self.old.rest.now ≡ Some (v.items, self.new.rest.now)) }
        ensures none { result ≡ Err Unreadable → list_up_to read_instr max_size count self.old.rest.now ≡ None }
    {
        if count > limits::SIZE {
            return Err(Fault::Unreadable);
        }
        let mut instrs = Vec::with_capacity(alloc, self.rest.len().min(count as usize))?;
        'items: for _ in 0..count {
            instrs.push(self.instr(alloc)?)?;
        }
        Ok(instrs)
    }

    /// Reads one block.
    fn block(&mut self, alloc: Global) -> Result<Block, Fault>
        ensures found { IfOk result (λ b. read_block self.old.rest.now ≡ Some (b, self.new.rest.now)) }
        ensures none { result ≡ Err Unreadable → read_block self.old.rest.now ≡ None }
    {
        let count = self.number()?;
        let instrs = self.instrs(alloc, count)?;
        let end = self.end()?;
        Ok(Block {
            instrs: Seq::from_vec(instrs),
            end,
        })
    }

    /// Reads so many blocks.
    pub(crate) fn blocks(&mut self, alloc: Global, count: u32) -> Result<Vec<Block>, Fault>
        ensures found { IfOk result (λ v. list_up_to read_block max_size count self.old.rest.now ≡ Some (v.items, self.new.rest.now)) }
        ensures none { result ≡ Err Unreadable → list_up_to read_block max_size count self.old.rest.now ≡ None }
    {
        if count > limits::SIZE {
            return Err(Fault::Unreadable);
        }
        let mut blocks = Vec::with_capacity(alloc, self.rest.len().min(count as usize))?;
        'items: for _ in 0..count {
            blocks.push(self.block(alloc)?)?;
        }
        Ok(blocks)
    }
}
