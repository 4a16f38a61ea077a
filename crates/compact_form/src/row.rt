//! Instructions and ends as rows of the compact form: an opcode's byte and numbers.
ghost use Rattle.std.specs.Prelude.{◌≡◌, ◌++◌, ◌<◌, ◌≤◌, ◌^◌, [], take as first, length};
ghost use Rattle.il_core.specs.declared.instr.Instr.TheVariants.{Call};
ghost use Rattle.il_core.specs.Limits.{IsInstr, max_parameters};
ghost use Rattle.il_core.specs.Ranges.{AreWords, end_numbers, numbers_of};
ghost use Rattle.compact_form.specs.Compact.{end_opcode, end_operands, flag, head_numbers, number_of as narrow_number, opcode, operands};
ghost use Rattle.compact_form.specs.Compact.{place_of as operator_place};

use hlo_num::{Op, Ty};
use il_core::{End, Instr, Routine};

/// An opcode's byte, the numbers that it always has, and the arguments of a call behind them.
#[derive(Clone, Copy)]
pub(crate) struct Row<'a> {
    pub(crate) opcode: u8,
    pub(crate) numbers: [u32; 4],
    /// How many of the numbers there are.
    pub(crate) count: usize,
    pub(crate) args: &'a [u32],
}

impl<'a> Row<'a> {
    /// A row without arguments of a call.
    fn fixed(opcode: u8, numbers: [u32; 4], count: usize) -> Row<'a>
        ensures opcode { result.opcode ≡ opcode }
        ensures numbers { result.numbers ≡ numbers }
        ensures count { result.count ≡ count }
        ensures args { result.args.now ≡ [] }
    {
        Row {
            opcode,
            numbers,
            count,
            args: &[],
        }
    }

    /// The row of an instruction.
    pub(crate) fn of_instr(instr: &'a Instr) -> Row<'a>
        requires { IsInstr instr.now }
        ensures opcode { result.opcode ≡ opcode instr.now }
        ensures operands { first result.count result.numbers ++ result.args.now ≡ operands instr.now }
        ensures count { result.count ≤ 4 }
        ensures args { length result.args.now ≤ max_parameters }
        ensures words { AreWords (numbers_of instr.now) }
    {
        match instr {
            Instr::Const(d, w) => Row::fixed(0x00, [*d, w.0, 0, 0], 2),
            Instr::Move(d, s) => Row::fixed(0x01, [*d, *s, 0, 0], 2),
            Instr::Conv(d, ty, s) => Row::fixed(0x02, [*d, number_of(*ty), *s, 0], 3),
            Instr::Get(d, pid) => Row::fixed(0x03, [*d, *pid, 0, 0], 2),
            Instr::Set(pid, s) => Row::fixed(0x04, [*pid, *s, 0, 0], 2),
            Instr::GetX(d, pid, i) => Row::fixed(0x05, [*d, *pid, *i, 0], 3),
            Instr::SetX(pid, i, s) => Row::fixed(0x06, [*pid, *i, *s, 0], 3),
            Instr::GetA(d, a, i) => Row::fixed(0x07, [*d, *a, *i, 0], 3),
            Instr::SetA(a, i, s) => Row::fixed(0x08, [*a, *i, *s, 0], 3),
            Instr::Clear(r, n, a, m) => Row::fixed(0x09, [*r, *n, *a, *m], 4),
            Instr::Turn => Row::fixed(0x0a, [0, 0, 0, 0], 0),
            Instr::Call {
                dest,
                callee,
                count,
                args,
            } => Row::of_call(*dest, *callee, *count, args.as_slice()),
            Instr::GetChar(d) => Row::fixed(0x0d, [*d, 0, 0, 0], 1),
            Instr::PutChar(d, s) => Row::fixed(0x0e, [*d, *s, 0, 0], 2),
            Instr::Bin(op, d, a, b) => Row::fixed(0x10 + place_of(*op), [*d, *a, *b, 0], 3),
        }
    }

    /// The row of a call.
    fn of_call(dest: Option<u32>, callee: u32, count: u32, args: &'a [u32]) -> Row<'a>
        requires { length args.now ≤ max_parameters }
        ensures opcode { result.opcode ≡ opcode (Call dest callee count args.now) }
        ensures operands { first result.count result.numbers ++ result.args.now ≡ operands (Call dest callee count args.now) }
        ensures count { result.count ≤ 4 }
        ensures args { result.args.now ≡ args.now }
        ensures words { AreWords (numbers_of (Call dest callee count args.now)) }
    {
        let length = args.len() as u32;
        let (opcode, numbers, number_count) = match dest {
            None => (0x0b, [callee, count, length, 0], 3),
            Some(d) => (0x0c, [d, callee, count, length], 4),
        };
        Row {
            opcode,
            numbers,
            count: number_count,
            args,
        }
    }

    /// The row of the end of a block.
    pub(crate) fn of_end(end: End) -> Row<'a>
        ensures opcode { result.opcode ≡ end_opcode end }
        ensures operands { first result.count result.numbers ++ result.args.now ≡ end_operands end }
        ensures count { result.count ≤ 3 }
        ensures args { result.args.now ≡ [] }
        ensures words { AreWords (end_numbers end) }
    {
        match end {
            End::Jump(t) => Row::fixed(0x40, [t, 0, 0, 0], 1),
            End::Branch(r, t, u) => Row::fixed(0x41, [r, t, u, 0], 3),
            End::Loop(t) => Row::fixed(0x42, [t, 0, 0, 0], 1),
            End::Return(None) => Row::fixed(0x43, [0, 0, 0, 0], 0),
            End::Return(Some(r)) => Row::fixed(0x44, [r, 0, 0, 0], 1),
            End::Exit(r) => Row::fixed(0x45, [r, 0, 0, 0], 1),
        }
    }
}

/// The numbers before a routine's arrays.
pub(crate) fn head_of(routine: &Routine) -> [u32; 5]
    ensures numbers { result ≡ head_numbers routine.now }
    ensures entry { routine.now.entry < 2 ^ 32 }
{
    let value = flag_of(routine.value);
    let entry = known(routine.entry);
    [routine.pid, routine.params, value, routine.regs, entry]
}

/// A number, of which contracts know from here on that it fits 32 bits.
fn known(n: u32) -> u32
    ensures value { result ≡ n }
    ensures word { n < 2 ^ 32 }
{
    n
}

fn flag_of(value: bool) -> u32
    ensures { result ≡ flag value }
{
    if value { 1 } else { 0 }
}

/// The place of an operator in the list of the IL text.
fn place_of(op: Op) -> u8
    ensures place { result ≡ operator_place op }
    ensures bound { result < 22 }
{
    match op {
        Op::AddS => 0,
        Op::AddU => 1,
        Op::SubS => 2,
        Op::SubU => 3,
        Op::MulS => 4,
        Op::MulU => 5,
        Op::DivS => 6,
        Op::DivU => 7,
        Op::RemS => 8,
        Op::RemU => 9,
        Op::And => 10,
        Op::Or => 11,
        Op::Xor => 12,
        Op::Shl => 13,
        Op::ShrS => 14,
        Op::ShrU => 15,
        Op::Eq => 16,
        Op::Ne => 17,
        Op::LtS => 18,
        Op::LtU => 19,
        Op::LeS => 20,
        Op::LeU => 21,
    }
}

/// The number of a narrow type, and 4 for the others.
fn number_of(ty: Ty) -> u32
    ensures { result ≡ narrow_number ty }
{
    match ty {
        Ty::Char => 0,
        Ty::UChar => 1,
        Ty::Short => 2,
        Ty::UShort => 3,
        Ty::Int | Ty::UInt | Ty::Long | Ty::ULong => 4,
    }
}
