//! The lines inside a block.
ghost use Rattle.std.specs.Prelude.{◌≡◌, ◌++◌, OnOk, map, string_bytes};
ghost use Rattle.hlo_num.specs.Words.{signed};
ghost use Rattle.il_core.specs.declared.instr.Instr.TheVariants.{Call};
ghost use Rattle.il_core.specs.Text.{indented, instr_parts, end_parts, op_name, type_name, reg};
ghost use Rattle.il_text.specs.Spaced.{call_head, spaced};

use hlo_num::{Op, Ty, Word};
use il_core::{End, Instr};
use std::alloc::AllocError;
use std::fmt::Write;

/// Adds the line of an instruction.
pub(crate) fn write_instr(out: &mut String, instr: &Instr) -> Result<(), AllocError>
    ensures { OnOk result (string_bytes out.new ≡ string_bytes out.old ++ indented (instr_parts instr.now)) }
{
    match instr {
        Instr::Const(d, w) => writeln!(out, "  r{d} = const {}", signed_of(*w)),
        Instr::Move(d, s) => writeln!(out, "  r{d} = move r{s}"),
        Instr::Conv(d, t, s) => writeln!(out, "  r{d} = conv {} r{s}", name_of_type(*t)),
        Instr::Bin(op, d, a, b) => writeln!(out, "  r{d} = {} r{a} r{b}", name_of_op(*op)),
        Instr::Get(d, g) => writeln!(out, "  r{d} = get g{g}"),
        Instr::Set(g, s) => writeln!(out, "  set g{g} r{s}"),
        Instr::GetX(d, g, i) => writeln!(out, "  r{d} = getx g{g} r{i}"),
        Instr::SetX(g, i, s) => writeln!(out, "  setx g{g} r{i} r{s}"),
        Instr::GetA(d, a, i) => writeln!(out, "  r{d} = geta a{a} r{i}"),
        Instr::SetA(a, i, s) => writeln!(out, "  seta a{a} r{i} r{s}"),
        Instr::Clear(r, c, a, m) => writeln!(out, "  clear r{r} {c} a{a} {m}"),
        Instr::Turn => writeln!(out, "  turn"),
        Instr::Call {
            dest,
            callee,
            count,
            args,
        } => write_call(out, *dest, *callee, *count, args.as_slice()),
        Instr::GetChar(d) => writeln!(out, "  r{d} = getchar"),
        Instr::PutChar(d, s) => writeln!(out, "  r{d} = putchar r{s}"),
    }
}

/// Adds the line of a call.
fn write_call(
    out: &mut String,
    dest: Option<u32>,
    callee: u32,
    count: u32,
    args: &[u32],
) -> Result<(), AllocError>
    ensures { OnOk result (string_bytes out.new ≡ string_bytes out.old ++ indented (instr_parts (Call dest callee count args.now))) }
{
    write_call_head(out, dest, callee, count)?;
    write_args(out, args)?;
    writeln!(out)?;
    Ok(())
}

/// Adds the arguments of a call, with a space before each.
fn write_args(out: &mut String, args: &[u32]) -> Result<(), AllocError>
    ensures { OnOk result (string_bytes out.new ≡ string_bytes out.old ++ spaced (map reg args.now)) }
{
    for arg in args {
        write!(out, " r{arg}")?;
    }
    Ok(())
}

/// Adds the line of a call up to its arguments.
fn write_call_head(
    out: &mut String,
    dest: Option<u32>,
    callee: u32,
    count: u32,
) -> Result<(), AllocError>
    ensures { OnOk result (string_bytes out.new ≡ string_bytes out.old ++ call_head dest callee count) }
{
    match dest {
        Some(d) => write!(out, "  r{d} = call {callee} count {count}"),
        None => write!(out, "  call {callee} count {count}"),
    }
}

/// Adds the line of a block's end.
pub(crate) fn write_end(out: &mut String, end: &End) -> Result<(), AllocError>
    ensures { OnOk result (string_bytes out.new ≡ string_bytes out.old ++ indented (end_parts end.now)) }
{
    match end {
        End::Jump(t) => writeln!(out, "  jump b{t}"),
        End::Branch(r, t, u) => writeln!(out, "  branch r{r} b{t} b{u}"),
        End::Loop(t) => writeln!(out, "  loop b{t}"),
        End::Return(None) => writeln!(out, "  return"),
        End::Return(Some(r)) => writeln!(out, "  return r{r}"),
        End::Exit(r) => writeln!(out, "  exit r{r}"),
    }
}

/// A word read as signed.
pub(crate) fn signed_of(word: Word) -> i32
    ensures { result ≡ signed word.0 }
{
    word.0.cast_signed()
}

/// An operator's name.
pub(crate) fn name_of_op(op: Op) -> &'static str
    ensures { result.now ≡ op_name op }
{
    match op {
        Op::AddS => "adds",
        Op::AddU => "addu",
        Op::SubS => "subs",
        Op::SubU => "subu",
        Op::MulS => "muls",
        Op::MulU => "mulu",
        Op::DivS => "divs",
        Op::DivU => "divu",
        Op::RemS => "rems",
        Op::RemU => "remu",
        Op::And => "and",
        Op::Or => "or",
        Op::Xor => "xor",
        Op::Shl => "shl",
        Op::ShrS => "shrs",
        Op::ShrU => "shru",
        Op::Eq => "eq",
        Op::Ne => "ne",
        Op::LtS => "lts",
        Op::LtU => "ltu",
        Op::LeS => "les",
        Op::LeU => "leu",
    }
}

/// A type's name.
fn name_of_type(ty: Ty) -> &'static str
    ensures { result.now ≡ type_name ty }
{
    match ty {
        Ty::Char => "char",
        Ty::UChar => "uchar",
        Ty::Short => "short",
        Ty::UShort => "ushort",
        Ty::Int => "int",
        Ty::UInt => "uint",
        Ty::Long => "long",
        Ty::ULong => "ulong",
    }
}
