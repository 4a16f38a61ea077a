//! Opcodes of the compact form.
ghost use Rattle.std.specs.Prelude.{◌≡◌};
ghost use Rattle.compact_form.specs.Reading.{byte_of, end_code_at, first_of_number, narrow_at, opcode_at, operator_at, fixed_codes};

use hlo_num::{Op, Ty};

/// What an instruction does.
#[derive(Clone, Copy)]
pub(crate) enum Opcode {
    Const,
    Move,
    Conv,
    Get,
    Set,
    GetX,
    SetX,
    GetA,
    SetA,
    Clear,
    Turn,
    /// A call without a destination.
    CallVoid,
    /// A call with a destination.
    CallValue,
    GetChar,
    PutChar,
    Bin(Op),
}

/// How a block ends.
#[derive(Clone, Copy)]
pub(crate) enum EndCode {
    Jump,
    Branch,
    Loop,
    ReturnVoid,
    ReturnValue,
    Exit,
}

/// The opcode of a byte, if there is one.
pub(crate) fn opcode_of(byte: u8) -> Option<Opcode>
    ensures { result ≡ opcode_at byte }
{
    if byte < 0x10 {
        fixed_opcode(byte)
    } else {
        operator_of(byte - 0x10).map(Opcode::Bin)
    }
}

fn fixed_opcode(byte: u8) -> Option<Opcode>
    ensures { result ≡ first_of_number byte_of byte fixed_codes }
{
    match byte {
        0x00 => Some(Opcode::Const),
        0x01 => Some(Opcode::Move),
        0x02 => Some(Opcode::Conv),
        0x03 => Some(Opcode::Get),
        0x04 => Some(Opcode::Set),
        0x05 => Some(Opcode::GetX),
        0x06 => Some(Opcode::SetX),
        0x07 => Some(Opcode::GetA),
        0x08 => Some(Opcode::SetA),
        0x09 => Some(Opcode::Clear),
        0x0a => Some(Opcode::Turn),
        0x0b => Some(Opcode::CallVoid),
        0x0c => Some(Opcode::CallValue),
        0x0d => Some(Opcode::GetChar),
        0x0e => Some(Opcode::PutChar),
        _ => None,
    }
}

/// The operator at a place of the list of the IL text, if there is one.
fn operator_of(place: u8) -> Option<Op>
    ensures { result ≡ operator_at place }
{
    match place {
        0 => Some(Op::AddS),
        1 => Some(Op::AddU),
        2 => Some(Op::SubS),
        3 => Some(Op::SubU),
        4 => Some(Op::MulS),
        5 => Some(Op::MulU),
        6 => Some(Op::DivS),
        7 => Some(Op::DivU),
        8 => Some(Op::RemS),
        9 => Some(Op::RemU),
        10 => Some(Op::And),
        11 => Some(Op::Or),
        12 => Some(Op::Xor),
        13 => Some(Op::Shl),
        14 => Some(Op::ShrS),
        15 => Some(Op::ShrU),
        16 => Some(Op::Eq),
        17 => Some(Op::Ne),
        18 => Some(Op::LtS),
        19 => Some(Op::LtU),
        20 => Some(Op::LeS),
        21 => Some(Op::LeU),
        _ => None,
    }
}

/// The way to end of a byte, if there is one.
pub(crate) fn end_code_of(byte: u8) -> Option<EndCode>
    ensures { result ≡ end_code_at byte }
{
    match byte {
        0x40 => Some(EndCode::Jump),
        0x41 => Some(EndCode::Branch),
        0x42 => Some(EndCode::Loop),
        0x43 => Some(EndCode::ReturnVoid),
        0x44 => Some(EndCode::ReturnValue),
        0x45 => Some(EndCode::Exit),
        _ => None,
    }
}

/// The narrow type of a number, if there is one.
pub(crate) fn narrow_type(number: u32) -> Option<Ty>
    ensures { result ≡ narrow_at number }
{
    match number {
        0 => Some(Ty::Char),
        1 => Some(Ty::UChar),
        2 => Some(Ty::Short),
        3 => Some(Ty::UShort),
        _ => None,
    }
}
