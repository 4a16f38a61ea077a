//! The names of instructions and ends.
ghost use Rattle.std.specs.Prelude.{◌≡◌, IfSome};
ghost use Rattle.il_text.specs.Mnemonics.{mnemonic_text, mnemonic_named};
ghost use Rattle.il_text.specs.declared.mnemonic.Mnemonic.{Mnemonic};

use crate::instr::name_of_op;
use hlo_num::Op;

/// The name of an instruction or an end.
#[derive(Clone, Copy)]
pub(crate) enum Mnemonic {
    Const,
    Move,
    Conv,
    /// A binary operator.
    Bin(Op),
    Get,
    Set,
    GetX,
    SetX,
    GetA,
    SetA,
    Clear,
    Turn,
    Call,
    GetChar,
    PutChar,
    Jump,
    Branch,
    Loop,
    Return,
    Exit,
}

const MNEMONICS: [Mnemonic; 41] = [
    Mnemonic::Const,
    Mnemonic::Move,
    Mnemonic::Get,
    Mnemonic::Set,
    Mnemonic::Bin(Op::AddS),
    Mnemonic::Bin(Op::AddU),
    Mnemonic::Bin(Op::SubS),
    Mnemonic::Bin(Op::SubU),
    Mnemonic::Bin(Op::MulS),
    Mnemonic::Bin(Op::MulU),
    Mnemonic::Bin(Op::DivS),
    Mnemonic::Bin(Op::DivU),
    Mnemonic::Bin(Op::RemS),
    Mnemonic::Bin(Op::RemU),
    Mnemonic::Bin(Op::And),
    Mnemonic::Bin(Op::Or),
    Mnemonic::Bin(Op::Xor),
    Mnemonic::Bin(Op::Shl),
    Mnemonic::Bin(Op::ShrS),
    Mnemonic::Bin(Op::ShrU),
    Mnemonic::Bin(Op::Eq),
    Mnemonic::Bin(Op::Ne),
    Mnemonic::Bin(Op::LtS),
    Mnemonic::Bin(Op::LtU),
    Mnemonic::Bin(Op::LeS),
    Mnemonic::Bin(Op::LeU),
    Mnemonic::Conv,
    Mnemonic::GetX,
    Mnemonic::SetX,
    Mnemonic::GetA,
    Mnemonic::SetA,
    Mnemonic::Clear,
    Mnemonic::Turn,
    Mnemonic::Call,
    Mnemonic::GetChar,
    Mnemonic::PutChar,
    Mnemonic::Jump,
    Mnemonic::Branch,
    Mnemonic::Loop,
    Mnemonic::Return,
    Mnemonic::Exit,
];

fn text_of(mnemonic: Mnemonic) -> &'static str
    ensures { result.now ≡ mnemonic_text mnemonic }
{
    match mnemonic {
        Mnemonic::Const => "const",
        Mnemonic::Move => "move",
        Mnemonic::Conv => "conv",
        Mnemonic::Bin(op) => name_of_op(op),
        Mnemonic::Get => "get",
        Mnemonic::Set => "set",
        Mnemonic::GetX => "getx",
        Mnemonic::SetX => "setx",
        Mnemonic::GetA => "geta",
        Mnemonic::SetA => "seta",
        Mnemonic::Clear => "clear",
        Mnemonic::Turn => "turn",
        Mnemonic::Call => "call",
        Mnemonic::GetChar => "getchar",
        Mnemonic::PutChar => "putchar",
        Mnemonic::Jump => "jump",
        Mnemonic::Branch => "branch",
        Mnemonic::Loop => "loop",
        Mnemonic::Return => "return",
        Mnemonic::Exit => "exit",
    }
}

/// What a word names, if it names something.
pub(crate) fn mnemonic_of(word: &[u8]) -> Option<Mnemonic>
    ensures found { IfSome result (λ m. word.now ≡ mnemonic_text m) }
    ensures each { (m : Mnemonic) → word.now ≡ mnemonic_text m → result ≡ Some m }
{
    mnemonic_named(word)
}

/// The first of the names that a word is.
#[tactic(auto, unfolding(crate::specs::Mnemonics::mnemonic_named))]
fn mnemonic_named(word: &[u8]) -> Option<Mnemonic>
    ensures { result ≡ mnemonic_named word.now }
{
    for mnemonic in MNEMONICS {
        if word == text_of(mnemonic).as_bytes() {
            return Some(mnemonic);
        }
    }
    None
}
