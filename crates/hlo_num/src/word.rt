//! Words, their types, operators and traps.

/// A machine word of 32 bits. A type decides whether it is read as signed, in two's complement, or
/// as unsigned.
#[derive(Clone, Copy, Debug, PartialEq, Eq)]
pub struct Word(pub u32);

/// The integer types of the profile (ISO C90, 6.1.2.5). `Char` is signed; `Int` and `Long` have 32
/// bits, `Short` has 16 and `Char` has 8.
#[derive(Clone, Copy, Debug, PartialEq, Eq)]
pub enum Ty {
    Char,
    UChar,
    Short,
    UShort,
    Int,
    UInt,
    Long,
    ULong,
}

/// Why a program stops before its end.
#[derive(Clone, Copy, Debug, PartialEq, Eq)]
pub enum Trap {
    /// A division or remainder by 0.
    Divide,
    /// -2147483648 divided by -1, or its remainder.
    Quotient,
    /// A shift by a count above 31.
    Shift,
    /// An element outside its array is read or written.
    Index,
}

/// The binary operators on words. An `S` at the end reads both words as signed, a `U` as unsigned.
#[derive(Clone, Copy, Debug, PartialEq, Eq)]
pub enum Op {
    AddS,
    AddU,
    SubS,
    SubU,
    MulS,
    MulU,
    DivS,
    DivU,
    RemS,
    RemU,
    And,
    Or,
    Xor,
    Shl,
    ShrS,
    ShrU,
    Eq,
    Ne,
    LtS,
    LtU,
    LeS,
    LeU,
}
