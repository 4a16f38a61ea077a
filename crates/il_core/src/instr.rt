//! Instructions, the ends of blocks, and basic blocks.
use hlo_num::{Op, Seq, Ty, Word};

/// One instruction. A number names a register, unless its comment says otherwise; the destination
/// comes first. A PID is a program's number of a routine or an object.
#[derive(Drop)]
pub enum Instr {
    /// A register gets a word.
    Const(u32, Word),
    /// A register gets another's word.
    Move(u32, u32),
    /// A register gets another's word converted to a narrow type.
    Conv(u32, Ty, u32),
    /// A register gets an operator's result on two registers. It may trap.
    Bin(Op, u32, u32, u32),
    /// A register gets the object of a PID.
    Get(u32, u32),
    /// The object of a PID gets a register's word.
    Set(u32, u32),
    /// A register gets the element of the object of a PID at the index in a register. It may trap.
    GetX(u32, u32, u32),
    /// The element of the object of a PID at the index in a register gets a register's word. It may trap.
    SetX(u32, u32, u32),
    /// A register gets the element of a local array at the index in a register. It may trap.
    GetA(u32, u32, u32),
    /// The element of a local array at the index in a register gets a register's word. It may trap.
    SetA(u32, u32, u32),
    /// Registers from the first on, as many as the second says, become 0, and so do all elements of the
    /// local arrays from the third on, as many as the fourth says.
    Clear(u32, u32, u32, u32),
    /// Costs one turn.
    Turn,
    /// Calls the routine of a PID, which costs one turn. Without a destination the value is dropped.
    /// The count is how often a profile has seen this call; it is no part of the meaning.
    Call {
        dest: Option<u32>,
        callee: u32,
        count: u32,
        args: Seq<u32>,
    },
    /// A register gets the next byte of the input, or 4294967295 after its end.
    GetChar(u32),
    /// Puts out the low 8 bits of the second register, which the first one gets.
    PutChar(u32, u32),
}

/// How a basic block ends. A number names a block, unless its comment says otherwise.
#[derive(Clone, Copy)]
pub enum End {
    /// Goes on at a later block.
    Jump(u32),
    /// Goes on at the first block where a register isn't 0, else at the second. The register comes first.
    Branch(u32, u32, u32),
    /// Goes back to its own or an earlier block, which costs one turn.
    Loop(u32),
    /// Returns to the caller, with a register's word where the routine gives a value.
    Return(Option<u32>),
    /// Ends the program with a register's word.
    Exit(u32),
}

/// A basic block: its instructions in order, and its end.
#[derive(Drop)]
pub struct Block {
    pub instrs: Seq<Instr>,
    pub end: End,
}
