//! The limits of the language: how many there may be at most. `specs/Limits` has the
//! same numbers for definitions.

/// PIDs: all are below this.
pub const PIDS: u32 = 131_072;

/// Routines of a program at one time.
pub const ROUTINES: u32 = 4_096;

/// Names from the modules of a program.
pub const NAMES: u32 = 65_536;

/// Parameters of a routine, and arguments of a call.
pub const PARAMETERS: u32 = 31;

/// Registers of a routine.
pub const REGISTERS: u32 = 32_768;

/// Local arrays of a routine.
pub const ARRAYS: u32 = 4_096;

/// Elements of a routine's local arrays together, of one array, and of the arrays at file scope over all modules.
pub const ELEMENTS: u32 = 1_048_576;

/// The size of a routine: its instructions and the ends of its blocks.
pub const SIZE: u32 = 65_536;
