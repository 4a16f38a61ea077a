//! The front end that all commands share: from the names of files to typed modules, to their routines, one after another,
//! and to the lowered program of modules that link.
#![tactic(auto)]

mod assembling;
mod checking;
mod fault;
mod frame;
mod lowering;
mod program;
mod taking;
mod typing;

pub use checking::check_modules;
pub use fault::{FileFault, ModuleFault, ProgramFault, TakeFault};
pub use frame::program_frame;
pub use lowering::lowered_module;
pub use program::{lowered_into, lowered_program};
pub use taking::{Refused, RoutineTaker};
pub use typing::typed_module;
