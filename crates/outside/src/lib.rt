//! The outside world: where bytes are read from and written to, how each of its objects counts its
//! faults, and the two loops that all else reads and writes by, [`read_whole`] and [`write_all`].
#![tactic(auto)]

mod calls;
mod disk;
mod disks;
mod fault;
mod files;
mod gate;
mod memory;
mod places;
mod shelf;
mod sink;
mod source;
mod sources;
mod sure;
mod unkept;

pub use disk::Disk;
pub use disks::{BentDisk, MemDisk};
pub use fault::Failed;
pub use gate::{Gate, Moment};
pub use memory::{MemShelf, MemSink};
pub use shelf::{ReadFault, Shelf, read_whole};
pub use sink::{Sink, write_all};
pub use source::{Ask, Source};
pub use sources::{MemSource, SureSource};
pub use sure::{QuietGate, SureDisk, SureShelf, SureSink};
