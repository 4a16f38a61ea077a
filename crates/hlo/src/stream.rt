//! Standard output and standard error as sinks.
use outside::{Failed, Sink};
use std::io::Write;

/// A sink over a writer, which tells no contents. Each error counts as a fault, and so does a write that
/// takes nothing of a piece that isn't empty.
#[derive(Drop)]
pub(crate) struct Stream<W: Write + Drop> {
    writer: W,
    faults: u64,
}

impl<W: Write + Drop> Stream<W> {
    /// No fault has come yet.
    pub(crate) fn new(writer: W) -> Stream<W> {
        Stream { writer, faults: 0 }
    }
}

impl<W: Write + Drop> Sink for Stream<W> {
    ghost use Rattle.std.specs.Prelude.{None};

    ghost taken = { λ _. None };

    ghost faults = { λ s. s.faults };

    fn write(&mut self, b: &[u8]) -> Result<usize, Failed> {
        match self.writer.write(b) {
            Ok(taken) if taken > 0 || b.is_empty() => Ok(taken),
            _ => {
                self.faults = self.faults.saturating_add(1);
                Err(Failed)
            }
        }
    }
}
