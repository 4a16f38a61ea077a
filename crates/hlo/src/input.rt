//! Standard input as a source.
ghost use Rattle.std.specs.Prelude.{◌≡◌, ◌≤◌, IfOk, length};

use outside::{Failed, Source};
use std::io::Read;

/// A source over a reader, which tells no contents and no calls. Each error counts as a fault.
#[derive(Drop)]
pub(crate) struct Input<R: Read + Drop> {
    reader: R,
    faults: u64,
}

impl<R: Read + Drop> Input<R> {
    /// No fault has come yet.
    pub(crate) fn new(reader: R) -> Input<R> {
        Input { reader, faults: 0 }
    }
}

impl<R: Read + Drop> Source for Input<R> {
    ghost use Rattle.std.specs.Prelude.{None};

    ghost left = { λ _. None };

    ghost asks = { λ _. None };

    ghost faults = { λ s. s.faults };

    fn read(&mut self, b: &mut [u8]) -> Result<usize, Failed> {
        match self.reader.read(b) {
            Ok(count) => Ok(count),
            Err(_) => {
                self.faults = self.faults.saturating_add(1);
                Err(Failed)
            }
        }
    }
}
