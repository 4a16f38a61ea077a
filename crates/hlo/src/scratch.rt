//! The scratch file as a disk.
ghost use Rattle.std.specs.Prelude.{◌≡◌, ◌<◌, ◌≤◌, IfOk, length};

use outside::{Disk, Failed};
use std::fs::OpenOptions;
use std::io;
use std::io::{Read, Seek, SeekFrom, Write};
use std::rt::Files;

/// A disk over a file, which tells no contents and isn't promised to be honest. Each error counts as a fault; a
/// file that couldn't be opened fails at each call. Places past the file's end have zeros.
#[derive(Drop)]
pub(crate) struct ScratchFile<F: Read + Write + Seek + Drop> {
    file: Option<F>,
    faults: u64,
}

impl<F: Read + Write + Seek + Drop> ScratchFile<F> {
    /// The file of a path, made where there is none, and emptied.
    pub(crate) fn open<R: Files<File = F>>(files: &R, path: &str) -> ScratchFile<F> {
        let opened = OpenOptions::new()
            .read(true)
            .write(true)
            .create(true)
            .truncate(true)
            .open(files, path);
        ScratchFile {
            file: opened.ok(),
            faults: 0,
        }
    }

    /// Reads from a place of the file.
    fn read_from(&mut self, at: u64, b: &mut [u8]) -> io::Result<usize>
        ensures bound { IfOk result (λ n. n ≤ length b.new) }
        ensures faults { self.new.faults ≡ self.old.faults }
    {
        let Some(file) = &mut self.file else {
            return Err(io::Error::from(io::ErrorKind::NotFound));
        };
        file.seek(SeekFrom::Start(at))?;
        file.read(b)
    }

    /// Writes at a place of the file.
    fn write_to(&mut self, at: u64, b: &[u8]) -> io::Result<usize>
        ensures bound { IfOk result (λ n. n ≤ length b.now) }
        ensures faults { self.new.faults ≡ self.old.faults }
    {
        let Some(file) = &mut self.file else {
            return Err(io::Error::from(io::ErrorKind::NotFound));
        };
        file.seek(SeekFrom::Start(at))?;
        file.write(b)
    }
}

impl<F: Read + Write + Seek + Drop> Disk for ScratchFile<F> {
    ghost use Rattle.std.specs.Prelude.{None, false};

    ghost bytes = { λ _. None };

    ghost reach = { λ _. 0 };

    ghost honest = { λ _. false };

    ghost faults = { λ d. d.faults };

    ghost told = { λ d h. h };

    fn read_at(&mut self, at: u64, b: &mut [u8]) -> Result<usize, Failed> {
        match self.read_from(at, b) {
            Ok(0) => {
                b.fill(0);
                Ok(b.len())
            }
            Ok(count) => Ok(count),
            Err(_) => {
                self.faults = self.faults.saturating_add(1);
                Err(Failed)
            }
        }
    }

    fn write_at(&mut self, at: u64, b: &[u8]) -> Result<usize, Failed> {
        match self.write_to(at, b) {
            Ok(taken) if taken > 0 || b.is_empty() => Ok(taken),
            _ => {
                self.faults = self.faults.saturating_add(1);
                Err(Failed)
            }
        }
    }
}
