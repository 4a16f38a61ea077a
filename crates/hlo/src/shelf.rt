//! The real files as a shelf.
ghost use Rattle.std.specs.Prelude.{◌≡◌, ◌≤◌, IfOk, length};

use outside::{Failed, Shelf};
use std::alloc::Global;
use std::io;
use std::io::{Read, Seek, SeekFrom};
use std::rt::Files;

/// The file that was read last, and where its next byte is.
#[derive(Drop)]
struct Opened<F: Drop> {
    name: String,
    file: F,
    at: u64,
}

/// The files of the system by their paths. It tells no contents, and counts each error, whichever the name,
/// in one number. A file that is read from its start on stays open from call to call.
#[derive(Drop)]
pub(crate) struct FileShelf<'a, R: Files> {
    rt: &'a R,
    opened: Option<Opened<R::File>>,
    faults: u64,
}

impl<'a, R: Files + AllocGlobal> FileShelf<'a, R> {
    /// No file is open yet.
    pub(crate) fn new(rt: &'a R) -> FileShelf<'a, R> {
        FileShelf {
            rt,
            opened: None,
            faults: 0,
        }
    }

    /// Reads from a place of the named file.
    fn read_from(&mut self, name: &str, at: u64, b: &mut [u8]) -> io::Result<usize>
        ensures bound { IfOk result (λ n. n ≤ length b.new) }
        ensures faults { self.new.faults ≡ self.old.faults }
    {
        let mut opened = match self.opened.take() {
            Some(opened) if at > 0 && opened.at == at && opened.name.as_str() == name => opened,
            _ => self.open(name, at)?,
        };
        let count = opened.file.read(b)?;
        opened.at = opened.at.saturating_add(count as u64);
        self.opened = Some(opened);
        Ok(count)
    }

    /// Opens the named file at a place.
    fn open(&self, name: &str, at: u64) -> io::Result<Opened<R::File>> {
        let mut file = std::fs::open(self.rt, name)?;
        if at > 0 {
            file.seek(SeekFrom::Start(at))?;
        }
        Ok(Opened {
            name: String::from_str(self.rt.alloc(), name)?,
            file,
            at,
        })
    }
}

impl<'a, R: Files + AllocGlobal> Shelf for FileShelf<'a, R> {
    ghost use Rattle.outside.specs.Told.{Untold};

    ghost tells = { λ _ _. Untold };

    ghost faults = { λ s _. s.faults };

    fn read(&mut self, name: &str, at: u64, b: &mut [u8]) -> Result<usize, Failed> {
        match self.read_from(name, at, b) {
            Ok(count) => Ok(count),
            Err(_) => {
                self.faults = self.faults.saturating_add(1);
                Err(Failed)
            }
        }
    }
}
