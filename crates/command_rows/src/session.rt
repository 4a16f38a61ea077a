//! A session: the files that were made so far, and what each typed line does.
use crate::escapes::unescaped;
use crate::failing::Failing;
use crate::files::Files;
use crate::serving::{World, serve};
use std::alloc::{AllocError, Global};

/// Holds the files of a session.
#[derive(Drop)]
pub struct Session {
    files: Files,
}

impl Session {
    /// With no files.
    pub fn new(alloc: Global) -> Session {
        Session {
            files: Files::new(alloc),
        }
    }

    /// What the terminal shows for a line: it, and what is answered where it is a command.
    pub fn line(&mut self, alloc: Global, line: &str) -> Result<Vec<u8>, AllocError> {
        let mut shown = Vec::new(alloc);
        shown.extend_from_slice(line.as_bytes())?;
        shown.push(b'\n')?;
        if let Some(typed) = line.strip_prefix("$ ") {
            self.typed(alloc, typed, &mut shown)?;
        } else if line == ">" {
            self.files.fill("")?;
        } else if let Some(text) = line.strip_prefix("> ") {
            self.files.fill(text)?;
        }
        Ok(shown)
    }

    fn typed(&mut self, alloc: Global, typed: &str, shown: &mut Vec<u8>) -> Result<(), AllocError> {
        if typed == "rm *" {
            self.files.clear();
            Ok(())
        } else if let Some(name) = typed.strip_prefix("cat > ") {
            self.files.create(alloc, name)
        } else if let Some(printed) = typed.strip_prefix("printf '") {
            self.print(alloc, 1, printed)
        } else if let Some(repeated) = typed.strip_prefix("repeat ") {
            self.repeat(alloc, repeated)
        } else {
            self.command(alloc, typed, shown)
        }
    }

    /// Puts so many copies of a text into a file: what stands behind the text's first quote.
    fn print(&mut self, alloc: Global, times: u32, printed: &str) -> Result<(), AllocError> {
        if let Some((text, name)) = printed.split_once("' >> ") {
            self.add(alloc, times, text, name)
        } else if let Some((text, name)) = printed.split_once("' > ") {
            self.files.create(alloc, name)?;
            self.add(alloc, times, text, name)
        } else {
            Ok(())
        }
    }

    fn add(&mut self, alloc: Global, times: u32, text: &str, name: &str) -> Result<(), AllocError> {
        let bytes = unescaped(alloc, text)?;
        for _ in 0..times {
            self.files.append(name, bytes.as_slice())?;
        }
        Ok(())
    }

    fn repeat(&mut self, alloc: Global, repeated: &str) -> Result<(), AllocError> {
        let Some((count, printed)) = repeated.split_once(" '") else {
            return Ok(());
        };
        match count.parse::<u32>() {
            Ok(times) => self.print(alloc, times, printed),
            Err(_) => Ok(()),
        }
    }

    /// Runs a command. The word before its own words, the program's name, is left out.
    fn command(&self, alloc: Global, typed: &str, shown: &mut Vec<u8>) -> Result<(), AllocError> {
        let (typed, input) = match typed.split_once(" < ") {
            Some((typed, name)) => (typed, self.files.bytes(alloc, name)?),
            None => (typed, Vec::new(alloc)),
        };
        let mut failing = Failing::new(alloc);
        let words = words_of(alloc, typed, &mut failing)?;
        let files = self.files.copies(alloc)?;
        let world = World::new(alloc, files, input, failing);
        match words.as_slice() {
            [_, words @ ..] => serve(alloc, words, world, shown),
            [] => Ok(()),
        }
    }
}

/// The words of a line, but for those that say which calls fail.
fn words_of(alloc: Global, typed: &str, failing: &mut Failing) -> Result<Vec<String>, AllocError> {
    let mut words = Vec::new(alloc);
    for word in typed.split_whitespace() {
        if !failing.take(word)? {
            words.push(word.to_string(alloc)?)?;
        }
    }
    Ok(words)
}
