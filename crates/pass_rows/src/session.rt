//! A session: the program that stands so far, and what passes make of it.
use crate::calls::change_calls;
use crate::changes::change;
use crate::groups::tell_groups;
use crate::profiles::tell_profile;
use crate::telling::tell;
use il_text::read_il;
use std::alloc::{AllocError, Global};

/// Holds the text of the last program or profile.
#[derive(Drop)]
pub struct Session {
    text: Vec<u8>,
    /// The last line of the text, where that is still to come.
    last: Option<&'static str>,
}

impl Session {
    /// With no program.
    pub fn new(alloc: Global) -> Session {
        Session {
            text: Vec::new(alloc),
            last: None,
        }
    }

    /// What is shown for a line: it, and what a pass answers where it names one.
    pub fn line(&mut self, alloc: Global, line: &str) -> Result<Vec<u8>, AllocError> {
        let mut shown = Vec::new(alloc);
        shown.extend_from_slice(line.as_bytes())?;
        shown.push(b'\n')?;
        if let Some(pass) = line.strip_prefix("$ ") {
            answer(alloc, pass, self.text.as_slice(), &mut shown)?;
        } else {
            self.take_in(line)?;
        }
        Ok(shown)
    }

    /// Takes in a line of a program or a profile; others are headings.
    fn take_in(&mut self, line: &str) -> Result<(), AllocError> {
        if let Some(last) = last_line(line) {
            self.text.clear();
            self.last = Some(last);
        }
        if let Some(last) = self.last {
            self.text.extend_from_slice(line.as_bytes())?;
            self.text.push(b'\n')?;
            if line == last {
                self.last = None;
            }
        }
        Ok(())
    }
}

/// The last line of a text that begins with this one.
fn last_line(line: &str) -> Option<&'static str> {
    if line == "hlo-il 1" {
        Some("done")
    } else if line == "profile 1" {
        Some("end")
    } else {
        None
    }
}

/// What a pass answers to the text of a program or a profile.
fn answer(alloc: Global, pass: &str, text: &[u8], shown: &mut Vec<u8>) -> Result<(), AllocError> {
    let words: Vec<&str> = pass.split(' ').collect(alloc)?;
    let numbers = numbers(alloc, words.as_slice())?;
    let word = words[0];
    if tell_profile(alloc, word, numbers.as_slice(), text, shown)? {
        return Ok(());
    }
    let Ok(program) = read_il(alloc, text) else {
        return shown.extend_from_slice(b"no valid program\n");
    };
    if word == "group" && tell_groups(alloc, numbers.as_slice(), &program, shown)? {
        return Ok(());
    }
    if change_calls(alloc, word, numbers.as_slice(), &program, shown)? {
        return Ok(());
    }
    if !tell(alloc, pass, &program, shown)? {
        change(alloc, pass, &program, shown)?;
    }
    Ok(())
}

/// The numbers among the words.
fn numbers(alloc: Global, words: &[&str]) -> Result<Vec<u32>, AllocError> {
    let mut numbers = Vec::new(alloc);
    for word in words {
        if let Ok(number) = word.parse::<u32>() {
            numbers.push(number)?;
        }
    }
    Ok(numbers)
}
