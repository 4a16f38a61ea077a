//! Which calls of the outside world fail.
use std::alloc::{AllocError, Global};

/// The numbers of the calls of each object that fail, counted from 1.
#[derive(Drop)]
pub struct Failing {
    pub out: Vec<u32>,
    pub err: Vec<u32>,
    pub shelf: Vec<u32>,
    pub input: Vec<u32>,
    pub disk: Vec<u32>,
    /// The call that reads from the disk, counted from 1, whose bytes come with one bit turned over, and that bit.
    pub bent: Vec<u32>,
}

impl Failing {
    /// None fails.
    pub fn new(alloc: Global) -> Failing {
        Failing {
            out: Vec::new(alloc),
            err: Vec::new(alloc),
            shelf: Vec::new(alloc),
            input: Vec::new(alloc),
            disk: Vec::new(alloc),
            bent: Vec::new(alloc),
        }
    }

    /// Whether the word says which calls fail, as `OUT=2,3` does. These fail from then on.
    pub fn take(&mut self, word: &str) -> Result<bool, AllocError> {
        let Some((object, numbers)) = word.split_once('=') else {
            return Ok(false);
        };
        let calls = match object {
            "OUT" => &mut self.out,
            "ERR" => &mut self.err,
            "SHELF" => &mut self.shelf,
            "INPUT" => &mut self.input,
            "DISK" => &mut self.disk,
            "BENT" => &mut self.bent,
            _ => return Ok(false),
        };
        for number in numbers.split(',') {
            if let Ok(call) = number.parse::<u32>() {
                calls.push(call)?;
            }
        }
        Ok(true)
    }
}
