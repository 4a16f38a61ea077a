//! The files of a session.
use std::alloc::{AllocError, Global};

/// Names with the bytes of their files. No two have one name.
#[derive(Drop)]
pub struct Files {
    files: Vec<(String, Vec<u8>)>,
}

impl Files {
    /// There are none.
    pub fn new(alloc: Global) -> Files {
        Files {
            files: Vec::new(alloc),
        }
    }

    /// Forgets all.
    pub fn clear(&mut self) {
        self.files.clear();
    }

    /// An empty file, in the place of the one that has this name. It is the last one.
    pub fn create(&mut self, alloc: Global, name: &str) -> Result<(), AllocError> {
        self.files.retain(|(file, _)| file.as_str() != name);
        self.files.push((name.to_string(alloc)?, Vec::new(alloc)))?;
        Ok(())
    }

    /// Adds a line to the last file.
    pub fn fill(&mut self, line: &str) -> Result<(), AllocError> {
        if let Some((_, bytes)) = self.files.last_mut() {
            bytes.extend_from_slice(line.as_bytes())?;
            bytes.push(b'\n')?;
        }
        Ok(())
    }

    /// Adds bytes to the file of this name.
    pub fn append(&mut self, name: &str, added: &[u8]) -> Result<(), AllocError> {
        for (file, bytes) in &mut self.files {
            if file.as_str() == name {
                bytes.extend_from_slice(added)?;
            }
        }
        Ok(())
    }

    /// A copy of the bytes of this name's file, none where there is none.
    pub fn bytes(&self, alloc: Global, name: &str) -> Result<Vec<u8>, AllocError> {
        for (file, bytes) in &self.files {
            if file.as_str() == name {
                return bytes.to_vec(alloc);
            }
        }
        Ok(Vec::new(alloc))
    }

    /// A copy of all.
    pub fn copies(&self, alloc: Global) -> Result<Vec<(String, Vec<u8>)>, AllocError> {
        let mut copies = Vec::new(alloc);
        for (file, bytes) in &self.files {
            copies.push((file.as_str().to_string(alloc)?, bytes.to_vec(alloc)?))?;
        }
        Ok(copies)
    }
}
