use std::alloc::{AllocError, Global};
use std::rt::Files;
use std::{fs, io};
use test_runs::Bytes;

/// The outputs that are kept, by name.
#[derive(Drop)]
pub(crate) struct Kept {
    alloc: Global,
    files: Vec<(String, Bytes)>,
}

impl Kept {
    pub(crate) fn new(alloc: Global) -> Kept {
        Kept {
            alloc,
            files: Vec::new(alloc),
        }
    }

    /// Keeps bytes under a name, in place of those that it had.
    pub(crate) fn keep(&mut self, name: &str, bytes: &[u8]) -> Result<(), AllocError> {
        let kept = bytes_of(self.alloc, bytes)?;
        self.files.push((name.to_string(self.alloc)?, kept))?;
        Ok(())
    }

    // What was kept last under a name.
    fn kept(&self, name: &str) -> Option<&[u8]> {
        let (_, bytes) = self
            .files
            .iter()
            .rev()
            .find(|file| file.0.as_str() == name)?;
        Some(bytes.as_slice())
    }

    /// What is kept under a name, or else the file that has it.
    pub(crate) fn file<R: Files + AllocGlobal>(&self, rt: &R, name: &str) -> io::Result<Bytes> {
        match self.kept(name) {
            Some(bytes) => Ok(bytes_of(self.alloc, bytes)?),
            None => Ok(bytes_of(self.alloc, fs::read(rt, name)?.as_slice())?),
        }
    }
}

fn bytes_of(alloc: Global, piece: &[u8]) -> Result<Bytes, AllocError> {
    let mut bytes = Bytes::new(alloc);
    bytes.push_all(piece)?;
    Ok(bytes)
}
