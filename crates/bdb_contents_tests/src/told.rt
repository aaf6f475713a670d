//! What the check of a database says, and samples beside it.

use bdb_format::{CheckError, Fault};
use test_images::Sample;

/// What the check of a database says; refused is a file on which it is not run.
#[derive(Clone, Copy, Debug, PartialEq, Eq)]
pub enum Told {
    Sound,
    Fault { page: u32, code: u8 },
    Memory,
    Refused,
}

/// A file, and what is told of it.
pub struct Judged {
    pub sample: Sample,
    pub told: Told,
}

pub fn told_by(answer: Result<(), CheckError>) -> Told {
    match answer {
        Ok(()) => Told::Sound,
        Err(
            CheckError::Fault(
                Fault {
                    stage: 8,
                    page,
                    code,
                },
            ),
        ) => Told::Fault { page, code },
        Err(CheckError::Fault(_)) => Told::Refused,
        Err(CheckError::Memory) => Told::Memory,
    }
}
