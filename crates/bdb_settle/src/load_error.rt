ghost use Rattle.std.specs.Prelude.{◌≡◌};
ghost use Rattle.bdb_settle.specs.LoadErrors.{code_of, line_of, name_of};

use std::alloc::AllocError;
use thiserror::Error;

/// Why sections aren't loaded. A number is that of a line of the text.
#[derive(Clone, Copy, Debug, PartialEq, Eq, Error)]
pub enum LoadError {
    /// A datum is longer than its record, or a queue's record than its page.
    #[error("record too long")]
    RecordTooLong(u64),
    /// The number of a record is 0.
    #[error("record number 0")]
    RecordZero(u64),
    /// The file would have too many pages. `settle` doesn't answer it.
    #[error("file too large")]
    TooLarge,
    /// A queue has a name, or isn't alone.
    #[error("queue among names")]
    QueueAmongNames(u64),
    #[error("out of memory")]
    Memory,
    /// A section's database in the file that it is loaded onto is of another kind, or keeps the data of a key in another way. `settle` doesn't answer it.
    #[error("another kind in the base")]
    OntoKind(u64),
    /// A section has a name and the file that it is loaded onto no names, or the other way round. `settle` doesn't answer it.
    #[error("names and a base without names, or the other way round")]
    OntoNames(u64),
}

impl From<AllocError> for LoadError {
    ghost use Rattle.bdb_settle.specs.declared.load_error.LoadError.TheVariants.{Memory};

    ghost from_gives = { λ _ error. error ≡ Memory };

    fn from(_error: AllocError) -> LoadError {
        LoadError::Memory
    }
}

/// What the table of errors says of one.
#[derive(Clone, Copy)]
struct LoadErrorEntry {
    line: u64,
    code: u8,
    name: &'static str,
}

fn row(line: u64, code: u8, name: &'static str) -> LoadErrorEntry
    ensures line { result.line ≡ line }
    ensures code { result.code ≡ code }
    ensures name { result.name.now ≡ name.now }
{
    LoadErrorEntry { line, code, name }
}

impl LoadError {
    fn entry(self) -> LoadErrorEntry
        ensures line { result.line ≡ line_of self }
        ensures code { result.code ≡ code_of self }
        ensures name { result.name.now ≡ name_of self }
    {
        match self {
            LoadError::RecordTooLong(line) => row(line, 1, "RecordTooLong"),
            LoadError::RecordZero(line) => row(line, 2, "RecordZero"),
            LoadError::TooLarge => row(0, 3, "TooLarge"),
            LoadError::QueueAmongNames(line) => row(line, 4, "QueueAmongNames"),
            LoadError::OntoKind(line) => row(line, 5, "OntoKind"),
            LoadError::OntoNames(line) => row(line, 6, "OntoNames"),
            LoadError::Memory => row(0, 0, "Memory"),
        }
    }

    /// The line of the text; 0 where the error is of no line.
    pub fn line(self) -> u64
        ensures { result ≡ line_of self }
    {
        self.entry().line
    }

    /// The place of the error among those of a line, which is its number in what is told.
    pub fn code(self) -> u8
        ensures { result ≡ code_of self }
    {
        self.entry().code
    }

    /// Its name there.
    pub fn name(self) -> &'static str
        ensures { result.now ≡ name_of self }
    {
        self.entry().name
    }
}
