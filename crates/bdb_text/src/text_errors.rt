ghost use Rattle.std.specs.Prelude.{◌≡◌};
ghost use Rattle.bdb_text.specs.ReadTo.{fault_at};

use bdb_spelling::{TextFault, TextReason};
use thiserror::Error;

/// Why a dump text isn't read.
#[derive(Clone, Copy, Debug, PartialEq, Eq, Error)]
pub enum TextError {
    /// The first fault of the text: its line, from 1, and its reason.
    #[error("fault in the text")]
    Fault(TextFault),
    #[error("out of memory")]
    Memory,
}

/// The error of a line with this number and this reason.
pub fn fault_at(line: u64, reason: TextReason) -> TextError
    ensures { result ≡ fault_at line reason }
{
    TextError::Fault(TextFault { line, reason })
}
