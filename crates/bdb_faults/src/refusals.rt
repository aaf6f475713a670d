ghost use Rattle.std.specs.Prelude.{◌≡◌};
ghost use Rattle.bdb_faults.specs.Refusals.{check_error, first_verdict};

use crate::NamedList;
use bdb_format::{CheckError, Named, Verdict};

/// Why a file isn't sound, by the first that holds.
#[derive(Clone, Copy)]
pub enum FirstError {
    /// The least page of the first stage in which a row holds, and there the least row.
    Fault(Named),
    Memory,
}

/// Why a part of a file isn't sound, by the first that holds.
pub fn check_error(error: FirstError) -> CheckError
    ensures { result ≡ check_error error }
{
    match error {
        FirstError::Fault(named) => CheckError::Fault(named.fault()),
        FirstError::Memory => CheckError::Memory,
    }
}

/// The verdict on a file, by the first that holds.
pub fn first_verdict(error: FirstError) -> Verdict
    ensures { result ≡ first_verdict error }
{
    match error {
        FirstError::Fault(named) => named.verdict(),
        FirstError::Memory => Verdict::Memory,
    }
}

/// Why a file isn't sound, whole.
#[derive(Drop)]
pub enum AllError {
    /// All that holds of the first stage that has any, page by page and code by code, each once.
    Faults(NamedList),
    Memory,
}
