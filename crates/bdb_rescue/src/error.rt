ghost use Rattle.std.specs.Prelude.{◌≡◌};

use std::alloc::AllocError;
use thiserror::Error;

/// Why nothing is salvaged.
#[derive(Clone, Copy, Debug, PartialEq, Eq, Error)]
pub enum SalvageError {
    /// No guess is given, and page 0 gives none.
    #[error("no metadata page")]
    NoMeta,
    #[error("out of memory")]
    Memory,
}

impl From<AllocError> for SalvageError {
    ghost use Rattle.bdb_rescue.specs.declared.error.SalvageError.TheVariants.{Memory};

    ghost from_gives = { λ _ error. error ≡ Memory };

    fn from(_error: AllocError) -> SalvageError {
        SalvageError::Memory
    }
}
