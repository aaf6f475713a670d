ghost use Rattle.std.specs.Prelude.{◌≡◌};

use bdb_rescue::SalvageError;
use std::alloc::AllocError;

/// Why no file is built.
#[derive(Clone, Copy, Debug, PartialEq, Eq)]
pub enum RepairError {
    /// No guess is given, and page 0 gives none. Of `repair_apart` also: no database is found.
    NoMeta,
    /// The file would have more bytes than the limit.
    TooLarge,
    Memory,
}

impl From<AllocError> for RepairError {
    ghost use Rattle.bdb_repair.specs.declared.error.RepairError.TheVariants.{Memory};

    ghost from_gives = { λ _ error. error ≡ Memory };

    fn from(_error: AllocError) -> RepairError {
        RepairError::Memory
    }
}

impl From<SalvageError> for RepairError {
    ghost use Rattle.bdb_repair.specs.Repairs.{repair_error};

    ghost from_gives = { λ from error. error ≡ repair_error from };

    fn from(error: SalvageError) -> RepairError {
        match error {
            SalvageError::NoMeta => RepairError::NoMeta,
            SalvageError::Memory => RepairError::Memory,
        }
    }
}
