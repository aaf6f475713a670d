ghost use Rattle.std.specs.Prelude.{◌≡◌, IfOk};
ghost use Rattle.std.specs.Fmt.{decimal};

use bdb_text_format::Bytes;
use std::alloc::{AllocError, Global};

/// A number in decimal, without leading zeros. An error means that memory ran out.
pub fn number_text(alloc: Global, number: u32) -> Result<Bytes, AllocError>
    ensures { IfOk result (λ text. text ≡ decimal number) }
{
    let digits = format!(in alloc; "{number}")?;
    Ok(Bytes::from_vec(digits.into_bytes()))
}
