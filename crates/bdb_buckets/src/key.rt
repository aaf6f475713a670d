ghost use Rattle.std.specs.Prelude.{◌≡◌};
ghost use Rattle.bdb_tree.specs.of_overflow.Datum.{datum_seen};
ghost use Rattle.bdb_tree.specs.of_format.Terms.{hash5};

use bdb_tree::{Datum, hash5, hash5_after};

/// The hash of a key.
#[inline(always)]
pub fn hash_of(key: &Datum<'_>) -> u32
    ensures { result ≡ hash5 (datum_seen key.now) }
{
    match key {
        Datum::Inline(bytes) => hash5(bytes),
        Datum::Chained(pieces) => {
            let mut hash = 0;
            for piece in pieces.again() {
                hash = hash5_after(hash, piece);
            }
            hash
        }
    }
}
