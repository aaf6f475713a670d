ghost use Rattle.std.specs.Prelude.{◌≡◌, ◌<◌, ◌^◌, IfOk, length};
ghost use Rattle.std.specs.List.{All, flat_map};
ghost use Rattle.bdb_mktree.specs.of_format.Terms.{block_bytes, spelled};
ghost use Rattle.bdb_mktree.specs.of_places.Places.{values_seen};

use bdb_mktree::{Bytes, Order, Values, put_u16};
use std::alloc::{AllocError, Global};

// A length in two bytes.
fn spell_length(order: Order, length: u16) -> [u8; 2]
    ensures { result ≡ spelled 2 order length }
{
    let mut bytes = [0; 2];
    put_u16(&mut bytes, 0, order, length);
    bytes
}

/// The data of a set as they stand on its page: each between its length and its length again.
pub(crate) fn spell_set(
    alloc: Global,
    order: Order,
    values: Values<'_>,
) -> Result<Bytes, AllocError>
    requires { All (λ value. length value < 2 ^ 16) (values_seen values) }
    ensures { IfOk result (λ run. run ≡ flat_map (block_bytes order) (values_seen values.entry)) }
{
    let mut run = Bytes::new(alloc);
    for i in 0..values.len() {
        let value = values.at(i);
        let length = spell_length(order, value.len() as u16);
        run.push_all(&length)?;
        run.push_all(value)?;
        run.push_all(&length)?;
    }
    Ok(run)
}
