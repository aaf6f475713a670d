//! Keys and data of a list, copied out of a file.
ghost use Rattle.std.specs.Prelude.{◌≡◌, ◌++◌, ◌∷◌, [], IfOk, OnOk};
ghost use Rattle.bdb_file.specs.of_overflow.Datum.{datum_seen, key_view_seen};
ghost use Rattle.bdb_model.specs.of_text_format.Terms.{key_seen};
ghost use Rattle.bdb_onto.specs.Bases.{text_pair};
ghost use Rattle.bdb_tool_build.specs.Ontos.{list_key};

use bdb_file::{Datum, KeyView, bytes_in};
use bdb_model::{KeyRef, PairRef, TextPairs};
use std::alloc::{AllocError, Global};

/// Rooms in which the bytes of a key and of a datum are joined.
#[derive(Drop)]
pub(crate) struct Rooms {
    key: Vec<u8>,
    value: Vec<u8>,
}

// The key of a list, to be copied.
fn key_of<'r>(key: KeyView<'r>, room: &'r mut Vec<u8>) -> Result<KeyRef<'r>, AllocError>
    ensures { IfOk result (λ lent. key_seen lent ≡ list_key (key_view_seen key.entry)) }
{
    match key {
        KeyView::Bytes(value) => match bytes_in(value, room) {
            Ok(bytes) => Ok(KeyRef::Bytes(bytes)),
            Err(error) => Err(error),
        },
        KeyView::Number(number) => Ok(KeyRef::Number(number)),
    }
}

impl Rooms {
    /// Rooms without bytes.
    pub(crate) fn new(alloc: Global) -> Rooms {
        Rooms {
            key: Vec::new(alloc),
            value: Vec::new(alloc),
        }
    }

    /// Adds a pair of a list, as if it stood in a text without numbers of lines.
    pub(crate) fn push(
        &mut self,
        key: KeyView<'_>,
        value: Datum<'_>,
        pairs: &mut TextPairs,
    ) -> Result<(), AllocError>
        ensures { OnOk result (pairs.new ≡ pairs.old ++ text_pair (key_view_seen key.entry, datum_seen value.entry) ∷ []) }
    {
        let pair = PairRef {
            key: key_of(key, &mut self.key)?,
            value: bytes_in(value, &mut self.value)?,
            line: 0,
        };
        pairs.push(pair)
    }
}
