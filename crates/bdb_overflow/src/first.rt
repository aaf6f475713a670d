ghost use Rattle.std.specs.Prelude.{◌≡◌, ◌<◌, get_or};
ghost use Rattle.bdb_graph.specs.of_format.Terms.{joined};
ghost use Rattle.bdb_overflow.specs.Datum.{datum_seen};
ghost use Rattle.bdb_overflow.specs.Prefix.{AreBytes, prefix_of};

use crate::{Datum, Pieces};

/// The byte of a run of bytes at an index, 0 behind its end.
fn byte_in(bytes: &[u8], index: usize) -> u8
    ensures { result ≡ get_or bytes.now index 0 }
{
    if index < bytes.len() { bytes[index] } else { 0 }
}

/// The byte of pieces at an index, 0 behind their end.
#[tactic(auto, using(crate::proofs::PrefixLemmas::byte_here, crate::proofs::PrefixLemmas::byte_later))]
fn byte_among(pieces: Pieces<'_>, index: usize) -> u8
    ensures { result ≡ get_or (joined pieces.entry) index 0 }
{
    let mut left = index;
    for piece in pieces {
        if left < piece.len() {
            return piece[left];
        }
        left -= piece.len();
    }
    0
}

/// The byte of a value at an index, 0 behind its end.
fn byte_of(datum: &Datum<'_>, index: usize) -> u8
    ensures { result ≡ get_or (datum_seen datum.now) index 0 }
{
    match datum {
        Datum::Inline(bytes) => byte_in(bytes, index),
        Datum::Chained(pieces) => byte_among(pieces.again(), index),
    }
}

/// The first eight bytes of a value as a number, the high end first, with zeros behind a shorter value. Where those of
/// two values differ, they have the order of the values.
#[tactic(auto, using(crate::proofs::PrefixLemmas::prefix_is, crate::proofs::PrefixLemmas::bytes_are))]
pub fn prefix(datum: &Datum<'_>) -> u64
    ensures number { result ≡ prefix_of 8 (datum_seen datum.now) }
    ensures bytes { AreBytes 8 (datum_seen datum.now) }
{
    u64::from_be_bytes([
        byte_of(datum, 0),
        byte_of(datum, 1),
        byte_of(datum, 2),
        byte_of(datum, 3),
        byte_of(datum, 4),
        byte_of(datum, 5),
        byte_of(datum, 6),
        byte_of(datum, 7),
    ])
}
