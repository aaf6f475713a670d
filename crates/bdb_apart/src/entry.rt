ghost use Rattle.std.specs.Prelude.{◌≡◌, ◌≤◌, ◌+◌, ◌++◌, Some, length, take};
ghost use Rattle.bdb_rescue.specs.of_format.Terms.{joined, page_named};
ghost use Rattle.bdb_rescue.specs.of_overflow.Datum.{datum_seen};

use bdb_homes::{Order, u32_at};
use bdb_rescue::{Datum, Pieces};

/// Puts a piece behind so many of four bytes. The answer is how many there are then.
fn put_piece(four: &mut [u8; 4], at: usize, piece: &[u8]) -> usize
    requires { at + length piece.now ≤ 4 }
    ensures within { result ≤ 4 }
    ensures put { take result four.new ≡ take at four.old ++ piece.now }
{
    let end = at + piece.len();
    four[at..end].copy_from_slice(piece);
    end
}

/// The four bytes of pieces.
fn four_of(pieces: Pieces<'_>) -> [u8; 4]
    requires { length (joined pieces) ≡ 4 }
    ensures { result ≡ joined pieces.entry }
{
    let mut four = [0; 4];
    let mut at = 0;
    for piece in pieces {
        at = put_piece(&mut four, at, piece);
    }
    four
}

/// The page that four bytes name, the high end first.
fn page_in(bytes: &[u8]) -> u32
    requires { length bytes.now ≡ 4 }
    ensures { Some result ≡ page_named bytes.now }
{
    u32_at(bytes, 0, Order::Big)
}

/// The page that data name: four bytes, the high end first.
pub(crate) fn page_named(value: &Datum<'_>) -> Option<u32>
    ensures { result ≡ page_named (datum_seen value.now) }
{
    if !value.has_len(4) {
        return None;
    }
    match value {
        Datum::Inline(bytes) => Some(page_in(bytes)),
        Datum::Chained(pieces) => Some(page_in(&four_of(pieces.again()))),
    }
}
