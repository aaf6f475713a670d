// The first and the last pair of generated lists, worked out by hand from docs/FORMAT.md, "Generated pairs".
use bdb_gen::generate;
use bdb_model::{KeyRef, Kind, PairList};
use std::alloc::{AllocError, Global};
use std::test::Fail;

// A row: the seed, how many pairs, and of the first and the last one the key of a btree and the length of the data.
type Row = (u32, u32, &'static [u8; 8], usize, &'static [u8; 8], usize);

const ROWS: [Row; 8] = [
    (
        0,
        1,
        b"\x00\x00\x00\x00\x00\x00\x00\x00",
        0,
        b"\x00\x00\x00\x00\x00\x00\x00\x00",
        0,
    ),
    (
        0,
        65,
        b"\x00\x00\x00\x00\x00\x00\x00\x00",
        0,
        b"\x19\x35\xac\xc0\x00\x00\x00\x40",
        0,
    ),
    (
        1,
        1,
        b"\x00\x00\x00\x01\x00\x00\x00\x00",
        1,
        b"\x00\x00\x00\x01\x00\x00\x00\x00",
        1,
    ),
    (
        1,
        2,
        b"\x00\x00\x00\x01\x00\x00\x00\x00",
        1,
        b"\x41\xc6\x7e\xa6\x00\x00\x00\x01",
        38,
    ),
    (
        1,
        65,
        b"\x00\x00\x00\x01\x00\x00\x00\x00",
        1,
        b"\x0f\x36\x15\xc1\x00\x00\x00\x40",
        1,
    ),
    (
        2147483647,
        1,
        b"\x7f\xff\xff\xff\x00\x00\x00\x00",
        63,
        b"\x7f\xff\xff\xff\x00\x00\x00\x00",
        63,
    ),
    (
        2147483647,
        65,
        b"\x7f\xff\xff\xff\x00\x00\x00\x00",
        63,
        b"\x23\x35\x43\xbf\x00\x00\x00\x40",
        63,
    ),
    // more pairs than a byte counts
    (
        7,
        300,
        b"\x00\x00\x00\x07\x00\x00\x00\x00",
        7,
        b"\x6c\xfd\x9e\x8a\x00\x00\x01\x2b",
        10,
    ),
];

// The list of a seed; nothing where it can't be asked for.
fn pairs_of(
    alloc: Global,
    kind: Kind,
    seed: u32,
    count: u32,
) -> Result<Option<PairList>, AllocError> {
    if seed > 2147483647 || count > 200000 {
        return Ok(None);
    }
    Ok(Some(generate(alloc, kind, seed, count)?))
}

// Whether a key is this one, or the number of the record at a place.
fn is_key(kind: Kind, key: KeyRef<'_>, bytes: &[u8], place: usize) -> bool {
    match (kind, key) {
        (Kind::Btree | Kind::Hash, KeyRef::Bytes(key)) => key == bytes,
        (Kind::Recno | Kind::Queue, KeyRef::Number(number)) => number as usize
            == place.saturating_add(1),
        _ => false,
    }
}

// Whether the pair at a place has a key, and data of a length whose bytes all say the place.
fn is_pair_at(kind: Kind, list: &PairList, place: usize, key: &[u8], long: usize) -> bool {
    if place >= list.len() {
        return false;
    }
    let pair = list.as_slice().at(place);
    let long = if kind == Kind::Queue { 16 } else { long };
    let data = [(place % 256) as u8; 64];
    is_key(kind, pair.key, key, place) && data.get(..long) == Some(pair.value)
}

// Whether a list has as many pairs as its row says, and the first and the last one of it.
fn is_row(kind: Kind, list: &PairList, row: Row) -> bool {
    let (_, count, first, first_long, last, last_long) = row;
    let last_place = list.len().saturating_sub(1);
    list.len() == count as usize
        && is_pair_at(kind, list, 0, first, first_long)
        && is_pair_at(kind, list, last_place, last, last_long)
}

fn follows(alloc: Global, kind: Kind, row: Row) -> Result<bool, AllocError> {
    match pairs_of(alloc, kind, row.0, row.1)? {
        Some(list) => Ok(is_row(kind, &list, row)),
        None => Ok(false),
    }
}

#[test]
fn pairs_follow_from_the_seed(rt: HostRuntime) -> Result<(), Fail> {
    for kind in [Kind::Btree, Kind::Recno, Kind::Hash, Kind::Queue] {
        for row in ROWS {
            assert!(rt; follows(rt.alloc(), kind, row)?);
        }
    }
    Ok(())
}
