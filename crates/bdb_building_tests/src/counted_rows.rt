//! How many pages trees of keys or records that follow each other need. The numbers are worked out from docs/FORMAT.md, "Built trees".

use crate::counting::counted;
use crate::settings::plain;
use crate::values::{push, value_of};
use bdb_need::{Bytes, KeyRef, Kind, Order, Section, Settings, TextPairs};
use std::alloc::{AllocError, Global};
use std::test::Fail;

/// Which data a key may have.
#[derive(Clone, Copy, PartialEq, Eq)]
enum Data {
    One,
    Several,
    Sorted,
}

/// A list of so many keys, each with so many data, and the pages that it needs. Of a recno the keys are the numbers of the records.
#[derive(Clone, Copy)]
struct Row {
    kind: Kind,
    data: Data,
    page_size: u32,
    keys: u32,
    /// How long each key is.
    key: usize,
    each: u32,
    /// How long each datum is.
    long: usize,
    pages: u128,
}

fn key_of<'k>(row: &Row, number: u32, bytes: &'k Bytes) -> KeyRef<'k> {
    if row.kind == Kind::Recno {
        return KeyRef::Number(number);
    }
    KeyRef::Bytes(bytes.as_slice())
}

fn pairs_of(alloc: Global, row: &Row) -> Result<TextPairs, AllocError> {
    let mut pairs = TextPairs::new(alloc);
    for number in 1..row.keys.saturating_add(1) {
        for place in 0..row.each {
            let bytes = value_of(alloc, number, row.key)?;
            let value = value_of(alloc, place, row.long)?;
            push(&mut pairs, key_of(row, number, &bytes), value.as_slice())?;
        }
    }
    Ok(pairs)
}

fn settings_of(row: &Row) -> Settings {
    Settings {
        duplicates: row.data != Data::One,
        sorted: row.data == Data::Sorted,
        ..plain(row.kind, Order::Little, row.page_size)
    }
}

fn counted_row(alloc: Global, row: &Row) -> Result<Option<u128>, AllocError> {
    let pairs = pairs_of(alloc, row)?;
    counted(
        alloc,
        Section {
            name: None,
            settings: settings_of(row),
            header_line: 0,
            pairs,
        },
    )
}

/// Which data, page size, how many keys and how long, how many data each has and how long, pages.
type Told = (Data, u32, u32, usize, u32, usize, u128);

fn row_of(kind: Kind, told: &Told) -> Row {
    let &(data, page_size, keys, key, each, long, pages) = told;
    Row {
        kind,
        data,
        page_size,
        keys,
        key,
        each,
        long,
        pages,
    }
}

// Pages of 512 bytes have room for 486. A key takes pad4(3 + its length) bytes, a datum 4 more than that; in a chain, from 65 bytes on, an
// item takes 12. Over leaves the first item of a page takes 14, each other 2 + pad4(12 + length), of a key in a chain 26. One page is metadata.
const BTREES: [Told; 13] = [
    (Data::One, 512, 1, 1, 1, 5000, 13), // a leaf, and a chain of 10 pages of 486 and one of 140
    (Data::One, 512, 15, 1, 1, 20, 2), // 4 + 28 a key: a full leaf of 15
    (Data::One, 512, 20, 1, 1, 20, 4), // 2 leaves and a root
    (Data::One, 512, 351, 2, 1, 20, 29), // 8 + 28 a key, 13 a leaf: 27 leaves, and a root of 14 + 26 * 18
    (Data::One, 512, 352, 2, 1, 20, 32), // 28 leaves, 2 pages and a root
    (Data::One, 512, 294, 64, 1, 1, 58), // 68 + 8 a key, 6 a leaf: 49 leaves; 14 + 6 * 78 over them: 7 pages and a root
    (Data::One, 512, 295, 64, 1, 1, 62), // 50 leaves, 8 pages, 2 and a root
    (Data::One, 512, 12, 65, 1, 20, 14), // 12 + 28 a key: a full leaf of 12, and 12 chains
    (Data::One, 512, 13, 65, 1, 20, 17), // 2 leaves, a root and 13 chains
    (Data::One, 512, 228, 65, 1, 20, 249), // 19 leaves, and a root of 14 + 18 * 26
    (Data::One, 512, 229, 65, 1, 20, 253), // 20 leaves, 2 pages and a root
    (Data::One, 32768, 8, 2, 1, 4000, 2), // room for 32742; 8 + 4008 a key: a full leaf of 8
    (Data::One, 32768, 9, 2, 1, 4000, 4),
];

// A key takes its item, and each datum 4 bytes and its item; of more than 121 bytes the data have a tree, and the key takes 16 more than its item.
// In that tree a datum takes 2 more than its item.
const SETS: [Told; 13] = [
    (Data::Several, 512, 1, 1, 40, 10, 5), // 4 + 40 * 20: a tree of 18 a datum, 27 a leaf: 2 leaves and a root
    (Data::Sorted, 512, 1, 1, 40, 10, 5),
    (Data::Several, 512, 1, 1, 5, 10, 2), // 4 + 5 * 20 = 104
    (Data::Several, 512, 1, 1, 6, 10, 3), // 4 + 6 * 20 = 124: a tree of one leaf
    (Data::Sorted, 512, 24, 1, 6, 10, 26), // 20 a key: a full leaf of 24, and 24 trees of one leaf
    (Data::Sorted, 512, 25, 1, 6, 10, 29), // 2 leaves, a root and 25 trees
    (Data::Several, 512, 1, 1, 3, 100, 5), // 4 + 3 * 16 = 52, and 3 chains
    (Data::Several, 512, 1, 1, 9, 100, 12), // 4 + 9 * 16 = 148: a tree of one leaf, and 9 chains
    (Data::Sorted, 512, 1, 1, 42, 64, 10), // 70 a datum, 6 a leaf: 7 leaves, 14 + 6 * 78 over them: a root
    (Data::Sorted, 512, 1, 1, 43, 64, 13), // 8 leaves, 2 pages and a root
    (Data::Several, 512, 1, 1, 43, 64, 11), // 8 leaves, and a root of 48 items
    (Data::Several, 512, 1, 1, 288, 64, 51), // 48 leaves and a root
    (Data::Several, 512, 1, 1, 289, 64, 54), // 49 leaves, 2 pages and a root
];

// A record takes 2 bytes and its item; over leaves an item takes 10: 48 on a page of 512 bytes.
const RECNOS: [Told; 6] = [
    (Data::One, 512, 18, 0, 1, 20, 2), // 26 a record: a full leaf of 18
    (Data::One, 512, 19, 0, 1, 20, 4),
    (Data::One, 512, 864, 0, 1, 20, 50), // 48 leaves and a root
    (Data::One, 512, 865, 0, 1, 20, 53), // 49 leaves, 2 pages and a root
    (Data::One, 512, 41473, 0, 1, 20, 2358), // 2305 leaves, 49, 2 and 1
    (Data::One, 512, 3, 0, 1, 1000, 11), // 14 a record, and 3 chains of 3 pages
];

#[test]
fn btrees_are_counted(rt: HostRuntime) -> Result<(), Fail> {
    for told in &BTREES {
        let row = row_of(Kind::Btree, told);
        assert_eq!(rt; counted_row(rt.alloc(), &row)?, Some(row.pages));
    }
    Ok(())
}

#[test]
fn trees_of_data_are_counted(rt: HostRuntime) -> Result<(), Fail> {
    for told in &SETS {
        let row = row_of(Kind::Btree, told);
        assert_eq!(rt; counted_row(rt.alloc(), &row)?, Some(row.pages));
    }
    Ok(())
}

#[test]
fn recnos_are_counted(rt: HostRuntime) -> Result<(), Fail> {
    for told in &RECNOS {
        let row = row_of(Kind::Recno, told);
        assert_eq!(rt; counted_row(rt.alloc(), &row)?, Some(row.pages));
    }
    Ok(())
}
