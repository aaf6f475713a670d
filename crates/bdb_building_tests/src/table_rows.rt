//! Tables of keys that follow each other, in both orders. Values: docs/FORMAT.md, "Built tables".

use crate::judging::{TableShape, is_table_built};
use crate::settings::table_settings;
use crate::values::{Keyed, ORDERS, keyed, push, value_of};
use bdb_need::{KeyRef, Order, TextPairs};
use std::alloc::{AllocError, Global};
use std::test::Fail;

/// A table of so many keys, each so far from the one before, and with so many data; the data of a set ascend where they are sorted, and
/// else fall.
#[derive(Clone, Copy)]
struct Row {
    flags: u32,
    page_size: u32,
    /// How far the numbers of the keys are apart.
    step: u32,
    keys: u32,
    /// How long each key is.
    key: usize,
    data: u32,
    /// How long each datum is.
    long: usize,
    buckets: u32,
    pages: usize,
}

// Adds the pairs of a key.
fn add_key(alloc: Global, row: &Row, number: u32, list: &mut TextPairs) -> Result<(), AllocError> {
    for place in 0..row.data {
        let sorted = row.flags & 0x04 != 0;
        let datum = if sorted { place } else { row.data - 1 - place };
        let key = value_of(alloc, number, row.key)?;
        let value = value_of(alloc, number.wrapping_add(datum), row.long)?;
        push(list, KeyRef::Bytes(key.as_slice()), value.as_slice())?;
    }
    Ok(())
}

fn list_of(alloc: Global, row: &Row) -> Result<TextPairs, AllocError> {
    let mut list = TextPairs::new(alloc);
    for place in 0..row.keys {
        add_key(alloc, row, place.wrapping_mul(row.step), &mut list)?;
    }
    Ok(list)
}

fn is_row_built(alloc: Global, order: Order, row: &Row) -> Result<bool, AllocError> {
    let list = list_of(alloc, row)?;
    let settings = table_settings(order, row.page_size, row.flags);
    let shape = TableShape {
        buckets: row.buckets,
        pages: row.pages,
    };
    is_table_built(alloc, &settings, list.as_slice(), shape, b"99999")
}

/// Flags and page size, how far keys are apart, how many there are and how long, how many data each has and how long, buckets and pages.
type Told = (u32, u32, u32, u32, usize, u32, usize, u32, usize);

fn row_of(told: &Told) -> Row {
    let &(flags, page_size, step, keys, key, data, long, buckets, pages) = told;
    Row {
        flags,
        page_size,
        step,
        keys,
        key,
        data,
        long,
        buckets,
        pages,
    }
}

// Pages of 512 bytes have room for 486, half of it is 243. A key takes 3 more than its length, and so does a datum alone; in a chain each takes 14.
// Keys that follow each other are spread evenly: no bucket below has more than 9, so that each has one page.
const TABLES: [Told; 13] = [
    (0, 512, 1, 0, 2, 1, 20, 2, 3), // no pair at all
    (0, 512, 1, 4, 2, 1, 20, 2, 3),
    (0, 512, 1, 17, 2, 1, 20, 2, 3), // 28 a key: 476
    (0, 512, 1, 18, 2, 1, 20, 4, 5), // 504
    (0, 512, 1, 100, 2, 1, 20, 16, 17), // 2800
    (0, 512, 1, 500, 2, 1, 20, 64, 65), // 14000
    (0, 512, 1, 60000, 2, 1, 20, 8192, 8193), // 1680000, of 6914 halves
    (0, 512, 1, 20, 65, 1, 20, 4, 25), // 14 + 23 a key: 740, and 20 chains
    (0, 512, 1, 20, 65, 1, 500, 4, 65), // 28 a key: 560, and chains of one page and of two
    (0, 4096, 1, 1, 2, 1, 512, 2, 3),
    (0, 4096, 1, 1, 2, 1, 513, 2, 4), // longer than an eighth of a page
    (0, 32768, 1, 9, 2, 1, 4000, 4, 5), // 4008 a key: 36072, of 32742
    (0, 32768, 1, 3, 4097, 1, 4097, 2, 9),
];

// Several data take 3, and 4 more than its length each. Where that is more than 121, or one is in a chain, they have a tree, and take 10.
const SETS: [Told; 9] = [
    (0x01, 512, 1, 20, 2, 3, 20, 8, 9), // 5 + 75 a key: 1600
    (0x05, 512, 1, 20, 2, 3, 20, 8, 9),
    (0x01, 512, 1, 3, 2, 4, 25, 2, 3), // 119
    (0x05, 512, 1, 3, 2, 4, 25, 2, 3),
    (0x01, 512, 1, 3, 2, 4, 26, 2, 6), // 123: three trees of a leaf
    (0x05, 512, 1, 3, 2, 4, 26, 2, 6),
    (0x05, 512, 1, 5, 2, 9, 70, 2, 53), // five trees of a leaf, with 9 chains each
    (0x01, 512, 1, 5, 2, 90, 70, 2, 473), // 14 a datum, 34 a leaf: 3 leaves, a root and 90 chains
    (0x05, 512, 1, 2, 2, 647, 65, 2, 1343), // 20 leaves, 2 pages over them (14 + 18 * 26 over 19), a root, and 647 chains
];

// The lowest bits of a number are those of the hash but for what the bytes behind it do to all alike, while its high byte is 0: keys that are 16
// apart are in one of 16 buckets, those that are 4 apart in two of 8.
const BUCKETS: [Told; 4] = [
    (0, 512, 16, 16, 64, 1, 64, 16, 22), // 134 a key: 2144, and 3 on each of 6 pages
    (0x01, 512, 16, 16, 64, 4, 25, 16, 24), // 67 + 119 a key: 2976, and 2 on each of 8 pages
    (0x05, 512, 16, 16, 64, 4, 25, 16, 24),
    (0, 512, 4, 64, 65, 1, 500, 8, 203), // 28 a key: 1792; 17 and 15 on the pages of two buckets, and 192 pages of chains
];

fn are_built(alloc: Global, rows: &[Told]) -> Result<bool, AllocError> {
    for order in ORDERS {
        for told in rows {
            if !is_row_built(alloc, order, &row_of(told))? {
                return Ok(false);
            }
        }
    }
    Ok(true)
}

#[test]
fn builds_tables(rt: HostRuntime) -> Result<(), Fail> {
    assert!(rt; are_built(rt.alloc(), &TABLES)?);
    Ok(())
}

#[test]
fn builds_sets(rt: HostRuntime) -> Result<(), Fail> {
    assert!(rt; are_built(rt.alloc(), &SETS)?);
    Ok(())
}

#[test]
fn builds_buckets_of_several_pages(rt: HostRuntime) -> Result<(), Fail> {
    assert!(rt; are_built(rt.alloc(), &BUCKETS)?);
    Ok(())
}

/// Page size and flags, the pairs, and a key that isn't there; each has two buckets.
type Spelled = (u32, u32, &'static [Keyed], &'static [u8]);

// Pairs with an empty key and an empty datum too, and one datum twice.
const SPELLED: [Spelled; 3] = [
    (4096, 0, &[(b"k1", b"v1"), (b"k2", b"v2")], b"k3"),
    (4096, 0, &[(b"", b"x"), (b"a", b"")], b"b"),
    (512, 0x01, &[(b"a", b"3"), (b"a", b"1"), (b"a", b"3")], b""),
];

fn is_spelled_built(alloc: Global, order: Order, spelled: Spelled) -> Result<bool, AllocError> {
    let (page_size, flags, pairs, absent) = spelled;
    let shape = TableShape {
        buckets: 2,
        pages: 3,
    };
    let list = keyed(alloc, pairs)?;
    let settings = table_settings(order, page_size, flags);
    is_table_built(alloc, &settings, list.as_slice(), shape, absent)
}

#[test]
fn builds_spelled_tables(rt: HostRuntime) -> Result<(), Fail> {
    for order in ORDERS {
        for spelled in SPELLED {
            assert!(rt; is_spelled_built(rt.alloc(), order, spelled)?);
        }
    }
    Ok(())
}
