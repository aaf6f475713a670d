//! Trees of keys or records that follow each other, in both orders. Values: docs/FORMAT.md, "Built trees".

use crate::judging::{TreeShape, is_tree_built};
use crate::settings::tree_settings;
use crate::trees::built_tree;
use crate::values::{ORDERS, push, value_of};
use bdb_need::{Bytes, KeyRef, Order, TextPairs};
use std::alloc::{AllocError, Global};
use std::test::Fail;

/// A tree of so many keys from one on, each with so many data; the data of a set ascend where they are sorted, and else fall. Of a recno the keys are
/// the numbers of the records.
#[derive(Clone, Copy)]
struct Row {
    flags: u32,
    page_size: u32,
    first: u32,
    keys: u32,
    /// How long each key is.
    key: usize,
    data: u32,
    /// How long each datum is.
    long: usize,
    levels: u8,
    pages: usize,
}

fn key_of<'k>(row: &Row, number: u32, bytes: &'k Bytes) -> KeyRef<'k> {
    if row.flags & 0x02 != 0 {
        return KeyRef::Number(number);
    }
    KeyRef::Bytes(bytes.as_slice())
}

// Adds the pairs of a key.
fn add_key(alloc: Global, row: &Row, number: u32, list: &mut TextPairs) -> Result<(), AllocError> {
    for place in 0..row.data {
        let sorted = row.flags & 0x40 != 0;
        let datum = if sorted { place } else { row.data - 1 - place };
        let bytes = value_of(alloc, number, row.key)?;
        let value = value_of(alloc, number.wrapping_add(datum), row.long)?;
        push(list, key_of(row, number, &bytes), value.as_slice())?;
    }
    Ok(())
}

fn list_of(alloc: Global, row: &Row) -> Result<TextPairs, AllocError> {
    let mut list = TextPairs::new(alloc);
    for number in row.first..row.first.saturating_add(row.keys) {
        add_key(alloc, row, number, &mut list)?;
    }
    Ok(list)
}

fn is_row_built(alloc: Global, order: Order, row: &Row) -> Result<bool, AllocError> {
    let list = list_of(alloc, row)?;
    let settings = tree_settings(
        order,
        row.page_size,
        row.flags,
        u32::try_from(row.long).unwrap_or(0),
    );
    let shape = TreeShape {
        levels: row.levels,
        pages: row.pages,
    };
    is_tree_built(alloc, &settings, list.as_slice(), shape, b"99999")
}

/// Flags and page size of metadata, the first key, how many there are and how long, how many data each has and how long, levels and pages.
type Told = (u32, u32, u32, u32, usize, u32, usize, u8, usize);

fn row_of(told: &Told) -> Row {
    let &(flags, page_size, first, keys, key, data, long, levels, pages) = told;
    Row {
        flags,
        page_size,
        first,
        keys,
        key,
        data,
        long,
        levels,
        pages,
    }
}

// Pages of 512 bytes have room for 486. A key takes pad4(3 + its length) bytes, a datum 4 more than that, a record 2 more; in a chain an item takes 12.
// Over leaves the first item of a page takes 14, each other 2 + pad4(12 + length), of a key in a chain 26; of records and unsorted data 10.
const BTREES: [Told; 20] = [
    (0, 512, 0, 0, 2, 1, 20, 1, 2), // one leaf without keys
    (0, 512, 0x41, 20, 1, 1, 20, 2, 4), // 4 + 28 a key: 15 a leaf
    (0, 512, 0x61, 1, 1, 1, 5000, 1, 13), // a chain of 10 pages of 486 and one of 140
    (0, 512, 0, 13, 2, 1, 20, 1, 2), // 8 + 28 a key: a full leaf of 13
    (0, 512, 0, 14, 2, 1, 20, 2, 4),
    (0x04, 512, 0, 14, 2, 1, 20, 2, 4),
    (0, 512, 0, 351, 2, 1, 20, 2, 29), // 27 leaves: 14 + 26 * 18 over them
    (0, 512, 0, 352, 2, 1, 20, 3, 32), // 28 leaves, two pages, and a root
    (0x04, 512, 0, 352, 2, 1, 20, 3, 32),
    (0, 512, 0, 294, 64, 1, 1, 3, 58), // 68 + 8 a key, 6 a leaf: 49 leaves; 14 + 6 * 78 over them, so 7 pages, and a root
    (0, 512, 0, 295, 64, 1, 1, 4, 62), // 50 leaves, 8 pages, 2, and a root
    (0x04, 512, 0, 295, 64, 1, 1, 4, 62),
    (0, 512, 0, 12, 65, 1, 20, 1, 14), // 12 + 28 a key, in a chain each: a full leaf of 12
    (0, 512, 0, 13, 65, 1, 20, 2, 17),
    (0, 32768, 0, 8, 2, 1, 4000, 1, 2), // room for 32742; 8 + 4008 a key: a full leaf of 8
    (0, 32768, 0, 9, 2, 1, 4000, 2, 4),
    (0x04, 32768, 0, 9, 2, 1, 4000, 2, 4),
    (0, 32768, 0, 73, 4000, 1, 1, 3, 14), // 4004 + 8 a key, 8 a leaf: 10 leaves; 14 + 8 * 4014 over them, so 2 pages, and a root
    (0x04, 32768, 0, 73, 4000, 1, 1, 3, 14),
    (0, 4096, 0, 1, 2, 1, 513, 1, 3), // longer than an eighth of a page
];

// A set of more than 121 bytes, the quarter of a leaf, has a tree of its own, and takes 16 on the leaf.
const SETS: [Told; 12] = [
    (0x01, 512, 0, 4, 2, 4, 20, 1, 2), // 8 + 4 * 28 = 120 a key: a full leaf
    (0x41, 512, 0, 4, 2, 4, 20, 1, 2),
    (0x41, 512, 0, 5, 2, 4, 20, 2, 4),
    (0x01, 512, 0, 3, 2, 5, 20, 1, 5), // 8 + 5 * 28 = 148: a leaf and three trees of one
    (0x41, 512, 0, 3, 2, 5, 20, 1, 5),
    (0x01, 512, 0x61, 1, 1, 40, 10, 1, 5), // 18 a datum, 27 a leaf: a leaf, and two with a root
    (0x01, 512, 0, 2, 2, 100, 20, 1, 16), // 26 a datum, 18 a leaf: a leaf, and twice six with a root
    (0x41, 512, 0, 2, 2, 100, 20, 1, 16),
    (0x01, 512, 0, 1, 2, 865, 20, 1, 54), // 49 leaves, two pages of 48 items at most, and a root
    (0x41, 512, 0, 1, 2, 258, 20, 1, 20), // 15 leaves: 14 + 13 * 34 over 14 of them, so two pages, and a root
    (0x41, 512, 0, 1, 2, 647, 65, 1, 672), // 14 a datum, 34 a leaf, in a chain each: 20 leaves; 14 + 18 * 26 over 19, so two pages, and a root
    (0x01, 32768, 0, 1, 2, 9, 4000, 1, 5), // 4006 a datum, 8 a leaf
];

const RECNOS: [Told; 12] = [
    (0x02, 512, 1, 0, 0, 1, 1, 1, 2),
    (0x02, 512, 1, 81, 0, 1, 1, 1, 2), // 6 a record: a full leaf of 81
    (0x02, 512, 1, 82, 0, 1, 1, 2, 4),
    (0x02, 512, 1, 81, 0, 1, 0, 1, 2), // without bytes
    (0x02, 512, 1, 3888, 0, 1, 1, 2, 50), // 48 leaves
    (0x02, 512, 1, 3889, 0, 1, 1, 3, 53), // 49 leaves, two pages, and a root
    (0x02, 512, 1, 2, 0, 1, 65, 1, 4), // in a chain each
    (0x0a, 512, 1, 48, 0, 1, 4, 1, 2), // of fixed length: 10 a record, a full leaf of 48
    (0x0a, 512, 1, 49, 0, 1, 4, 2, 4),
    (0x02, 512, 1, 13825, 0, 1, 64, 4, 2358), // 70 a record, 6 a leaf: 2305 leaves, 49 pages, 2, and a root
    (0x02, 32768, 1, 8, 0, 1, 4000, 1, 2), // 4006 a record: a full leaf of 8
    (0x02, 32768, 1, 9, 0, 1, 4000, 2, 4),
];

#[test]
fn builds_btrees(rt: HostRuntime) -> Result<(), Fail> {
    for order in ORDERS {
        for told in &BTREES {
            assert!(rt; is_row_built(rt.alloc(), order, &row_of(told))?);
        }
    }
    Ok(())
}

#[test]
fn builds_sets(rt: HostRuntime) -> Result<(), Fail> {
    for order in ORDERS {
        for told in &SETS {
            assert!(rt; is_row_built(rt.alloc(), order, &row_of(told))?);
        }
    }
    Ok(())
}

#[test]
fn builds_recnos(rt: HostRuntime) -> Result<(), Fail> {
    for order in ORDERS {
        for told in &RECNOS {
            assert!(rt; is_row_built(rt.alloc(), order, &row_of(told))?);
        }
    }
    Ok(())
}

// How many overflow pages of 512 bytes an image has whose count of references is two.
fn named_twice(image: &[u8]) -> usize {
    let mut count: usize = 0;
    for number in 0..image.len() / 512 {
        let page = image.get(number * 512..).unwrap_or(&[]);
        let references = page.get(20..22).unwrap_or(&[]);
        let twice = references == [2, 0].as_slice() || references == [0, 2].as_slice();
        if twice && page.get(25) == Some(&7) {
            count = count.saturating_add(1);
        }
    }
    count
}

// Of 12 keys in chains, which one leaf holds, none is named by an item over the leaves, and of 13 the last.
#[test]
fn names_the_chain_of_a_key_twice(rt: HostRuntime) -> Result<(), Fail> {
    for order in ORDERS {
        for (keys, twice) in [(12, 0), (13, 1)] {
            let row = row_of(&(0, 512, 0, keys, 65, 1, 20, 1, 1));
            let list = list_of(rt.alloc(), &row)?;
            let image = built_tree(
                rt.alloc(),
                &tree_settings(order, 512, 0, 0),
                list.as_slice(),
            )?;
            let named = image.map(|image| named_twice(image.bytes.as_slice()));
            assert!(rt; named == Some(twice));
        }
    }
    Ok(())
}
