//! Trees of lists that are spelled pair by pair or generated, and a tree that grows pair by pair. Values: docs/FORMAT.md, "Built trees".

use crate::growing::Growing;
use crate::judging::{TreeShape, is_tree_built};
use crate::settings::{plain, tree_settings};
use crate::trees::tree_image;
use crate::values::{Keyed, Numbered, ORDERS, copy, keyed, numbered, push};
use bdb_need::{Bytes, KeyRef, Kind, Order, TextPairs};
use std::alloc::{AllocError, Global};
use std::test::Fail;
use test_lists::gives;

/// Flags, the pairs, a key that isn't there, levels and pages of 512 bytes.
type KeyedRow = (u32, &'static [Keyed], &'static [u8], u8, usize);

const BTREES: [KeyedRow; 4] = [
    (0, &[], b"", 1, 2),
    (0, &[(b"", b"x"), (b"a", b""), (b"b", b"y")], b"c", 1, 2), // an empty key, and an empty datum
    (0x41, &[(b"a", b"1"), (b"a", b"3")], b"b", 1, 2),
    (0x01, &[(b"a", b"3"), (b"a", b"1"), (b"a", b"3")], b"", 1, 2), // one datum twice
];

/// Flags, the length of all records, the pairs, a number that isn't there, levels and pages of 512 bytes.
type NumberedRow = (u32, u32, &'static [Numbered], &'static [u8], u8, usize);

// A missing record takes 6 bytes, as one of a letter does: a leaf has room for 81.
const RECNOS: [NumberedRow; 6] = [
    (0x02, 0, &[], b"1", 1, 2),
    (0x02, 0, &[(1, b"a"), (3, b"c")], b"2", 1, 2),
    (
        0x02,
        0,
        &[(1, b"a"), (5, b"b"), (6, b"c"), (300, b"d")],
        b"299",
        2,
        6,
    ), // 4 leaves, and a root
    (0x02, 0, &[(3, b"")], b"x", 1, 2),
    (0x0a, 4, &[(1, b"abcd"), (3, b"efgh")], b"2", 1, 2),
    (0x02, 0, &[(186_625, b"a")], b"186624", 4, 2358), // 2305 leaves, 49 pages, 2, and a root
];

#[test]
fn builds_spelled_btrees(rt: HostRuntime) -> Result<(), Fail> {
    for order in ORDERS {
        for &(flags, pairs, absent, levels, pages) in &BTREES {
            let list = keyed(rt.alloc(), pairs)?;
            let settings = tree_settings(order, 512, flags, 0);
            assert!(rt;
                is_tree_built(
                    rt.alloc(),
                    &settings,
                    list.as_slice(),
                    TreeShape { levels, pages },
                    absent
                )?
            );
        }
    }
    Ok(())
}

#[test]
fn builds_recnos_with_missing_records(rt: HostRuntime) -> Result<(), Fail> {
    for order in ORDERS {
        for &(flags, re_len, pairs, absent, levels, pages) in &RECNOS {
            let list = numbered(rt.alloc(), pairs)?;
            let settings = tree_settings(order, 512, flags, re_len);
            assert!(rt;
                is_tree_built(
                    rt.alloc(),
                    &settings,
                    list.as_slice(),
                    TreeShape { levels, pages },
                    absent
                )?
            );
        }
    }
    Ok(())
}

// The root and the pages of a btree that takes the pairs of a list one by one.
fn grown(alloc: Global, order: Order, list: &TextPairs) -> Result<(u32, Bytes), AllocError> {
    let settings = plain(Kind::Btree, order, 512);
    let mut tree = Growing::new(alloc, &settings)?;
    let pairs = list.as_slice();
    for i in 0..pairs.len() {
        if let KeyRef::Bytes(key) = pairs.at(i).key {
            tree = tree.with_pair(alloc, key, pairs.at(i).value)?;
        }
    }
    tree.finish()
}

// The keys 0x41 to 0x54 of a byte each, with data of 20 bytes: 4 + 28 a key, 15 a leaf.
fn twenty(alloc: Global) -> Result<TextPairs, AllocError> {
    let mut list = TextPairs::new(alloc);
    for key in 0x41u8..0x55 {
        push(&mut list, KeyRef::Bytes(&[key]), &[key; 20])?;
    }
    Ok(list)
}

// Two leaves, a root and the metadata.
#[test]
fn grows_pair_by_pair(rt: HostRuntime) -> Result<(), Fail> {
    for order in ORDERS {
        let list = twenty(rt.alloc())?;
        let (root, pages) = grown(rt.alloc(), order, &list)?;
        let settings = plain(Kind::Btree, order, 512);
        let image = tree_image(rt.alloc(), &settings, root, pages.as_slice())?;
        assert!(rt; image.root == 1 && image.bytes.as_slice().len() == 4 * 512);
        assert!(rt; gives(rt.alloc(), image.bytes.as_slice(), list.as_slice(), b"a")?);
    }
    Ok(())
}

/// A generated number, which is also a pair's place in the list that is generated.
type Seeded = (u32, u32);

// So many numbers of a sequence that each follow from the one before: x * 1103515245 + 12345, modulo 2^31.
fn sequence(alloc: Global, seed: u32, count: u32) -> Result<Vec<Seeded>, AllocError> {
    let mut numbers = Vec::new(alloc);
    let mut x = seed;
    for place in 0..count {
        numbers.push((x, place))?;
        x = x.wrapping_mul(1_103_515_245).wrapping_add(12345) & 0x7fff_ffff;
    }
    Ok(numbers)
}

// Each number with its place, as a key or a record, with as many bytes as the number modulo 64, each the place modulo 256.
fn generated(alloc: Global, kind: Kind, seed: u32, count: u32) -> Result<TextPairs, AllocError> {
    let mut numbers = sequence(alloc, seed, count)?;
    if kind == Kind::Btree {
        numbers.sort_unstable();
    }
    let mut list = TextPairs::new(alloc);
    for &(x, place) in numbers.as_slice() {
        let mut bytes = copy(alloc, &x.to_be_bytes())?;
        bytes.push_all(&place.to_be_bytes())?;
        let key = match kind {
            Kind::Recno => KeyRef::Number(place.saturating_add(1)),
            _ => KeyRef::Bytes(bytes.as_slice()),
        };
        let [_, _, _, low] = place.to_be_bytes();
        let letters = [low; 64];
        push(
            &mut list,
            key,
            letters.get(..x as usize % 64).unwrap_or(&[]),
        )?;
    }
    Ok(list)
}

// Flags, seed, count, levels and pages of 4096 bytes, with room for 4070. Of 64 pairs that follow each other the data have the lengths 0 to 63, each
// once, and take 2304 as items. A key of 8 bytes takes 12, its datum 4 more: 3328 for 64, and 66560 for 1280, which fill 17 leaves. A record takes 2
// more than its item: 2432 for 64.
const GENERATED: [(u32, u32, u32, u8, usize); 3] = [
    (0x02, 7, 64, 1, 2),
    (0, 3, 64, 1, 2),
    (0, 3, 1280, 2, 19),
];

#[test]
fn builds_generated_lists(rt: HostRuntime) -> Result<(), Fail> {
    for order in ORDERS {
        for &(flags, seed, count, levels, pages) in &GENERATED {
            let settings = tree_settings(order, 4096, flags, 0);
            let list = generated(rt.alloc(), settings.kind, seed, count)?;
            assert!(rt;
                is_tree_built(
                    rt.alloc(),
                    &settings,
                    list.as_slice(),
                    TreeShape { levels, pages },
                    b"0"
                )?
            );
        }
    }
    Ok(())
}
