//! What a btree holds: its order, its duplicates and its counts. Values: docs/FORMAT.md, "Items" and "Stage 8, contents".

ghost use Rattle.std.specs.Prelude.{◌≡◌};

use crate::told::{Told, told_by};
use bdb_btree::{HeldPair, check, pairs};
use bdb_format::{Order, Steps};
use bdb_overflow::{Held, is_deleted, leaf_held};
use bdb_range::{Linked, link, open_image};
use std::alloc::Global;
use std::marker::Brand;
use std::sync::ledger::{Blank, Ledger};
use test_images::{Field, btree_of, has_sound_trees, is_keyed, write};

const SIZE: usize = 4 * 512;

/// What is written over zeros, and what comes of it.
#[derive(Clone, Copy)]
struct Case {
    pages: usize,
    base: &'static [Field],
    fields: &'static [Field],
    told: Told,
}

// A btree file with one leaf, whose pairs have the keys 61 and 6100 and no data.
const TWO_KEYS: [Field; 21] = [
    Field::Four(12, 0x053162), // magic number
    Field::Four(16, 9), // version
    Field::Four(20, 512), // page size
    Field::Byte(25, 9), // type
    Field::Four(32, 1), // last page
    Field::Four(88, 1), // root
    Field::Four(520, 1), // page number
    Field::Two(532, 4), // entries
    Field::Byte(536, 1), // level
    Field::Byte(537, 5), // leaf
    Field::Two(538, 508), // offsets: a key, then its data
    Field::Two(540, 504),
    Field::Two(542, 496),
    Field::Two(544, 500),
    Field::Two(1020, 1), // key 61
    Field::Byte(1022, 1),
    Field::Byte(1023, 0x61),
    Field::Two(1008, 2), // key 6100
    Field::Byte(1010, 1),
    Field::Byte(1011, 0x61),
    Field::Byte(1014, 1), // no data of key 6100
];

// One leaf, whose three pairs share the key 61; their data are 61, 62 and 63.
const SHARED: [Field; 28] = [
    Field::Four(12, 0x053162),
    Field::Four(16, 9),
    Field::Four(20, 512),
    Field::Byte(25, 9),
    Field::Four(32, 1),
    Field::Four(88, 1),
    Field::Four(520, 1),
    Field::Two(532, 6),
    Field::Byte(536, 1),
    Field::Byte(537, 5),
    Field::Two(538, 508),
    Field::Two(540, 504),
    Field::Two(542, 508),
    Field::Two(544, 500),
    Field::Two(546, 508),
    Field::Two(548, 496),
    Field::Two(1020, 1), // the key
    Field::Byte(1022, 1),
    Field::Byte(1023, 0x61),
    Field::Two(1016, 1), // the first data
    Field::Byte(1018, 1),
    Field::Byte(1019, 0x61),
    Field::Two(1012, 1),
    Field::Byte(1014, 1),
    Field::Byte(1015, 0x62),
    Field::Two(1008, 1),
    Field::Byte(1010, 1),
    Field::Byte(1011, 0x63),
];

/// A btree with counts: below the root 1 the leaves 2 and 3, each with one pair, with keys 61 and 63.
pub const COUNTED: [Field; 43] = [
    Field::Four(12, 0x053162),
    Field::Four(16, 9),
    Field::Four(20, 512),
    Field::Byte(25, 9),
    Field::Four(32, 3), // last page
    Field::Four(48, 4), // flags: counts
    Field::Four(88, 1),
    Field::Four(520, 1),
    Field::Two(532, 2),
    Field::Byte(536, 2), // level
    Field::Byte(537, 3), // internal
    Field::Two(538, 496),
    Field::Two(540, 476),
    Field::Byte(1010, 1), // an empty key
    Field::Four(1012, 2), // child
    Field::Four(1016, 1), // count
    Field::Two(988, 1), // key 63
    Field::Byte(990, 1),
    Field::Four(992, 3),
    Field::Four(996, 1),
    Field::Byte(1000, 0x63),
    Field::Four(1032, 2),
    Field::Four(1040, 3), // next
    Field::Two(1044, 2),
    Field::Byte(1048, 1),
    Field::Byte(1049, 5),
    Field::Two(1050, 508),
    Field::Two(1052, 504),
    Field::Two(1532, 1), // key 61
    Field::Byte(1534, 1),
    Field::Byte(1535, 0x61),
    Field::Byte(1530, 1), // no data
    Field::Four(1544, 3),
    Field::Four(1548, 2), // previous
    Field::Two(1556, 2),
    Field::Byte(1560, 1),
    Field::Byte(1561, 5),
    Field::Two(1562, 508),
    Field::Two(1564, 504),
    Field::Two(2044, 1), // key 63
    Field::Byte(2046, 1),
    Field::Byte(2047, 0x63),
    Field::Byte(2042, 1),
];

const CASES: [Case; 17] = [
    Case {
        pages: 2,
        base: &TWO_KEYS,
        fields: &[Field::Byte(1018, 1)], // no data of key 61
        told: Told::Sound,
    },
    Case {
        pages: 2,
        base: &TWO_KEYS,
        fields: &[
            Field::Byte(1018, 1),
            Field::Two(538, 496), // the greater key first
            Field::Two(542, 508),
        ],
        told: Told::Fault { page: 1, code: 3 },
    },
    Case {
        pages: 2,
        base: &TWO_KEYS,
        fields: &[Field::Byte(1018, 0x81)], // deleted
        told: Told::Sound,
    },
    Case {
        pages: 2,
        base: &TWO_KEYS,
        fields: &[
            Field::Byte(1018, 0x81), // deleted, and out of order
            Field::Two(538, 496),
            Field::Two(542, 508),
        ],
        told: Told::Fault { page: 1, code: 3 },
    },
    Case {
        pages: 2,
        base: &SHARED,
        fields: &[Field::Four(48, 1)], // duplicates
        told: Told::Sound,
    },
    Case {
        pages: 2,
        base: &SHARED,
        fields: &[],
        told: Told::Fault { page: 1, code: 1 },
    },
    Case {
        pages: 2,
        base: &SHARED,
        fields: &[Field::Four(48, 0x41)], // sorted duplicates
        told: Told::Sound,
    },
    Case {
        pages: 2,
        base: &SHARED,
        fields: &[
            Field::Four(48, 0x40), // sorted alone
            Field::Byte(1015, 0x61), // the second data like the first
        ],
        told: Told::Fault { page: 1, code: 5 },
    },
    Case {
        pages: 2,
        base: &SHARED,
        fields: &[
            Field::Four(48, 0x40),
            Field::Byte(1015, 0x64), // the second data above the third
        ],
        told: Told::Fault { page: 1, code: 5 },
    },
    Case {
        pages: 2,
        base: &SHARED,
        fields: &[
            Field::Four(48, 0x40),
            Field::Byte(1014, 0x81), // the same, but deleted
            Field::Byte(1015, 0x64),
        ],
        told: Told::Sound,
    },
    Case {
        pages: 2,
        base: &SHARED,
        fields: &[
            Field::Four(48, 1), // not sorted
            Field::Byte(1015, 0x64),
        ],
        told: Told::Sound,
    },
    Case {
        pages: 4,
        base: &COUNTED,
        fields: &[],
        told: Told::Sound,
    },
    Case {
        pages: 4,
        base: &COUNTED,
        fields: &[Field::Four(1016, 2)], // more than there are
        told: Told::Fault { page: 1, code: 6 },
    },
    Case {
        pages: 4,
        base: &COUNTED,
        fields: &[Field::Four(996, 0)], // fewer than are live
        told: Told::Fault { page: 1, code: 6 },
    },
    Case {
        pages: 4,
        base: &COUNTED,
        fields: &[
            Field::Four(996, 0),
            Field::Byte(2042, 0x81), // none is live
        ],
        told: Told::Sound,
    },
    Case {
        pages: 4,
        base: &COUNTED,
        fields: &[Field::Byte(1000, 0x62)], // a separator may be between the keys
        told: Told::Sound,
    },
    Case {
        pages: 4,
        base: &COUNTED,
        fields: &[Field::Byte(1000, 0x61)], // or else it's wrong
        told: Told::Fault { page: 1, code: 4 },
    },
];

/// What the check says of the btree on page 0.
fn told_linked(alloc: Global, linked: &Linked<'_>) -> Told {
    let Some(meta) = btree_of(linked) else {
        return Told::Refused;
    };
    if !is_keyed(&meta) || !has_sound_trees(alloc, linked) {
        return Told::Refused;
    }
    told_by(check(alloc, linked, &meta))
}

fn told_counted<L: Ledger>(alloc: Global, image: &[u8], steps: &mut Steps<L>) -> Told {
    if image.len() > 8192 {
        return Told::Refused;
    }
    let Ok(formed) = open_image(alloc, image) else {
        return Told::Refused;
    };
    match link(alloc, formed, steps) {
        Ok(linked) => told_linked(alloc, &linked),
        Err(_) => Told::Refused,
    }
}

fn told_blank<L: Ledger>(alloc: Global, image: &[u8], blank: Blank) -> Told
    requires name { blank.name ≡ L.name }
    requires parts { blank.parts ≡ L.parts }
    requires one { L.parts ≡ 1 }
{
    let mut steps = Steps::<L>::new(blank);
    told_counted(alloc, image, &mut steps)
}

/// What is told of an image.
pub fn told_of(alloc: Global, image: &[u8]) -> Told {
    told_blank::<Brand>(alloc, image, Blank::new(1))
}

fn is_as_told(alloc: Global, case: &Case, order: Order) -> bool {
    let mut image = [0u8; SIZE];
    write(&mut image, case.base, order);
    write(&mut image, case.fields, order);
    match image.get(..case.pages.saturating_mul(512)) {
        Some(pages) => told_of(alloc, pages) == case.told,
        None => false,
    }
}

#[test]
fn tells_the_first_fault_of_a_btree(rt: HostRuntime) {
    for case in &CASES {
        for order in [Order::Little, Order::Big] {
            assert!(rt; is_as_told(rt.alloc(), case, order));
        }
    }
}

/// Whether a pair has this key, no bytes of data, and is live or not.
fn is_pair(pair: &HeldPair<'_>, key: &[u8], live: bool) -> bool {
    match (leaf_held(&pair.key), leaf_held(&pair.value)) {
        (Held::Inline(bytes), Held::Inline(value)) => {
            bytes == key && value.is_empty() && is_deleted(&pair.value) != live && pair.page == 1
        }
        _ => false,
    }
}

fn lists_pairs(alloc: Global, linked: &Linked<'_>, first_live: bool) -> bool {
    let Some(meta) = btree_of(linked) else {
        return false;
    };
    if !has_sound_trees(alloc, linked) {
        return false;
    }
    let mut left = pairs(linked, &meta);
    match (left.next(), left.next(), left.next()) {
        (Some(first), Some(second), None) => {
            is_pair(&first, &[0x61], first_live) && is_pair(&second, &[0x61, 0], true)
        }
        _ => false,
    }
}

fn lists_counted<L: Ledger>(
    alloc: Global,
    image: &[u8],
    first_live: bool,
    steps: &mut Steps<L>,
) -> bool {
    if image.len() > 8192 {
        return false;
    }
    let Ok(formed) = open_image(alloc, image) else {
        return false;
    };
    match link(alloc, formed, steps) {
        Ok(linked) => lists_pairs(alloc, &linked, first_live),
        Err(_) => false,
    }
}

fn lists_blank<L: Ledger>(alloc: Global, image: &[u8], first_live: bool, blank: Blank) -> bool
    requires name { blank.name ≡ L.name }
    requires parts { blank.parts ≡ L.parts }
    requires one { L.parts ≡ 1 }
{
    let mut steps = Steps::<L>::new(blank);
    lists_counted(alloc, image, first_live, &mut steps)
}

fn lists_in(alloc: Global, data_type: u8, order: Order) -> bool {
    let mut image = [0u8; 1024];
    write(&mut image, &TWO_KEYS, order);
    write(&mut image, &[Field::Byte(1018, data_type)], order);
    lists_blank::<Brand>(alloc, &image, data_type == 1, Blank::new(1))
}

#[test]
fn tells_deleted_pairs_too(rt: HostRuntime) {
    for order in [Order::Little, Order::Big] {
        for data_type in [1, 0x81] {
            assert!(rt; lists_in(rt.alloc(), data_type, order));
        }
    }
}
