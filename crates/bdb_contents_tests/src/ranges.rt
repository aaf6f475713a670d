//! The leaves of ranges, and their pairs. Values: docs/FORMAT.md, "Items" and "Ranges".

ghost use Rattle.std.specs.Prelude.{◌≡◌, [], false};
ghost use Rattle.bdb_range.specs.of_image.Linked.{HasMetadata};
ghost use Rattle.bdb_format.specs.Terms.{BtreeFields, database_faults, file_of, is_recno, structure_faults};

use crate::lookup_cases::{Entry, Part};
use crate::lookups::{is_next_entry, write_part};
use bdb_btree::check;
use bdb_format::{BtreeMeta, Order, Steps};
use bdb_range::{Linked, RangePairs, link, open_image, pairs_of, span};
use std::alloc::Global;
use std::marker::Brand;
use std::sync::ledger::{Blank, Ledger};
use test_images::{Field, btree_of, has_sound_trees, is_keyed};

/// Two bounds; the first leaf of their range, and how many leaves it has; and its pairs.
struct Asked {
    from: &'static [u8],
    to: &'static [u8],
    first: u32,
    leaves: u32,
    pairs: &'static [Entry],
}

// Six pages, of which page 1 is the root.
const META: [Field; 6] = [
    Field::Four(12, 0x53162), // magic number
    Field::Four(16, 9), // version
    Field::Four(20, 0x200), // page size
    Field::Byte(25, 9), // type
    Field::Four(32, 5), // last page
    Field::Four(88, 1), // root
];

// Keys from bb on are below page 3, from c on below page 4, from e on below page 5.
const ROOT: [Field; 22] = [
    Field::Four(8, 1), // page number
    Field::Two(20, 4), // entries
    Field::Byte(24, 2), // level
    Field::Byte(25, 3), // internal
    Field::Two(26, 0x1f0), // offsets
    Field::Two(28, 0x1e0),
    Field::Two(30, 0x1d0),
    Field::Two(32, 0x1c0),
    Field::Byte(498, 1), // an empty key
    Field::Four(500, 2), // child
    Field::Two(480, 2), // key bb
    Field::Byte(482, 1),
    Field::Four(484, 3), // child
    Field::Bytes(492, b"bb"),
    Field::Two(464, 1), // key c
    Field::Byte(466, 1),
    Field::Four(468, 4), // child
    Field::Byte(476, 0x63),
    Field::Two(448, 1), // key e
    Field::Byte(450, 1),
    Field::Four(452, 5), // child
    Field::Byte(460, 0x65),
];

// The key a.
const FIRST: [Field; 13] = [
    Field::Four(8, 2), // page number
    Field::Four(16, 3), // next
    Field::Two(20, 2), // entries
    Field::Byte(24, 1), // level
    Field::Byte(25, 5), // leaf
    Field::Two(26, 0x1fc), // offsets
    Field::Two(28, 0x1f8),
    Field::Two(508, 1), // key a
    Field::Byte(510, 1),
    Field::Byte(511, 0x61),
    Field::Two(504, 1), // its data
    Field::Byte(506, 1),
    Field::Byte(507, 0x31),
];

// A leaf without pairs.
const EMPTY: [Field; 5] = [
    Field::Four(8, 3), // page number
    Field::Four(12, 2), // previous
    Field::Four(16, 4), // next
    Field::Byte(24, 1), // level
    Field::Byte(25, 5), // leaf
];

// The key c.
const THIRD: [Field; 14] = [
    Field::Four(8, 4), // page number
    Field::Four(12, 3), // previous
    Field::Four(16, 5), // next
    Field::Two(20, 2), // entries
    Field::Byte(24, 1), // level
    Field::Byte(25, 5), // leaf
    Field::Two(26, 0x1fc), // offsets
    Field::Two(28, 0x1f8),
    Field::Two(508, 1), // key c
    Field::Byte(510, 1),
    Field::Byte(511, 0x63),
    Field::Two(504, 1), // its data
    Field::Byte(506, 1),
    Field::Byte(507, 0x33),
];

// The key e, whose data are marked deleted.
const LAST: [Field; 13] = [
    Field::Four(8, 5), // page number
    Field::Four(12, 4), // previous
    Field::Two(20, 2), // entries
    Field::Byte(24, 1), // level
    Field::Byte(25, 5), // leaf
    Field::Two(26, 0x1fc), // offsets
    Field::Two(28, 0x1f8),
    Field::Two(508, 1), // key e
    Field::Byte(510, 1),
    Field::Byte(511, 0x65),
    Field::Two(504, 1), // its data
    Field::Byte(506, 0x81),
    Field::Byte(507, 0x35),
];

const PARTS: [Part; 6] = [
    Part {
        page: 0,
        fields: &META,
    },
    Part {
        page: 1,
        fields: &ROOT,
    },
    Part {
        page: 2,
        fields: &FIRST,
    },
    Part {
        page: 3,
        fields: &EMPTY,
    },
    Part {
        page: 4,
        fields: &THIRD,
    },
    Part {
        page: 5,
        fields: &LAST,
    },
];

const A: Entry = Entry {
    key: b"a",
    value: b"1",
};

const C: Entry = Entry {
    key: b"c",
    value: b"3",
};

const ASKED: [Asked; 8] = [
    Asked {
        from: b"b",
        to: b"d",
        first: 2,
        leaves: 3,
        pairs: &[C],
    },
    Asked {
        from: b"e",
        to: b"f",
        first: 5,
        leaves: 1,
        pairs: &[],
    },
    Asked {
        from: b"a",
        to: b"b",
        first: 2,
        leaves: 2,
        pairs: &[A],
    },
    Asked {
        from: b"",
        to: b"a",
        first: 2,
        leaves: 2,
        pairs: &[],
    },
    Asked {
        from: b"c",
        to: b"c",
        first: 4,
        leaves: 1,
        pairs: &[],
    },
    Asked {
        from: b"bb",
        to: b"c",
        first: 3,
        leaves: 1,
        pairs: &[],
    },
    Asked {
        from: b"z",
        to: b"a",
        first: 5,
        leaves: 1,
        pairs: &[],
    },
    Asked {
        from: b"",
        to: b"z",
        first: 2,
        leaves: 4,
        pairs: &[A, C],
    },
];

/// Whether exactly these pairs are left, in order.
fn are_left(left: &mut RangePairs<'_, '_>, pairs: &[Entry]) -> bool {
    for entry in pairs {
        if !is_next_entry(left.next(), entry) {
            return false;
        }
    }
    left.next().is_none()
}

/// Whether a range has the leaves and the pairs that it should.
fn is_range<L: Ledger>(
    linked: &Linked<'_>,
    meta: &BtreeMeta,
    asked: &Asked,
    steps: &mut Steps<L>,
) -> bool
    requires meta { HasMetadata (file_of linked.now) (BtreeFields meta.now) }
    requires keys { is_recno meta.now ≡ false }
    requires stage { structure_faults (file_of linked.now) ≡ [] }
    requires contents { database_faults (file_of linked.now) (BtreeFields meta.now) ≡ [] }
{
    let leaves = span(linked, meta, asked.from, asked.to, steps);
    if leaves.first.number() != asked.first || leaves.leaves != asked.leaves {
        return false;
    }
    are_left(
        &mut pairs_of(linked, meta, &leaves, asked.from, asked.to),
        asked.pairs,
    )
}

/// Whether the btree of a file is sound, and a range of it is as it should be.
fn agrees<L: Ledger>(
    alloc: Global,
    linked: &Linked<'_>,
    asked: &Asked,
    steps: &mut Steps<L>,
) -> bool {
    let Some(meta) = btree_of(linked) else {
        return false;
    };
    if !is_keyed(&meta) || !has_sound_trees(alloc, linked) {
        return false;
    }
    match check(alloc, linked, &meta) {
        Ok(()) => is_range(linked, &meta, asked, steps),
        Err(_) => false,
    }
}

fn agrees_counted<L: Ledger>(alloc: Global, image: &[u8], asked: &Asked, blank: Blank) -> bool
    requires name { blank.name ≡ L.name }
    requires parts { blank.parts ≡ L.parts }
    requires one { L.parts ≡ 1 }
{
    if image.len() > 8192 {
        return false;
    }
    let mut steps = Steps::<L>::new(blank);
    let Ok(formed) = open_image(alloc, image) else {
        return false;
    };
    match link(alloc, formed, &mut steps) {
        Ok(linked) => agrees(alloc, &linked, asked, &mut steps),
        Err(_) => false,
    }
}

#[test]
fn finds_the_leaves_and_pairs_of_ranges(rt: HostRuntime) {
    for order in [Order::Little, Order::Big] {
        let mut image = [0u8; 3072];
        for part in &PARTS {
            write_part(&mut image, part, order);
        }
        for asked in &ASKED {
            assert!(rt; agrees_counted::<Brand>(rt.alloc(), &image, asked, Blank::new(1)));
        }
    }
}
