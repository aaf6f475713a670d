//! All faults of what a database holds. Values: docs/FORMAT.md, "Stage 8, contents".

ghost use Rattle.std.specs.Prelude.{◌≡◌, [], IsTrue, false};
ghost use Rattle.bdb_range.specs.of_image.Linked.{HasMetadata};
ghost use Rattle.bdb_format.specs.Terms.{BtreeFields, HashFields, file_of, is_recno, structure_faults};

use crate::btrees::COUNTED;
use crate::hashes::THREE_BUCKETS;
use crate::recnos::THREE_LEVELS;
use bdb_format::{BtreeMeta, HashMeta, Order, Steps};
use bdb_range::{Linked, Meta, NamedList, link, open_image};
use std::alloc::Global;
use std::marker::Brand;
use std::sync::ledger::{Blank, Ledger};
use test_images::{Field, has_rows, has_sound_trees, is_keyed, is_recno, write};

const SIZE: usize = 8 * 512;

/// What is written over zeros, and the pages and codes that are noted.
#[derive(Clone, Copy)]
struct Case {
    pages: usize,
    base: &'static [Field],
    fields: &'static [Field],
    rows: &'static [(u32, u8)],
}

const CASES: [Case; 7] = [
    Case {
        pages: 4,
        base: &COUNTED,
        fields: &[],
        rows: &[],
    },
    // The key of leaf 3 is that of leaf 2 and below its separator, and a count is too great.
    Case {
        pages: 4,
        base: &COUNTED,
        fields: &[Field::Byte(2047, 0x61), Field::Four(1016, 2)],
        rows: &[(1, 4), (1, 6), (3, 3)],
    },
    Case {
        pages: 8,
        base: &THREE_LEVELS,
        fields: &[],
        rows: &[],
    },
    // Counts of two levels.
    Case {
        pages: 8,
        base: &THREE_LEVELS,
        fields: &[Field::Four(1020, 2), Field::Four(1524, 5)],
        rows: &[(1, 6), (2, 6)],
    },
    // All records have one byte, and the length is two.
    Case {
        pages: 8,
        base: &THREE_LEVELS,
        fields: &[
            Field::Four(48, 0x0a),
            Field::Four(80, 2),
            Field::Four(1020, 2),
        ],
        rows: &[(1, 6), (4, 7), (5, 7), (7, 7)],
    },
    Case {
        pages: 5,
        base: &THREE_BUCKETS,
        fields: &[],
        rows: &[],
    },
    // The key of bucket 1 stands in bucket 0 too.
    Case {
        pages: 5,
        base: &THREE_BUCKETS,
        fields: &[
            Field::Two(532, 2), // entries
            Field::Two(538, 510), // the key
            Field::Byte(1022, 1),
            Field::Byte(1023, 0x63),
            Field::Two(540, 508), // the data
            Field::Byte(1020, 1),
            Field::Byte(1021, 0x64),
        ],
        rows: &[(1, 8), (2, 9)],
    },
];

fn notes_btree(alloc: Global, linked: &Linked<'_>, meta: &BtreeMeta, rows: &[(u32, u8)]) -> bool
    requires meta { HasMetadata (file_of linked.now) (BtreeFields meta.now) }
    requires keyed { is_recno meta.now ≡ false }
    requires stage { structure_faults (file_of linked.now) ≡ [] }
{
    let mut found = NamedList::new(alloc);
    bdb_btree::all_faults(alloc, linked, meta, &mut found).is_ok() && has_rows(&found, 8, rows)
}

fn notes_recno(alloc: Global, linked: &Linked<'_>, meta: &BtreeMeta, rows: &[(u32, u8)]) -> bool
    requires meta { HasMetadata (file_of linked.now) (BtreeFields meta.now) }
    requires recno { IsTrue (is_recno meta.now) }
    requires stage { structure_faults (file_of linked.now) ≡ [] }
{
    let mut found = NamedList::new(alloc);
    bdb_recno::all_faults(linked, meta, &mut found).is_ok() && has_rows(&found, 8, rows)
}

fn notes_table(alloc: Global, linked: &Linked<'_>, meta: &HashMeta, rows: &[(u32, u8)]) -> bool
    requires meta { HasMetadata (file_of linked.now) (HashFields meta.now) }
    requires stage { structure_faults (file_of linked.now) ≡ [] }
{
    let mut found = NamedList::new(alloc);
    bdb_hash::all_faults(alloc, linked, meta, &mut found).is_ok() && has_rows(&found, 8, rows)
}

/// Whether these are noted of the tree that this metadata names.
fn notes_tree(alloc: Global, linked: &Linked<'_>, meta: &BtreeMeta, rows: &[(u32, u8)]) -> bool
    requires meta { HasMetadata (file_of linked.now) (BtreeFields meta.now) }
    requires stage { structure_faults (file_of linked.now) ≡ [] }
{
    if is_recno(meta) {
        return notes_recno(alloc, linked, meta, rows);
    }
    is_keyed(meta) && notes_btree(alloc, linked, meta, rows)
}

fn is_noted_in<L: Ledger>(
    alloc: Global,
    image: &[u8],
    rows: &[(u32, u8)],
    steps: &mut Steps<L>,
) -> bool {
    if image.len() > SIZE {
        return false;
    }
    let Ok(formed) = open_image(alloc, image) else {
        return false;
    };
    let Ok(linked) = link(alloc, formed, steps) else {
        return false;
    };
    if linked.metas() == 0 || !has_sound_trees(alloc, &linked) {
        return false;
    }
    match linked.meta(0).1 {
        Meta::Btree(meta) => notes_tree(alloc, &linked, &meta, rows),
        Meta::Hash(meta) => notes_table(alloc, &linked, &meta, rows),
        Meta::Queue(_) => false,
    }
}

fn is_noted_counted<L: Ledger>(
    alloc: Global,
    image: &[u8],
    rows: &[(u32, u8)],
    blank: Blank,
) -> bool
    requires name { blank.name ≡ L.name }
    requires parts { blank.parts ≡ L.parts }
    requires one { L.parts ≡ 1 }
{
    let mut steps = Steps::<L>::new(blank);
    is_noted_in(alloc, image, rows, &mut steps)
}

fn is_noted(alloc: Global, case: &Case, order: Order) -> bool {
    let mut image = [0u8; SIZE];
    write(&mut image, case.base, order);
    write(&mut image, case.fields, order);
    match image.get(..case.pages.saturating_mul(512)) {
        Some(pages) => is_noted_counted::<Brand>(alloc, pages, case.rows, Blank::new(1)),
        None => false,
    }
}

#[test]
fn notes_each_fault_of_contents(rt: HostRuntime) {
    for case in &CASES {
        for order in [Order::Little, Order::Big] {
            assert!(rt; is_noted(rt.alloc(), case, order));
        }
    }
}
