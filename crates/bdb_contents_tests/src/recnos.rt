//! What a recno holds: its counts and lengths, its list, and records by their numbers. Values: docs/FORMAT.md, "Items",
//! "Databases of a file" and "Stage 8".

ghost use Rattle.std.specs.Prelude.{◌≡◌, [], IsTrue};
ghost use Rattle.bdb_range.specs.of_image.Linked.{HasMetadata};
ghost use Rattle.bdb_format.specs.Terms.{BtreeFields, database_faults, file_of, is_recno, structure_faults};

use crate::told::{Told, told_by};
use bdb_format::{BtreeMeta, Order, Steps};
use bdb_overflow::{Datum, KeyView};
use bdb_range::{Linked, link, open_image};
use bdb_recno::{Scan, check, find, scan};
use std::alloc::Global;
use std::marker::Brand;
use std::sync::ledger::{Blank, Ledger};
use test_images::{Field, btree_of, has_sound_trees, is_recno, write};

const SIZE: usize = 8 * 512;

/// A recno whose records have one byte each: its records, and what is found under some numbers.
#[derive(Clone, Copy)]
struct Case {
    pages: usize,
    fields: &'static [Field],
    listed: &'static [(u32, u8)],
    found: &'static [(u32, Option<u8>)],
}

// One leaf: 61, an empty entry that is deleted, and 63.
const ONE_LEAF: [Field; 22] = [
    Field::Four(12, 0x053162), // magic number
    Field::Four(16, 9), // version
    Field::Four(20, 512), // page size
    Field::Byte(25, 9), // type
    Field::Four(32, 1), // last page
    Field::Four(48, 2), // recno
    Field::Four(88, 1), // root
    Field::Four(520, 1), // page number
    Field::Two(532, 3), // entries
    Field::Byte(536, 1), // level
    Field::Byte(537, 6), // recno leaf
    Field::Two(538, 508), // offsets
    Field::Two(540, 504),
    Field::Two(542, 500),
    Field::Two(1020, 1), // length
    Field::Byte(1022, 1), // inline
    Field::Byte(1023, 0x61),
    Field::Two(1016, 0),
    Field::Byte(1018, 0x81), // inline, deleted
    Field::Two(1012, 1),
    Field::Byte(1014, 1),
    Field::Byte(1015, 0x63),
];

/// Below the root, page 1, the internal pages 2 and 3; below these the leaves 4 and 5, and 6 and 7. Leaf 6 is empty.
pub const THREE_LEVELS: [Field; 80] = [
    Field::Four(12, 0x053162),
    Field::Four(16, 9),
    Field::Four(20, 512),
    Field::Byte(25, 9),
    Field::Four(32, 7),
    Field::Four(48, 2),
    Field::Four(88, 1),
    Field::Four(520, 1),
    Field::Two(532, 2),
    Field::Byte(536, 3), // level
    Field::Byte(537, 4), // recno internal
    Field::Two(538, 504),
    Field::Two(540, 496),
    Field::Four(1016, 2), // child
    Field::Four(1020, 3), // count
    Field::Four(1008, 3),
    Field::Four(1012, 2),
    Field::Four(1032, 2),
    Field::Two(1044, 2),
    Field::Byte(1048, 2),
    Field::Byte(1049, 4),
    Field::Two(1050, 504),
    Field::Two(1052, 496),
    Field::Four(1528, 4),
    Field::Four(1532, 2),
    Field::Four(1520, 5),
    Field::Four(1524, 1),
    Field::Four(1544, 3),
    Field::Two(1556, 2),
    Field::Byte(1560, 2),
    Field::Byte(1561, 4),
    Field::Two(1562, 504),
    Field::Two(1564, 496),
    Field::Four(2040, 6),
    Field::Four(2044, 0),
    Field::Four(2032, 7),
    Field::Four(2036, 2),
    Field::Four(2056, 4),
    Field::Four(2064, 5), // next
    Field::Two(2068, 2),
    Field::Byte(2072, 1),
    Field::Byte(2073, 6),
    Field::Two(2074, 508),
    Field::Two(2076, 504),
    Field::Two(2556, 1),
    Field::Byte(2558, 1),
    Field::Byte(2559, 0x61),
    Field::Two(2552, 1),
    Field::Byte(2554, 1),
    Field::Byte(2555, 0x62),
    Field::Four(2568, 5),
    Field::Four(2572, 4), // previous
    Field::Four(2576, 6),
    Field::Two(2580, 1),
    Field::Byte(2584, 1),
    Field::Byte(2585, 6),
    Field::Two(2586, 508),
    Field::Two(3068, 1),
    Field::Byte(3070, 1),
    Field::Byte(3071, 0x63),
    Field::Four(3080, 6),
    Field::Four(3084, 5),
    Field::Four(3088, 7),
    Field::Two(3092, 0),
    Field::Byte(3096, 1),
    Field::Byte(3097, 6),
    Field::Four(3592, 7),
    Field::Four(3596, 6),
    Field::Four(3600, 0),
    Field::Two(3604, 2),
    Field::Byte(3608, 1),
    Field::Byte(3609, 6),
    Field::Two(3610, 508),
    Field::Two(3612, 504),
    Field::Two(4092, 1),
    Field::Byte(4094, 1),
    Field::Byte(4095, 0x64),
    Field::Two(4088, 1),
    Field::Byte(4090, 1),
    Field::Byte(4091, 0x65),
];

const CASES: [Case; 2] = [
    Case {
        pages: 2,
        fields: &ONE_LEAF,
        listed: &[(1, 0x61), (3, 0x63)],
        found: &[
            (1, Some(0x61)),
            (3, Some(0x63)),
            (0, None),
            (2, None),
            (4, None),
            (0xffffffff, None),
        ],
    },
    Case {
        pages: 8,
        fields: &THREE_LEVELS,
        listed: &[(1, 0x61), (2, 0x62), (3, 0x63), (4, 0x64), (5, 0x65)],
        found: &[
            (1, Some(0x61)),
            (2, Some(0x62)),
            (3, Some(0x63)),
            (4, Some(0x64)),
            (5, Some(0x65)),
            (0, None),
            (6, None),
        ],
    },
];

fn told_in<L: Ledger>(alloc: Global, image: &[u8], steps: &mut Steps<L>) -> Option<Told> {
    if image.len() > SIZE {
        return None;
    }
    let formed = open_image(alloc, image).ok()?;
    let linked = link(alloc, formed, steps).ok()?;
    let meta = btree_of(&linked)?;
    if !has_sound_trees(alloc, &linked) || !is_recno(&meta) {
        return None;
    }
    Some(told_by(check(&linked, &meta)))
}

fn told_blank<L: Ledger>(alloc: Global, image: &[u8], blank: Blank) -> Option<Told>
    requires name { blank.name ≡ L.name }
    requires parts { blank.parts ≡ L.parts }
    requires one { L.parts ≡ 1 }
{
    let mut steps = Steps::<L>::new(blank);
    told_in(alloc, image, &mut steps)
}

/// What is told of the contents of a recno that is sound up to stage 6.
pub fn told_of(alloc: Global, image: &[u8]) -> Told {
    told_blank::<Brand>(alloc, image, Blank::new(1)).unwrap_or(Told::Refused)
}

/// Whether a value is this one byte.
fn is_byte(value: &Datum<'_>, byte: u8) -> bool {
    match value {
        Datum::Inline(bytes) => *bytes == [byte].as_slice(),
        Datum::Chained(_) => false,
    }
}

/// Whether what comes next is this record.
fn is_next_record(next: Option<(KeyView<'_>, Datum<'_>)>, number: u32, byte: u8) -> bool {
    match next {
        Some((KeyView::Number(n), value)) => n == number && is_byte(&value, byte),
        _ => false,
    }
}

/// Whether exactly these records are left, in order.
fn are_left(left: &mut Scan<'_>, listed: &[(u32, u8)]) -> bool {
    for (number, byte) in listed {
        if !is_next_record(left.next(), *number, *byte) {
            return false;
        }
    }
    left.next().is_none()
}

/// Whether a list has exactly these records, in order.
fn lists(linked: &Linked<'_>, meta: &BtreeMeta, listed: &[(u32, u8)]) -> bool
    requires meta { HasMetadata (file_of linked.now) (BtreeFields meta.now) }
    requires recno { IsTrue (is_recno meta.now) }
    requires stage { structure_faults (file_of linked.now) ≡ [] }
{
    are_left(&mut scan(linked, meta), listed)
}

/// Whether the first that is found is this record, or there is none.
fn is_found(first: Option<Datum<'_>>, byte: Option<u8>) -> bool {
    match (first, byte) {
        (Some(value), Some(byte)) => is_byte(&value, byte),
        (None, None) => true,
        _ => false,
    }
}

/// Whether this record alone is found under a number, or none.
fn finds<L: Ledger>(
    linked: &Linked<'_>,
    meta: &BtreeMeta,
    number: u32,
    byte: Option<u8>,
    steps: &mut Steps<L>,
) -> bool
    requires meta { HasMetadata (file_of linked.now) (BtreeFields meta.now) }
    requires recno { IsTrue (is_recno meta.now) }
    requires contents { database_faults (file_of linked.now) (BtreeFields meta.now) ≡ [] }
{
    is_found(find(linked, meta, number, steps).next(), byte)
}

/// Whether each of these is found, or isn't.
fn finds_all<L: Ledger>(
    linked: &Linked<'_>,
    meta: &BtreeMeta,
    found: &[(u32, Option<u8>)],
    steps: &mut Steps<L>,
) -> bool
    requires meta { HasMetadata (file_of linked.now) (BtreeFields meta.now) }
    requires recno { IsTrue (is_recno meta.now) }
    requires contents { database_faults (file_of linked.now) (BtreeFields meta.now) ≡ [] }
{
    for (number, byte) in found {
        if !finds(linked, meta, *number, *byte, steps) {
            return false;
        }
    }
    true
}

/// Whether no row of stage 8 holds.
fn has_sound_contents(linked: &Linked<'_>, meta: &BtreeMeta) -> bool
    requires meta { HasMetadata (file_of linked.now) (BtreeFields meta.now) }
    requires recno { IsTrue (is_recno meta.now) }
    requires stage { structure_faults (file_of linked.now) ≡ [] }
    ensures { IsTrue result → database_faults (file_of linked.now) (BtreeFields meta.now) ≡ [] }
{
    check(linked, meta).is_ok()
}

fn holds_in<L: Ledger>(
    alloc: Global,
    image: &[u8],
    case: &Case,
    steps: &mut Steps<L>,
) -> Option<bool> {
    if image.len() > SIZE {
        return None;
    }
    let formed = open_image(alloc, image).ok()?;
    let linked = link(alloc, formed, steps).ok()?;
    let meta = btree_of(&linked)?;
    if !has_sound_trees(alloc, &linked) || !is_recno(&meta) {
        return None;
    }
    if !has_sound_contents(&linked, &meta) {
        return None;
    }
    Some(lists(&linked, &meta, case.listed) && finds_all(&linked, &meta, case.found, steps))
}

fn holds_blank<L: Ledger>(alloc: Global, image: &[u8], case: &Case, blank: Blank) -> Option<bool>
    requires name { blank.name ≡ L.name }
    requires parts { blank.parts ≡ L.parts }
    requires one { L.parts ≡ 1 }
{
    let mut steps = Steps::<L>::new(blank);
    holds_in(alloc, image, case, &mut steps)
}

fn is_as_expected(alloc: Global, case: &Case, order: Order) -> bool {
    let mut image = [0u8; SIZE];
    write(&mut image, case.fields, order);
    match image.get(..case.pages.saturating_mul(512)) {
        Some(pages) => holds_blank::<Brand>(alloc, pages, case, Blank::new(1)) == Some(true),
        None => false,
    }
}

#[test]
fn lists_and_finds_the_records_of_a_recno(rt: HostRuntime) {
    for case in &CASES {
        for order in [Order::Little, Order::Big] {
            assert!(rt; is_as_expected(rt.alloc(), case, order));
        }
    }
}
