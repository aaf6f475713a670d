//! The references of one page of each type, in order. Values: docs/FORMAT.md, "References".

ghost use Rattle.std.specs.Prelude.{◌≡◌};

use crate::fields::BTREE;
use bdb_format::{Order, Steps};
use bdb_graph::{References, Sort, open_image, references};
use std::alloc::Global;
use std::marker::Brand;
use std::sync::ledger::{Blank, Ledger};
use test_images::{Field, write};

const SIZE: usize = 512;

const COUNT: usize = 11;

const HEAD: [Field; 3] = [Field::Four(28, 2), Field::Four(32, 10), Field::Four(88, 1)];

// Level 2; an inline key over page 5, and a key in the chain of page 7 over page 6.
const INTERNAL: [Field; 14] = [
    Field::Four(8, 1),
    Field::Two(20, 2),
    Field::Byte(24, 2),
    Field::Byte(25, 3),
    Field::Two(26, 496),
    Field::Two(28, 472),
    Field::Two(496, 2),
    Field::Byte(498, 1),
    Field::Four(500, 5),
    Field::Two(472, 12),
    Field::Byte(474, 3),
    Field::Four(476, 6),
    Field::Four(488, 7),
    Field::Four(492, 10),
];

const FREE: [Field; 2] = [Field::Four(8, 2), Field::Four(16, 3)];

const RECNO_INTERNAL: [Field; 6] = [
    Field::Four(8, 3),
    Field::Two(20, 1),
    Field::Byte(24, 2),
    Field::Byte(25, 4),
    Field::Two(26, 504),
    Field::Four(504, 5),
];

// Two pairs that share a key in the chain of page 7: a set off the page, and a deleted chain.
const LEAF: [Field; 14] = [
    Field::Four(8, 4),
    Field::Two(20, 4),
    Field::Byte(24, 1),
    Field::Byte(25, 5),
    Field::Two(26, 500),
    Field::Two(28, 488),
    Field::Two(30, 500),
    Field::Two(32, 476),
    Field::Byte(502, 3),
    Field::Four(504, 7),
    Field::Byte(490, 2),
    Field::Four(492, 6),
    Field::Byte(478, 0x83),
    Field::Four(480, 8),
];

// A chain, and an inline record.
const RECNO_LEAF: [Field; 9] = [
    Field::Four(8, 5),
    Field::Two(20, 2),
    Field::Byte(24, 1),
    Field::Byte(25, 6),
    Field::Two(26, 500),
    Field::Two(28, 480),
    Field::Byte(502, 3),
    Field::Four(504, 7),
    Field::Byte(482, 1),
];

const DUP_LEAF: [Field; 7] = [
    Field::Four(8, 6),
    Field::Two(20, 1),
    Field::Byte(24, 1),
    Field::Byte(25, 12),
    Field::Two(26, 500),
    Field::Byte(502, 3),
    Field::Four(504, 8),
];

const OVERFLOW: [Field; 3] = [Field::Four(8, 7), Field::Four(16, 8), Field::Byte(25, 7)];

// A key in a chain, its data a set off the page; a next page.
const HASH: [Field; 9] = [
    Field::Four(8, 8),
    Field::Four(16, 10),
    Field::Two(20, 2),
    Field::Byte(25, 13),
    Field::Two(26, 500),
    Field::Two(28, 492),
    Field::Byte(500, 3),
    Field::Four(504, 7),
    Field::Byte(492, 4),
];

const HASH_ROOT: [Field; 1] = [Field::Four(496, 6)];

// Two buckets; the spare of bucket 1 is that of its group.
const HASH_META: [Field; 10] = [
    Field::Four(8, 9),
    Field::Four(12, 0x061561),
    Field::Four(16, 9),
    Field::Four(20, 512),
    Field::Byte(25, 8),
    Field::Four(72, 1),
    Field::Four(76, 1),
    Field::Four(92, 0x5e688dd1),
    Field::Four(96, 3),
    Field::Four(100, 4),
];

const EXPECTED: [&[(Sort, u64)]; COUNT] = [
    &[(Sort::Free, 2), (Sort::Root, 1)],
    &[(Sort::Child, 5), (Sort::Child, 6), (Sort::OverflowHead, 7)],
    &[(Sort::Free, 3)],
    &[(Sort::Child, 5)],
    &[
        (Sort::OverflowHead, 7),
        (Sort::DuplicateRoot, 6),
        (Sort::OverflowHead, 8),
    ],
    &[(Sort::OverflowHead, 7)],
    &[(Sort::OverflowHead, 8)],
    &[(Sort::OverflowNext, 8)],
    &[
        (Sort::OverflowHead, 7),
        (Sort::DuplicateRoot, 6),
        (Sort::HashNext, 10),
    ],
    &[(Sort::Bucket, 3), (Sort::Bucket, 5)],
    &[],
];

fn fields_of(page: usize) -> &'static [Field] {
    match page {
        0 => &BTREE,
        1 => &INTERNAL,
        2 => &FREE,
        3 => &RECNO_INTERNAL,
        4 => &LEAF,
        5 => &RECNO_LEAF,
        6 => &DUP_LEAF,
        7 => &OVERFLOW,
        8 => &HASH,
        9 => &HASH_META,
        _ => &[],
    }
}

// The fields of a page that don't fit the others' lists.
fn more_of(page: usize) -> &'static [Field] {
    match page {
        0 => &HEAD,
        8 => &HASH_ROOT,
        _ => &[],
    }
}

fn image_of(order: Order) -> [u8; COUNT * SIZE] {
    let mut image = [0u8; COUNT * SIZE];
    for page in 0..COUNT {
        let bytes = &mut image[page * SIZE..page * SIZE + SIZE];
        write(bytes, fields_of(page), order);
        write(bytes, more_of(page), order);
    }
    image
}

// Whether these are the references, in order and with their places.
fn are(found: References<'_>, expected: &[(Sort, u64)]) -> bool {
    let mut count = 0u32;
    for reference in found {
        match expected.get(count as usize) {
            Some((sort, target))
                if reference.sort == *sort
                    && reference.target == *target
                    && reference.place == count => {}
            _ => return false,
        }
        count = count.saturating_add(1);
    }
    count as usize == expected.len()
}

fn holds<L: Ledger>(
    alloc: Global,
    image: &[u8; COUNT * SIZE],
    page: u32,
    expected: &[(Sort, u64)],
    steps: &mut Steps<L>,
) -> bool {
    match open_image(alloc, image) {
        Ok(formed) => page <= formed.head().last && are(references(&formed, page, steps), expected),
        Err(_) => false,
    }
}

fn holds_counted<L: Ledger>(
    alloc: Global,
    image: &[u8; COUNT * SIZE],
    page: u32,
    expected: &[(Sort, u64)],
    blank: Blank,
) -> bool
    requires name { blank.name ≡ L.name }
    requires parts { blank.parts ≡ L.parts }
    requires one { L.parts ≡ 1 }
{
    let mut steps = Steps::<L>::new(blank);
    holds(alloc, image, page, expected, &mut steps)
}

fn is_as_expected(
    alloc: Global,
    image: &[u8; COUNT * SIZE],
    page: u32,
    expected: &[(Sort, u64)],
) -> bool {
    holds_counted::<Brand>(alloc, image, page, expected, Blank::new(1))
}

#[test]
fn lists_the_references_of_each_type(rt: HostRuntime) {
    for order in [Order::Little, Order::Big] {
        let image = image_of(order);
        let mut page = 0u32;
        for expected in EXPECTED {
            assert!(rt;
                is_as_expected(rt.alloc(), &image, page, expected),
                "page {page}"
            );
            page = page.saturating_add(1);
        }
    }
}
