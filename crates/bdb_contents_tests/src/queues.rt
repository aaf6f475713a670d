//! The records of queues, listed and found. Values: docs/FORMAT.md, "Queue metadata, type 10" and "Databases of a file".

ghost use Rattle.std.specs.Prelude.{◌≡◌};
ghost use Rattle.bdb_range.specs.of_image.Linked.{HasMetadata};
ghost use Rattle.bdb_format.specs.Terms.{QueueFields, file_of};

use bdb_format::{Order, QueueMeta, Steps};
use bdb_overflow::{Datum, KeyView};
use bdb_queue::{Scan, find, scan};
use bdb_range::{Linked, Meta, link, open_image};
use std::alloc::Global;
use std::marker::Brand;
use std::sync::ledger::{Blank, Ledger};
use test_images::{Field, write};

const SIZE: usize = 4 * 512;

/// A queue, its records, and what is found under some numbers.
#[derive(Clone, Copy)]
struct Case {
    pages: usize,
    fields: &'static [Field],
    listed: &'static [(u32, [u8; 4])],
    found: &'static [(u32, Option<[u8; 4]>)],
}

// Records of four bytes, 60 on a page; 2 is valid and 3 isn't.
const TWO_RECORDS: [Field; 15] = [
    Field::Four(12, 0x042253), // magic number
    Field::Four(16, 4), // version
    Field::Four(20, 512), // page size
    Field::Byte(25, 10), // type
    Field::Four(72, 2), // first record
    Field::Four(76, 4), // next record
    Field::Four(80, 4), // record length
    Field::Four(88, 60), // records on a page
    Field::Four(520, 1), // page number
    Field::Byte(537, 11), // queue page
    Field::Byte(548, 1), // record 2: valid
    Field::Byte(549, 0x61),
    Field::Byte(550, 0x62),
    Field::Byte(551, 0x63),
    Field::Byte(552, 0x64),
];

// Records 1 and 180, the first and the last that have a slot; page 2 is a page of zeros, and the next record has
// a number that is near the greatest.
const FAR_END: [Field; 15] = [
    Field::Four(12, 0x042253),
    Field::Four(16, 4),
    Field::Four(20, 512),
    Field::Byte(25, 10),
    Field::Four(72, 1),
    Field::Four(76, 0xfffffff0), // next record
    Field::Four(80, 4),
    Field::Four(88, 60),
    Field::Four(520, 1),
    Field::Byte(537, 11),
    Field::Byte(540, 1), // record 1: valid
    Field::Byte(541, 0x31),
    Field::Four(1544, 3),
    Field::Byte(1561, 11),
    Field::Byte(2036, 1), // record 180: valid
];

// Both records of the two pages are valid, and the second is the next one.
const NEXT_RECORD: [Field; 12] = [
    Field::Four(12, 0x042253),
    Field::Four(16, 4),
    Field::Four(20, 512),
    Field::Byte(25, 10),
    Field::Four(72, 2),
    Field::Four(76, 3), // next record
    Field::Four(80, 4),
    Field::Four(88, 60),
    Field::Four(520, 1),
    Field::Byte(537, 11),
    Field::Byte(540, 1), // record 1, before the first
    Field::Byte(556, 1), // record 3
];

const CASES: [Case; 3] = [
    Case {
        pages: 2,
        fields: &TWO_RECORDS,
        listed: &[(2, *b"abcd")],
        found: &[
            (2, Some(*b"abcd")),
            (3, None),
            (0, None),
            (1, None),
            (4, None),
            (61, None),
            (0xffffffff, None),
        ],
    },
    Case {
        pages: 4,
        fields: &FAR_END,
        listed: &[(1, [0x31, 0, 0, 0]), (180, [0, 0, 0, 0])],
        found: &[
            (1, Some([0x31, 0, 0, 0])),
            (180, Some([0, 0, 0, 0])),
            (0, None),
            (2, None),
            (61, None),
            (181, None),
            (0xffffffef, None),
        ],
    },
    Case {
        pages: 2,
        fields: &NEXT_RECORD,
        listed: &[],
        found: &[(1, None), (2, None), (3, None)],
    },
];

/// Whether what comes next is this record.
fn is_next_record(next: Option<(KeyView<'_>, Datum<'_>)>, number: u32, bytes: &[u8]) -> bool {
    match next {
        Some((KeyView::Number(n), Datum::Inline(record))) => n == number && record == bytes,
        _ => false,
    }
}

/// Whether exactly these records are left, in order.
fn are_left(left: &mut Scan<'_>, listed: &[(u32, [u8; 4])]) -> bool {
    for (number, bytes) in listed {
        if !is_next_record(left.next(), *number, bytes.as_slice()) {
            return false;
        }
    }
    left.next().is_none()
}

/// Whether a list has exactly these records, in order.
fn lists(linked: &Linked<'_>, meta: &QueueMeta, listed: &[(u32, [u8; 4])]) -> bool
    requires { HasMetadata (file_of linked.now) (QueueFields meta.now) }
{
    are_left(&mut scan(linked, meta), listed)
}

/// Whether the first that is found is this record, or there is none.
fn is_found(first: Option<Datum<'_>>, bytes: Option<[u8; 4]>) -> bool {
    match (first, bytes) {
        (Some(Datum::Inline(record)), Some(bytes)) => record == bytes.as_slice(),
        (None, None) => true,
        _ => false,
    }
}

/// Whether this record alone is found under a number, or none.
fn finds<L: Ledger>(
    linked: &Linked<'_>,
    meta: &QueueMeta,
    number: u32,
    bytes: Option<[u8; 4]>,
    steps: &mut Steps<L>,
) -> bool
    requires { HasMetadata (file_of linked.now) (QueueFields meta.now) }
{
    is_found(find(linked, meta, number, steps).next(), bytes)
}

fn holds<L: Ledger>(
    linked: &Linked<'_>,
    meta: &QueueMeta,
    case: &Case,
    steps: &mut Steps<L>,
) -> bool
    requires { HasMetadata (file_of linked.now) (QueueFields meta.now) }
{
    for (number, bytes) in case.found {
        if !finds(linked, meta, *number, *bytes, steps) {
            return false;
        }
    }
    lists(linked, meta, case.listed)
}

fn holds_in<L: Ledger>(alloc: Global, image: &[u8], case: &Case, steps: &mut Steps<L>) -> bool {
    if image.len() > SIZE {
        return false;
    }
    let Ok(formed) = open_image(alloc, image) else {
        return false;
    };
    let Ok(linked) = link(alloc, formed, steps) else {
        return false;
    };
    if linked.metas() == 0 {
        return false;
    }
    match linked.meta(0).1 {
        Meta::Queue(meta) => holds(&linked, &meta, case, steps),
        _ => false,
    }
}

fn holds_counted<L: Ledger>(alloc: Global, image: &[u8], case: &Case, blank: Blank) -> bool
    requires name { blank.name ≡ L.name }
    requires parts { blank.parts ≡ L.parts }
    requires one { L.parts ≡ 1 }
{
    let mut steps = Steps::<L>::new(blank);
    holds_in(alloc, image, case, &mut steps)
}

fn is_as_expected(alloc: Global, case: &Case, order: Order) -> bool {
    let mut image = [0u8; SIZE];
    write(&mut image, case.fields, order);
    match image.get(..case.pages.saturating_mul(512)) {
        Some(pages) => holds_counted::<Brand>(alloc, pages, case, Blank::new(1)),
        None => false,
    }
}

#[test]
fn lists_and_finds_the_records_of_a_queue(rt: HostRuntime) {
    for case in &CASES {
        for order in [Order::Little, Order::Big] {
            assert!(rt; is_as_expected(rt.alloc(), case, order));
        }
    }
}
