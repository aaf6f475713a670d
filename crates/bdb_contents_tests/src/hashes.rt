//! Hash tables, checked, listed and found in. Values: docs/FORMAT.md, "Hash metadata, type 8", "Items" and "Stage 8, contents".

ghost use Rattle.std.specs.Prelude.{◌≡◌, []};
ghost use Rattle.bdb_range.specs.of_image.Linked.{HasMetadata};
ghost use Rattle.bdb_format.specs.Terms.{HashFields, database_faults, file_of, structure_faults};

use crate::hash_samples::{
    DUPLICATES, DUPLICATES_TWICE, ELSEWHERE, ELSEWHERE_FIRST, KEY_TWICE, KEY_TWICE_LATER, UNSORTED,
    UNSORTED_FIRST, WRONG_SET,
};
use bdb_format::{CheckError, Fault, HashMeta, Order, Steps};
use bdb_hash::check;
use bdb_hash_list::{Found, Scan, find, scan};
use bdb_overflow::{Datum, KeyView, compare_datum};
use bdb_range::{Linked, Meta, link, open_image};
use std::alloc::Global;
use std::cmp::Ordering;
use std::marker::Brand;
use std::sync::ledger::{Blank, Ledger};
use test_images::{Field, Sample, has_sound_trees, write};

const SIZE: usize = 9 * 512;

/// A key with its data, in order.
type Entry = (&'static [u8], &'static [&'static [u8]]);

/// A table, and what is found under some keys, which ascend; those with data are all that it lists.
#[derive(Clone, Copy)]
struct Case {
    pages: usize,
    fields: &'static [Field],
    found: &'static [Entry],
}

/// Three buckets on pages 1 to 3, of which the first and the last are empty, and page 4 in reserve. The key `c` is in
/// bucket 1: under the high mask it would be in 3, above the greatest.
pub const THREE_BUCKETS: [Field; 26] = [
    Field::Four(12, 0x061561), // magic number
    Field::Four(16, 9), // version
    Field::Four(20, 512), // page size
    Field::Byte(25, 8), // type
    Field::Four(32, 4), // last page
    Field::Four(48, 0), // flags
    Field::Four(72, 2), // greatest bucket
    Field::Four(76, 3), // high mask
    Field::Four(80, 1), // low mask
    Field::Four(92, 0x5e688dd1),
    Field::Four(96, 1), // spares
    Field::Four(100, 1),
    Field::Four(104, 1),
    Field::Four(520, 1), // page 1
    Field::Byte(537, 13),
    Field::Four(1032, 2), // page 2
    Field::Two(1044, 2), // entries
    Field::Byte(1049, 13),
    Field::Two(1050, 510), // the key
    Field::Byte(1534, 1),
    Field::Byte(1535, 0x63),
    Field::Two(1052, 508), // the data
    Field::Byte(1532, 1),
    Field::Byte(1533, 0x64),
    Field::Four(1544, 3), // page 3
    Field::Byte(1561, 13),
];

// The same, with the pair in bucket 0.
const WRONG_BUCKET: [Field; 26] = [
    Field::Four(12, 0x061561), // magic number
    Field::Four(16, 9), // version
    Field::Four(20, 512), // page size
    Field::Byte(25, 8), // type
    Field::Four(32, 4), // last page
    Field::Four(48, 0), // flags
    Field::Four(72, 2), // greatest bucket
    Field::Four(76, 3), // high mask
    Field::Four(80, 1), // low mask
    Field::Four(92, 0x5e688dd1),
    Field::Four(96, 1), // spares
    Field::Four(100, 1),
    Field::Four(104, 1),
    Field::Four(520, 1), // page 1
    Field::Two(532, 2), // entries
    Field::Byte(537, 13),
    Field::Two(538, 510), // the key
    Field::Byte(1022, 1),
    Field::Byte(1023, 0x63),
    Field::Two(540, 508), // the data
    Field::Byte(1020, 1),
    Field::Byte(1021, 0x64),
    Field::Four(1032, 2), // page 2
    Field::Byte(1049, 13),
    Field::Four(1544, 3), // page 3
    Field::Byte(1561, 13),
];

// One bucket of two pages: a set on a page, one off it with a deleted entry, and a key in a chain.
const TWO_PAGES: [Field; 73] = [
    Field::Four(12, 0x061561), // magic number
    Field::Four(16, 9), // version
    Field::Four(20, 512), // page size
    Field::Byte(25, 8), // type
    Field::Four(32, 4), // last page
    Field::Four(48, 1), // flags
    Field::Four(72, 0), // greatest bucket
    Field::Four(76, 0), // high mask
    Field::Four(80, 0), // low mask
    Field::Four(92, 0x5e688dd1),
    Field::Four(96, 1), // spares
    Field::Four(520, 1), // page 1
    Field::Four(528, 2), // next
    Field::Two(532, 4), // entries
    Field::Byte(537, 13),
    Field::Two(538, 510), // a key
    Field::Byte(1022, 1),
    Field::Byte(1023, 0x61),
    Field::Two(540, 508), // one datum
    Field::Byte(1020, 1),
    Field::Byte(1021, 0x31),
    Field::Two(542, 506), // a key
    Field::Byte(1018, 1),
    Field::Byte(1019, 0x62),
    Field::Two(544, 495), // a set on the page
    Field::Byte(1007, 2),
    Field::Two(1008, 1),
    Field::Byte(1010, 0x78),
    Field::Two(1011, 1),
    Field::Two(1013, 1),
    Field::Byte(1015, 0x79),
    Field::Two(1016, 1),
    Field::Four(1032, 2), // page 2
    Field::Four(1036, 1), // previous
    Field::Two(1044, 4), // entries
    Field::Byte(1049, 13),
    Field::Two(1050, 510), // a key
    Field::Byte(1534, 1),
    Field::Byte(1535, 0x63),
    Field::Two(1052, 502), // a set off the page
    Field::Byte(1526, 4),
    Field::Four(1530, 3), // its root
    Field::Two(1054, 490), // a key in a chain
    Field::Byte(1514, 3),
    Field::Four(1518, 4), // head
    Field::Four(1522, 4), // total
    Field::Two(1056, 488), // one datum
    Field::Byte(1512, 1),
    Field::Byte(1513, 0x76),
    Field::Four(1544, 3), // page 3
    Field::Two(1556, 3), // entries
    Field::Byte(1560, 1), // level
    Field::Byte(1561, 6),
    Field::Two(1562, 508), // a live entry
    Field::Two(2044, 1),
    Field::Byte(2046, 1),
    Field::Byte(2047, 0x70),
    Field::Two(1564, 504), // a deleted entry
    Field::Two(2040, 1),
    Field::Byte(2042, 129),
    Field::Byte(2043, 0x7a),
    Field::Two(1566, 500), // a live entry
    Field::Two(2036, 1),
    Field::Byte(2038, 1),
    Field::Byte(2039, 0x71),
    Field::Four(2056, 4), // page 4
    Field::Two(2068, 1), // references
    Field::Two(2070, 4), // bytes
    Field::Byte(2073, 7), // overflow
    Field::Byte(2074, 0x6c),
    Field::Byte(2075, 0x6f),
    Field::Byte(2076, 0x6e),
    Field::Byte(2077, 0x67),
];

// Five buckets in four groups: the first two have two pages each, one holds a set on the page, one a set off it. The last
// stands apart. `e` is in bucket 1: under the high mask it would be in 5, above the greatest.
const FOUR_GROUPS: [Field; 104] = [
    Field::Four(12, 0x061561), // magic number
    Field::Four(16, 9), // version
    Field::Four(20, 512), // page size
    Field::Byte(25, 8), // type
    Field::Four(32, 8), // last page
    Field::Four(48, 1), // flags
    Field::Four(72, 4), // greatest bucket
    Field::Four(76, 7), // high mask
    Field::Four(80, 3), // low mask
    Field::Four(92, 0x5e688dd1),
    Field::Four(96, 1), // spares of the four groups
    Field::Four(100, 1),
    Field::Four(104, 1),
    Field::Four(108, 3),
    Field::Four(520, 1), // page 1
    Field::Four(528, 5), // next
    Field::Two(532, 2), // entries
    Field::Byte(537, 13),
    Field::Two(538, 510), // a key
    Field::Byte(1022, 1),
    Field::Byte(1023, 0x68),
    Field::Two(540, 508), // one datum
    Field::Byte(1020, 1),
    Field::Byte(1021, 0x38),
    Field::Four(2568, 5), // page 5
    Field::Four(2572, 1), // previous
    Field::Two(2580, 2), // entries
    Field::Byte(2585, 13),
    Field::Two(2586, 510), // a key
    Field::Byte(3070, 1),
    Field::Byte(3071, 0x70),
    Field::Two(2588, 508), // one datum
    Field::Byte(3068, 1),
    Field::Byte(3069, 0x39),
    Field::Four(1032, 2), // page 2
    Field::Four(1040, 6), // next
    Field::Two(1044, 2), // entries
    Field::Byte(1049, 13),
    Field::Two(1050, 510), // a key
    Field::Byte(1534, 1),
    Field::Byte(1535, 0x61),
    Field::Two(1052, 508), // one datum
    Field::Byte(1532, 1),
    Field::Byte(1533, 0x31),
    Field::Four(3080, 6), // page 6
    Field::Four(3084, 2), // previous
    Field::Two(3092, 4), // entries
    Field::Byte(3097, 13),
    Field::Two(3098, 510), // a key
    Field::Byte(3582, 1),
    Field::Byte(3583, 0x69),
    Field::Two(3100, 508), // one datum
    Field::Byte(3580, 1),
    Field::Byte(3581, 0x37),
    Field::Two(3102, 506), // a key
    Field::Byte(3578, 1),
    Field::Byte(3579, 0x65),
    Field::Two(3104, 504), // one datum
    Field::Byte(3576, 1),
    Field::Byte(3577, 0x35),
    Field::Four(1544, 3), // page 3
    Field::Two(1556, 2), // entries
    Field::Byte(1561, 13),
    Field::Two(1562, 510), // a key
    Field::Byte(2046, 1),
    Field::Byte(2047, 0x62),
    Field::Two(1564, 499), // a set on the page
    Field::Byte(2035, 2),
    Field::Two(2036, 1),
    Field::Byte(2038, 0x78),
    Field::Two(2039, 1),
    Field::Two(2041, 1),
    Field::Byte(2043, 0x79),
    Field::Two(2044, 1),
    Field::Four(2056, 4), // page 4
    Field::Two(2068, 2), // entries
    Field::Byte(2073, 13),
    Field::Two(2074, 510), // a key
    Field::Byte(2558, 1),
    Field::Byte(2559, 0x63),
    Field::Two(2076, 502), // a set off the page
    Field::Byte(2550, 4),
    Field::Four(2554, 8), // its root
    Field::Four(3592, 7), // page 7
    Field::Two(3604, 2), // entries
    Field::Byte(3609, 13),
    Field::Two(3610, 510), // a key
    Field::Byte(4094, 1),
    Field::Byte(4095, 0x64),
    Field::Two(3612, 508), // one datum
    Field::Byte(4092, 1),
    Field::Byte(4093, 0x34),
    Field::Four(4104, 8), // page 8
    Field::Two(4116, 2), // entries
    Field::Byte(4120, 1), // level
    Field::Byte(4121, 6),
    Field::Two(4122, 508),
    Field::Two(4604, 1),
    Field::Byte(4606, 1),
    Field::Byte(4607, 0x6d),
    Field::Two(4124, 504),
    Field::Two(4600, 1),
    Field::Byte(4602, 1),
    Field::Byte(4603, 0x6b),
];

const CASES: [Case; 3] = [
    Case {
        pages: 5,
        fields: &THREE_BUCKETS,
        found: &[(b"a", &[]), (b"c", &[b"d"]), (b"d", &[])],
    },
    Case {
        pages: 5,
        fields: &TWO_PAGES,
        found: &[
            (b"", &[]),
            (b"a", &[b"1"]),
            (b"b", &[b"x", b"y"]),
            (b"c", &[b"p", b"q"]),
            (b"lon", &[]),
            (b"long", &[b"v"]),
            (b"z", &[]),
        ],
    },
    Case {
        pages: 9,
        fields: &FOUR_GROUPS,
        found: &[
            (b"a", &[b"1"]),
            (b"b", &[b"x", b"y"]),
            (b"c", &[b"m", b"k"]),
            (b"d", &[b"4"]),
            (b"e", &[b"5"]),
            (b"f", &[]),
            (b"g", &[]),
            (b"h", &[b"8"]),
            (b"i", &[b"7"]),
            (b"l", &[]),
            (b"p", &[b"9"]),
        ],
    },
];

fn is_value(datum: &Datum<'_>, bytes: &[u8]) -> bool {
    match compare_datum(datum, &Datum::Inline(bytes)) {
        Ordering::Equal => true,
        _ => false,
    }
}

/// Whether what comes next is a datum of these bytes.
fn is_next_value(next: Option<Datum<'_>>, bytes: &[u8]) -> bool {
    match next {
        Some(datum) => is_value(&datum, bytes),
        None => false,
    }
}

/// Whether exactly these data are left, in order.
fn has_all(left: &mut Found<'_>, values: &[&[u8]]) -> bool {
    for value in values {
        if !is_next_value(left.next(), value) {
            return false;
        }
    }
    left.next().is_none()
}

fn is_entry(key: &KeyView<'_>, datum: &Datum<'_>, bytes: &[u8], value: &[u8]) -> bool {
    match key {
        KeyView::Bytes(key) => is_value(key, bytes) && is_value(datum, value),
        KeyView::Number(_) => false,
    }
}

/// Whether what comes next is this key with this datum.
fn is_next_entry(next: Option<(KeyView<'_>, Datum<'_>)>, bytes: &[u8], value: &[u8]) -> bool {
    match next {
        Some((key, datum)) => is_entry(&key, &datum, bytes, value),
        None => false,
    }
}

/// Whether exactly these entries are left, in order.
fn lists(left: &mut Scan<'_>, found: &[Entry]) -> bool {
    for (key, values) in found {
        for value in *values {
            if !is_next_entry(left.next(), key, value) {
                return false;
            }
        }
    }
    left.next().is_none()
}

fn finds<L: Ledger>(
    linked: &Linked<'_>,
    meta: &HashMeta,
    found: &[Entry],
    steps: &mut Steps<L>,
) -> bool
    requires meta { HasMetadata (file_of linked.now) (HashFields meta.now) }
    requires stage { structure_faults (file_of linked.now) ≡ [] }
    requires contents { database_faults (file_of linked.now) (HashFields meta.now) ≡ [] }
{
    for (key, values) in found {
        if !has_all(&mut find(linked, meta, key, steps), values) {
            return false;
        }
    }
    true
}

#[tactic(auto, using(bdb_hash_list::proofs::LookupLemmas::no_key_twice))]
fn holds<L: Ledger>(
    alloc: Global,
    linked: &Linked<'_>,
    meta: &HashMeta,
    found: &[Entry],
    steps: &mut Steps<L>,
) -> bool
    requires meta { HasMetadata (file_of linked.now) (HashFields meta.now) }
    requires stage { structure_faults (file_of linked.now) ≡ [] }
{
    if let Err(_) = check(alloc, linked, meta) {
        return false;
    }
    match scan(alloc, linked, meta) {
        Ok(mut list) => lists(&mut list, found) && finds(linked, meta, found, steps),
        Err(_) => false,
    }
}

fn refuses(alloc: Global, linked: &Linked<'_>, meta: &HashMeta, page: u32, code: u8) -> bool
    requires meta { HasMetadata (file_of linked.now) (HashFields meta.now) }
    requires stage { structure_faults (file_of linked.now) ≡ [] }
{
    match check(alloc, linked, meta) {
        Err(CheckError::Fault(fault)) => {
            fault
                == Fault {
                    stage: 8,
                    page,
                    code,
                }
        }
        Ok(()) | Err(CheckError::Memory) => false,
    }
}

/// What a test does with a table: it finds and lists these entries, or refuses it with this page and code.
#[derive(Clone, Copy)]
enum Asked<'a> {
    Holds(&'a [Entry]),
    Refuses(u32, u8),
}

fn is_so_in<L: Ledger>(
    alloc: Global,
    linked: &Linked<'_>,
    meta: &HashMeta,
    asked: Asked<'_>,
    steps: &mut Steps<L>,
) -> bool
    requires meta { HasMetadata (file_of linked.now) (HashFields meta.now) }
    requires stage { structure_faults (file_of linked.now) ≡ [] }
{
    match asked {
        Asked::Holds(found) => holds(alloc, linked, meta, found, steps),
        Asked::Refuses(page, code) => refuses(alloc, linked, meta, page, code),
    }
}

fn is_so<L: Ledger>(alloc: Global, image: &[u8], asked: Asked<'_>, steps: &mut Steps<L>) -> bool {
    if image.len() > SIZE {
        return false;
    }
    let Ok(formed) = open_image(alloc, image) else {
        return false;
    };
    let Ok(linked) = link(alloc, formed, steps) else {
        return false;
    };
    if linked.metas() == 0 || !has_sound_trees(alloc, &linked) {
        return false;
    }
    match linked.meta(0).1 {
        Meta::Hash(meta) => is_so_in(alloc, &linked, &meta, asked, steps),
        _ => false,
    }
}

fn is_so_counted<L: Ledger>(alloc: Global, image: &[u8], asked: Asked<'_>, blank: Blank) -> bool
    requires name { blank.name ≡ L.name }
    requires parts { blank.parts ≡ L.parts }
    requires one { L.parts ≡ 1 }
{
    let mut steps = Steps::<L>::new(blank);
    is_so(alloc, image, asked, &mut steps)
}

fn is_as_expected(
    alloc: Global,
    pages: usize,
    fields: &[Field],
    asked: Asked<'_>,
    order: Order,
) -> bool {
    let mut image = [0u8; SIZE];
    write(&mut image, fields, order);
    match image.get(..pages.saturating_mul(512)) {
        Some(pages) => is_so_counted::<Brand>(alloc, pages, asked, Blank::new(1)),
        None => false,
    }
}

fn is_refused(alloc: Global, sample: &Sample, page: u32, code: u8) -> bool {
    match sample.image(alloc) {
        Ok(image) => is_so_counted::<Brand>(
            alloc,
            &image,
            Asked::Refuses(page, code),
            Blank::new(1),
        ),
        Err(_) => false,
    }
}

#[test]
fn lists_and_finds_the_pairs_of_a_table(rt: HostRuntime) {
    for case in &CASES {
        for order in [Order::Little, Order::Big] {
            assert!(rt;
                is_as_expected(
                    rt.alloc(),
                    case.pages,
                    case.fields,
                    Asked::Holds(case.found),
                    order
                )
            );
        }
    }
}

#[test]
fn tells_a_pair_in_another_bucket(rt: HostRuntime) {
    for order in [Order::Little, Order::Big] {
        assert!(rt; is_as_expected(rt.alloc(), 5, &WRONG_BUCKET, Asked::Refuses(1, 8), order));
    }
}

#[test]
fn tells_the_first_fault_of_a_table(rt: HostRuntime) {
    assert!(rt; is_refused(rt.alloc(), &DUPLICATES, 3, 1));
    assert!(rt; is_refused(rt.alloc(), &DUPLICATES_TWICE, 2, 1));
    assert!(rt; is_refused(rt.alloc(), &WRONG_SET, 1, 2));
    assert!(rt; is_refused(rt.alloc(), &UNSORTED, 2, 5));
    assert!(rt; is_refused(rt.alloc(), &UNSORTED_FIRST, 1, 5));
    assert!(rt; is_refused(rt.alloc(), &ELSEWHERE, 4, 8));
    assert!(rt; is_refused(rt.alloc(), &ELSEWHERE_FIRST, 1, 8));
    assert!(rt; is_refused(rt.alloc(), &KEY_TWICE, 1, 9));
    assert!(rt; is_refused(rt.alloc(), &KEY_TWICE_LATER, 2, 9));
}
