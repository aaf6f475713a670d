//! Small files, each for one rule. Values: docs/FORMAT.md, "Metadata pages" to "Stage 5, reach".

use crate::judging::{SIZE, Told, verdict_told};
use bdb_format::{Order, Unsupported};
use std::alloc::Global;
use test_images::{Field, write};

const PAGE: usize = 512;

/// An image by its bytes and fields, what is written over it, and what comes of it.
#[derive(Clone, Copy)]
struct Case {
    length: usize,
    image: &'static [Field],
    changes: &'static [Field],
    told: Told,
}

// A btree with the one pair `a`, `b`, on page 1.
pub(crate) const ONE_PAIR: [Field; 20] = [
    Field::Four(12, 0x053162), // magic number of page 0
    Field::Four(16, 9), // version
    Field::Four(20, 512), // page size
    Field::Byte(25, 9), // type
    Field::Four(32, 1), // last page
    Field::Four(76, 2), // least number of keys on a page
    Field::Four(88, 1), // root
    Field::Four(520, 1), // page 1
    Field::Two(532, 2), // entries
    Field::Two(534, 504), // the lowest byte of an item
    Field::Byte(536, 1), // level
    Field::Byte(537, 5), // leaf
    Field::Two(538, 508), // offsets: a key, then its data
    Field::Two(540, 504),
    Field::Two(1020, 1), // key a
    Field::Byte(1022, 1),
    Field::Byte(1023, 0x61),
    Field::Two(1016, 1), // data b
    Field::Byte(1018, 1),
    Field::Byte(1019, 0x62),
];

// Two overflow pages beside it, each the next and the previous one of the other.
const RING: [Field; 9] = [
    Field::Four(32, 3), // last page
    Field::Four(1032, 2), // page 2
    Field::Four(1036, 3), // previous
    Field::Four(1040, 3), // next
    Field::Byte(1049, 7), // overflow
    Field::Four(1544, 3), // page 3
    Field::Four(1548, 2),
    Field::Four(1552, 2),
    Field::Byte(1561, 7),
];

// A btree whose root has leaves 2 and 3. The key between them and the key of leaf 3 are one chain of 400 bytes, on page 4.
const SHARED_CHAIN: [Field; 55] = [
    Field::Four(12, 0x053162), // magic number of page 0
    Field::Four(16, 9), // version
    Field::Four(20, 512), // page size
    Field::Byte(25, 9), // type
    Field::Four(32, 4), // last page
    Field::Four(76, 2), // least number of keys on a page
    Field::Four(88, 1), // root
    Field::Four(520, 1), // page 1
    Field::Two(532, 2), // entries
    Field::Two(534, 476), // the lowest byte of an item
    Field::Byte(536, 2), // level
    Field::Byte(537, 3), // internal
    Field::Two(538, 500), // offsets
    Field::Two(540, 476),
    Field::Byte(1014, 1), // child 2, without a key
    Field::Four(1016, 2),
    Field::Two(988, 12), // child 3, with a key in a chain
    Field::Byte(990, 3),
    Field::Four(992, 3),
    Field::Byte(1002, 3),
    Field::Four(1004, 4), // head
    Field::Four(1008, 400), // length
    Field::Four(1032, 2), // page 2
    Field::Four(1040, 3), // next
    Field::Two(1044, 2), // entries
    Field::Two(1046, 504),
    Field::Byte(1048, 1), // level
    Field::Byte(1049, 5), // leaf
    Field::Two(1050, 508), // offsets
    Field::Two(1052, 504),
    Field::Two(1532, 1), // key a
    Field::Byte(1534, 1),
    Field::Byte(1535, 0x61),
    Field::Two(1528, 1), // data 1
    Field::Byte(1530, 1),
    Field::Byte(1531, 0x31),
    Field::Four(1544, 3), // page 3
    Field::Four(1548, 2), // previous
    Field::Two(1556, 2), // entries
    Field::Two(1558, 496),
    Field::Byte(1560, 1), // level
    Field::Byte(1561, 5), // leaf
    Field::Two(1562, 500), // offsets
    Field::Two(1564, 496),
    Field::Byte(2038, 3), // a key in a chain
    Field::Four(2040, 4), // head
    Field::Four(2044, 400), // length
    Field::Two(2032, 1), // data 2
    Field::Byte(2034, 1),
    Field::Byte(2035, 0x32),
    Field::Four(2056, 4), // page 4
    Field::Two(2068, 2), // how many items name it
    Field::Two(2070, 400), // bytes on the page
    Field::Byte(2073, 7), // overflow
    Field::Bytes(2074, &[0x62; 400]),
];

// A btree whose root names leaf 2 by both items, beside leaf 3, which it doesn't name.
const CHILD_NAMED_TWICE: [Field; 46] = [
    Field::Four(12, 0x053162), // magic number of page 0
    Field::Four(16, 9), // version
    Field::Four(20, 512), // page size
    Field::Byte(25, 9), // type
    Field::Four(32, 3), // last page
    Field::Four(76, 2), // least number of keys on a page
    Field::Four(88, 1), // root
    Field::Four(520, 1), // page 1
    Field::Two(532, 2), // entries
    Field::Two(534, 487), // the lowest byte of an item
    Field::Byte(536, 2), // level
    Field::Byte(537, 3), // internal
    Field::Two(538, 500), // offsets
    Field::Two(540, 487),
    Field::Byte(1014, 1), // child 2, without a key
    Field::Four(1016, 2),
    Field::Two(999, 1), // child 2, with the key b
    Field::Byte(1001, 1),
    Field::Four(1003, 2),
    Field::Byte(1011, 0x62),
    Field::Four(1032, 2), // page 2
    Field::Two(1044, 2), // entries
    Field::Two(1046, 504),
    Field::Byte(1048, 1), // level
    Field::Byte(1049, 5), // leaf
    Field::Two(1050, 508), // offsets
    Field::Two(1052, 504),
    Field::Two(1532, 1), // key a
    Field::Byte(1534, 1),
    Field::Byte(1535, 0x61),
    Field::Two(1528, 1), // data 1
    Field::Byte(1530, 1),
    Field::Byte(1531, 0x31),
    Field::Four(1544, 3), // page 3
    Field::Two(1556, 2), // entries
    Field::Two(1558, 504),
    Field::Byte(1560, 1), // level
    Field::Byte(1561, 5), // leaf
    Field::Two(1562, 508), // offsets
    Field::Two(1564, 504),
    Field::Two(2044, 1), // key b
    Field::Byte(2046, 1),
    Field::Byte(2047, 0x62),
    Field::Two(2040, 1), // data 2
    Field::Byte(2042, 1),
    Field::Byte(2043, 0x32),
];

// A hash of three buckets, on pages 1 to 3, with the pair `c`, `d` in bucket 1, and a zero page in reserve.
const SMALL_TABLE: [Field; 28] = [
    Field::Four(12, 0x061561), // magic number of page 0
    Field::Four(16, 9), // version
    Field::Four(20, 512), // page size
    Field::Byte(25, 8), // type
    Field::Four(32, 4), // last page
    Field::Four(72, 2), // greatest bucket
    Field::Four(76, 3), // high mask
    Field::Four(80, 1), // low mask
    Field::Four(92, 0x5e688dd1), // hash of a known key
    Field::Four(96, 1), // spares
    Field::Four(100, 1),
    Field::Four(104, 1),
    Field::Four(520, 1), // page 1
    Field::Two(534, 512),
    Field::Byte(537, 13), // hash page
    Field::Four(1032, 2), // page 2
    Field::Two(1044, 2), // entries
    Field::Two(1046, 508),
    Field::Byte(1049, 13),
    Field::Two(1050, 510), // offsets
    Field::Two(1052, 508),
    Field::Byte(1534, 1), // key c
    Field::Byte(1535, 0x63),
    Field::Byte(1532, 1), // data d
    Field::Byte(1533, 0x64),
    Field::Four(1544, 3), // page 3
    Field::Two(1558, 512),
    Field::Byte(1561, 13),
];

// A queue of records of four bytes: the first is 2, and the next one would be 4. Record 2 is valid, and record 3 isn't.
pub(crate) const QUEUE: [Field; 15] = [
    Field::Four(12, 0x042253), // magic number of page 0
    Field::Four(16, 4), // version
    Field::Four(20, 512), // page size
    Field::Byte(25, 10), // type
    Field::Four(72, 2), // first record
    Field::Four(76, 4), // next record
    Field::Four(80, 4), // length of a record
    Field::Four(88, 60), // records on a page
    Field::Four(520, 1), // page 1
    Field::Byte(537, 11), // queue page
    Field::Byte(548, 1), // record 2
    Field::Byte(549, 0x61),
    Field::Byte(550, 0x62),
    Field::Byte(551, 0x63),
    Field::Byte(552, 0x64),
];

// A chain that two items share: its head counts both, or one.
const SHARED_CHAINS: [Case; 2] = [
    Case {
        length: 5 * PAGE,
        image: &SHARED_CHAIN,
        changes: &[],
        told: Told::Sound,
    },
    Case {
        length: 5 * PAGE,
        image: &SHARED_CHAIN,
        changes: &[Field::Two(2068, 1)],
        told: Told::Fault {
            stage: 4,
            page: 4,
            code: 2,
        },
    },
];

const OVERFLOW_RING: Case = Case {
    length: 4 * PAGE,
    image: &ONE_PAIR,
    changes: &RING,
    told: Told::Fault {
        stage: 5,
        page: 2,
        code: 1,
    },
};

const TWO_OWNERS: Case = Case {
    length: 4 * PAGE,
    image: &CHILD_NAMED_TWICE,
    changes: &[],
    told: Told::Fault {
        stage: 4,
        page: 2,
        code: 2,
    },
};

const TABLE: Case = Case {
    length: 5 * PAGE,
    image: &SMALL_TABLE,
    changes: &[],
    told: Told::Sound,
};

// A queue in one file, and in several.
const QUEUES: [Case; 2] = [
    Case {
        length: 2 * PAGE,
        image: &QUEUE,
        changes: &[],
        told: Told::Sound,
    },
    Case {
        length: 2 * PAGE,
        image: &QUEUE,
        changes: &[Field::Four(92, 1)],
        told: Told::Unsupported {
            name: Unsupported::Extent,
            page: 0,
        },
    },
];

// The file with one pair, with another version, and with another page size.
const ONE_PAIRS: [Case; 3] = [
    Case {
        length: 2 * PAGE,
        image: &ONE_PAIR,
        changes: &[],
        told: Told::Sound,
    },
    Case {
        length: 2 * PAGE,
        image: &ONE_PAIR,
        changes: &[Field::Four(16, 10)],
        told: Told::Unsupported {
            name: Unsupported::Version,
            page: 0,
        },
    },
    Case {
        length: 2 * PAGE,
        image: &ONE_PAIR,
        changes: &[Field::Four(20, 65536)],
        told: Told::Unsupported {
            name: Unsupported::LargePage,
            page: 0,
        },
    },
];

fn is_in_order(alloc: Global, case: &Case, order: Order) -> bool {
    let mut bytes = [0u8; SIZE];
    write(&mut bytes, case.image, order);
    write(&mut bytes, case.changes, order);
    match bytes.get(..case.length) {
        Some(image) => verdict_told(alloc, image) == case.told,
        None => false,
    }
}

/// Whether the verdict is the one told, in both orders.
fn is_as_told(alloc: Global, case: &Case) -> bool {
    is_in_order(alloc, case, Order::Little) && is_in_order(alloc, case, Order::Big)
}

#[test]
fn counts_the_items_of_a_chain(rt: HostRuntime) {
    for case in &SHARED_CHAINS {
        assert!(rt; is_as_told(rt.alloc(), case));
    }
}

#[test]
fn reaches_no_ring(rt: HostRuntime) {
    assert!(rt; is_as_told(rt.alloc(), &OVERFLOW_RING));
}

#[test]
fn refuses_a_second_owner(rt: HostRuntime) {
    assert!(rt; is_as_told(rt.alloc(), &TWO_OWNERS));
}

#[test]
fn verifies_a_table(rt: HostRuntime) {
    assert!(rt; is_as_told(rt.alloc(), &TABLE));
}

#[test]
fn leaves_out_a_queue_of_several_files(rt: HostRuntime) {
    for case in &QUEUES {
        assert!(rt; is_as_told(rt.alloc(), case));
    }
}

#[test]
fn leaves_out_versions_and_page_sizes(rt: HostRuntime) {
    for case in &ONE_PAIRS {
        assert!(rt; is_as_told(rt.alloc(), case));
    }
}
