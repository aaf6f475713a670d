//! Whole files: a master with two databases. Values: docs/FORMAT.md, "Databases of a file" and "Stage 7, the master".

use crate::judging::{SIZE, Told, verdict_told};
use bdb_format::{Order, Unsupported};
use std::alloc::Global;
use test_images::{Field, write};

/// What is written over the file, and what comes of it.
#[derive(Clone, Copy)]
struct Case {
    fields: &'static [Field],
    told: Told,
}

// A master whose leaf 1 names `a` with page 2 and `b` with page 4: an empty btree on page 3, and an empty table of two
// buckets on pages 5 and 6. A number of a page is in high order first, whichever the order of the file.
pub(crate) const TWO_DATABASES: [Field; 56] = [
    Field::Four(12, 0x053162), // magic number of page 0
    Field::Four(16, 9), // version
    Field::Four(20, 512), // page size
    Field::Byte(25, 9), // type
    Field::Four(32, 6), // last page
    Field::Four(48, 0x20), // flags
    Field::Four(88, 1), // root
    Field::Four(520, 1), // page 1
    Field::Two(532, 4), // entries
    Field::Byte(536, 1), // level
    Field::Byte(537, 5), // leaf
    Field::Two(538, 508), // offsets: a key, then its data
    Field::Two(540, 500),
    Field::Two(542, 496),
    Field::Two(544, 488),
    Field::Two(1020, 1), // key a
    Field::Byte(1022, 1),
    Field::Byte(1023, 0x61),
    Field::Two(1012, 4), // its page
    Field::Byte(1014, 1),
    Field::Byte(1015, 0),
    Field::Byte(1018, 2),
    Field::Two(1008, 1), // key b
    Field::Byte(1010, 1),
    Field::Byte(1011, 0x62),
    Field::Two(1000, 4), // its page
    Field::Byte(1002, 1),
    Field::Byte(1003, 0),
    Field::Byte(1006, 4),
    Field::Four(1032, 2), // page 2
    Field::Four(1036, 0x053162),
    Field::Four(1040, 9),
    Field::Four(1044, 512),
    Field::Byte(1049, 9),
    Field::Four(1112, 3), // root
    Field::Four(1544, 3), // page 3
    Field::Byte(1560, 1),
    Field::Byte(1561, 5),
    Field::Four(2056, 4), // page 4
    Field::Four(2060, 0x061561),
    Field::Four(2064, 9),
    Field::Four(2068, 512),
    Field::Byte(2073, 8),
    Field::Four(2096, 0), // flags
    Field::Four(2120, 1), // greatest bucket
    Field::Four(2124, 1), // high mask
    Field::Four(2128, 0), // low mask
    Field::Four(2140, 0x5e688dd1),
    Field::Four(2144, 5), // spares
    Field::Four(2148, 5),
    Field::Four(2568, 5), // page 5
    Field::Byte(2584, 0),
    Field::Byte(2585, 13),
    Field::Four(3080, 6), // page 6
    Field::Byte(3096, 0),
    Field::Byte(3097, 13),
];

const CASES: [Case; 10] = [
    Case {
        fields: &[],
        told: Told::Sound,
    },
    // b names page 2 as well, so that page 4 has no name: page 2 comes first
    Case {
        fields: &[Field::Byte(1006, 2)],
        told: Told::Fault {
            stage: 7,
            page: 2,
            code: 5,
        },
    },
    // b's page in low order first
    Case {
        fields: &[Field::Byte(1003, 4), Field::Byte(1006, 0)],
        told: Told::Fault {
            stage: 7,
            page: 1,
            code: 3,
        },
    },
    // b names page 0
    Case {
        fields: &[Field::Byte(1006, 0)],
        told: Told::Fault {
            stage: 7,
            page: 1,
            code: 3,
        },
    },
    // b names a leaf
    Case {
        fields: &[Field::Byte(1006, 3)],
        told: Told::Fault {
            stage: 7,
            page: 1,
            code: 3,
        },
    },
    // three bytes of data
    Case {
        fields: &[Field::Two(1000, 3)],
        told: Told::Fault {
            stage: 7,
            page: 1,
            code: 2,
        },
    },
    // both keys are a
    Case {
        fields: &[Field::Byte(1011, 0x61)],
        told: Told::Fault {
            stage: 7,
            page: 1,
            code: 4,
        },
    },
    // a deleted pair names nothing
    Case {
        fields: &[Field::Byte(1002, 0x81)],
        told: Told::Fault {
            stage: 7,
            page: 4,
            code: 1,
        },
    },
    // keys out of order
    Case {
        fields: &[Field::Byte(1011, 0x60)],
        told: Told::Fault {
            stage: 8,
            page: 1,
            code: 3,
        },
    },
    // a wrong neighbour comes before a wrong page of b
    Case {
        fields: &[Field::Four(524, 3), Field::Byte(1006, 0)],
        told: Told::Fault {
            stage: 6,
            page: 1,
            code: 3,
        },
    },
];

/// Whether the verdict on the file of two databases is this, once these fields are written over it.
fn has_verdict(alloc: Global, fields: &[Field], told: Told, order: Order) -> bool {
    let mut image = [0u8; SIZE];
    write(&mut image, &TWO_DATABASES, order);
    write(&mut image, fields, order);
    verdict_told(alloc, &image) == told
}

#[test]
fn verifies_a_file(rt: HostRuntime) {
    for case in &CASES {
        for order in [Order::Little, Order::Big] {
            assert!(rt; has_verdict(rt.alloc(), case.fields, case.told, order));
        }
    }
}

#[test]
fn verifies_the_stages_before(rt: HostRuntime) {
    for order in [Order::Little, Order::Big] {
        let page_size = Told::Fault {
            stage: 1,
            page: 0,
            code: 5,
        };
        assert!(rt; has_verdict(rt.alloc(), &[Field::Four(20, 513)], page_size, order));
        let page_number = Told::Fault {
            stage: 2,
            page: 3,
            code: 1,
        };
        assert!(rt; has_verdict(rt.alloc(), &[Field::Four(1544, 9)], page_number, order));
        let version = Told::Unsupported {
            name: Unsupported::Version,
            page: 0,
        };
        assert!(rt; has_verdict(rt.alloc(), &[Field::Four(16, 10)], version, order));
    }
}
