//! The verdict of references, ownership and reach. Values: docs/FORMAT.md, "Faults".

ghost use Rattle.std.specs.Prelude.{◌≡◌, ◌≤◌, ◌^◌, length};

use bdb_format::{CheckError, Fault, Order, Steps};
use bdb_graph::{link, open_image};
use std::alloc::Global;
use std::marker::Brand;
use std::sync::ledger::{Blank, Ledger};
use test_images::{Field, write};

const SIZE: usize = 5 * 512;

/// What is written over zeros, and what comes of it.
#[derive(Clone, Copy)]
struct Case {
    base: &'static [Field],
    fields: &'static [Field],
    told: Told,
}

/// What comes of linking an image.
#[derive(Clone, Copy, Debug, PartialEq, Eq)]
pub enum Told {
    Accepted,
    Fault { stage: u8, page: u32, code: u8 },
    Memory,
    Refused,
}

/// A btree file with the pair `a`, `b` on leaf 1.
pub const PAIR: [Field; 17] = [
    Field::Four(12, 0x053162), // magic number
    Field::Four(16, 9), // version
    Field::Four(20, 512), // page size
    Field::Byte(25, 9), // type
    Field::Four(32, 1), // last page
    Field::Four(88, 1), // root
    Field::Four(520, 1), // page number
    Field::Two(532, 2), // entries
    Field::Byte(536, 1), // level
    Field::Byte(537, 5), // type
    Field::Two(538, 508),
    Field::Two(540, 504),
    Field::Two(1016, 1), // length
    Field::Byte(1018, 1), // inline
    Field::Byte(1019, 0x62),
    Field::Two(1020, 1),
    Field::Byte(1022, 1),
];

/// A btree file with two empty leaves, 2 and 3, below the root 1, and nothing on page 4.
pub const TREE: [Field; 25] = [
    Field::Four(12, 0x053162),
    Field::Four(16, 9),
    Field::Four(20, 512),
    Field::Byte(25, 9),
    Field::Four(32, 3), // last page
    Field::Four(88, 1), // root
    Field::Four(520, 1),
    Field::Two(532, 2),
    Field::Byte(536, 2), // level
    Field::Byte(537, 3), // internal
    Field::Two(538, 496),
    Field::Two(540, 464),
    Field::Byte(1010, 1), // an empty key
    Field::Four(1012, 2), // child
    Field::Byte(978, 1),
    Field::Four(980, 3),
    Field::Four(1032, 2),
    Field::Four(1040, 3), // next
    Field::Byte(1048, 1),
    Field::Byte(1049, 5),
    Field::Four(1544, 3),
    Field::Four(1548, 2), // previous
    Field::Byte(1560, 1),
    Field::Byte(1561, 5),
    Field::Byte(0, 0),
];

/// A hash file with three buckets on pages 1 to 3, and page 4 in reserve.
pub const TABLE: [Field; 17] = [
    Field::Four(12, 0x061561),
    Field::Four(16, 9),
    Field::Four(20, 512),
    Field::Byte(25, 8),
    Field::Four(32, 4), // last page
    Field::Four(72, 2), // greatest bucket
    Field::Four(76, 3), // high mask
    Field::Four(80, 1), // low mask
    Field::Four(92, 0x5e688dd1),
    Field::Four(96, 1), // spares
    Field::Four(100, 1),
    Field::Four(104, 1),
    Field::Four(520, 1),
    Field::Byte(537, 13),
    Field::Four(1032, 2),
    Field::Byte(1049, 13),
    Field::Byte(0, 0),
];

/// The third of them.
pub const THIRD_BUCKET: [Field; 2] = [Field::Four(1544, 3), Field::Byte(1561, 13)];

// A queue file without records.
const QUEUE: [Field; 8] = [
    Field::Four(12, 0x042253),
    Field::Four(16, 4),
    Field::Four(20, 512),
    Field::Byte(25, 10),
    Field::Four(72, 1), // first record
    Field::Four(76, 1), // next record
    Field::Four(80, 4), // record length
    Field::Four(88, 60), // records on a page
];

/// The key of the second item of the root and a key of leaf 3 stand in the chain of page 4.
pub const CHAIN: [Field; 18] = [
    Field::Four(32, 4),
    Field::Two(976, 12),
    Field::Byte(978, 3),
    Field::Byte(990, 3),
    Field::Four(992, 4), // head
    Field::Four(996, 400), // total
    Field::Two(1556, 2),
    Field::Two(1562, 500),
    Field::Two(1564, 496),
    Field::Byte(2038, 3),
    Field::Four(2040, 4),
    Field::Four(2044, 400),
    Field::Two(2032, 1),
    Field::Byte(2034, 1),
    Field::Four(2056, 4),
    Field::Two(2068, 2), // references
    Field::Two(2070, 400), // length
    Field::Byte(2073, 7),
];

const CHAIN_COUNTED_ONCE: [Field; 18] = [
    Field::Four(32, 4),
    Field::Two(976, 12),
    Field::Byte(978, 3),
    Field::Byte(990, 3),
    Field::Four(992, 4),
    Field::Four(996, 400),
    Field::Two(1556, 2),
    Field::Two(1562, 500),
    Field::Two(1564, 496),
    Field::Byte(2038, 3),
    Field::Four(2040, 4),
    Field::Four(2044, 400),
    Field::Two(2032, 1),
    Field::Byte(2034, 1),
    Field::Four(2056, 4),
    Field::Two(2068, 1), // references
    Field::Two(2070, 400),
    Field::Byte(2073, 7),
];

// Two pairs of leaf 1 whose data stand in one chain, page 2.
const SHARED_DATA: [Field; 16] = [
    Field::Four(32, 2),
    Field::Two(532, 4),
    Field::Two(540, 488),
    Field::Two(542, 504),
    Field::Two(544, 476),
    Field::Byte(1002, 3),
    Field::Four(1004, 2),
    Field::Four(1008, 10),
    Field::Byte(990, 3),
    Field::Four(992, 2),
    Field::Four(996, 10),
    Field::Four(1032, 2),
    Field::Two(1044, 2), // references
    Field::Two(1046, 10), // length
    Field::Byte(1049, 7),
    Field::Byte(0, 0),
];

const SHARED_DATA_COUNTED_ONCE: [Field; 16] = [
    Field::Four(32, 2),
    Field::Two(532, 4),
    Field::Two(540, 488),
    Field::Two(542, 504),
    Field::Two(544, 476),
    Field::Byte(1002, 3),
    Field::Four(1004, 2),
    Field::Four(1008, 10),
    Field::Byte(990, 3),
    Field::Four(992, 2),
    Field::Four(996, 10),
    Field::Four(1032, 2),
    Field::Two(1044, 1), // references
    Field::Two(1046, 10), // length
    Field::Byte(1049, 7),
    Field::Byte(0, 0),
];

const CASES: [Case; 21] = [
    Case {
        base: &PAIR,
        fields: &[],
        told: Told::Accepted,
    },
    Case {
        base: &TREE,
        fields: &[],
        told: Told::Accepted,
    },
    Case {
        base: &TABLE,
        fields: &THIRD_BUCKET,
        told: Told::Accepted,
    },
    Case {
        base: &QUEUE,
        fields: &[],
        told: Told::Accepted,
    },
    // A chain with as many references as its head counts, and with one more.
    Case {
        base: &TREE,
        fields: &CHAIN,
        told: Told::Accepted,
    },
    Case {
        base: &TREE,
        fields: &CHAIN_COUNTED_ONCE,
        told: Told::Fault {
            stage: 4,
            page: 4,
            code: 2,
        },
    },
    Case {
        base: &PAIR,
        fields: &SHARED_DATA,
        told: Told::Accepted,
    },
    Case {
        base: &PAIR,
        fields: &SHARED_DATA_COUNTED_ONCE,
        told: Told::Fault {
            stage: 4,
            page: 2,
            code: 2,
        },
    },
    // A root of 0, and one above the last page.
    Case {
        base: &PAIR,
        fields: &[Field::Four(88, 0)],
        told: Told::Fault {
            stage: 3,
            page: 0,
            code: 1,
        },
    },
    Case {
        base: &PAIR,
        fields: &[Field::Four(88, 2)],
        told: Told::Fault {
            stage: 3,
            page: 0,
            code: 1,
        },
    },
    // The root of a btree is a leaf of a recno.
    Case {
        base: &PAIR,
        fields: &[Field::Byte(537, 6)],
        told: Told::Fault {
            stage: 3,
            page: 0,
            code: 2,
        },
    },
    // A set off the page whose root is the leaf itself.
    Case {
        base: &PAIR,
        fields: &[
            Field::Four(48, 1),
            Field::Two(540, 496),
            Field::Byte(1010, 2),
            Field::Four(1012, 1),
        ],
        told: Told::Fault {
            stage: 3,
            page: 1,
            code: 2,
        },
    },
    // An internal page that is its own child.
    Case {
        base: &PAIR,
        fields: &[
            Field::Two(532, 1),
            Field::Byte(536, 3),
            Field::Byte(537, 3),
            Field::Two(538, 500),
            Field::Two(1012, 0),
            Field::Byte(1014, 1),
            Field::Four(1016, 1),
            Field::Four(1020, 0),
        ],
        told: Told::Fault {
            stage: 3,
            page: 1,
            code: 3,
        },
    },
    // A bucket's page that is its own next.
    Case {
        base: &TABLE,
        fields: &[
            Field::Four(1544, 3),
            Field::Byte(1561, 13),
            Field::Four(528, 1),
        ],
        told: Told::Fault {
            stage: 3,
            page: 1,
            code: 4,
        },
    },
    // Both items of the root name leaf 2: leaf 3 has no owner.
    Case {
        base: &TREE,
        fields: &[Field::Four(980, 2)],
        told: Told::Fault {
            stage: 4,
            page: 2,
            code: 2,
        },
    },
    // A page that nothing names, without a hash table.
    Case {
        base: &PAIR,
        fields: &[Field::Four(32, 2)],
        told: Told::Fault {
            stage: 4,
            page: 2,
            code: 1,
        },
    },
    // A free page that is its own next.
    Case {
        base: &PAIR,
        fields: &[
            Field::Four(28, 2),
            Field::Four(32, 2),
            Field::Four(1032, 2),
            Field::Four(1040, 2),
        ],
        told: Told::Fault {
            stage: 4,
            page: 2,
            code: 2,
        },
    },
    // A free page by itself.
    Case {
        base: &PAIR,
        fields: &[Field::Four(28, 2), Field::Four(32, 2), Field::Four(1032, 2)],
        told: Told::Accepted,
    },
    // The head of a chain that counts no reference.
    Case {
        base: &PAIR,
        fields: &[
            Field::Four(32, 2),
            Field::Two(540, 488),
            Field::Byte(1002, 3),
            Field::Four(1004, 2),
            Field::Four(1032, 2),
            Field::Byte(1049, 7),
        ],
        told: Told::Fault {
            stage: 4,
            page: 2,
            code: 2,
        },
    },
    // An overflow page that is its own next, and a ring of two.
    Case {
        base: &PAIR,
        fields: &[
            Field::Four(32, 2),
            Field::Four(1032, 2),
            Field::Four(1036, 2),
            Field::Four(1040, 2),
            Field::Byte(1049, 7),
        ],
        told: Told::Fault {
            stage: 5,
            page: 2,
            code: 1,
        },
    },
    Case {
        base: &PAIR,
        fields: &[
            Field::Four(32, 3),
            Field::Four(1032, 2),
            Field::Four(1036, 3),
            Field::Four(1040, 3),
            Field::Byte(1049, 7),
            Field::Four(1544, 3),
            Field::Four(1548, 2),
            Field::Four(1552, 2),
            Field::Byte(1561, 7),
        ],
        told: Told::Fault {
            stage: 5,
            page: 2,
            code: 1,
        },
    },
];

fn verdict_of<L: Ledger>(alloc: Global, image: &[u8], steps: &mut Steps<L>) -> Told
    requires { length image.now ≤ 2 ^ 30 }
{
    let Ok(formed) = open_image(alloc, image) else {
        return Told::Refused;
    };
    match link(alloc, formed, steps) {
        Ok(_) => Told::Accepted,
        Err(CheckError::Fault(Fault { stage, page, code })) => Told::Fault { stage, page, code },
        Err(CheckError::Memory) => Told::Memory,
    }
}

/// What comes of linking an image of 1 MB at most.
pub fn told_by(alloc: Global, image: &[u8]) -> Told {
    if image.len() > 1 << 20 {
        return Told::Refused;
    }
    told_counted::<Brand>(alloc, image, Blank::new(1))
}

fn told_counted<L: Ledger>(alloc: Global, image: &[u8], blank: Blank) -> Told
    requires size { length image.now ≤ 2 ^ 30 }
    requires name { blank.name ≡ L.name }
    requires parts { blank.parts ≡ L.parts }
    requires one { L.parts ≡ 1 }
{
    let mut steps = Steps::<L>::new(blank);
    verdict_of(alloc, image, &mut steps)
}

fn told_of(alloc: Global, case: &Case, order: Order) -> Told {
    let mut image = [0u8; SIZE];
    write(&mut image, case.base, order);
    write(&mut image, case.fields, order);
    told_by(alloc, &image)
}

#[test]
fn tells_the_first_fault_of_the_graph(rt: HostRuntime) {
    for case in &CASES {
        for order in [Order::Little, Order::Big] {
            assert_eq!(rt; told_of(rt.alloc(), case, order), case.told);
        }
    }
}
