//! The leaves of trees: their types and their neighbours. Values: docs/FORMAT.md, "Stage 6, chains and trees".

ghost use Rattle.std.specs.Prelude.{◌≡◌};

use bdb_format::{CheckError, Fault, Order, Steps};
use bdb_graph::{Linked, link, open_image};
use std::alloc::Global;
use std::marker::Brand;
use std::sync::ledger::{Blank, Ledger};
use test_images::{Field, PageView, check_trees, leaves_below, next_level, write};

const SIZE: usize = 5 * 512;

/// What is written over zeros, and what comes of it.
#[derive(Clone, Copy)]
struct Case {
    base: &'static [Field],
    fields: &'static [Field],
    told: Told,
}

#[derive(Clone, Copy, Debug, PartialEq, Eq)]
enum Told {
    Sound,
    Fault { page: u32, code: u8 },
    Memory,
    Refused,
}

// A btree file with two empty leaves, 2 and 3, below the root 1.
const TREE: [Field; 24] = [
    Field::Four(12, 0x053162), // magic number
    Field::Four(16, 9), // version
    Field::Four(20, 512), // page size
    Field::Byte(25, 9), // type
    Field::Four(32, 3), // last page
    Field::Four(88, 1), // root
    Field::Four(520, 1), // page number
    Field::Two(532, 2), // entries
    Field::Byte(536, 2), // level
    Field::Byte(537, 3), // internal
    Field::Two(538, 496),
    Field::Two(540, 464),
    Field::Byte(1010, 1), // an empty key
    Field::Four(1012, 2), // child
    Field::Byte(978, 1),
    Field::Four(980, 3),
    Field::Four(1032, 2),
    Field::Four(1040, 3), // next
    Field::Byte(1048, 1),
    Field::Byte(1049, 5),
    Field::Four(1544, 3),
    Field::Four(1548, 2), // previous
    Field::Byte(1560, 1),
    Field::Byte(1561, 5),
];

// A btree file with two empty leaves, 3 and 4, below page 2, below the root 1.
const DEEP: [Field; 30] = [
    Field::Four(12, 0x053162),
    Field::Four(16, 9),
    Field::Four(20, 512),
    Field::Byte(25, 9),
    Field::Four(32, 4),
    Field::Four(88, 1),
    Field::Four(520, 1),
    Field::Two(532, 1),
    Field::Byte(536, 3), // level
    Field::Byte(537, 3),
    Field::Two(538, 496),
    Field::Byte(1010, 1),
    Field::Four(1012, 2),
    Field::Four(1032, 2),
    Field::Two(1044, 2),
    Field::Byte(1048, 2), // level
    Field::Byte(1049, 3),
    Field::Two(1050, 496),
    Field::Two(1052, 464),
    Field::Byte(1522, 1),
    Field::Four(1524, 3),
    Field::Byte(1490, 1),
    Field::Four(1492, 4),
    Field::Four(1544, 3),
    Field::Four(1552, 4), // next
    Field::Byte(1560, 1),
    Field::Byte(1561, 5),
    Field::Four(2056, 4),
    Field::Four(2060, 3), // previous
    Field::Byte(2072, 1),
];

const LAST_LEAF: [Field; 1] = [Field::Byte(2073, 5)];

// A btree file with the pair `a` on leaf 1, whose data are a set off the page: the leaves 3 and 4 below page 2.
const SET: [Field; 33] = [
    Field::Four(12, 0x053162),
    Field::Four(16, 9),
    Field::Four(20, 512),
    Field::Byte(25, 9),
    Field::Four(32, 4),
    Field::Four(48, 1), // duplicates
    Field::Four(88, 1),
    Field::Four(520, 1),
    Field::Two(532, 2),
    Field::Byte(536, 1),
    Field::Byte(537, 5),
    Field::Two(538, 508),
    Field::Two(540, 496),
    Field::Two(1020, 1), // length of the key
    Field::Byte(1022, 1),
    Field::Byte(1023, 0x61),
    Field::Byte(1010, 2), // a set off the page
    Field::Four(1012, 2), // its root
    Field::Four(1032, 2),
    Field::Two(1044, 2),
    Field::Byte(1048, 2),
    Field::Byte(1049, 3),
    Field::Two(1050, 496),
    Field::Two(1052, 464),
    Field::Byte(1522, 1),
    Field::Four(1524, 3),
    Field::Byte(1490, 1),
    Field::Four(1492, 4),
    Field::Four(1544, 3),
    Field::Four(1552, 4),
    Field::Byte(1560, 1),
    Field::Four(2056, 4),
    Field::Four(2060, 3),
];

const SORTED: [Field; 3] = [
    Field::Byte(1561, 12),
    Field::Byte(2072, 1),
    Field::Byte(2073, 12),
];

// A btree file with the root 2, a leaf whose data are a set off the page on the one leaf 1.
const LEAF_SET: [Field; 21] = [
    Field::Four(12, 0x053162),
    Field::Four(16, 9),
    Field::Four(20, 512),
    Field::Byte(25, 9),
    Field::Four(32, 2),
    Field::Four(48, 1),
    Field::Four(88, 2),
    Field::Four(520, 1),
    Field::Byte(536, 1),
    Field::Byte(537, 12),
    Field::Four(1032, 2),
    Field::Two(1044, 2),
    Field::Byte(1048, 1),
    Field::Byte(1049, 5),
    Field::Two(1050, 508),
    Field::Two(1052, 496),
    Field::Two(1532, 1),
    Field::Byte(1534, 1),
    Field::Byte(1535, 0x61),
    Field::Byte(1522, 2),
    Field::Four(1524, 1),
];

const CASES: [Case; 20] = [
    Case {
        base: &TREE,
        fields: &[],
        told: Told::Sound,
    },
    Case {
        base: &DEEP,
        fields: &LAST_LEAF,
        told: Told::Sound,
    },
    Case {
        base: &SET,
        fields: &SORTED,
        told: Told::Sound,
    },
    Case {
        base: &LEAF_SET,
        fields: &[],
        told: Told::Sound,
    },
    // No leaf names its neighbour.
    Case {
        base: &TREE,
        fields: &[Field::Four(1040, 0), Field::Four(1548, 0)],
        told: Told::Fault { page: 2, code: 3 },
    },
    // One of the two doesn't.
    Case {
        base: &TREE,
        fields: &[Field::Four(1040, 0)],
        told: Told::Fault { page: 2, code: 3 },
    },
    Case {
        base: &TREE,
        fields: &[Field::Four(1548, 0)],
        told: Told::Fault { page: 3, code: 3 },
    },
    // The first leaf names one before it, and the last one after it.
    Case {
        base: &TREE,
        fields: &[Field::Four(1036, 3)],
        told: Told::Fault { page: 2, code: 3 },
    },
    Case {
        base: &TREE,
        fields: &[Field::Four(1552, 2)],
        told: Told::Fault { page: 3, code: 3 },
    },
    // A leaf names another page.
    Case {
        base: &TREE,
        fields: &[Field::Four(1040, 1)],
        told: Told::Fault { page: 2, code: 3 },
    },
    // Links two levels below the root.
    Case {
        base: &DEEP,
        fields: &[Field::Byte(2073, 5), Field::Four(2060, 0)],
        told: Told::Fault { page: 4, code: 3 },
    },
    // A leaf of sorted data below a root of metadata; by itself, with a wrong link, and after one.
    Case {
        base: &TREE,
        fields: &[Field::Byte(1561, 12)],
        told: Told::Fault { page: 3, code: 2 },
    },
    Case {
        base: &TREE,
        fields: &[Field::Byte(1561, 12), Field::Four(1552, 7)],
        told: Told::Fault { page: 3, code: 2 },
    },
    Case {
        base: &TREE,
        fields: &[Field::Byte(1561, 12), Field::Four(1040, 0)],
        told: Told::Fault { page: 2, code: 3 },
    },
    // A leaf of pairs in a set.
    Case {
        base: &SET,
        fields: &[
            Field::Byte(1561, 12),
            Field::Byte(2072, 1),
            Field::Byte(2073, 5),
        ],
        told: Told::Fault { page: 4, code: 2 },
    },
    Case {
        base: &SET,
        fields: &[
            Field::Byte(1561, 5),
            Field::Byte(2072, 1),
            Field::Byte(2073, 12),
        ],
        told: Told::Fault { page: 3, code: 2 },
    },
    // A wrong link in a set, and one of the leaf that holds it.
    Case {
        base: &SET,
        fields: &[
            Field::Byte(1561, 12),
            Field::Byte(2072, 1),
            Field::Byte(2073, 12),
            Field::Four(2060, 2),
        ],
        told: Told::Fault { page: 4, code: 3 },
    },
    Case {
        base: &SET,
        fields: &[
            Field::Byte(1561, 12),
            Field::Byte(2072, 1),
            Field::Byte(2073, 12),
            Field::Four(528, 2),
        ],
        told: Told::Fault { page: 1, code: 3 },
    },
    // The least page comes first, whichever tree is walked first.
    Case {
        base: &LEAF_SET,
        fields: &[Field::Four(1040, 1), Field::Four(528, 2)],
        told: Told::Fault { page: 1, code: 3 },
    },
    Case {
        base: &LEAF_SET,
        fields: &[Field::Four(1040, 1)],
        told: Told::Fault { page: 2, code: 3 },
    },
];

fn verdict_of<L: Ledger>(alloc: Global, image: &[u8; SIZE], steps: &mut Steps<L>) -> Told {
    let Ok(formed) = open_image(alloc, image) else {
        return Told::Refused;
    };
    let Ok(linked) = link(alloc, formed, steps) else {
        return Told::Refused;
    };
    match check_trees(alloc, &linked) {
        Ok(()) => Told::Sound,
        Err(
            CheckError::Fault(
                Fault {
                    stage: 6,
                    page,
                    code,
                },
            ),
        ) => Told::Fault { page, code },
        Err(CheckError::Fault(_)) => Told::Refused,
        Err(CheckError::Memory) => Told::Memory,
    }
}

fn told_counted<L: Ledger>(alloc: Global, image: &[u8; SIZE], blank: Blank) -> Told
    requires name { blank.name ≡ L.name }
    requires parts { blank.parts ≡ L.parts }
    requires one { L.parts ≡ 1 }
{
    let mut steps = Steps::<L>::new(blank);
    verdict_of(alloc, image, &mut steps)
}

fn told_of(alloc: Global, case: &Case, order: Order) -> Told {
    let mut image = [0u8; SIZE];
    write(&mut image, case.base, order);
    write(&mut image, case.fields, order);
    told_counted::<Brand>(alloc, &image, Blank::new(1))
}

#[test]
fn tells_the_first_fault_of_the_leaves(rt: HostRuntime) {
    for case in &CASES {
        for order in [Order::Little, Order::Big] {
            assert_eq!(rt; told_of(rt.alloc(), case, order), case.told);
        }
    }
}

/// Whether these are the leaves below page 1, and these the pages right below it.
fn has_below(alloc: Global, linked: &Linked<'_>, leaves: &[u32], children: &[u32]) -> bool {
    let forest = linked.forest();
    if forest.head().last < 1 {
        return false;
    }
    let PageView::Internal(_) = forest.page(1) else {
        return false;
    };
    let Ok(found) = leaves_below(alloc, &forest, 1) else {
        return false;
    };
    let Ok(next) = next_level(alloc, &forest, &[1]) else {
        return false;
    };
    *found == *leaves && *next == *children
}

fn linked_has_below<L: Ledger>(
    alloc: Global,
    image: &[u8; SIZE],
    leaves: &[u32],
    children: &[u32],
    steps: &mut Steps<L>,
) -> bool {
    let Ok(formed) = open_image(alloc, image) else {
        return false;
    };
    match link(alloc, formed, steps) {
        Ok(linked) => has_below(alloc, &linked, leaves, children),
        Err(_) => false,
    }
}

fn below_counted<L: Ledger>(
    alloc: Global,
    image: &[u8; SIZE],
    leaves: &[u32],
    children: &[u32],
    blank: Blank,
) -> bool
    requires name { blank.name ≡ L.name }
    requires parts { blank.parts ≡ L.parts }
    requires one { L.parts ≡ 1 }
{
    let mut steps = Steps::<L>::new(blank);
    linked_has_below(alloc, image, leaves, children, &mut steps)
}

fn image_has_below(alloc: Global, image: &[u8; SIZE], leaves: &[u32], children: &[u32]) -> bool {
    below_counted::<Brand>(alloc, image, leaves, children, Blank::new(1))
}

#[test]
fn lists_pages_below_a_root(rt: HostRuntime) {
    for order in [Order::Little, Order::Big] {
        let mut image = [0u8; SIZE];
        write(&mut image, &TREE, order);
        assert!(rt; image_has_below(rt.alloc(), &image, &[2, 3], &[2, 3]));
        let mut deep = [0u8; SIZE];
        write(&mut deep, &DEEP, order);
        write(&mut deep, &LAST_LEAF, order);
        assert!(rt; image_has_below(rt.alloc(), &deep, &[3, 4], &[2]));
    }
}
