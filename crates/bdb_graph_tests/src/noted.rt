//! All faults of chains, and all of trees. Values: docs/FORMAT.md, "Stage 6, chains and trees".

ghost use Rattle.std.specs.Prelude.{◌≡◌};

use crate::linking::{CHAIN, TREE};
use bdb_format::{Order, Steps};
use bdb_graph::{Linked, link, open_image};
use bdb_overflow::chain_faults;
use std::alloc::Global;
use std::marker::Brand;
use std::sync::ledger::{Blank, Ledger};
use test_images::{Field, NamedList, has_rows, tree_faults, write};

const SIZE: usize = 5 * 512;

/// What is written over a tree with a chain, and the pages and codes that are noted.
#[derive(Clone, Copy)]
struct Case {
    fields: &'static [Field],
    chains: &'static [(u32, u8)],
    trees: &'static [(u32, u8)],
}

const CASES: [Case; 4] = [
    Case {
        fields: &[],
        chains: &[],
        trees: &[],
    },
    // Both keys tell another length than the chain has.
    Case {
        fields: &[Field::Four(996, 401), Field::Four(2044, 399)],
        chains: &[(1, 1), (3, 1)],
        trees: &[],
    },
    // Neither leaf names the other.
    Case {
        fields: &[Field::Four(1040, 0), Field::Four(1548, 0)],
        chains: &[],
        trees: &[(2, 3), (3, 3)],
    },
    // A key of leaf 3, which has the type of a leaf of sorted data and names a page behind it.
    Case {
        fields: &[
            Field::Four(2044, 399),
            Field::Byte(1561, 12),
            Field::Four(1552, 7),
        ],
        chains: &[(3, 1)],
        trees: &[(3, 2), (3, 3)],
    },
];

fn notes_chains(alloc: Global, linked: &Linked<'_>, rows: &[(u32, u8)]) -> bool {
    let mut found = NamedList::new(alloc);
    chain_faults(linked, &mut found).is_ok() && has_rows(&found, 6, rows)
}

fn notes_trees(alloc: Global, linked: &Linked<'_>, rows: &[(u32, u8)]) -> bool {
    let mut found = NamedList::new(alloc);
    tree_faults(alloc, linked, &mut found).is_ok() && has_rows(&found, 6, rows)
}

fn is_noted_in<L: Ledger>(
    alloc: Global,
    image: &[u8; SIZE],
    case: &Case,
    steps: &mut Steps<L>,
) -> bool {
    let Ok(formed) = open_image(alloc, image) else {
        return false;
    };
    let Ok(linked) = link(alloc, formed, steps) else {
        return false;
    };
    notes_chains(alloc, &linked, case.chains) && notes_trees(alloc, &linked, case.trees)
}

fn is_noted_counted<L: Ledger>(alloc: Global, image: &[u8; SIZE], case: &Case, blank: Blank) -> bool
    requires name { blank.name ≡ L.name }
    requires parts { blank.parts ≡ L.parts }
    requires one { L.parts ≡ 1 }
{
    let mut steps = Steps::<L>::new(blank);
    is_noted_in(alloc, image, case, &mut steps)
}

fn is_noted(alloc: Global, case: &Case, order: Order) -> bool {
    let mut image = [0u8; SIZE];
    write(&mut image, &TREE, order);
    write(&mut image, &CHAIN, order);
    write(&mut image, case.fields, order);
    is_noted_counted::<Brand>(alloc, &image, case, Blank::new(1))
}

#[test]
fn notes_each_fault_of_chains_and_trees(rt: HostRuntime) {
    for case in &CASES {
        for order in [Order::Little, Order::Big] {
            assert!(rt; is_noted(rt.alloc(), case, order));
        }
    }
}
