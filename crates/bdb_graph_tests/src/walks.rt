//! Walks of a tree by its links. Values: docs/FORMAT.md, "Other pages" and "Items".

ghost use Rattle.std.specs.Prelude.{◌≡◌, IfSome};
ghost use Rattle.test_images.specs.of_image.Linked.{FitsTreeRoot};
ghost use Rattle.bdb_format.specs.Terms.{file_of};

use crate::fields::BTREE;
use bdb_format::{Order, Steps};
use bdb_graph::{Linked, Meta, Ref, TreeRoot, link, open_image};
use std::alloc::Global;
use std::marker::Brand;
use std::sync::ledger::{Blank, Ledger};
use test_images::{Field, first_leaf, has_sound_trees, leaves, write};

const SIZE: usize = 9 * 512;

// Below the root, page 1, the internal pages 2 and 3, and below these the leaves 7, 4, 5 and 8, 6.
const INTERNALS: [Field; 34] = [
    Field::Four(32, 8), // last page
    Field::Four(520, 1), // page number
    Field::Two(532, 2), // entries
    Field::Byte(536, 3), // level
    Field::Byte(537, 3), // internal
    Field::Two(538, 500), // offset of an item
    Field::Two(540, 488),
    Field::Byte(1014, 1), // an empty key
    Field::Four(1016, 2), // child
    Field::Byte(1002, 1),
    Field::Four(1004, 3),
    Field::Four(1032, 2),
    Field::Two(1044, 3),
    Field::Byte(1048, 2),
    Field::Byte(1049, 3),
    Field::Two(1050, 500),
    Field::Two(1052, 488),
    Field::Two(1054, 476),
    Field::Byte(1526, 1),
    Field::Four(1528, 7),
    Field::Byte(1514, 1),
    Field::Four(1516, 4),
    Field::Byte(1502, 1),
    Field::Four(1504, 5),
    Field::Four(1544, 3),
    Field::Two(1556, 2),
    Field::Byte(1560, 2),
    Field::Byte(1561, 3),
    Field::Two(1562, 500),
    Field::Two(1564, 488),
    Field::Byte(2038, 1),
    Field::Four(2040, 8),
    Field::Byte(2026, 1),
    Field::Four(2028, 6),
];

// The leaves, without pairs, in the order of the tree.
const LEAVES: [Field; 23] = [
    Field::Four(3592, 7),
    Field::Four(3600, 4), // next
    Field::Byte(3608, 1),
    Field::Byte(3609, 5), // leaf
    Field::Four(2056, 4),
    Field::Four(2060, 7), // previous
    Field::Four(2064, 5),
    Field::Byte(2072, 1),
    Field::Byte(2073, 5),
    Field::Four(2568, 5),
    Field::Four(2572, 4),
    Field::Four(2576, 8),
    Field::Byte(2584, 1),
    Field::Byte(2585, 5),
    Field::Four(4104, 8),
    Field::Four(4108, 5),
    Field::Four(4112, 6),
    Field::Byte(4120, 1),
    Field::Byte(4121, 5),
    Field::Four(3080, 6),
    Field::Four(3084, 8),
    Field::Byte(3096, 1),
    Field::Byte(3097, 5),
];

/// The root of the first database, if it's a tree.
fn root_of(linked: &Linked<'_>) -> Option<Ref<TreeRoot>>
    ensures { IfSome result (λ root. FitsTreeRoot (file_of linked.now) root) }
{
    if linked.metas() == 0 {
        return None;
    }
    match linked.meta(0) {
        (_, Meta::Btree(meta)) => Some(linked.root(&meta)),
        _ => None,
    }
}

/// The leaves of the first database, if no row of stage 6 holds.
fn leaves_of(alloc: Global, linked: &Linked<'_>) -> Option<Vec<u32>> {
    let root = root_of(linked)?;
    if !has_sound_trees(alloc, linked) {
        return None;
    }
    let mut pages = Vec::new(alloc);
    for leaf in leaves(linked, first_leaf(linked, root)) {
        pages.push(leaf.number()).ok()?;
    }
    Some(pages)
}

fn linked_leaves<L: Ledger>(
    alloc: Global,
    image: &[u8; SIZE],
    steps: &mut Steps<L>,
) -> Option<Vec<u32>> {
    let formed = open_image(alloc, image).ok()?;
    let linked = link(alloc, formed, steps).ok()?;
    leaves_of(alloc, &linked)
}

fn counted_leaves<L: Ledger>(alloc: Global, image: &[u8; SIZE], blank: Blank) -> Option<Vec<u32>>
    requires name { blank.name ≡ L.name }
    requires parts { blank.parts ≡ L.parts }
    requires one { L.parts ≡ 1 }
{
    let mut steps = Steps::<L>::new(blank);
    linked_leaves(alloc, image, &mut steps)
}

fn tree_in(alloc: Global, order: Order) -> Option<Vec<u32>> {
    let mut image = [0u8; SIZE];
    write(&mut image, &BTREE, order);
    write(&mut image, &INTERNALS, order);
    write(&mut image, &LEAVES, order);
    counted_leaves::<Brand>(alloc, &image, Blank::new(1))
}

#[test]
fn gives_the_leaves_from_left_to_right(rt: HostRuntime) {
    for order in [Order::Little, Order::Big] {
        let pages = tree_in(rt.alloc(), order);
        assert!(rt; pages.is_some_and(|pages| pages.as_slice() == [7, 4, 5, 8, 6].as_slice()));
    }
}
