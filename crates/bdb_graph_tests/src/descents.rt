//! Descents in a tree of three levels. Keys: docs/FORMAT.md, "Internal items (type 3)" and "Order of keys".

ghost use Rattle.std.specs.Prelude.{◌≡◌, ◌+◌, ◌≤◌, ◌<◌, ◌∷◌, [], IsTrue};
ghost use Rattle.std.specs.Bool.{OnTrue};
ghost use Rattle.test_images.specs.of_form.Seen.{page_seen};
ghost use Rattle.test_images.specs.of_image.Linked.{FitsTreeRoot};
ghost use Rattle.bdb_graph_tests.specs.Sought.{AllFit, IsFit, is_above};
ghost use Rattle.bdb_format.specs.Terms.{file_of, has_type, less, page_at, type_in};
ghost use Rattle.test_images.specs.of_tree.Descent.{IsMonotone};

use bdb_format::{Order, Steps};
use bdb_graph::{Linked, Meta, Ref, TreeRoot, link, open_image};
use std::alloc::Global;
use std::cmp::Ordering;
use std::marker::Brand;
use std::sync::ledger::{Blank, Ledger};
use test_images::{
    Field, InternalItem, InternalKey, InternalView, PageView, Separate, compare, descend_by, write,
};

const SIZE: usize = 9 * 512;

// The root 1 over pages 2 and 3, these over the empty leaves 4 to 8. The first key of each internal page is
// `z`, above all others.
const TREE: [Field; 69] = [
    Field::Four(12, 0x053162),
    Field::Four(16, 9),
    Field::Four(20, 512),
    Field::Byte(25, 9),
    Field::Four(32, 8), // last page
    Field::Four(88, 1), // root
    Field::Four(520, 1), // page number
    Field::Two(532, 2), // entries
    Field::Byte(536, 3), // level
    Field::Byte(537, 3), // internal
    Field::Two(538, 496),
    Field::Two(540, 480),
    Field::Two(1008, 1), // length of the key
    Field::Byte(1010, 1), // inline
    Field::Four(1012, 2), // child
    Field::Byte(1020, 0x7a),
    Field::Two(992, 1),
    Field::Byte(994, 1),
    Field::Four(996, 3),
    Field::Byte(1004, 0x6d), // m
    Field::Four(1032, 2),
    Field::Two(1044, 3),
    Field::Byte(1048, 2), // level
    Field::Byte(1049, 3),
    Field::Two(1050, 496),
    Field::Two(1052, 480),
    Field::Two(1054, 464),
    Field::Two(1520, 1),
    Field::Byte(1522, 1),
    Field::Four(1524, 4),
    Field::Byte(1532, 0x7a),
    Field::Two(1504, 1),
    Field::Byte(1506, 1),
    Field::Four(1508, 5),
    Field::Byte(1516, 0x63), // c
    Field::Two(1488, 2),
    Field::Byte(1490, 1),
    Field::Four(1492, 6),
    Field::Byte(1500, 0x66), // ff
    Field::Byte(1501, 0x66),
    Field::Four(1544, 3),
    Field::Two(1556, 2),
    Field::Byte(1560, 2),
    Field::Byte(1561, 3),
    Field::Two(1562, 496),
    Field::Two(1564, 480),
    Field::Two(2032, 1),
    Field::Byte(2034, 1),
    Field::Four(2036, 7),
    Field::Byte(2044, 0x7a),
    Field::Two(2016, 1),
    Field::Byte(2018, 1),
    Field::Four(2020, 8),
    Field::Byte(2028, 0x74), // t
    Field::Four(2056, 4),
    Field::Byte(2072, 1),
    Field::Byte(2073, 5),
    Field::Four(2568, 5),
    Field::Byte(2584, 1),
    Field::Byte(2585, 5),
    Field::Four(3080, 6),
    Field::Byte(3096, 1),
    Field::Byte(3097, 5),
    Field::Four(3592, 7),
    Field::Byte(3608, 1),
    Field::Byte(3609, 5),
    Field::Four(4104, 8),
    Field::Byte(4120, 1),
    Field::Byte(4121, 5),
];

/// A key, and the leaf to which it leads.
const LEAVES: [(&str, u32); 15] = [
    ("", 4),
    ("a", 4),
    ("bz", 4),
    ("c", 5),
    ("d", 5),
    ("f", 5),
    ("ff", 6),
    ("l", 6),
    ("lzz", 6),
    ("m", 7),
    ("ma", 7),
    ("s", 7),
    ("t", 8),
    ("y", 8),
    ("zz", 8),
];

#[derive(Drop)]
struct Sought<'a> {
    key: &'a [u8],
}

impl<'a> Separate for Sought<'a> {
    ghost reads = { λ s item. Unit {0} };

    ghost says = { λ s item. is_above s.key.now item.key };

    fn below(&self, item: &InternalItem<'_>) -> bool {
        match item.key {
            InternalKey::Inline(bytes) => is_less(self.key, bytes),
            InternalKey::Overflow { .. } => false,
        }
    }
}

#[tactic(auto, using(crate::proofs::Below::not_less_same, crate::proofs::Below::not_less_both))]
fn is_less(a: &[u8], b: &[u8]) -> bool
    ensures { result ≡ less a.now b.now }
{
    match compare(a, b) {
        Ordering::Less => true,
        Ordering::Equal | Ordering::Greater => false,
    }
}

/// Whether no item above index 0 passes where the next one fails.
fn stays_true(page: &InternalView<'_>, sought: &Sought<'_>) -> bool
    ensures { OnTrue result (IsMonotone (λ item. is_above sought.now.key.now item.key) page.now.items) }
{
    for i in 2..page.entries() {
        if sought.below(&page.item(i - 1)) && !sought.below(&page.item(i)) {
            return false;
        }
    }
    true
}

/// Whether a page is no internal page, or one on which a key can be sought by halves.
fn is_fit(linked: &Linked<'_>, number: u32, sought: &Sought<'_>) -> bool
    requires { number ≤ (file_of linked.now).last }
    ensures { OnTrue result (IsFit sought.now.key.now (page_at (file_of linked.now) number)) }
{
    match linked.page(number) {
        PageView::Internal(page) => stays_true(&page, sought),
        _ => true,
    }
}

/// Whether a key can be sought by halves on each internal page.
fn are_fit(linked: &Linked<'_>, sought: &Sought<'_>) -> bool
    ensures { OnTrue result (AllFit sought.now.key.now (file_of linked.now) ((file_of linked.now).last + 1)) }
{
    for number in 0..linked.head().last + 1 {
        if !is_fit(linked, number, sought) {
            return false;
        }
    }
    true
}

/// Whether the root is that of a tree with keys.
fn is_keyed(linked: &Linked<'_>, root: u32) -> bool
    requires { root ≤ (file_of linked.now).last }
    ensures { OnTrue result (IsTrue (has_type (3 ∷ 5 ∷ []) (type_in (page_at (file_of linked.now) root)))) }
{
    match linked.page(root) {
        PageView::Internal(_) | PageView::Leaf(_) => true,
        _ => false,
    }
}

/// The leaf to which a key leads, where it can be sought.
fn leaf_below<L: Ledger>(
    linked: &Linked<'_>,
    root: Ref<TreeRoot>,
    key: &[u8],
    steps: &mut Steps<L>,
) -> Option<u32>
    requires { FitsTreeRoot (file_of linked.now) root }
{
    let sought = Sought { key };
    if root.number() > linked.head().last
        || !is_keyed(linked, root.number())
        || !are_fit(linked, &sought)
    {
        return None;
    }
    Some(descend_by(linked, root, &sought, steps).number())
}

fn leaf_in<L: Ledger>(
    alloc: Global,
    image: &[u8; SIZE],
    key: &[u8],
    steps: &mut Steps<L>,
) -> Option<u32> {
    let linked = link(alloc, open_image(alloc, image).ok()?, steps).ok()?;
    if linked.metas() == 0 {
        return None;
    }
    match linked.meta(0).1 {
        Meta::Btree(meta) => leaf_below(&linked, linked.root(&meta), key, steps),
        _ => None,
    }
}

fn leaf_counted<L: Ledger>(
    alloc: Global,
    image: &[u8; SIZE],
    key: &[u8],
    blank: Blank,
) -> Option<u32>
    requires name { blank.name ≡ L.name }
    requires parts { blank.parts ≡ L.parts }
    requires one { L.parts ≡ 1 }
{
    let mut steps = Steps::<L>::new(blank);
    leaf_in(alloc, image, key, &mut steps)
}

fn leaf_of(alloc: Global, key: &str, order: Order) -> Option<u32> {
    let mut image = [0u8; SIZE];
    write(&mut image, &TREE, order);
    leaf_counted::<Brand>(alloc, &image, key.as_bytes(), Blank::new(1))
}

#[test]
fn leads_to_the_leaf_of_a_key(rt: HostRuntime) {
    for (key, leaf) in LEAVES {
        for order in [Order::Little, Order::Big] {
            assert_eq!(rt; leaf_of(rt.alloc(), key, order), Some(leaf), "{key}");
        }
    }
}
