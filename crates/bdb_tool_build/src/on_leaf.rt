//! Where the items that are put into a run stand on their leaves. No clause speaks of it, since what is found there is compared.
ghost use Rattle.std.specs.Prelude.{◌≡◌, []};
ghost use Rattle.bdb_model.specs.of_format.Terms.{file_of, structure_faults};
ghost use Rattle.bdb_ranks.specs.of_tree.Trees.{IsRoot};

use bdb_model::Order;
use bdb_ranks::{Forest, Leaves, tree_leaves, u32_at};
use bdb_text_format::PageRoom;

// The number in two bytes of a page; 0 where it ends before.
fn u16_in(page: &[u8], at: usize, order: Order) -> u16 {
    if page.len() < 4 || at > page.len() - 4 {
        return 0;
    }
    let number = u32_at(page, at, order);
    match order {
        Order::Big => (number >> 16) as u16,
        Order::Little => (number % 65_536) as u16,
    }
}

// The bytes of a page; none where the image has none there.
fn bytes_of<'a>(forest: &Forest<'a>, number: u32) -> &'a [u8] {
    let size = forest.head().page_size as usize;
    let first = (number as usize).saturating_mul(size);
    match forest.image().get(first..first.saturating_add(size)) {
        Some(bytes) => bytes,
        None => &[],
    }
}

/// A leaf whose items are put into a run, and which one is next.
#[derive(Clone, Copy)]
pub(crate) struct OnLeaf<'a> {
    bytes: &'a [u8],
    order: Order,
    next: usize,
    pub(crate) room: PageRoom,
}

impl<'a> OnLeaf<'a> {
    // No leaf.
    fn none() -> OnLeaf<'a> {
        OnLeaf {
            bytes: &[],
            order: Order::Little,
            next: 0,
            room: PageRoom::new(0),
        }
    }

    /// A leaf, with its first item next.
    pub(crate) fn of(forest: &Forest<'a>, number: u32) -> OnLeaf<'a> {
        let bytes = bytes_of(forest, number);
        OnLeaf {
            bytes,
            order: forest.head().order,
            next: 0,
            room: PageRoom::new(bytes.len()),
        }
    }

    /// Its bytes.
    pub(crate) fn bytes(&self) -> &'a [u8] {
        self.bytes
    }

    // How many entries it has.
    fn entries(&self) -> usize {
        usize::from(u16_in(self.bytes, 20, self.order))
    }

    /// Goes to the item after the next one.
    pub(crate) fn step(&mut self) {
        self.next = self.next.saturating_add(1);
    }

    /// Where on the leaf the bytes of the next item begin, behind those of its length and its kind.
    pub(crate) fn begin(&self) -> usize {
        let at = self.next.saturating_mul(2).saturating_add(26);
        usize::from(u16_in(self.bytes, at, self.order)).saturating_add(3)
    }
}

// The next leaf with an entry; after the last one no bytes.
fn next_leaf<'a>(forest: &Forest<'a>, leaves: &mut Leaves<'a>) -> OnLeaf<'a> {
    for leaf in leaves {
        let on = OnLeaf::of(forest, leaf.number());
        if on.entries() > 0 {
            return on;
        }
    }
    OnLeaf::none()
}

/// The leaves of a tree, beside a walk over its entries: on which of them the next entry stands.
#[derive(Drop)]
pub(crate) struct BesideEntries<'a> {
    forest: Forest<'a>,
    leaves: Leaves<'a>,
    // How many entries of the leaf are left.
    left: usize,
    pub(crate) leaf: OnLeaf<'a>,
}

impl<'a> BesideEntries<'a> {
    /// Before the first entry of a tree.
    pub(crate) fn over(forest: &Forest<'a>, root: u32) -> BesideEntries<'a>
        requires root { IsRoot (file_of forest.now) root }
        requires stage { structure_faults (file_of forest.now) ≡ [] }
    {
        BesideEntries {
            forest: forest.again(),
            leaves: tree_leaves(forest, root),
            left: 0,
            leaf: OnLeaf::none(),
        }
    }

    /// Goes to the next entry.
    pub(crate) fn turn(&mut self) {
        self.leaf.step();
        if self.left == 0 {
            self.leaf = next_leaf(&self.forest, &mut self.leaves);
            self.left = self.leaf.entries();
        }
        self.left = self.left.saturating_sub(1);
    }
}
