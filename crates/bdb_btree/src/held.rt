ghost use Rattle.std.specs.Prelude.{◌≡◌, []};
ghost use Rattle.std.specs.Iterator.{YieldsFirstBy, item_count};
ghost use Rattle.bdb_ranks.specs.of_format.Terms.{file_of, structure_faults};
ghost use Rattle.bdb_ranks.specs.of_image.Linked.{FitsLeafPage, IsForest};
ghost use Rattle.bdb_btree.specs.Held.{items_of, pair_held, tree_items};
ghost use Rattle.bdb_btree.specs.Pairs.{AreLeaves, left_of};
ghost use Rattle.bdb_ranks.specs.of_tree.Trees.{IsRoot};

use bdb_ranks::{Forest, LeafItem, LeafKind, Leaves, PageView, tree_leaves};
use std::marker::Model;

/// A pair of a leaf, as its items hold it: of a key or a value in a chain they tell the head.
#[derive(Drop)]
pub struct HeldPair<'a> {
    /// The leaf that holds it.
    pub page: u32,
    pub key: LeafItem<'a>,
    pub value: LeafItem<'a>,
    /// Whether its key is that of the pair before it.
    pub shares: bool,
}

/// The pairs of one leaf that are left, in order.
#[derive(Drop)]
pub struct PageItems<'a> {
    page: u32,
    pairs: bdb_ranks::PagePairs<'a, LeafKind>,
}

impl<'a> Model for PageItems<'a> {
    ghost use Rattle.std.specs.Prelude.{List, map};
    ghost use Rattle.bdb_btree.specs.Held.{ItemPair, at_page};

    ghost Value = { List ItemPair };

    ghost view = { λ v. map (at_page v.page) v.pairs };
}

impl<'a> Iterator for PageItems<'a> {
    type Item = HeldPair<'a>;

    ghost next_gives = { YieldsFirstBy pair_held (λ left. left) };

    ghost remaining = { item_count (λ left. left) };

    #[inline(always)]
    fn next(&mut self) -> Option<HeldPair<'a>> {
        let pair = self.pairs.next()?;
        Some(HeldPair {
            page: self.page,
            key: pair.key,
            value: pair.value,
            shares: pair.shares,
        })
    }
}

/// The pairs of a leaf, in order; none where it isn't one of pairs.
#[tactic(auto, using(crate::proofs::Below::leaf_inside, crate::proofs::HeldLemmas::no_items))]
pub(crate) fn page_items<'a>(forest: &Forest<'a>, page: u32) -> Option<PageItems<'a>>
    requires { FitsLeafPage (file_of forest.now) page }
    ensures pairs { left_of result ≡ items_of (file_of forest.now) page }
    ensures forest { IsForest forest.now }
{
    match forest.page(page) {
        PageView::Leaf(leaf) => Some(PageItems {
            page,
            pairs: leaf.iter(),
        }),
        _ => None,
    }
}

/// The next pair of a leaf, if there is one.
#[inline(always)]
fn next_pair<'a>(pairs: &mut Option<PageItems<'a>>) -> Option<HeldPair<'a>>
    ensures { YieldsFirstBy pair_held left_of pairs.old result pairs.new }
{
    match pairs {
        Some(pairs) => pairs.next(),
        None => None,
    }
}

/// The pairs of a tree that are left, from left to right.
#[derive(Drop)]
pub struct HeldPairs<'a> {
    forest: Forest<'a>,
    here: Option<PageItems<'a>>,
    leaves: Leaves<'a>,
}

impl<'a> Model for HeldPairs<'a> {
    ghost use Rattle.std.specs.Prelude.{List};
    ghost use Rattle.bdb_ranks.specs.of_format.Terms.{file_of};
    ghost use Rattle.bdb_btree.specs.Held.{ItemPair, items_left};
    ghost use Rattle.bdb_btree.specs.Pairs.{AreLeaves};

    ghost Value = { List ItemPair };

    ghost view = { λ v. items_left (file_of v.forest) v.here v.leaves };

    ghost invariant = { λ v. AreLeaves (file_of v.forest) v.leaves };
}

/// All pairs of a tree, from left to right.
#[tactic(auto, using(crate::proofs::WalkLemmas::are_leaves))]
pub(crate) fn tree_items<'a>(forest: &Forest<'a>, root: u32) -> HeldPairs<'a>
    requires root { IsRoot (file_of forest.now) root }
    requires stage { structure_faults (file_of forest.now) ≡ [] }
    ensures { result ≡ tree_items (file_of forest.now) root }
{
    HeldPairs {
        forest: forest.again(),
        here: None,
        leaves: tree_leaves(forest, root),
    }
}

impl<'a> Iterator for HeldPairs<'a> {
    type Item = HeldPair<'a>;

    ghost next_gives = { YieldsFirstBy pair_held (λ left. left) };

    ghost remaining = { item_count (λ left. left) };

    #[inline(always)]
    #[tactic(auto, using(crate::proofs::HeldLemmas::next_items))]
    fn next(&mut self) -> Option<HeldPair<'a>> {
        loop {
            if let Some(pair) = next_pair(&mut self.here) {
                return Some(pair);
            }
            let leaf = self.leaves.next()?;
            self.here = page_items(&self.forest, leaf.number());
        }
    }
}
