ghost use Rattle.std.specs.Prelude.{◌≡◌, []};
ghost use Rattle.std.specs.List.{flat_map};
ghost use Rattle.std.specs.Iterator.{YieldsFirstBy, item_count};
ghost use Rattle.bdb_ranks.specs.of_format.Terms.{file_of, pairs_of, structure_faults, tree_pairs};
ghost use Rattle.bdb_ranks.specs.of_image.Linked.{FitsLeafPage, IsForest};
ghost use Rattle.bdb_btree.specs.Pairs.{AreLeaves, left_of, pair_seen};
ghost use Rattle.bdb_ranks.specs.of_tree.Trees.{IsRoot};

use crate::pair::Pair;
use bdb_ranks::{Forest, LeafKind, Leaves, PageView, tree_leaves};
use std::marker::Model;

/// The pairs of one leaf that are left, in order.
#[derive(Drop)]
pub struct PagePairs<'a> {
    forest: Forest<'a>,
    page: u32,
    pairs: bdb_ranks::PagePairs<'a, LeafKind>,
}

impl<'a> Model for PagePairs<'a> {
    ghost use Rattle.std.specs.Prelude.{List, map};
    ghost use Rattle.bdb_ranks.specs.of_format.Terms.{StoredPair, file_of};

    ghost Value = { List StoredPair };

    ghost use Rattle.bdb_btree.specs.Pairs.{KeysFit, stored_pair};

    ghost view = { λ v. map (stored_pair (file_of v.forest) v.page) v.pairs };

    ghost invariant = { λ v. KeysFit (file_of v.forest) v.pairs };
}

impl<'a> Iterator for PagePairs<'a> {
    type Item = Pair<'a>;

    ghost next_gives = { YieldsFirstBy pair_seen (λ left. left) };

    ghost remaining = { item_count (λ left. left) };

    fn next(&mut self) -> Option<Pair<'a>> {
        let pair = self.pairs.next()?;
        Some(Pair::of(&self.forest, self.page, pair))
    }
}

/// The pairs of a leaf, in order; none where it isn't one of pairs.
pub fn page_pairs<'a>(forest: &Forest<'a>, page: u32) -> Option<PagePairs<'a>>
    requires { FitsLeafPage (file_of forest.now) page }
    ensures pairs { left_of result ≡ pairs_of (file_of forest.now) page }
    ensures forest { IsForest forest.now }
{
    match forest.page(page) {
        PageView::Leaf(leaf) => Some(PagePairs {
            forest: forest.again(),
            page,
            pairs: leaf.iter(),
        }),
        _ => None,
    }
}

/// The next pair of a leaf, if there is one.
pub fn next_pair<'a>(pairs: &mut Option<PagePairs<'a>>) -> Option<Pair<'a>>
    ensures { YieldsFirstBy pair_seen left_of pairs.old result pairs.new }
{
    match pairs {
        Some(pairs) => pairs.next(),
        None => None,
    }
}

/// The pairs of a tree that are left, from left to right.
#[derive(Drop)]
pub(crate) struct Pairs<'a> {
    forest: Forest<'a>,
    here: Option<PagePairs<'a>>,
    leaves: Leaves<'a>,
}

impl<'a> Model for Pairs<'a> {
    ghost use Rattle.std.specs.Prelude.{List};
    ghost use Rattle.bdb_ranks.specs.of_format.Terms.{StoredPair, file_of};

    ghost Value = { List StoredPair };

    ghost use Rattle.bdb_btree.specs.Pairs.{AreLeaves, pairs_left};

    ghost view = { λ v. pairs_left (file_of v.forest) v.here v.leaves };

    ghost invariant = { λ v. AreLeaves (file_of v.forest) v.leaves };
}

/// The pairs of these leaves, in order.
pub(crate) fn pairs_over<'a>(forest: &Forest<'a>, leaves: Leaves<'a>) -> Pairs<'a>
    requires { AreLeaves (file_of forest.now) leaves }
    ensures { result ≡ flat_map (pairs_of (file_of forest.now)) leaves.entry }
{
    Pairs {
        forest: forest.again(),
        here: None,
        leaves,
    }
}

/// All pairs of a tree, from left to right.
#[tactic(auto, using(crate::proofs::WalkLemmas::are_leaves, crate::proofs::WalkLemmas::pairs_of_tree))]
pub(crate) fn tree_pairs<'a>(forest: &Forest<'a>, root: u32) -> Pairs<'a>
    requires root { IsRoot (file_of forest.now) root }
    requires stage { structure_faults (file_of forest.now) ≡ [] }
    ensures { result ≡ tree_pairs (file_of forest.now) root }
{
    pairs_over(forest, tree_leaves(forest, root))
}

impl<'a> Iterator for Pairs<'a> {
    type Item = Pair<'a>;

    ghost next_gives = { YieldsFirstBy pair_seen (λ left. left) };

    ghost remaining = { item_count (λ left. left) };

    #[tactic(auto, using(crate::proofs::WalkLemmas::next_leaf))]
    fn next(&mut self) -> Option<Pair<'a>> {
        loop {
            if let Some(pair) = next_pair(&mut self.here) {
                return Some(pair);
            }
            let leaf = self.leaves.next()?;
            self.here = page_pairs(&self.forest, leaf.number());
        }
    }
}
