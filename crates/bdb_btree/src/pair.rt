ghost use Rattle.std.specs.Prelude.{◌≡◌, ◌*◌, ◌<◌, ◌≤◌, length};
ghost use Rattle.bdb_ranks.specs.of_format.Terms.{Leaf, file_of, item_at, page_at, value_of};
ghost use Rattle.bdb_ranks.specs.of_form.Pairs.{pair_seen as view_seen};
ghost use Rattle.bdb_ranks.specs.of_image.Linked.{IsForest};
ghost use Rattle.bdb_btree.specs.Pairs.{pair_seen, stored_pair};
ghost use Rattle.bdb_ranks.specs.of_overflow.Datum.{FitsContent};
ghost use Rattle.bdb_ranks.specs.of_overflow.Held.{FitsHeld, value_held};
ghost use Rattle.bdb_ranks.specs.of_layout.Seen.{leaf_item_seen};

use bdb_ranks::{Datum, Forest, Held, LeafItem, LeafView, is_deleted, leaf_held, value_of};

/// A pair of a leaf, where it lies.
#[derive(Drop)]
pub struct Pair<'a> {
    /// The leaf that holds it.
    pub page: u32,
    pub key: Datum<'a>,
    /// What its data item is.
    pub item: LeafItem<'a>,
    /// Whether its data item isn't marked deleted.
    pub live: bool,
    /// Whether its key is that of the pair before it.
    pub shares: bool,
}

impl<'a> Pair<'a> {
    /// A pair as the view of its leaf gives it.
    pub(crate) fn of(
        forest: &Forest<'a>,
        page: u32,
        pair: bdb_ranks::Pair<LeafItem<'a>>,
    ) -> Pair<'a>
        requires { FitsContent (file_of forest.now) (leaf_item_seen pair.key).content }
        ensures { pair_seen result ≡ stored_pair (file_of forest.now) page (view_seen leaf_item_seen pair.entry) }
    {
        Pair {
            page,
            key: value_of(forest, &pair.key),
            live: !is_deleted(&pair.value),
            item: pair.value,
            shares: pair.shares,
        }
    }
}

/// The key alone of a pair of a leaf, by its place there from 0.
#[tactic(auto, using(crate::proofs::Below::read_item, crate::proofs::Below::leaf_item_fits))]
pub(crate) fn key_at<'a>(forest: &Forest<'a>, page: u32, leaf: &LeafView<'a>, i: u16) -> Held<'a>
    requires forest { IsForest forest.now }
    requires inside { page ≤ (file_of forest.now).last }
    requires leaf { page_at (file_of forest.now) page ≡ Leaf leaf.now }
    requires pair { 2 * i < length leaf.now.items }
    ensures key { value_held (file_of forest.now) result ≡ value_of (file_of forest.now) (item_at leaf.now (2 * i)).content }
    ensures fits { FitsHeld (file_of forest.now) result }
{
    leaf_held(&leaf.key(i))
}
