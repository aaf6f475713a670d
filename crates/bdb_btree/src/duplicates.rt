ghost use Rattle.std.specs.Prelude.{◌≡◌};
ghost use Rattle.bdb_btree.specs.Held.{pair_held, without_key};
ghost use Rattle.bdb_btree.specs.Pairs.{FitsSet};
ghost use Rattle.bdb_ranks.specs.of_layout.Seen.{leaf_item_seen};
ghost use Rattle.bdb_ranks.specs.of_format.Terms.{file_of, is_duplicate, is_wrong_set};

use crate::held::HeldPair;
use bdb_ranks::{Forest, LeafItem, is_wrong_root};

/// Whether only a database with duplicates may have a pair: it shares its key, or its data is a set.
pub(crate) fn is_duplicate(pair: &HeldPair<'_>) -> bool
    ensures { result ≡ is_duplicate (without_key (pair_held pair.now)) }
{
    pair.shares || matches!(pair.value, LeafItem::Duplicates { .. })
}

/// Whether the data of a pair is a set of the wrong kind.
pub(crate) fn is_wrong_set(forest: &Forest<'_>, sorted: bool, pair: &HeldPair<'_>) -> bool
    requires { FitsSet (file_of forest.now) (leaf_item_seen pair.now.value).content }
    ensures { result ≡ is_wrong_set (file_of forest.now) sorted (leaf_item_seen pair.now.value).content }
{
    // What it ensures: the pages are a forest.
    forest.head();
    match pair.value {
        LeafItem::Duplicates { root, .. } => is_wrong_root(&forest.page(root), sorted),
        LeafItem::Inline { .. } | LeafItem::Overflow { .. } => false,
    }
}
