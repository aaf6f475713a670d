ghost use Rattle.std.specs.Prelude.{◌≡◌};
ghost use Rattle.bdb_graph.specs.of_format.Terms.{file_of, value_of};
ghost use Rattle.bdb_graph.specs.of_layout.Seen.{leaf_item_seen};
ghost use Rattle.bdb_overflow.specs.Datum.{FitsContent, datum_seen};

use crate::{Datum, chain_pieces};
use bdb_graph::{Forest, LeafItem};

/// Whether an item of a leaf is marked deleted.
pub fn is_deleted(item: &LeafItem<'_>) -> bool
    ensures { result ≡ (leaf_item_seen item.now).deleted }
{
    match item {
        LeafItem::Inline { deleted, .. }
        | LeafItem::Duplicates { deleted, .. }
        | LeafItem::Overflow { deleted, .. } => *deleted,
    }
}

/// The value of an item of a leaf; a set off the page has none by itself, and so no bytes.
#[tactic(auto, unfolding(crate::specs::Below::value_of))]
pub fn value_of<'a>(forest: &Forest<'a>, item: &LeafItem<'a>) -> Datum<'a>
    requires { FitsContent (file_of forest.now) (leaf_item_seen item.now).content }
    ensures { datum_seen result ≡ value_of (file_of forest.now) (leaf_item_seen item.now).content }
{
    match item {
        LeafItem::Inline { bytes, .. } => Datum::Inline(bytes),
        LeafItem::Overflow { head, .. } => Datum::Chained(chain_pieces(forest, *head)),
        LeafItem::Duplicates { .. } => Datum::Inline(&[]),
    }
}
