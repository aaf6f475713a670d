ghost use Rattle.std.specs.Prelude.{◌≡◌};
ghost use Rattle.std.specs.Option.{option_map};
ghost use Rattle.bdb_graph.specs.of_layout.Seen.{content_seen, hash_content_seen, key_seen, leaf_item_seen};
ghost use Rattle.bdb_graph.specs.of_format.Terms.{file_of, value_of};
ghost use Rattle.bdb_overflow.specs.Datum.{FitsContent, datum_seen, single_value};

use crate::{Datum, chain_pieces};
use bdb_graph::{Content, Forest, HashItem, InternalKey, LeafItem};

/// The value of what an item holds; a set, on or off the page, is none.
#[tactic(auto, unfolding(crate::specs::Below::value_of))]
pub fn content_datum<'a>(forest: &Forest<'a>, content: &Content<'a>) -> Option<Datum<'a>>
    requires { FitsContent (file_of forest.now) (content_seen content.now) }
    ensures { option_map datum_seen result ≡ single_value (file_of forest.now) (content_seen content.now) }
{
    match content {
        Content::Inline(bytes) => Some(Datum::Inline(bytes)),
        Content::Overflow { head, .. } => Some(Datum::Chained(chain_pieces(forest, *head))),
        Content::Set(_) | Content::OffPage { .. } => None,
    }
}

/// The value of an item of a leaf; a set off the page is none.
pub fn leaf_datum<'a>(forest: &Forest<'a>, item: &LeafItem<'a>) -> Option<Datum<'a>>
    requires { FitsContent (file_of forest.now) (leaf_item_seen item.now).content }
    ensures { option_map datum_seen result ≡ single_value (file_of forest.now) (leaf_item_seen item.now).content }
{
    content_datum(forest, &item.content())
}

/// The value of an item of a hash page; a set, on or off the page, is none.
pub fn hash_datum<'a>(forest: &Forest<'a>, item: &HashItem<'a>) -> Option<Datum<'a>>
    requires { FitsContent (file_of forest.now) (hash_content_seen item.now) }
    ensures { option_map datum_seen result ≡ single_value (file_of forest.now) (hash_content_seen item.now) }
{
    content_datum(forest, &item.content())
}

/// The key of an item of an internal page.
#[tactic(auto, unfolding(crate::specs::Below::value_of))]
pub fn key_datum<'a>(forest: &Forest<'a>, key: &InternalKey<'a>) -> Datum<'a>
    requires { FitsContent (file_of forest.now) (key_seen key.now) }
    ensures { datum_seen result ≡ value_of (file_of forest.now) (key_seen key.now) }
{
    match key {
        InternalKey::Inline(bytes) => Datum::Inline(bytes),
        InternalKey::Overflow { head, .. } => Datum::Chained(chain_pieces(forest, *head)),
    }
}
