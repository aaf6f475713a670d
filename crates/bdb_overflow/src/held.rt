ghost use Rattle.std.specs.Prelude.{◌≡◌};
ghost use Rattle.bdb_graph.specs.of_format.Terms.{File, file_of, value_of};
ghost use Rattle.bdb_graph.specs.of_layout.Seen.{key_seen, leaf_item_seen};
ghost use Rattle.bdb_overflow.specs.Datum.{FitsContent, datum_seen};
ghost use Rattle.bdb_overflow.specs.Held.{FitsHeld, value_held};

use crate::{Datum, chain_pieces};
use bdb_graph::{Forest, InternalKey, LeafItem};

/// A value as an item holds it: bytes of its page, or the head of its chain.
#[derive(Clone, Copy, Debug)]
pub enum Held<'a> {
    Inline(&'a [u8]),
    Chained(u32),
}

impl<'a> Held<'a> {
    /// The value in its file.
    pub fn datum(&self, forest: &Forest<'a>) -> Datum<'a>
        requires { FitsHeld (file_of forest.now) self.now }
        ensures { datum_seen result ≡ value_held (file_of forest.now) self.now }
    {
        match self {
            Held::Inline(bytes) => Datum::Inline(bytes),
            Held::Chained(head) => Datum::Chained(chain_pieces(forest, *head)),
        }
    }
}

/// What an item of a leaf holds; a set off the page has no value by itself, and so no bytes.
#[tactic(auto, unfolding(crate::specs::Below::value_of))]
pub fn leaf_held<'a>(item: &LeafItem<'a>) -> Held<'a>
    ensures value { (file : File) → value_held file result ≡ value_of file (leaf_item_seen item.now).content }
    ensures fits { (file : File) → FitsContent file (leaf_item_seen item.now).content → FitsHeld file result }
{
    match *item {
        LeafItem::Inline { bytes, .. } => Held::Inline(bytes),
        LeafItem::Overflow { head, .. } => Held::Chained(head),
        LeafItem::Duplicates { .. } => Held::Inline(&[]),
    }
}

/// What the key of an item of an internal page holds.
#[tactic(auto, unfolding(crate::specs::Below::value_of))]
pub fn key_held<'a>(key: &InternalKey<'a>) -> Held<'a>
    ensures value { (file : File) → value_held file result ≡ value_of file (key_seen key.now) }
    ensures fits { (file : File) → FitsContent file (key_seen key.now) → FitsHeld file result }
{
    match *key {
        InternalKey::Inline(bytes) => Held::Inline(bytes),
        InternalKey::Overflow { head, .. } => Held::Chained(head),
    }
}
