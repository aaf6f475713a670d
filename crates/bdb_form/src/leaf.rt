ghost use Rattle.bdb_layout.specs.of_format.declared.pages.PageType.TheVariants.{Leaf as LeafPage};
ghost use Rattle.bdb_layout.specs.of_format.Terms.{leaf_end, leaf_item_at, no_item};
ghost use Rattle.bdb_layout.specs.Seen.{leaf_item_seen};

use crate::{ContentKind, EndKind, IndexedView, ItemKind, PageKind, PairKind};
use bdb_layout::{Content, FormRow, LeafItem, Order, known_leaf_item, leaf_end, leaf_row};
use std::marker::Model;

/// A leaf of a btree: pairs of a key and its data.
pub type LeafView<'a> = IndexedView<'a, LeafKind>;

/// The leaves of a btree.
#[derive(Drop)]
pub struct LeafKind;

impl Model for LeafKind {
    ghost use Rattle.bdb_layout.specs.of_format.Terms.{Item, no_item};

    ghost Value = { Item };

    ghost view = { λ _. no_item };
}

impl PageKind for LeafKind {
    ghost use Rattle.std.specs.Prelude.{true};

    ghost page_type = { LeafPage };

    ghost item_at = { leaf_item_at };

    ghost no_item = { no_item };

    const SHARES: bool = true;

    ghost SHARES = { true };

    fn is_wrong_level(level: u8) -> bool {
        level != 1
    }

    fn is_wrong_entry_count(entries: u16) -> bool {
        entries % 2 == 1
    }

    fn item_row(page: &[u8], order: Order, index: u16) -> Option<FormRow> {
        leaf_row(page, order, index)
    }
}

impl<'a> ItemKind<'a> for LeafKind {
    type Item = LeafItem<'a>;

    ghost item_seen = { leaf_item_seen };

    fn known_item(page: &'a [u8], order: Order, index: u16) -> LeafItem<'a> {
        known_leaf_item(page, order, index)
    }
}

impl EndKind for LeafKind {
    ghost least = { 3 };

    ghost end = { leaf_end };

    fn end_at(page: &[u8], order: Order, at: usize) -> usize {
        leaf_end(page, order, at)
    }
}

impl<'a> ContentKind<'a> for LeafKind {
    ghost content_of = { λ item. item.content };

    fn content(item: &LeafItem<'a>) -> Content<'a> {
        item.content()
    }
}

impl PairKind for LeafKind {
    ghost use Rattle.std.specs.Prelude.{refl};

    ghost stands_in_pairs = { λ entries. refl };
}
