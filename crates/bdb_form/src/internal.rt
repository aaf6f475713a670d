ghost use Rattle.bdb_layout.specs.of_format.declared.pages.PageType.TheVariants.{Internal as InternalPage};
ghost use Rattle.bdb_layout.specs.of_format.Terms.{internal_end, internal_item_at};
ghost use Rattle.bdb_layout.specs.Seen.{internal_item_seen};

use crate::{ContentKind, EndKind, IndexedView, ItemKind, PageKind};
use bdb_layout::{
    Content, FormRow, InternalItem, Order, internal_end, internal_row, known_internal_item,
};
use std::marker::Model;

/// An internal page of a btree, or of a tree of sorted duplicates.
pub type InternalView<'a> = IndexedView<'a, InternalKind>;

/// The internal pages of a btree, and of a tree of sorted duplicates.
#[derive(Drop)]
pub struct InternalKind;

impl Model for InternalKind {
    ghost use Rattle.bdb_layout.specs.of_format.Terms.{InternalItem, Unknown};

    ghost Value = { InternalItem };

    ghost view = { λ _. record { child = 0; count = 0; key = Unknown } };
}

impl PageKind for InternalKind {
    ghost use Rattle.std.specs.Prelude.{false};
    ghost use Rattle.bdb_layout.specs.of_format.Terms.{Unknown};

    ghost page_type = { InternalPage };

    ghost item_at = { internal_item_at };

    ghost no_item = { record { child = 0; count = 0; key = Unknown } };

    const SHARES: bool = false;

    ghost SHARES = { false };

    fn is_wrong_level(level: u8) -> bool {
        level < 2
    }

    fn is_wrong_entry_count(entries: u16) -> bool {
        entries == 0
    }

    fn item_row(page: &[u8], order: Order, index: u16) -> Option<FormRow> {
        internal_row(page, order, index)
    }
}

impl<'a> ItemKind<'a> for InternalKind {
    type Item = InternalItem<'a>;

    ghost item_seen = { internal_item_seen };

    fn known_item(page: &'a [u8], order: Order, index: u16) -> InternalItem<'a> {
        known_internal_item(page, order, index)
    }
}

impl EndKind for InternalKind {
    ghost least = { 12 };

    ghost end = { internal_end };

    fn end_at(page: &[u8], order: Order, at: usize) -> usize {
        internal_end(page, order, at)
    }
}

impl<'a> ContentKind<'a> for InternalKind {
    ghost content_of = { λ item. item.key };

    fn content(item: &InternalItem<'a>) -> Content<'a> {
        item.key.content()
    }
}
