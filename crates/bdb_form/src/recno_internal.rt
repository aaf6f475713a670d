ghost use Rattle.bdb_layout.specs.of_format.declared.pages.PageType.TheVariants.{RecnoInternal as RecnoInternalPage};
ghost use Rattle.bdb_layout.specs.of_format.Terms.{recno_end, recno_item_at};

use crate::{EndKind, IndexedView, ItemKind, PageKind};
use bdb_layout::{FormRow, Order, RecnoItem, known_recno_item, recno_end, recno_row};
use std::marker::Model;

/// An internal page of a recno tree, or of a tree of unsorted duplicates.
pub type RecnoInternalView<'a> = IndexedView<'a, RecnoInternalKind>;

/// The internal pages of a recno tree, and of a tree of unsorted duplicates.
#[derive(Drop)]
pub struct RecnoInternalKind;

impl Model for RecnoInternalKind {
    ghost use Rattle.bdb_layout.specs.of_format.declared.pages.RecnoItem.{RecnoItem};

    ghost Value = { RecnoItem };

    ghost view = { λ _. record { child = 0; count = 0 } };
}

impl PageKind for RecnoInternalKind {
    ghost use Rattle.std.specs.Prelude.{false};

    ghost page_type = { RecnoInternalPage };

    ghost item_at = { recno_item_at };

    ghost no_item = { record { child = 0; count = 0 } };

    const SHARES: bool = false;

    ghost SHARES = { false };

    fn is_wrong_level(level: u8) -> bool {
        level < 2
    }

    fn is_wrong_entry_count(entries: u16) -> bool {
        entries == 0
    }

    fn item_row(page: &[u8], order: Order, index: u16) -> Option<FormRow> {
        recno_row(page, order, index)
    }
}

impl<'a> ItemKind<'a> for RecnoInternalKind {
    type Item = RecnoItem;

    ghost item_seen = { λ item. item };

    fn known_item(page: &'a [u8], order: Order, index: u16) -> RecnoItem {
        known_recno_item(page, order, index)
    }
}

impl EndKind for RecnoInternalKind {
    ghost least = { 8 };

    ghost end = { recno_end };

    fn end_at(_page: &[u8], _order: Order, at: usize) -> usize {
        recno_end(at)
    }
}
