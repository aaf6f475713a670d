ghost use Rattle.bdb_layout.specs.of_format.declared.pages.PageType.TheVariants.{Hash as HashPage};
ghost use Rattle.bdb_layout.specs.of_format.Terms.{hash_item_at};
ghost use Rattle.bdb_layout.specs.Seen.{hash_item_seen};

use crate::{ContentKind, IndexedView, ItemKind, PageKind, PairKind};
use bdb_layout::{Content, FormRow, HashItem, Order, hash_row, known_hash_item};
use std::marker::Model;

/// A page of a hash table: pairs of a key and its data.
pub type HashView<'a> = IndexedView<'a, HashKind>;

/// The pages of a hash table.
#[derive(Drop)]
pub struct HashKind;

impl Model for HashKind {
    ghost use Rattle.bdb_layout.specs.of_format.Terms.{Item, no_item};

    ghost Value = { Item };

    ghost view = { λ _. no_item };
}

impl PageKind for HashKind {
    ghost use Rattle.std.specs.Prelude.{false};
    ghost use Rattle.bdb_layout.specs.of_format.Terms.{no_item};

    ghost page_type = { HashPage };

    ghost item_at = { hash_item_at };

    ghost no_item = { no_item };

    const SHARES: bool = false;

    ghost SHARES = { false };

    fn is_wrong_level(_level: u8) -> bool {
        false
    }

    fn is_wrong_entry_count(entries: u16) -> bool {
        entries % 2 == 1
    }

    fn item_row(page: &[u8], order: Order, index: u16) -> Option<FormRow> {
        hash_row(page, order, index)
    }
}

impl<'a> ItemKind<'a> for HashKind {
    type Item = HashItem<'a>;

    ghost item_seen = { hash_item_seen };

    fn known_item(page: &'a [u8], order: Order, index: u16) -> HashItem<'a> {
        known_hash_item(page, order, index)
    }
}

impl PairKind for HashKind {
    ghost use Rattle.std.specs.Prelude.{refl};

    ghost stands_in_pairs = { λ entries. refl };
}

impl<'a> ContentKind<'a> for HashKind {
    ghost content_of = { λ item. item.content };

    fn content(item: &HashItem<'a>) -> Content<'a> {
        item.content()
    }
}
