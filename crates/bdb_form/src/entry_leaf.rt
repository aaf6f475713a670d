ghost use Rattle.std.specs.Prelude.{◌≡◌, ◌==◌, ℕ, List, not, false};
ghost use Rattle.bdb_layout.specs.of_format.declared.kinds.Order.{Order as AnyOrder};
ghost use Rattle.bdb_layout.specs.of_format.declared.pages.PageType.{PageType};
ghost use Rattle.bdb_layout.specs.of_format.declared.pages.PageType.TheVariants.{DupLeaf as DupLeafPage, RecnoLeaf as RecnoLeafPage};
ghost use Rattle.bdb_layout.specs.of_format.Terms.{is_wrong_entry_count, is_wrong_level, item_rows, leaf_end, leaf_item_at, leaf_rows};
ghost use Rattle.bdb_layout.specs.Seen.{leaf_item_seen};

use crate::{ContentKind, EndKind, IndexedView, ItemKind, PageKind};
use bdb_layout::{Content, FormRow, LeafItem, Order, known_leaf_item, leaf_end, leaf_row};
use std::marker::{Model, PhantomData};

/// What the entries of a leaf without keys are.
pub trait Entries {
    ghost page_type: { PageType };

    ghost are_leaves: { (level : ℕ) → is_wrong_level page_type level ≡ not (level == 1) };

    ghost have_any_count: { (entries : ℕ) → is_wrong_entry_count page_type entries ≡ false };

    ghost have_items: { (order : AnyOrder) (page : List ℕ) (index : ℕ) → item_rows page_type order page index ≡ leaf_rows order page index };
}

/// Records, or the data of a key in the order in which they came.
pub struct Records;

impl Entries for Records {
    ghost use Rattle.std.specs.Prelude.{refl};

    ghost page_type = { RecnoLeafPage };

    ghost are_leaves = { λ level. refl };

    ghost have_any_count = { λ entries. refl };

    ghost have_items = { λ order page index. refl };
}

/// The data of a key, sorted.
pub struct SortedData;

impl Entries for SortedData {
    ghost use Rattle.std.specs.Prelude.{refl};

    ghost page_type = { DupLeafPage };

    ghost are_leaves = { λ level. refl };

    ghost have_any_count = { λ entries. refl };

    ghost have_items = { λ order page index. refl };
}

/// A leaf of a recno tree, or of a tree of unsorted duplicates.
pub type RecnoLeafView<'a> = IndexedView<'a, EntryLeafKind<Records>>;

/// A leaf of a tree of sorted duplicates.
pub type DupLeafView<'a> = IndexedView<'a, EntryLeafKind<SortedData>>;

/// The leaves without keys.
#[derive(Drop)]
pub struct EntryLeafKind<E: Entries> {
    entries: PhantomData<E>,
}

impl<E: Entries> Model for EntryLeafKind<E> {
    ghost use Rattle.bdb_layout.specs.of_format.Terms.{Item, no_item};

    ghost Value = { Item };

    ghost view = { λ _. no_item };
}

impl<E: Entries> PageKind for EntryLeafKind<E> {
    ghost use Rattle.std.specs.Prelude.{false};
    ghost use Rattle.bdb_layout.specs.of_format.Terms.{no_item};

    ghost page_type = { E.page_type };

    ghost item_at = { leaf_item_at };

    ghost no_item = { no_item };

    const SHARES: bool = false;

    ghost SHARES = { false };

    fn is_wrong_level(level: u8) -> bool {
        level != 1
    }

    fn is_wrong_entry_count(_entries: u16) -> bool {
        false
    }

    fn item_row(page: &[u8], order: Order, index: u16) -> Option<FormRow> {
        leaf_row(page, order, index)
    }
}

impl<'a, E: Entries> ItemKind<'a> for EntryLeafKind<E> {
    type Item = LeafItem<'a>;

    ghost item_seen = { leaf_item_seen };

    fn known_item(page: &'a [u8], order: Order, index: u16) -> LeafItem<'a> {
        known_leaf_item(page, order, index)
    }
}

impl<'a, E: Entries> ContentKind<'a> for EntryLeafKind<E> {
    ghost content_of = { λ item. item.content };

    fn content(item: &LeafItem<'a>) -> Content<'a> {
        item.content()
    }
}

impl<E: Entries> EndKind for EntryLeafKind<E> {
    ghost least = { 3 };

    ghost end = { leaf_end };

    fn end_at(page: &[u8], order: Order, at: usize) -> usize {
        leaf_end(page, order, at)
    }
}
