ghost use Rattle.std.specs.Prelude.{◌≡◌, ◌<◌, ◌≤◌, ℕ, List, length, slice_get, slice_index, Some, None, ◌&&◌, Bool};
ghost use Rattle.std.specs.Option.{option_map};
ghost use Rattle.bdb_layout.specs.of_format.declared.kinds.Order.{Order as AnyOrder};
ghost use Rattle.bdb_layout.specs.of_format.declared.pages.PageType.{PageType};
ghost use Rattle.bdb_layout.specs.of_format.Terms.{entries_of, first_row, header_of, index_end, is_shared_key, is_wrong_entry_count, is_wrong_level, item_rows};
ghost use Rattle.bdb_layout.specs.of_format.Terms.{listed, listed_code};
ghost use Rattle.bdb_layout.specs.ItemRows.{item_form};

use bdb_layout::{FormRow, Header, Order, header, u16_at};
use std::marker::{Model, PhantomData};

/// A type of pages with an index: what is tested of them, and how an item is read. In the definitions the
/// type itself stands for what an item is.
pub trait PageKind {
    ghost page_type: { PageType };

    ghost item_at: { AnyOrder → List ℕ → ℕ → Self };

    // What stands for an item that isn't there.
    ghost no_item: { Self };

    /// Whether an entry may be the key of the pair before it once more, by one offset for both.
    const SHARES: bool;

    ghost SHARES: { Bool };

    /// Whether a page of this type has another level.
    fn is_wrong_level(level: u8) -> bool
        ensures { result ≡ is_wrong_level page_type level };

    /// Whether a page of this type has another number of entries.
    fn is_wrong_entry_count(entries: u16) -> bool
        ensures { result ≡ is_wrong_entry_count page_type entries };

    /// The first row that holds for an item, if one does.
    fn item_row(page: &[u8], order: Order, index: u16) -> Option<FormRow>
        requires room { index_end order page.now ≤ length page.now }
        requires entry { index < entries_of order page.now }
        ensures { result ≡ option_map item_form (first_row (item_rows page_type order page.now index)) };
}

/// A type of pages with an index, whose items are lent from the page.
pub trait ItemKind<'a>: PageKind {
    /// An item.
    type Item: Drop;

    ghost item_seen: { Self.Item → Self };

    /// An item with which nothing is known to be wrong.
    fn known_item(page: &'a [u8], order: Order, index: u16) -> Self::Item
        requires room { index_end order page.now ≤ length page.now }
        requires entry { index < entries_of order page.now }
        requires sound { first_row (item_rows Self.page_type order page.now index) ≡ None }
        ensures { item_seen result ≡ Self.item_at order page.now index };
}

/// A page with an index, of which no row of form holds.
#[derive(Drop)]
pub struct IndexedView<'a, K: PageKind> {
    pub(crate) page: &'a [u8],
    pub(crate) order: Order,
    kind: PhantomData<K>,
}

impl<'a, K: PageKind> Model for IndexedView<'a, K> {
    ghost use Rattle.bdb_form.specs.Formed.{IsListed};
    ghost use Rattle.bdb_layout.specs.of_format.Terms.{Listed, listed};

    ghost Value = { Listed K };

    ghost view = { λ v. listed v.order v.page.now (K.item_at v.order v.page.now) };

    ghost invariant = { λ v. IsListed K.page_type v.order v.page.now };
}

#[tactic(auto, using(crate::proofs::FormedLemmas::indexed_over))]
impl<'a, K: PageKind> IndexedView<'a, K> {
    // The view of a page of this type for which no row of form holds.
    pub(crate) fn over(page: &'a [u8], order: Order) -> IndexedView<'a, K>
        requires header { 26 ≤ length page.now }
        requires size { length page.now ≤ 32768 }
        requires formed { listed_code order page.now K.page_type ≡ None }
        ensures page { result ≡ listed order page.now (K.item_at order page.now) }
        ensures header { result.header ≡ header_of order page.now }
    {
        IndexedView {
            page,
            order,
            kind: PhantomData,
        }
    }

    /// The same view once more.
    pub fn again(&self) -> IndexedView<'a, K>
        ensures { result ≡ self.now }
    {
        IndexedView {
            page: self.page,
            order: self.order,
            kind: PhantomData,
        }
    }

    /// The fields of the page's header.
    pub fn header(&self) -> Header
        ensures { result ≡ self.now.header }
    {
        header(self.page, self.order)
    }

    /// How many items there are, deleted ones too; an internal page has at least one.
    pub fn entries(&self) -> u16
        ensures { result ≡ length self.now.items }
    {
        u16_at(self.page, 20, self.order)
    }

    // An entry of the index.
    pub(crate) fn offset(&self, index: usize) -> u16
        requires { index < length self.now.items }
        ensures { result ≡ slice_index self.now.offsets index }
    {
        u16_at(self.page, 26 + 2 * index, self.order)
    }

    /// Whether an entry is the key of the pair before it once more.
    pub fn is_shared(&self, index: u16) -> bool
        requires { index < length self.now.items }
        ensures { result ≡ (K.SHARES && is_shared_key self.now.offsets index) }
    {
        let i = usize::from(index);
        K::SHARES && i % 2 == 0 && i >= 2 && self.offset(i) == self.offset(i - 2)
    }
}

#[tactic(auto, using(crate::proofs::FormedLemmas::indexed_item))]
impl<'a, K: ItemKind<'a>> IndexedView<'a, K> {
    /// An item; the key of the first of an internal page is never compared.
    pub fn item(&self, i: u16) -> K::Item
        requires { i < length self.now.items }
        ensures { slice_get self.now.items i ≡ Some (K.item_seen result) }
    {
        self.item_at(usize::from(i))
    }

    // The same of a place that is known to be on the page.
    pub(crate) fn item_at(&self, index: usize) -> K::Item
        requires { index < length self.now.items }
        ensures { slice_get self.now.items index ≡ Some (K.item_seen result) }
    {
        K::known_item(self.page, self.order, index as u16)
    }
}
