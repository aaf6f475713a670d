ghost use Rattle.std.specs.Prelude.{◌≡◌, ◌==◌, ◌≤◌, IfOk, IsTrue, length};
ghost use Rattle.std.specs.Bool.{OnTrue};
ghost use Rattle.bdb_form.specs.of_format.Terms.{byte_at, is_page_size};
ghost use Rattle.bdb_form.specs.of_layout.Seen.{HasOrder, hash_content_seen, internal_item_seen, leaf_item_seen};
ghost use Rattle.bdb_pack.specs.Items.{OnHash, OnInternal, OnLeaf, OnRecno, takes_items};
ghost use Rattle.bdb_pack.specs.Placing.{CanShare};
ghost use Rattle.bdb_pack_tests.specs.Sheet.{HasPairs, Takes};

use bdb_form::{HashItem, Header, InternalItem, LeafItem, Order, RecnoItem, u16_at};
use bdb_pack::Pages;
use std::alloc::{AllocError, Global};
use std::marker::Model;

/// Page 1 of a file that is being built, to which items are added while they have their place and room.
#[derive(Drop)]
pub struct Sheet {
    pages: Pages,
}

impl Model for Sheet {
    ghost use Rattle.bdb_pack.specs.Built.{Built};
    ghost use Rattle.bdb_pack_tests.specs.Sheet.{IsSheet};

    ghost Value = { Built };

    ghost view = { λ s. s.pages };

    ghost invariant = { λ s. IsSheet s.pages };
}

impl Sheet {
    /// A page with a header, without an item yet.
    pub fn new(
        alloc: Global,
        page_size: u32,
        order: Order,
        header: &Header,
    ) -> Result<Sheet, AllocError>
        requires legal { IsTrue (is_page_size page_size) }
        requires takes { IsTrue (takes_items header.now.page_type) }
        ensures { IfOk result (λ sheet. sheet.order ≡ order) }
    {
        let mut pages = Pages::new(alloc, page_size, order);
        pages.add()?;
        let number = pages.add()?;
        prove!(header.number <= u32::MAX);
        prove!(header.previous <= u32::MAX);
        prove!(header.next <= u32::MAX);
        pages.begin(number, header);
        Ok(Sheet { pages })
    }

    /// How many bytes are free.
    pub fn room(&self) -> u32 {
        self.pages.room(1)
    }

    /// The bytes of the page.
    pub fn page(&self) -> &[u8]
        ensures { IsTrue (is_page_size (length result.now)) }
    {
        self.pages.page(1)
    }

    /// Adds an item of a leaf, and answers whether it has its place and room.
    pub fn add_leaf(&mut self, item: &LeafItem<'_>) -> bool
        ensures { self.new.order ≡ self.old.order }
    {
        let order = self.pages.order();
        if !takes_leaf(self.pages.page(1), order, item) || !self.pages.has_room_for_leaf(1, item) {
            return false;
        }
        self.pages.append_leaf(1, item);
        true
    }

    /// Adds an item of an internal page of a btree.
    pub fn add_internal(&mut self, item: &InternalItem<'_>) -> bool
        ensures { self.new.order ≡ self.old.order }
    {
        if !has_type(self.pages.page(1), 3) || !self.pages.has_room_for_internal(1, item) {
            return false;
        }
        self.pages.append_internal(1, item);
        true
    }

    /// Adds an item of an internal page of a recno tree.
    pub fn add_recno(&mut self, item: &RecnoItem) -> bool
        ensures { self.new.order ≡ self.old.order }
    {
        if !has_type(self.pages.page(1), 4) || !self.pages.has_room_for_recno(1, item) {
            return false;
        }
        self.pages.append_recno(1, item);
        true
    }

    /// Adds an item of a hash page.
    pub fn add_hash(&mut self, item: &HashItem<'_>) -> bool
        requires { HasOrder self.old.order item.now }
        ensures { self.new.order ≡ self.old.order }
    {
        let order = self.pages.order();
        if !takes_hash(self.pages.page(1), order, item) || !self.pages.has_room_for_hash(1, item) {
            return false;
        }
        self.pages.append_hash(1, item);
        true
    }

    /// Adds the key of the last pair once more, and answers whether the page has one, and room for an entry.
    pub fn share(&mut self) -> bool
        ensures { self.new.order ≡ self.old.order }
    {
        let order = self.pages.order();
        if self.pages.room(1) < 2 || !has_pairs(self.pages.page(1), order) {
            return false;
        }
        self.pages.append_shared(1);
        true
    }
}

// Whether a page is of a type.
fn has_type(page: &[u8], page_type: u8) -> bool
    requires { 26 ≤ length page.now }
    ensures { result ≡ (byte_at page.now 25 == page_type) }
{
    page[25] == page_type
}

// Whether a page takes an item of a leaf.
fn takes_leaf(page: &[u8], order: Order, item: &LeafItem<'_>) -> bool
    requires { 26 ≤ length page.now }
    ensures { OnTrue result (Takes order page.now (OnLeaf (leaf_item_seen item.now))) }
{
    let page_type = page[25];
    if page_type != 5 && page_type != 6 && page_type != 12 {
        return false;
    }
    match *item {
        LeafItem::Inline { .. } => true,
        LeafItem::Overflow { .. } => true,
        LeafItem::Duplicates { .. } => page_type == 5 && u16_at(page, 20, order) % 2 == 1,
    }
}

// Whether a page takes an item of a hash page.
fn takes_hash(page: &[u8], order: Order, item: &HashItem<'_>) -> bool
    requires { 26 ≤ length page.now }
    ensures { OnTrue result (Takes order page.now (OnHash (hash_content_seen item.now))) }
{
    if page[25] != 2 && page[25] != 13 {
        return false;
    }
    match item {
        HashItem::Inline(_) => true,
        HashItem::Overflow { .. } => true,
        HashItem::Set(_) => u16_at(page, 20, order) % 2 == 1,
        HashItem::OffPage { .. } => u16_at(page, 20, order) % 2 == 1,
    }
}

// Whether a page is a leaf of whole pairs, with one at least.
fn has_pairs(page: &[u8], order: Order) -> bool
    requires { 26 ≤ length page.now }
    ensures { OnTrue result (HasPairs order page.now) }
{
    let entries = u16_at(page, 20, order);
    page[25] == 5 && entries % 2 == 0 && entries > 0
}
