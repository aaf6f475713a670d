ghost use Rattle.std.specs.Prelude.{◌≡◌, ℕ, ◌+◌, ◌-◌, ◌*◌, ◌<◌, ◌≤◌, ◌^◌, ◌∷◌, ◌++◌, [], IsTrue, OnErr, OnOk, IfOk, length, replicate, take, drop};
ghost use Rattle.std.specs.Borrow.{sem};
ghost use Rattle.std.specs.Bool.{OnTrue};
ghost use Rattle.bdb_layout.specs.of_format.Terms.{IsHashContent, IsKey, IsLeafContent, byte_at, entries_of, hash_bytes, index_end, internal_bytes};
ghost use Rattle.bdb_layout.specs.of_format.Terms.{is_page_size, is_zero, leaf_bytes, recno_bytes};
ghost use Rattle.bdb_layout.specs.of_format.declared.kinds.Order.{Order as ByteOrder};
ghost use Rattle.bdb_layout.specs.Seen.{HasOrder, hash_content_seen, internal_item_seen, leaf_item_seen};
ghost use Rattle.bdb_pack.specs.Items.{IsWritable, OnHash, OnInternal, OnLeaf, OnRecno, extent, takes_items};
ghost use Rattle.bdb_pack.specs.OnPages.{HasPlaceOn, HasRoomOn, IsBegunOn, first_header, has_room_on, holds_on, with_begun, with_item_on};
ghost use Rattle.bdb_pack.specs.Placing.{CanShare, HasRoom, IsOpen, begun_page, entered, has_room, high_free_of, page_and_item, page_and_shared, place_below};
ghost use Rattle.bdb_pack.specs.Built.{AreWhole, bytes_of, joined_pages, with_copy, with_page, with_zeros, without_last};

use bdb_layout::{
    Bytes, HashItem, Header, InternalItem, InternalKey, LeafItem, Order, PageType, RecnoItem, pad4,
    put_hash_item, put_header, put_internal_item, put_leaf_item, put_recno_item, put_u16, u16_at,
};
use std::alloc::{AllocError, Global};
use std::marker::Model;

/// The bytes of an empty page of the greatest size.
const ZEROS: [u8; 32768] = [0; 32768];

/// The pages of a file that is being built.
#[derive(Drop)]
pub struct Pages {
    bytes: Vec<u8>,
    size: usize,
    order: Order,
    count: u32,
}

impl Model for Pages {
    ghost use Rattle.bdb_pack.specs.Built.{Built, IsWhole, built_of};

    ghost Value = { Built };

    ghost view = { λ p. built_of p.size p.order p.count p.bytes.items };

    ghost invariant = { λ p. IsWhole p.size p.count p.bytes.items };
}

#[tactic(auto, using(crate::proofs::CutLemmas::length_cut))]
impl Pages {
    ghost use Rattle.bdb_pack.specs.Lending.{LendsPage};

    /// How many pages a file may have: the longest one that is read has no more.
    pub const MAX: u32 = 1 << 21;

    /// No pages yet.
    pub fn new(alloc: Global, page_size: u32, order: Order) -> Pages
        requires legal { IsTrue (is_page_size page_size) }
        ensures pages { result.pages ≡ [] }
        ensures size { result.size ≡ page_size }
        ensures order { result.order ≡ order }
    {
        Pages::over(Vec::new(alloc), page_size, order)
    }

    /// No pages yet, with room for so many bytes where memory doesn't run out: so they aren't moved while they grow.
    pub fn with_room(alloc: Global, page_size: u32, order: Order, room: usize) -> Pages
        requires legal { IsTrue (is_page_size page_size) }
        ensures pages { result.pages ≡ [] }
        ensures size { result.size ≡ page_size }
        ensures order { result.order ≡ order }
    {
        match Vec::with_capacity(alloc, room) {
            Ok(bytes) => Pages::over(bytes, page_size, order),
            Err(_) => Pages::new(alloc, page_size, order),
        }
    }

    // No pages, in a room without bytes.
    fn over(bytes: Vec<u8>, page_size: u32, order: Order) -> Pages
        requires legal { IsTrue (is_page_size page_size) }
        requires none { bytes.items ≡ [] }
        ensures pages { result.pages ≡ [] }
        ensures size { result.size ≡ page_size }
        ensures order { result.order ≡ order }
    {
        Pages {
            bytes,
            size: page_size as usize,
            order,
            count: 0,
        }
    }

    /// How many pages there are.
    #[tactic(auto, using(crate::proofs::CutLemmas::length_cut, crate::proofs::CutLemmas::page_length))]
    pub fn count(&self) -> u32
        ensures count { result ≡ length self.now.pages }
        ensures legal { IsTrue (is_page_size self.now.size) }
        ensures whole { AreWhole self.now }
    {
        self.count
    }

    /// Bytes of a page.
    #[tactic(auto, using(crate::proofs::CutLemmas::length_cut, crate::proofs::CutLemmas::page_length))]
    pub fn size(&self) -> usize
        ensures size { result ≡ self.now.size }
        ensures legal { IsTrue (is_page_size result) }
        ensures whole { AreWhole self.now }
    {
        self.size
    }

    /// The order of the numbers.
    #[tactic(auto, using(crate::proofs::CutLemmas::length_cut, crate::proofs::CutLemmas::page_length))]
    pub fn order(&self) -> Order
        ensures order { result ≡ self.now.order }
        ensures legal { IsTrue (is_page_size self.now.size) }
        ensures whole { AreWhole self.now }
    {
        self.order
    }

    /// Whether there are numbers left for the pages of a value's chain.
    #[tactic(auto, using(crate::proofs::CutLemmas::length_cut, crate::proofs::CutLemmas::page_length))]
    pub fn has_pages_for(&self, value: &[u8]) -> bool
        ensures { IsTrue result → length value.now ≤ (2 ^ 21 - length self.now.pages) * (self.now.size - 26) }
    {
        let left = Pages::MAX.saturating_sub(self.count()) as usize;
        value.len() <= left * (self.size() - 26)
    }

    /// A zero page at the end, and its number. An error means that memory ran out, and leaves the pages as they were.
    pub fn add(&mut self) -> Result<u32, AllocError>
        requires few { length self.old.pages < 2 ^ 21 }
        ensures number { IfOk result (λ number. number ≡ length self.old.pages) }
        ensures ok { OnOk result (self.new ≡ with_zeros self.old) }
        ensures err { OnErr result (self.new ≡ self.old) }
    {
        let number = self.count;
        self.bytes.extend_from_slice(&ZEROS[..self.size])?;
        self.count += 1;
        Ok(number)
    }

    /// A copy of a page at the end, and its number. An error means that memory ran out, and leaves the pages as they
    /// were.
    pub fn add_copy(&mut self, number: u32) -> Result<u32, AllocError>
        requires number { number < length self.old.pages }
        requires few { length self.old.pages < 2 ^ 21 }
        ensures number { IfOk result (λ copy. copy ≡ length self.old.pages) }
        ensures ok { OnOk result (self.new ≡ with_copy self.old number) }
        ensures err { OnErr result (self.new ≡ self.old) }
    {
        let copy = self.count;
        let first = number as usize * self.size;
        self.bytes.extend_from_within(first..first + self.size)?;
        self.count += 1;
        Ok(copy)
    }

    /// Takes the last page away.
    #[tactic(auto, using(crate::proofs::CutLemmas::cut_fewer, crate::proofs::CutLemmas::cut_take, crate::proofs::CutLemmas::length_cut))]
    pub fn drop_last(&mut self)
        requires some { 1 ≤ length self.old.pages }
        ensures { self.new ≡ without_last self.old }
    {
        self.count -= 1;
        self.bytes.truncate(self.count as usize * self.size);
    }

    /// Copies a page over another.
    pub fn copy_over(&mut self, from: u32, to: u32)
        requires from { from < length self.old.pages }
        requires to { to < length self.old.pages }
        ensures { self.new ≡ with_page self.old to (bytes_of self.old from) }
    {
        let first = from as usize * self.size;
        self.bytes
            .copy_within(first..first + self.size, to as usize * self.size);
    }

    /// The bytes of a page.
    pub fn page_mut(&mut self, number: u32) -> &mut [u8]
        requires { number < length self.old.pages }
        ensures* writes_back { sem 𝓛 (LendsPage self.entry number result) }
        ensures value { result.now ≡ bytes_of self.old number }
        ensures legal { IsTrue (is_page_size self.old.size) }
        ensures whole { AreWhole self.old }
    {
        let at = number as usize * self.size;
        let end = at + self.size;
        self.bytes.slice_mut(at..end)
    }

    /// Begins a page: a header, but no entries and the high free offset at the page's end.
    pub fn begin(&mut self, number: u32, header: &Header)
        requires number { number < length self.old.pages }
        requires zero { IsTrue (is_zero (bytes_of self.old number)) }
        requires takes { IsTrue (takes_items header.now.page_type) }
        ensures { self.new ≡ with_page self.old number (begun_page self.old.order (bytes_of self.old number) header.now) }
    {
        let order = self.order;
        let page = self.page_mut(number);
        put_begun(page, order, header);
    }

    /// A page without entries at the end, which is begun, and its number. It is refused where there are as many pages as a file may have. On a refusal
    /// nothing is promised of the pages.
    pub fn add_begun(&mut self, previous: u32, level: u8, page_type: u8) -> Result<u32, AllocError>
        requires takes { IsTrue (takes_items page_type) }
        ensures legal { IsTrue (is_page_size self.old.size) }
        ensures few { IfOk result (λ _. length self.old.pages < 2 ^ 21) }
        ensures number { IfOk result (λ number. number ≡ length self.old.pages) }
        ensures begun { IfOk result (λ number. self.new ≡ with_begun self.old (first_header number previous level page_type)) }
    {
        if self.count() >= Pages::MAX {
            return Err(AllocError);
        }
        let number = self.add()?;
        self.begin(
            number,
            &Header {
                number,
                previous,
                next: 0,
                entries: 0,
                high_free: 0,
                level,
                page_type,
            },
        );
        Ok(number)
    }

    /// Adds an item at the end of a leaf: its bytes right below the other items, and its place at the end of the index.
    pub fn append_leaf(&mut self, number: u32, item: &LeafItem<'_>)
        requires number { number < length self.old.pages }
        requires begun { IsBegunOn self.old number }
        requires holds { IsTrue (holds_on self.old number (OnLeaf (leaf_item_seen item.now))) }
        requires place { HasPlaceOn self.old number (OnLeaf (leaf_item_seen item.now)) }
        requires room { HasRoomOn self.old number (leaf_bytes self.old.order (leaf_item_seen item.now)) }
        ensures { self.new ≡ with_item_on self.old number (leaf_bytes self.old.order (leaf_item_seen item.now)) }
    {
        let order = self.order;
        let page = self.page_mut(number);
        place_leaf(page, order, item);
    }

    /// Adds an item at the end of an internal page of a btree.
    pub fn append_internal(&mut self, number: u32, item: &InternalItem<'_>)
        requires number { number < length self.old.pages }
        requires begun { IsBegunOn self.old number }
        requires holds { IsTrue (holds_on self.old number (OnInternal (internal_item_seen item.now))) }
        requires room { HasRoomOn self.old number (internal_bytes self.old.order (internal_item_seen item.now)) }
        ensures { self.new ≡ with_item_on self.old number (internal_bytes self.old.order (internal_item_seen item.now)) }
    {
        let order = self.order;
        let page = self.page_mut(number);
        place_internal(page, order, item);
    }

    /// Adds an item at the end of an internal page of a recno tree.
    pub fn append_recno(&mut self, number: u32, item: &RecnoItem)
        requires number { number < length self.old.pages }
        requires begun { IsBegunOn self.old number }
        requires holds { IsTrue (holds_on self.old number (OnRecno item.now)) }
        requires room { HasRoomOn self.old number (recno_bytes self.old.order item.now) }
        ensures { self.new ≡ with_item_on self.old number (recno_bytes self.old.order item.now) }
    {
        let order = self.order;
        let page = self.page_mut(number);
        place_recno(page, order, item);
    }

    /// Adds an item at the end of a hash page. A set must be spelled in the order of the pages.
    pub fn append_hash(&mut self, number: u32, item: &HashItem<'_>)
        requires number { number < length self.old.pages }
        requires begun { IsBegunOn self.old number }
        requires holds { IsTrue (holds_on self.old number (OnHash (hash_content_seen item.now))) }
        requires place { HasPlaceOn self.old number (OnHash (hash_content_seen item.now)) }
        requires same_order { HasOrder self.old.order item.now }
        requires room { HasRoomOn self.old number (hash_bytes self.old.order (hash_content_seen item.now)) }
        ensures { self.new ≡ with_item_on self.old number (hash_bytes self.old.order (hash_content_seen item.now)) }
    {
        let order = self.order;
        let page = self.page_mut(number);
        place_hash(page, order, item);
    }

    /// Adds to the index of a btree leaf the offset of the entry two before: the key of the last pair again.
    pub fn append_shared(&mut self, number: u32)
        requires number { number < length self.old.pages }
        requires begun { IsBegunOn self.old number }
        requires shares { CanShare self.old.order (bytes_of self.old number) }
        ensures { self.new ≡ with_page self.old number (page_and_shared self.old.order (bytes_of self.old number)) }
    {
        let order = self.order;
        let page = self.page_mut(number);
        share(page, order);
    }

    /// How many bytes are free between the index and the items.
    pub fn room(&self, number: u32) -> u32
        requires number { number < length self.now.pages }
        requires begun { IsBegunOn self.now number }
        ensures { result ≡ high_free_of self.now.order (bytes_of self.now number) - index_end self.now.order (bytes_of self.now number) }
    {
        let order = self.order;
        let page = self.page(number);
        u32::from(u16_at(page, 22, order)) - 2 * u32::from(u16_at(page, 20, order)) - 26
    }

    /// Whether a leaf has room for an item and its entry. The lengths and numbers of an item for which there is room fit
    /// their fields.
    pub fn has_room_for_leaf(&self, number: u32, item: &LeafItem<'_>) -> bool
        requires number { number < length self.now.pages }
        requires begun { IsBegunOn self.now number }
        ensures room { result ≡ has_room_on self.now number (leaf_bytes self.now.order (leaf_item_seen item.now)) }
        ensures fits { OnTrue result (IsWritable (OnLeaf (leaf_item_seen item.now))) }
    {
        let order = self.order;
        let page = self.page(number);
        if !has_room(page, order, leaf_length(item)) {
            return false;
        }
        fit_leaf(item, order);
        true
    }

    /// Whether an internal page of a btree has room for an item and its entry.
    pub fn has_room_for_internal(&self, number: u32, item: &InternalItem<'_>) -> bool
        requires number { number < length self.now.pages }
        requires begun { IsBegunOn self.now number }
        ensures room { result ≡ has_room_on self.now number (internal_bytes self.now.order (internal_item_seen item.now)) }
        ensures fits { OnTrue result (IsWritable (OnInternal (internal_item_seen item.now))) }
    {
        let order = self.order;
        let page = self.page(number);
        if !has_room(page, order, internal_length(item)) {
            return false;
        }
        fit_internal(item, order);
        prove!(item.child <= u32::MAX);
        prove!(item.count <= u32::MAX);
        true
    }

    /// Whether an internal page of a recno tree has room for one more item and its entry.
    pub fn has_room_for_recno(&self, number: u32, item: &RecnoItem) -> bool
        requires number { number < length self.now.pages }
        requires begun { IsBegunOn self.now number }
        ensures room { result ≡ has_room_on self.now number (recno_bytes self.now.order item.now) }
        ensures fits { IsWritable (OnRecno item.now) }
    {
        let order = self.order;
        let page = self.page(number);
        prove!(item.child <= u32::MAX);
        prove!(item.count <= u32::MAX);
        has_room(page, order, recno_length(item))
    }

    /// Whether a hash page has room for an item and its entry. A set must be spelled in the order of the pages.
    pub fn has_room_for_hash(&self, number: u32, item: &HashItem<'_>) -> bool
        requires number { number < length self.now.pages }
        requires begun { IsBegunOn self.now number }
        requires same_order { HasOrder self.now.order item.now }
        ensures room { result ≡ has_room_on self.now number (hash_bytes self.now.order (hash_content_seen item.now)) }
        ensures fits { OnTrue result (IsWritable (OnHash (hash_content_seen item.now))) }
    {
        let order = self.order;
        let page = self.page(number);
        if !has_room(page, order, hash_length(item, order)) {
            return false;
        }
        fit_hash(item, order);
        true
    }

    /// The bytes of a page, to be read.
    #[tactic(auto, using(crate::proofs::OpenLemmas::page_size, crate::proofs::CutLemmas::length_cut, crate::proofs::CutLemmas::page_of_cut))]
    pub fn page(&self, number: u32) -> &[u8]
        requires { number < length self.now.pages }
        ensures bytes { result.now ≡ bytes_of self.now number }
        ensures size { IsTrue (is_page_size (length result.now)) }
    {
        let from = number as usize * self.size;
        &self.bytes[from..from + self.size]
    }

    /// All pages, joined in order, without a copy and without memory.
    #[tactic(auto, using(crate::proofs::CutLemmas::joined_cut))]
    pub fn into_bytes(self) -> Bytes
        ensures { result ≡ joined_pages self.pages }
    {
        Bytes::from_vec(self.bytes)
    }
}

// Writes the header of a page without entries.
fn put_begun(page: &mut [u8], order: Order, header: &Header)
    requires page { 26 ≤ length page.old }
    requires short { length page.old ≤ 32768 }
    ensures { page.new ≡ begun_page order page.old header.now }
{
    let begun = Header {
        number: header.number,
        previous: header.previous,
        next: header.next,
        entries: 0,
        high_free: page.len() as u16,
        level: header.level,
        page_type: header.page_type,
    };
    put_header(page, order, &begun);
}

// The bytes that an item of a length takes on a page of a type.
fn extent(page_type: u8, long: usize) -> usize
    requires { long < 2 ^ 32 }
    ensures { result ≡ extent page_type long }
{
    if page_type == PageType::UNSORTED_HASH || page_type == PageType::HASH {
        long
    } else {
        pad4(long)
    }
}

// Where an item of a length goes.
fn place_below(page: &[u8], order: Order, long: usize) -> usize
    requires page { 26 ≤ length page.now }
    requires short { long < 2 ^ 32 }
    requires room { extent (byte_at page.now 25) long ≤ high_free_of order page.now }
    ensures { result ≡ place_below order page.now long }
{
    usize::from(u16_at(page, 22, order)) - extent(page[25], long)
}

// Whether a page has room for an item of a length and its entry.
fn has_room(page: &[u8], order: Order, long: usize) -> bool
    requires { 26 ≤ length page.now }
    ensures { result ≡ has_room order page.now long }
{
    let end = 26 + 2 * usize::from(u16_at(page, 20, order));
    let high = usize::from(u16_at(page, 22, order));
    long < 65536 && end + 2 + extent(page[25], long) <= high
}

// Adds an entry at the end of the index, and writes the high free offset.
fn enter(page: &mut [u8], order: Order, at: u16, high: u16)
    requires page { 26 ≤ length page.old }
    requires room { index_end order page.old + 2 ≤ length page.old }
    requires few { entries_of order page.old < 65535 }
    ensures { page.new ≡ entered order page.old at high }
{
    let entries = u16_at(page, 20, order);
    let end = 26 + 2 * usize::from(entries);
    put_u16(page, end, order, at);
    put_u16(page, 20, order, entries + 1);
    put_u16(page, 22, order, high);
}

// An item of a leaf that has room on a page fits: its length and its numbers are those of their fields.
fn fit_leaf(item: &LeafItem<'_>, order: Order)
    requires { length (leaf_bytes order (leaf_item_seen item.now)) ≤ 32768 }
    ensures { IsLeafContent (leaf_item_seen item.now).content }
{
    match *item {
        LeafItem::Inline { .. } => {}
        LeafItem::Duplicates { root, .. } => prove!(root <= u32::MAX),
        LeafItem::Overflow { head, total, .. } => {
            prove!(head <= u32::MAX);
            prove!(total <= u32::MAX);
        }
    }
}

// How many bytes an item has that is so many bytes and then these.
fn followed(before: usize, bytes: &[u8]) -> usize
    requires { before ≤ 12 }
    ensures long { result ≡ before + length bytes.now }
    ensures bytes { (i : ℕ) → byte_at bytes.now i < 256 }
{
    before + bytes.len()
}

// How many bytes an item of a leaf has.
fn leaf_length(item: &LeafItem<'_>) -> usize
    ensures { (order : ByteOrder) → result ≡ length (leaf_bytes order (leaf_item_seen item.now)) }
{
    match *item {
        LeafItem::Inline { bytes, .. } => followed(3, bytes),
        LeafItem::Duplicates { .. } => 12,
        LeafItem::Overflow { .. } => 12,
    }
}

// An item of an internal page that has room there fits: the length and the numbers of its key are those of their fields.
fn fit_internal(item: &InternalItem<'_>, order: Order)
    requires { length (internal_bytes order (internal_item_seen item.now)) ≤ 32768 }
    ensures { IsKey (internal_item_seen item.now).key }
{
    match item.key {
        InternalKey::Inline(_) => {}
        InternalKey::Overflow { head, total } => {
            prove!(head <= u32::MAX);
            prove!(total <= u32::MAX);
        }
    }
}

// How many bytes an item of an internal page has.
fn internal_length(item: &InternalItem<'_>) -> usize
    ensures { (order : ByteOrder) → result ≡ length (internal_bytes order (internal_item_seen item.now)) }
{
    match item.key {
        InternalKey::Inline(key) => followed(12, key),
        InternalKey::Overflow { .. } => 24,
    }
}

// How many bytes an item of an internal page of a recno tree has.
#[tactic(auto, using(crate::proofs::OpenLemmas::recno_length))]
fn recno_length(item: &RecnoItem) -> usize
    ensures { (order : ByteOrder) → result ≡ length (recno_bytes order item.now) }
{
    8
}

// How many bytes an item of a hash page has.
fn hash_length(item: &HashItem<'_>, order: Order) -> usize
    requires { HasOrder order item.now }
    ensures { result ≡ length (hash_bytes order (hash_content_seen item.now)) }
{
    match item {
        HashItem::Inline(bytes) => followed(1, bytes),
        HashItem::Set(set) => {
            let run = set.bytes();
            followed(1, run)
        }
        HashItem::Overflow { .. } => 12,
        HashItem::OffPage { .. } => 8,
    }
}

// An item of a hash page that has room there fits: its numbers and the lengths of its blocks are those of their fields.
#[tactic(auto, using(crate::proofs::FitLemmas::set_fits))]
fn fit_hash(item: &HashItem<'_>, order: Order)
    requires { length (hash_bytes order (hash_content_seen item.now)) ≤ 32768 }
    ensures { IsHashContent (hash_content_seen item.now) }
{
    match item {
        HashItem::Inline(_) => {}
        HashItem::Set(_) => {}
        HashItem::Overflow { head, total } => {
            prove!(*head <= u32::MAX);
            prove!(*total <= u32::MAX);
        }
        HashItem::OffPage { root } => prove!(*root <= u32::MAX),
    }
}

// Places an item of a leaf on its page.
fn place_leaf(page: &mut [u8], order: Order, item: &LeafItem<'_>)
    requires free { IsOpen order page.old }
    requires room { HasRoom order page.old (length (leaf_bytes order (leaf_item_seen item.now))) }
    ensures { page.new ≡ page_and_item order page.old (leaf_bytes order (leaf_item_seen item.now)) }
{
    fit_leaf(item, order);
    let at = place_below(page, order, leaf_length(item));
    enter(page, order, at as u16, at as u16);
    put_leaf_item(page, order, at, item);
}

// Places an item of an internal page of a btree on its page.
fn place_internal(page: &mut [u8], order: Order, item: &InternalItem<'_>)
    requires free { IsOpen order page.old }
    requires room { HasRoom order page.old (length (internal_bytes order (internal_item_seen item.now))) }
    ensures { page.new ≡ page_and_item order page.old (internal_bytes order (internal_item_seen item.now)) }
{
    fit_internal(item, order);
    let at = place_below(page, order, internal_length(item));
    enter(page, order, at as u16, at as u16);
    put_internal_item(page, order, at, item);
}

// Places an item of an internal page of a recno tree on its page.
fn place_recno(page: &mut [u8], order: Order, item: &RecnoItem)
    requires free { IsOpen order page.old }
    requires room { HasRoom order page.old (length (recno_bytes order item.now)) }
    ensures { page.new ≡ page_and_item order page.old (recno_bytes order item.now) }
{
    let at = place_below(page, order, recno_length(item));
    enter(page, order, at as u16, at as u16);
    put_recno_item(page, order, at, item);
}

// Places an item of a hash page on its page.
fn place_hash(page: &mut [u8], order: Order, item: &HashItem<'_>)
    requires free { IsOpen order page.old }
    requires same_order { HasOrder order item.now }
    requires room { HasRoom order page.old (length (hash_bytes order (hash_content_seen item.now))) }
    ensures { page.new ≡ page_and_item order page.old (hash_bytes order (hash_content_seen item.now)) }
{
    let at = place_below(page, order, hash_length(item, order));
    enter(page, order, at as u16, at as u16);
    put_hash_item(page, order, at, item);
}

// Enters the offset of the entry two before once more.
fn share(page: &mut [u8], order: Order)
    requires free { IsOpen order page.old }
    requires shares { CanShare order page.old }
    ensures { page.new ≡ page_and_shared order page.old }
{
    let entries = usize::from(u16_at(page, 20, order));
    let high = u16_at(page, 22, order);
    let at = u16_at(page, 26 + 2 * (entries - 2), order);
    enter(page, order, at, high);
}
