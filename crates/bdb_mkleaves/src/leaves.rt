ghost use Rattle.std.specs.Prelude.{◌≡◌, ◌+◌, ◌≤◌, ◌<◌, ◌^◌, [], IfOk, IsTrue, length};
ghost use Rattle.bdb_places.specs.of_format.Terms.{is_page_size};
ghost use Rattle.bdb_pack.specs.of_layout.Seen.{leaf_item_seen};
ghost use Rattle.bdb_pack.specs.Built.{AreWhole, bytes_of};
ghost use Rattle.bdb_mkleaves.specs.LeafEntries.{CanShareKey, CanTakeEntry, own_entry, room_of, shared_key};
ghost use Rattle.bdb_mkleaves.specs.Filled.{AreFilled, AreSomeFilled, IsReady};
ghost use Rattle.bdb_mkleaves.specs.Leaves.{AreSomeLeaves, KeepsOthers};
ghost use Rattle.bdb_mkleaves.specs.Puts.{IsGrown, IsItemOf, IsPut};
ghost use Rattle.bdb_mkleaves.specs.Units.{page_room, value_cost};
ghost use Rattle.bdb_mkleaves.specs.declared.leaf_type.LeafType.TheVariants.{Pairs};

use crate::LeafType;
use crate::entries::{add_leaf, append_item, append_shared_key, set_next};
use bdb_pack::{LeafItem, Pages, Stored, push_value};
use std::alloc::{AllocError, Global};

/// The leaves of a tree that is being built, in their order: the last one takes units. They stand among pages that each call is given; after a
/// refusal neither leaves nor pages have a promise.
#[derive(Drop)]
pub struct Leaves {
    pub(crate) leaf_type: LeafType,
    pub(crate) closed: Vec<u32>,
    pub(crate) last: u32,
}

impl Leaves {
    /// One leaf without entries, behind all pages. An error means that memory ran out, or that there would be more than 2^21 pages.
    pub fn start(
        alloc: Global,
        pages: &mut Pages,
        leaf_type: LeafType,
    ) -> Result<Leaves, AllocError>
        requires { 1 ≤ length pages.old.pages }
        ensures filled { IfOk result (λ leaves. AreFilled leaves pages.new (length pages.old.pages) [] []) }
        ensures some { IfOk result (λ leaves. AreSomeFilled leaves pages.new) }
        ensures leaf { IfOk result (λ leaves. leaves.leaf_type ≡ leaf_type) }
        ensures number { IfOk result (λ leaves. leaves.last ≡ length pages.old.pages) }
        ensures kept { IfOk result (λ leaves. KeepsOthers leaves.last pages.old pages.new) }
        ensures count { IfOk result (λ _. length pages.new.pages ≡ length pages.old.pages + 1) }
        ensures legal { IsTrue (is_page_size pages.old.size) }
    {
        let last = add_leaf(pages, leaf_type, 0)?;
        Ok(Leaves {
            leaf_type,
            closed: Vec::new(alloc),
            last,
        })
    }

    /// Their type.
    pub fn leaf_type(&self) -> LeafType
        ensures { result ≡ self.now.leaf_type }
    {
        self.leaf_type
    }

    /// Makes the last leaf one that has room for so many bytes: a new one, where the last has none.
    pub(crate) fn make_room(&mut self, pages: &mut Pages, cost: usize) -> Result<(), AllocError>
        requires legal { IsTrue (is_page_size pages.old.size) }
        requires whole { AreWhole pages.old }
        requires fits { cost ≤ page_room pages.old.size }
        requires filled { AreSomeFilled self.old pages.old }
        ensures { IfOk result (λ _. IsReady self.old self.new pages.old pages.new cost) }
    {
        if cost <= pages.room(self.last) as usize {
            return Ok(());
        }
        let next = pages.count();
        set_next(pages, self.last, next);
        self.closed.push(self.last)?;
        self.last = add_leaf(pages, self.leaf_type, self.last)?;
        Ok(())
    }
}

impl Leaves {
    /// Adds an item to the last leaf.
    pub(crate) fn append(&self, pages: &mut Pages, item: &LeafItem<'_>)
        requires leaves { AreSomeLeaves self.now pages.old }
        requires takes { CanTakeEntry pages.old self.now.last (leaf_item_seen item.now) }
        ensures grown { IsGrown self.now pages.old pages.new (λ entries. own_entry (leaf_item_seen item.now)) }
        ensures count { length pages.new.pages ≡ length pages.old.pages }
    {
        append_item(pages, self.last, item);
    }

    /// Adds the key of the last pair to the last leaf once more.
    pub(crate) fn append_shared_key(&self, pages: &mut Pages)
        requires leaves { AreSomeLeaves self.now pages.old }
        requires pairs { self.now.leaf_type ≡ Pairs }
        requires shares { CanShareKey pages.old self.now.last }
        ensures grown { IsGrown self.now pages.old pages.new shared_key }
        ensures count { length pages.new.pages ≡ length pages.old.pages }
    {
        append_shared_key(pages, self.last);
    }

    /// Puts a value on the last leaf: its item, where it is short, or that of a chain behind all pages.
    pub(crate) fn put(
        &self,
        pages: &mut Pages,
        value: &[u8],
        deleted: bool,
    ) -> Result<(), AllocError>
        requires short { length value.now < 2 ^ 32 }
        requires leaves { AreSomeLeaves self.now pages.old }
        requires legal { IsTrue (is_page_size pages.old.size) }
        requires room { 2 + value_cost pages.old.size value.now ≤ room_of pages.old.order (bytes_of pages.old self.now.last) }
        ensures { IfOk result (λ _. IsPut self.now pages.old pages.new value.now deleted) }
    {
        let item = store(pages, value, deleted)?;
        self.append(pages, &item);
        Ok(())
    }
}

// Stores a value, and answers its item: of a short one it has the bytes, of a longer one it names the chain.
fn store<'a>(pages: &mut Pages, value: &'a [u8], deleted: bool) -> Result<LeafItem<'a>, AllocError>
    requires short { length value.now < 2 ^ 32 }
    requires first { 1 ≤ length pages.old.pages }
    requires legal { IsTrue (is_page_size pages.old.size) }
    ensures { IfOk result (λ item. IsItemOf pages.old pages.new value.now deleted (leaf_item_seen item)) }
{
    if !pages.has_pages_for(value) {
        return Err(AllocError);
    }
    match push_value(pages, value)? {
        Stored::Inline => Ok(LeafItem::Inline {
            bytes: value,
            deleted,
        }),
        Stored::Chain { head, total } => Ok(LeafItem::Overflow {
            head,
            total,
            deleted,
        }),
    }
}
