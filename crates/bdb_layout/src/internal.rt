ghost use Rattle.std.specs.Prelude.{◌≡◌, ◌+◌, ◌<◌, ◌≤◌, ◌⊎◌, length, None};
ghost use Rattle.std.specs.Option.{option_map};
ghost use Rattle.bdb_format.specs.Terms.{answer, entries_of, first_row, four_at, index_end, internal_item_at, internal_key, internal_rows, kind_at};
ghost use Rattle.bdb_layout.specs.Fits.{FitsInternal};
ghost use Rattle.bdb_layout.specs.Seen.{answer_seen, internal_item_seen, key_seen};
ghost use Rattle.bdb_layout.specs.ItemRows.{item_form};

use crate::item_rows::item_fault;
use crate::{InternalItem, InternalKey, index_end, internal_end, offset_at, u16_at, u32_at};
use bdb_format::{FormRow, ItemFault, Order};

/// The item of an internal page with keys at a place of its index, or the first fault of it: where it stands, its type or its extent.
#[tactic(auto, using(bdb_format::proofs::PageLemmas::answer_value, crate::proofs::RowLemmas::answer_row, crate::proofs::RowLemmas::no_row))]
pub fn internal_item(page: &[u8], order: Order, index: u16) -> Result<InternalItem<'_>, ItemFault>
    requires room { index_end order page.now ≤ length page.now }
    requires entry { index < entries_of order page.now }
    ensures { answer_seen internal_item_seen result ≡ answer (internal_rows order page.now index) (internal_item_at order page.now index) }
{
    match internal_row(page, order, index) {
        Some(row) => Err(item_fault(row)),
        None => Ok(known_internal_item(page, order, index)),
    }
}

/// The first row that holds for the item of an internal page with keys at a place of its index, if one does.
#[tactic(auto, unfolding(bdb_format::specs::Rows::internal_rows))]
pub fn internal_row(page: &[u8], order: Order, index: u16) -> Option<FormRow>
    requires room { index_end order page.now ≤ length page.now }
    requires entry { index < entries_of order page.now }
    ensures { result ≡ option_map item_form (first_row (internal_rows order page.now index)) }
{
    let at = usize::from(offset_at(page, order, index));
    if at < index_end(page, order) || page.len() < at + 12 {
        return Some(FormRow::ItemOffset);
    }
    let kind = page[at + 2] % 128;
    if kind != 1 && kind != 3 {
        return Some(FormRow::ItemType);
    }
    let end = internal_end(page, order, at);
    if page.len() < end || (kind == 3 && end != at + 24) {
        return Some(FormRow::ItemExtent);
    }
    None
}

/// The item of an internal page with keys at a place of its index, with which nothing is known to be wrong: it
/// isn't tested again.
#[tactic(auto, using(crate::proofs::RowLemmas::internal_fits), unfolding(bdb_format::specs::Reading::internal_item_at))]
pub fn known_internal_item(page: &[u8], order: Order, index: u16) -> InternalItem<'_>
    requires room { index_end order page.now ≤ length page.now }
    requires entry { index < entries_of order page.now }
    requires sound { first_row (internal_rows order page.now index) ≡ None }
    ensures { internal_item_seen result ≡ internal_item_at order page.now index }
{
    let at = usize::from(offset_at(page, order, index));
    internal_item_from(page, order, at)
}

// The item at an offset.
fn internal_item_from(page: &[u8], order: Order, at: usize) -> InternalItem<'_>
    requires { FitsInternal order page.now at }
    ensures { internal_item_seen result ≡ record {
      child = four_at order page.now (at + 4);
      count = four_at order page.now (at + 8);
      key = internal_key order
          page.now at (kind_at page.now at);
    } }
{
    InternalItem {
        child: u32_at(page, at + 4, order),
        count: u32_at(page, at + 8, order),
        key: key_from(page, order, at),
    }
}

// The key of the item at an offset: bytes, or an overflow item of a leaf.
fn key_from(page: &[u8], order: Order, at: usize) -> InternalKey<'_>
    requires { FitsInternal order page.now at }
    ensures { key_seen result ≡ internal_key order page.now at (kind_at page.now at) }
{
    let size = usize::from(u16_at(page, at, order));
    match page[at + 2] % 128 {
        1 => InternalKey::Inline(&page[at + 12..at + 12 + size]),
        _ => InternalKey::Overflow {
            head: u32_at(page, at + 16, order),
            total: u32_at(page, at + 20, order),
        },
    }
}
