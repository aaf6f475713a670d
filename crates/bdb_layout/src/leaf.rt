ghost use Rattle.std.specs.Prelude.{◌≡◌, ◌+◌, ◌<◌, ◌≤◌, length, None};
ghost use Rattle.std.specs.Option.{option_map};
ghost use Rattle.bdb_format.specs.Terms.{answer, byte_at, entries_of, first_row, index_end, is_deleted, is_leaf_kind, kind_at, leaf_content, leaf_item_at};
ghost use Rattle.bdb_format.specs.Terms.{leaf_rows};
ghost use Rattle.bdb_layout.specs.Fits.{FitsLeaf};
ghost use Rattle.bdb_layout.specs.Seen.{answer_seen, leaf_item_seen};
ghost use Rattle.bdb_layout.specs.ItemRows.{item_form};

use crate::item_rows::item_fault;
use crate::{LeafItem, index_end, leaf_end, offset_at, page_type, u16_at, u32_at};
use bdb_format::{FormRow, ItemFault, Order, PageType};

/// The item of a leaf at a place of its index, or the first fault of it: where it stands, its type or its extent.
#[tactic(auto, using(bdb_format::proofs::PageLemmas::answer_value, crate::proofs::RowLemmas::answer_row, crate::proofs::RowLemmas::no_row))]
pub fn leaf_item(page: &[u8], order: Order, index: u16) -> Result<LeafItem<'_>, ItemFault>
    requires room { index_end order page.now ≤ length page.now }
    requires entry { index < entries_of order page.now }
    ensures { answer_seen leaf_item_seen result ≡ answer (leaf_rows order page.now index) (leaf_item_at order page.now index) }
{
    match leaf_row(page, order, index) {
        Some(row) => Err(item_fault(row)),
        None => Ok(known_leaf_item(page, order, index)),
    }
}

/// The first row that holds for the item of a leaf at a place of its index, if one does.
#[tactic(auto, unfolding(bdb_format::specs::Rows::leaf_rows))]
pub fn leaf_row(page: &[u8], order: Order, index: u16) -> Option<FormRow>
    requires room { index_end order page.now ≤ length page.now }
    requires entry { index < entries_of order page.now }
    ensures { result ≡ option_map item_form (first_row (leaf_rows order page.now index)) }
{
    let at = usize::from(offset_at(page, order, index));
    if at < index_end(page, order) || page.len() < at + 3 {
        return Some(FormRow::ItemOffset);
    }
    let kind = page[at + 2] % 128;
    if !is_leaf_kind(page, index, kind) {
        return Some(FormRow::ItemType);
    }
    if page.len() < leaf_end(page, order, at) {
        return Some(FormRow::ItemExtent);
    }
    None
}

/// The item of a leaf at a place of its index, with which nothing is known to be wrong: it isn't tested again.
#[tactic(auto, using(crate::proofs::RowLemmas::leaf_fits), unfolding(bdb_format::specs::Reading::leaf_item_at))]
pub fn known_leaf_item(page: &[u8], order: Order, index: u16) -> LeafItem<'_>
    requires room { index_end order page.now ≤ length page.now }
    requires entry { index < entries_of order page.now }
    requires sound { first_row (leaf_rows order page.now index) ≡ None }
    ensures { leaf_item_seen result ≡ leaf_item_at order page.now index }
{
    let at = usize::from(offset_at(page, order, index));
    leaf_item_from(page, order, at)
}

// Whether an item of this kind may stand at a place of a leaf's index.
fn is_leaf_kind(page: &[u8], index: u16, kind: u8) -> bool
    requires { 26 ≤ length page.now }
    ensures { result ≡ is_leaf_kind (byte_at page.now 25) index kind }
{
    kind == 1
        || kind == 3
        || (kind == 2 && matches!(page_type(page), PageType::Leaf) && index % 2 == 1)
}

// The item at an offset.
fn leaf_item_from(page: &[u8], order: Order, at: usize) -> LeafItem<'_>
    requires { FitsLeaf order page.now at }
    ensures { leaf_item_seen result ≡ record { content = leaf_content order page.now at (kind_at page.now at); deleted = is_deleted page.now at } }
{
    let deleted = page[at + 2] >= 128;
    match page[at + 2] % 128 {
        1 => {
            let size = usize::from(u16_at(page, at, order));
            let bytes = &page[at + 3..at + 3 + size];
            LeafItem::Inline { bytes, deleted }
        }
        2 => {
            let root = u32_at(page, at + 4, order);
            LeafItem::Duplicates { root, deleted }
        }
        _ => {
            let head = u32_at(page, at + 4, order);
            let total = u32_at(page, at + 8, order);
            LeafItem::Overflow {
                head,
                total,
                deleted,
            }
        }
    }
}
