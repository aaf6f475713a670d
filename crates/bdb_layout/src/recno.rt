ghost use Rattle.std.specs.Prelude.{◌≡◌, ◌<◌, ◌≤◌, length, None};
ghost use Rattle.std.specs.Option.{option_map};
ghost use Rattle.bdb_format.specs.Terms.{answer, entries_of, first_row, index_end, recno_item_at, recno_rows};
ghost use Rattle.bdb_layout.specs.ItemRows.{item_form};

use crate::item_rows::item_fault;
use crate::{index_end, offset_at, recno_end, u32_at};
use bdb_format::{FormRow, ItemFault, Order, RecnoItem};

/// The item of an internal page of a recno tree at a place of its index, or `Offset` where it isn't on the page.
#[tactic(auto, using(bdb_format::proofs::PageLemmas::answer_value, crate::proofs::RowLemmas::answer_row, crate::proofs::RowLemmas::no_row))]
pub fn recno_item(page: &[u8], order: Order, index: u16) -> Result<RecnoItem, ItemFault>
    requires room { index_end order page.now ≤ length page.now }
    requires entry { index < entries_of order page.now }
    ensures { result ≡ answer (recno_rows order page.now index) (recno_item_at order page.now index) }
{
    match recno_row(page, order, index) {
        Some(row) => Err(item_fault(row)),
        None => Ok(known_recno_item(page, order, index)),
    }
}

/// `Offset` where the item of an internal page of a recno tree at a place of its index isn't on the page.
#[tactic(auto, unfolding(bdb_format::specs::Rows::recno_rows))]
pub fn recno_row(page: &[u8], order: Order, index: u16) -> Option<FormRow>
    requires room { index_end order page.now ≤ length page.now }
    requires entry { index < entries_of order page.now }
    ensures { result ≡ option_map item_form (first_row (recno_rows order page.now index)) }
{
    let at = usize::from(offset_at(page, order, index));
    if at < index_end(page, order) || page.len() < recno_end(at) {
        return Some(FormRow::ItemOffset);
    }
    None
}

/// The item of an internal page of a recno tree at a place of its index, which is known to be on the page.
#[tactic(auto, using(crate::proofs::RowLemmas::recno_fits), unfolding(bdb_format::specs::Reading::recno_item_at))]
pub fn known_recno_item(page: &[u8], order: Order, index: u16) -> RecnoItem
    requires room { index_end order page.now ≤ length page.now }
    requires entry { index < entries_of order page.now }
    requires sound { first_row (recno_rows order page.now index) ≡ None }
    ensures { result ≡ recno_item_at order page.now index }
{
    let at = usize::from(offset_at(page, order, index));
    RecnoItem {
        child: u32_at(page, at, order),
        count: u32_at(page, at + 4, order),
    }
}
