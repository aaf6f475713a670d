ghost use Rattle.std.specs.Prelude.{◌≡◌, ◌+◌, ◌<◌, ◌≤◌, [], ◌∷◌, IfOk, false, length, None};
ghost use Rattle.std.specs.Option.{option_map};
ghost use Rattle.bdb_format.specs.Terms.{answer, byte_at, does_not_fall, entries_of, first_row, hash_content, hash_end, hash_item_at, hash_rows, index_end};
ghost use Rattle.bdb_format.specs.Terms.{is_hash_kind, misses_extent};
ghost use Rattle.bdb_layout.specs.Fits.{FitsHash};
ghost use Rattle.bdb_layout.specs.Seen.{HasOrder, hash_content_seen, answer_seen, hash_item_seen};
ghost use Rattle.bdb_layout.specs.ItemRows.{item_form};

use crate::blocks::is_run;
use crate::item_rows::item_fault;
use crate::lengths::hash_end;
use crate::{DupBlocks, HashItem, index_end, offset_at, u32_at};
use bdb_format::{FormRow, ItemFault, Order};

/// The item of a hash page at a place of its index, or the first fault of it: where it stands, its type or its extent.
#[tactic(auto, using(bdb_format::proofs::PageLemmas::answer_value, crate::proofs::RowLemmas::answer_row, crate::proofs::RowLemmas::no_row))]
pub fn hash_item(page: &[u8], order: Order, index: u16) -> Result<HashItem<'_>, ItemFault>
    requires room { index_end order page.now ≤ length page.now }
    requires entry { index < entries_of order page.now }
    ensures item { answer_seen hash_item_seen result ≡ answer (hash_rows order page.now index) (hash_item_at order page.now index) }
    ensures order { IfOk result (λ item. HasOrder order item) }
{
    match hash_row(page, order, index) {
        Some(row) => Err(item_fault(row)),
        None => Ok(known_hash_item(page, order, index)),
    }
}

/// The first row that holds for the item of a hash page at a place of its index, if one does.
#[tactic(auto, unfolding(bdb_format::specs::Rows::hash_rows))]
pub fn hash_row(page: &[u8], order: Order, index: u16) -> Option<FormRow>
    requires room { index_end order page.now ≤ length page.now }
    requires entry { index < entries_of order page.now }
    ensures { result ≡ option_map item_form (first_row (hash_rows order page.now index)) }
{
    let at = usize::from(offset_at(page, order, index));
    if at < index_end(page, order) || page.len() <= at || does_not_fall(page, order, index) {
        return Some(FormRow::ItemOffset);
    }
    if !is_hash_kind(index, page[at]) {
        return Some(FormRow::ItemType);
    }
    if misses_extent(page, order, at, hash_end(page, order, index)) {
        return Some(FormRow::ItemExtent);
    }
    None
}

/// The item of a hash page at a place of its index, with which nothing is known to be wrong: it isn't tested
/// again, and the blocks of a set aren't walked.
#[tactic(auto, using(crate::proofs::RowLemmas::hash_fits), unfolding(bdb_format::specs::Reading::hash_item_at))]
pub fn known_hash_item(page: &[u8], order: Order, index: u16) -> HashItem<'_>
    requires room { index_end order page.now ≤ length page.now }
    requires entry { index < entries_of order page.now }
    requires sound { first_row (hash_rows order page.now index) ≡ None }
    ensures item { hash_item_seen result ≡ hash_item_at order page.now index }
    ensures order { HasOrder order result }
{
    let at = usize::from(offset_at(page, order, index));
    let end = hash_end(page, order, index);
    hash_item_from(page, order, at, end)
}

// Whether an item doesn't begin below the one before it.
fn does_not_fall(page: &[u8], order: Order, index: u16) -> bool
    requires room { index_end order page.now ≤ length page.now }
    requires entry { index < entries_of order page.now }
    ensures { result ≡ does_not_fall order page.now index }
{
    index > 0 && offset_at(page, order, index - 1) <= offset_at(page, order, index)
}

// Whether an item of this kind may stand at a place of a hash page's index.
fn is_hash_kind(index: u16, kind: u8) -> bool
    ensures { result ≡ is_hash_kind index kind }
{
    kind == 1 || kind == 3 || (index % 2 == 1 && (kind == 2 || kind == 4))
}

// Whether an item hasn't the extent of its kind.
fn misses_extent(page: &[u8], order: Order, at: usize, end: usize) -> bool
    requires begins { at < end }
    requires on_page { at < length page.now }
    ensures { result ≡ misses_extent order page.now at end (byte_at page.now at) }
{
    if page.len() < end {
        return true;
    }
    match page[at] {
        2 => !is_run(&page[at + 1..end], order),
        3 => end != at + 12,
        4 => end != at + 8,
        _ => false,
    }
}

// The item between two offsets.
fn hash_item_from(page: &[u8], order: Order, at: usize, end: usize) -> HashItem<'_>
    requires { FitsHash order page.now at end }
    ensures item { hash_content_seen result ≡ hash_content order page.now at end (byte_at page.now at) }
    ensures order { HasOrder order result }
{
    match page[at] {
        1 => HashItem::Inline(&page[at + 1..end]),
        2 => HashItem::Set(DupBlocks::known(&page[at + 1..end], order)),
        3 => HashItem::Overflow {
            head: u32_at(page, at + 4, order),
            total: u32_at(page, at + 8, order),
        },
        _ => HashItem::OffPage {
            root: u32_at(page, at + 4, order),
        },
    }
}
