ghost use Rattle.std.specs.Prelude.{◌≡◌, ◌≤◌, ◌<◌, Some, length, min};
ghost use Rattle.std.specs.Option.{option_map};
ghost use Rattle.bdb_layout.specs.of_format.Terms.{all_item_rows, entries_of, first_row, form_row_code, index_end, index_rows, item_row, lesser, listed_code};

use crate::PageKind;
use bdb_layout::{FormRow, Order, u16_at};

// The first row that holds for a page with an index: its own, else the least of its items.
#[tactic(auto, using(crate::proofs::FormedLemmas::index_room, crate::proofs::Below::index_first, crate::proofs::Below::items_next))]
pub(crate) fn listed_row<K: PageKind>(page: &[u8], order: Order) -> Option<FormRow>
    requires header { 26 ≤ length page.now }
    requires size { length page.now ≤ 32768 }
    ensures { option_map form_row_code result ≡ listed_code order page.now K.page_type }
{
    match index_row::<K>(page, order) {
        Some(row) => Some(row),
        None => least_item_row::<K>(page, order),
    }
}

#[tactic(auto, unfolding(crate::specs::Below::index_rows))]
fn index_row<K: PageKind>(page: &[u8], order: Order) -> Option<FormRow>
    requires header { 26 ≤ length page.now }
    ensures { option_map form_row_code result ≡ first_row (index_rows order page.now K.page_type) }
{
    let entries = u16_at(page, 20, order);
    if page.len() < 26 + 2 * usize::from(entries) {
        return Some(FormRow::IndexRoom);
    }
    if K::is_wrong_level(page[24]) {
        return Some(FormRow::Level);
    }
    if K::is_wrong_entry_count(entries) {
        return Some(FormRow::EntryCount);
    }
    None
}

// One pass over the items: the offset of any item comes before the type of any, so the least row is kept.
#[tactic(auto, using(crate::proofs::FormedLemmas::item_coded))]
fn least_item_row<K: PageKind>(page: &[u8], order: Order) -> Option<FormRow>
    requires size { length page.now ≤ 32768 }
    requires room { index_end order page.now ≤ length page.now }
    ensures { option_map form_row_code result ≡ first_row (all_item_rows K.page_type order page.now) }
{
    let mut least = None;
    for index in 0..u16_at(page, 20, order) {
        if let Some(row) = K::item_row(page, order, index) {
            least = Some(lesser(least, row));
        }
    }
    least
}

// Most items have no row.
fn lesser(a: Option<FormRow>, b: FormRow) -> FormRow
    ensures { Some (form_row_code result) ≡ lesser (option_map form_row_code a) (Some (form_row_code b)) }
{
    match a {
        None => b,
        Some(a) => lesser_of(a, b),
    }
}

fn lesser_of(a: FormRow, b: FormRow) -> FormRow
    ensures { form_row_code result ≡ min (form_row_code a) (form_row_code b) }
{
    if b.entry().code < a.entry().code {
        b
    } else {
        a
    }
}
