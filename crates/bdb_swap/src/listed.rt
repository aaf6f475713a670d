ghost use Rattle.std.specs.Prelude.{◌≡◌, ◌<◌, ◌≤◌, None, ℕ, List, length};
ghost use Rattle.std.specs.List.{flat_map, range_with_len};
ghost use Rattle.bdb_io.specs.of_format.Terms.{entries_of, first_row, index_end, item_rows, listed, listed_code, offset_of};
ghost use Rattle.bdb_law_turned.specs.Fields.{Field, listed_fields};
ghost use Rattle.bdb_swap.specs.Turns.{Turns};

use crate::header::{turn_header, turn_index};
use bdb_io::Order;
use bdb_law_turned::{PageKind, u16_at};

/// A type of pages with an index, by the numbers of its items.
pub(crate) trait TurnKind: PageKind {
    // The numbers of an item that begins at a place.
    ghost fields: { ℕ → Self → List Field };

    /// Turns the numbers of an item round.
    fn turn_item(page: &mut [u8], source: &[u8], order: Order, index: u16)
        requires room { index_end order source.now ≤ length source.now }
        requires entry { index < entries_of order source.now }
        requires sound { first_row (item_rows Self.page_type order source.now index) ≡ None }
        requires same { length page.old ≡ length source.now }
        ensures turns { Turns source.now (fields (offset_of order source.now index) (Self.item_at order source.now index)) page.old page.new }
        ensures same { length page.new ≡ length page.old };
}

/// Turns the numbers of all items of a page round.
fn turn_items<K: TurnKind>(page: &mut [u8], source: &[u8], order: Order)
    requires header { 26 ≤ length source.now }
    requires room { index_end order source.now ≤ length source.now }
    requires items { (i : ℕ) → i < entries_of order source.now → first_row (item_rows K.page_type order source.now i) ≡ None }
    requires same { length page.old ≡ length source.now }
    ensures { Turns source.now (flat_map (λ i. K.fields (offset_of order source.now i) (K.item_at order source.now i))
        (range_with_len 0 (entries_of order source.now))) page.old page.new }
{
    for i in 0..u16_at(source, 20, order) {
        K::turn_item(page, source, order, i);
    }
}

/// Turns a page with an index round: its header, its index, and its items.
pub(crate) fn turn_listed<K: TurnKind>(page: &mut [u8], source: &[u8], order: Order)
    requires header { 26 ≤ length source.now }
    requires code { listed_code order source.now K.page_type ≡ None }
    requires same { length page.old ≡ length source.now }
    ensures { Turns source.now (listed_fields K.fields K.no_item (listed order source.now (K.item_at order source.now))) page.old page.new }
{
    turn_header(page, source);
    turn_index(page, source, order);
    turn_items::<K>(page, source, order);
}
