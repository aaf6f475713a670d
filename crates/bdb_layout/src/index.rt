ghost use Rattle.std.specs.Prelude.{◌≡◌, ◌+◌, ◌*◌, ◌<◌, ◌≤◌, length};
ghost use Rattle.bdb_format.specs.Terms.{entries_of, index_end, offset_of};

use crate::u16_at;
use bdb_format::Order;

/// Where the index of a page ends, and items may begin.
pub fn index_end(page: &[u8], order: Order) -> usize
    requires { 26 ≤ length page.now }
    ensures { result ≡ index_end order page.now }
{
    26 + 2 * usize::from(u16_at(page, 20, order))
}

/// The offset of an item, as the index has it.
pub fn offset_at(page: &[u8], order: Order, index: u16) -> u16
    requires room { index_end order page.now ≤ length page.now }
    requires entry { index < entries_of order page.now }
    ensures { result ≡ offset_of order page.now index }
{
    u16_at(page, 26 + 2 * usize::from(index), order)
}
