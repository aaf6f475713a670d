ghost use Rattle.std.specs.Prelude.{◌≡◌, ◌≤◌, length};
ghost use Rattle.bdb_io.specs.of_format.Terms.{entries_of, index_end};
ghost use Rattle.bdb_law_turned.specs.Fields.{header_fields, index_fields};
ghost use Rattle.bdb_swap.specs.Turns.{Turns};

use crate::number::{turn_four, turn_two};
use bdb_io::Order;
use bdb_law_turned::u16_at;

/// Turns the numbers of a page's header round.
pub(crate) fn turn_header(page: &mut [u8], source: &[u8])
    requires room { 26 ≤ length source.now }
    requires same { length page.old ≡ length source.now }
    ensures turns { Turns source.now header_fields page.old page.new }
    ensures same { length page.new ≡ length page.old }
{
    turn_four(page, source, 0);
    turn_four(page, source, 4);
    turn_four(page, source, 8);
    turn_four(page, source, 12);
    turn_four(page, source, 16);
    turn_two(page, source, 20);
    turn_two(page, source, 22);
}

/// Turns the offsets of a page's index round.
pub(crate) fn turn_index(page: &mut [u8], source: &[u8], order: Order)
    requires header { 26 ≤ length source.now }
    requires room { index_end order source.now ≤ length source.now }
    requires same { length page.old ≡ length source.now }
    ensures turns { Turns source.now (index_fields (entries_of order source.now)) page.old page.new }
    ensures same { length page.new ≡ length page.old }
{
    for i in 0..u16_at(source, 20, order) {
        turn_two(page, source, 26 + 2 * usize::from(i));
    }
}
