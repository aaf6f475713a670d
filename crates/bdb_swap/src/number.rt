ghost use Rattle.std.specs.Prelude.{◌≡◌, ◌+◌, ◌*◌, ◌≤◌, length, reverse, slice_range};
ghost use Rattle.bdb_io.specs.of_format.Terms.{overwritten};
ghost use Rattle.bdb_law_turned.specs.Fields.{fours};
ghost use Rattle.bdb_swap.specs.Turns.{Turns};

use byteorder::{BigEndian, ByteOrder, LittleEndian};

// A number that is read from its high end and written from its low end has its bytes in the reverse order.

/// Writes the four bytes that another page has at a place, in the reverse order.
pub(crate) fn turn_four(page: &mut [u8], source: &[u8], at: usize)
    requires inside { at + 4 ≤ length source.now }
    requires same { length page.old ≡ length source.now }
    ensures { page.new ≡ overwritten page.old at (reverse (slice_range source.now at (at + 4))) }
{
    let number = BigEndian::read_u32(&source[at..at + 4]);
    LittleEndian::write_u32(&mut page[at..at + 4], number);
}

/// The same of two bytes.
pub(crate) fn turn_two(page: &mut [u8], source: &[u8], at: usize)
    requires inside { at + 2 ≤ length source.now }
    requires same { length page.old ≡ length source.now }
    ensures { page.new ≡ overwritten page.old at (reverse (slice_range source.now at (at + 2))) }
{
    let number = BigEndian::read_u16(&source[at..at + 2]);
    LittleEndian::write_u16(&mut page[at..at + 2], number);
}

/// Turns so many numbers of four bytes round, one after another.
pub(crate) fn turn_fours(page: &mut [u8], source: &[u8], at: usize, count: usize)
    requires room { at + 4 * count ≤ length source.now }
    requires same { length page.old ≡ length source.now }
    ensures turns { Turns source.now (fours at count) page.old page.new }
    ensures same { length page.new ≡ length page.old }
{
    for i in 0..count {
        turn_four(page, source, at + 4 * i);
    }
}
