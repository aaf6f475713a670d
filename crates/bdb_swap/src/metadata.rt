ghost use Rattle.std.specs.Prelude.{◌≡◌, ◌≤◌, ◌+◌, ◌*◌, ◌++◌, length};
ghost use Rattle.bdb_law_turned.specs.Fields.{common_fields, fours};
ghost use Rattle.bdb_swap.specs.Turns.{Turns};

use crate::number::turn_fours;

/// Turns the numbers round that all metadata has. Bytes 24 to 27 between them are single ones.
fn turn_common(page: &mut [u8], source: &[u8])
    requires room { 512 ≤ length source.now }
    requires same { length page.old ≡ length source.now }
    ensures turns { Turns source.now common_fields page.old page.new }
    ensures same { length page.new ≡ length page.old }
{
    turn_fours(page, source, 0, 6);
    turn_fours(page, source, 28, 6);
}

/// Turns metadata round that has so many numbers of its own from a place on, as that of a btree, a recno or a queue.
pub(crate) fn turn_meta(page: &mut [u8], source: &[u8], at: usize, count: usize)
    requires room { 512 ≤ length source.now }
    requires inside { at + 4 * count ≤ 512 }
    requires same { length page.old ≡ length source.now }
    ensures { Turns source.now (common_fields ++ fours at count) page.old page.new }
{
    turn_common(page, source);
    turn_fours(page, source, at, count);
}

/// Turns the metadata of a table round, all its spares included.
pub(crate) fn turn_hash_meta(page: &mut [u8], source: &[u8])
    requires room { 512 ≤ length source.now }
    requires same { length page.old ≡ length source.now }
    ensures { Turns source.now (common_fields ++ (fours 72 6 ++ fours 96 32)) page.old page.new }
{
    turn_common(page, source);
    turn_fours(page, source, 72, 6);
    turn_fours(page, source, 96, 32);
}
