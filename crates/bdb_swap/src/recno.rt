ghost use Rattle.std.specs.Prelude.{◌≡◌, ◌+◌, ◌≤◌, length};
ghost use Rattle.bdb_law_turned.specs.Fields.{recno_fields};
ghost use Rattle.bdb_swap.specs.Turns.{Turns};

use crate::listed::TurnKind;
use crate::number::turn_four;
use bdb_io::Order;
use bdb_law_turned::{RecnoInternalKind, offset_at};

impl TurnKind for RecnoInternalKind {
    ghost fields = { λ at item. recno_fields at };

    fn turn_item(page: &mut [u8], source: &[u8], order: Order, index: u16) {
        turn_recno_item(page, source, usize::from(offset_at(source, order, index)));
    }
}

/// Turns the two numbers of such an item round, which begins at a place.
fn turn_recno_item(page: &mut [u8], source: &[u8], at: usize)
    requires inside { at + 8 ≤ length source.now }
    requires same { length page.old ≡ length source.now }
    ensures turns { Turns source.now (recno_fields at) page.old page.new }
    ensures same { length page.new ≡ length page.old }
{
    turn_four(page, source, at);
    turn_four(page, source, at + 4);
}
