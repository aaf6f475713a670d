ghost use Rattle.std.specs.Prelude.{◌≡◌, ◌≤◌, length};
ghost use Rattle.bdb_law_turned.specs.of_layout.Seen.{internal_item_seen};
ghost use Rattle.bdb_law_turned.specs.Fields.{internal_fields};
ghost use Rattle.bdb_law_turned.specs.of_form.Ends.{internal_item_end};
ghost use Rattle.bdb_swap.specs.Turns.{Turns};

use crate::listed::TurnKind;
use crate::number::{turn_four, turn_two};
use bdb_io::Order;
use bdb_law_turned::{InternalItem, InternalKey, InternalKind, known_internal_item, offset_at};

impl TurnKind for InternalKind {
    ghost fields = { internal_fields };

    fn turn_item(page: &mut [u8], source: &[u8], order: Order, index: u16) {
        let at = usize::from(offset_at(source, order, index));
        turn_internal_item(page, source, at, &known_internal_item(source, order, index));
    }
}

/// Turns the numbers of an internal item round, which begins at a place.
fn turn_internal_item(page: &mut [u8], source: &[u8], at: usize, item: &InternalItem<'_>)
    requires inside { internal_item_end at (internal_item_seen item.now).key ≤ length source.now }
    requires same { length page.old ≡ length source.now }
    ensures turns { Turns source.now (internal_fields at (internal_item_seen item.now)) page.old page.new }
    ensures same { length page.new ≡ length page.old }
{
    match item.key {
        InternalKey::Inline(_) => {
            turn_two(page, source, at);
            turn_four(page, source, at + 4);
            turn_four(page, source, at + 8);
        }
        InternalKey::Overflow { .. } => {
            turn_two(page, source, at);
            turn_four(page, source, at + 4);
            turn_four(page, source, at + 8);
            turn_four(page, source, at + 16);
            turn_four(page, source, at + 20);
        }
    }
}
