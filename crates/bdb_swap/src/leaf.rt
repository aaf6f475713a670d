ghost use Rattle.std.specs.Prelude.{◌≡◌, ◌≤◌, length};
ghost use Rattle.bdb_law_turned.specs.of_layout.Seen.{leaf_item_seen};
ghost use Rattle.bdb_law_turned.specs.Fields.{leaf_fields};
ghost use Rattle.bdb_law_turned.specs.of_form.Ends.{leaf_item_end};
ghost use Rattle.bdb_swap.specs.Turns.{Turns};

use crate::listed::TurnKind;
use crate::number::{turn_four, turn_two};
use bdb_io::Order;
use bdb_law_turned::{Entries, EntryLeafKind, LeafItem, LeafKind, known_leaf_item, offset_at};

impl TurnKind for LeafKind {
    ghost fields = { λ at item. leaf_fields at item.content };

    fn turn_item(page: &mut [u8], source: &[u8], order: Order, index: u16) {
        let at = usize::from(offset_at(source, order, index));
        turn_leaf_item(page, source, at, &known_leaf_item(source, order, index));
    }
}

impl<E: Entries> TurnKind for EntryLeafKind<E> {
    ghost fields = { λ at item. leaf_fields at item.content };

    fn turn_item(page: &mut [u8], source: &[u8], order: Order, index: u16) {
        LeafKind::turn_item(page, source, order, index);
    }
}

/// Turns the numbers of an item of a leaf round, which begins at a place.
fn turn_leaf_item(page: &mut [u8], source: &[u8], at: usize, item: &LeafItem<'_>)
    requires inside { leaf_item_end at (leaf_item_seen item.now).content ≤ length source.now }
    requires same { length page.old ≡ length source.now }
    ensures turns { Turns source.now (leaf_fields at (leaf_item_seen item.now).content) page.old page.new }
    ensures same { length page.new ≡ length page.old }
{
    match item {
        LeafItem::Inline { .. } => turn_two(page, source, at),
        LeafItem::Duplicates { .. } => turn_four(page, source, at + 4),
        LeafItem::Overflow { .. } => {
            turn_four(page, source, at + 4);
            turn_four(page, source, at + 8);
        }
    }
}
