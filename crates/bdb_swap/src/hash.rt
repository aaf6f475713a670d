ghost use Rattle.std.specs.Prelude.{◌≡◌, ◌+◌, ◌≤◌, length};
ghost use Rattle.bdb_law_turned.specs.of_layout.Seen.{hash_item_seen};
ghost use Rattle.bdb_law_turned.specs.Fields.{block_fields, hash_fields};
ghost use Rattle.bdb_law_turned.specs.Apart.{run_length};
ghost use Rattle.bdb_law_turned.specs.Parts.{hash_item_end};
ghost use Rattle.bdb_swap.specs.Turns.{Turns};

use crate::listed::TurnKind;
use crate::number::{turn_four, turn_two};
use bdb_io::Order;
use bdb_law_turned::{DupBlocks, HashItem, HashKind, known_hash_item, offset_at};

impl TurnKind for HashKind {
    ghost fields = { λ at item. hash_fields at item.content };

    fn turn_item(page: &mut [u8], source: &[u8], order: Order, index: u16) {
        let at = usize::from(offset_at(source, order, index));
        turn_hash_item(page, source, at, known_hash_item(source, order, index));
    }
}

/// Turns the numbers of an item of a hash page round, which begins at a place.
fn turn_hash_item(page: &mut [u8], source: &[u8], at: usize, item: HashItem<'_>)
    requires inside { hash_item_end at (hash_item_seen item).content ≤ length source.now }
    requires same { length page.old ≡ length source.now }
    ensures turns { Turns source.now (hash_fields at (hash_item_seen item.entry).content) page.old page.new }
    ensures same { length page.new ≡ length page.old }
{
    match item {
        HashItem::Inline(_) => {}
        HashItem::Set(blocks) => turn_blocks(page, source, at + 1, blocks),
        HashItem::Overflow { .. } => {
            turn_four(page, source, at + 4);
            turn_four(page, source, at + 8);
        }
        HashItem::OffPage { .. } => turn_four(page, source, at + 4),
    }
}

/// Turns the two lengths of each block of a set round, which begins at a place.
fn turn_blocks(page: &mut [u8], source: &[u8], at: usize, blocks: DupBlocks<'_>)
    requires room { at + run_length blocks.blocks ≤ length source.now }
    requires same { length page.old ≡ length source.now }
    ensures turns { Turns source.now (block_fields at blocks.entry.blocks) page.old page.new }
    ensures same { length page.new ≡ length page.old }
{
    let mut place = at;
    for block in blocks {
        turn_two(page, source, place);
        turn_two(page, source, place + 2 + block.len());
        place += 4 + block.len();
    }
}
