ghost use Rattle.std.specs.Prelude.{◌≡◌, ◌+◌, ◌≤◌, [], IsTrue};
ghost use Rattle.std.specs.Iterator.{YieldsFirstBy, item_count};
ghost use Rattle.std.specs.List.{cons_option};
ghost use Rattle.std.specs.Option.{option_map};
ghost use Rattle.bdb_tree.specs.of_image.Linked.{HasMetadata, IsForest};
ghost use Rattle.bdb_tree.specs.of_format.Terms.{BtreeFields, NumberKey, database_faults, file_of, get, header_in, is_recno, page_at, recno_list};
ghost use Rattle.bdb_tree.specs.of_overflow.Datum.{datum_seen};
ghost use Rattle.bdb_recno.specs.Counts.{HasRightCounts};
ghost use Rattle.bdb_recno.specs.Pages.{IsRecnoPage};

use crate::page::pages_of;
use crate::search::entry_below;
use bdb_tree::{BtreeMeta, Datum, Forest, Linked, Steps, is_deleted, value_of};
use std::marker::Model;
use std::sync::ledger::Ledger;

/// What a list has under a number: one value, or none.
#[derive(Drop)]
pub struct Found<'a> {
    value: Option<Datum<'a>>,
}

impl<'a> Model for Found<'a> {
    ghost use Rattle.std.specs.Prelude.{List, ℕ, []};
    ghost use Rattle.std.specs.List.{cons_option};
    ghost use Rattle.std.specs.Option.{option_map};
    ghost use Rattle.bdb_tree.specs.of_overflow.Datum.{datum_seen};

    ghost Value = { List (List ℕ) };

    ghost view = { λ it. cons_option (option_map datum_seen it.value) [] };
}

impl<'a> Iterator for Found<'a> {
    type Item = Datum<'a>;

    ghost next_gives = { YieldsFirstBy datum_seen (λ left. left) };

    ghost remaining = { item_count (λ left. left) };

    fn next(&mut self) -> Option<Datum<'a>> {
        self.value.take()
    }
}

/// What the list of a recno has under a number: a step for each page from the root down to a leaf. It takes no memory.
pub fn find<'a, L: Ledger>(
    linked: &Linked<'a>,
    meta: &BtreeMeta,
    number: u32,
    steps: &mut Steps<L>,
) -> Found<'a>
    requires meta { HasMetadata (file_of linked.now) (BtreeFields meta.now) }
    requires recno { IsTrue (is_recno meta.now) }
    requires contents { database_faults (file_of linked.now) (BtreeFields meta.now) ≡ [] }
    ensures values { result ≡ get (recno_list (file_of linked.now) meta.now.root) (NumberKey number) }
    ensures cost { steps.new ≤ steps.old + (header_in (page_at (file_of linked.now) meta.now.root)).level }
{
    let forest = pages_of(linked, meta);
    Found {
        value: record_of(&forest, meta, number, steps),
    }
}

/// The value of the live record with a number, from 1.
fn record_of<'a, L: Ledger>(
    forest: &Forest<'a>,
    meta: &BtreeMeta,
    number: u32,
    steps: &mut Steps<L>,
) -> Option<Datum<'a>>
    requires forest { IsForest forest.now }
    requires root { IsRecnoPage (file_of forest.now) meta.now.root }
    requires counts { HasRightCounts (file_of forest.now) meta.now.root }
    ensures value { cons_option (option_map datum_seen result) [] ≡ get (recno_list (file_of forest.now) meta.now.root) (NumberKey number) }
    ensures cost { steps.new ≤ steps.old + (header_in (page_at (file_of forest.now) meta.now.root)).level }
{
    let place = number.checked_sub(1)?;
    let entry = entry_below(forest, meta.root, place, steps)?;
    if is_deleted(&entry) {
        return None;
    }
    Some(value_of(forest, &entry))
}
