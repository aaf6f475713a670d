ghost use Rattle.std.specs.Prelude.{◌≡◌, ◌+◌, ◌<◌, ◌≤◌, length};
ghost use Rattle.std.specs.Iterator.{YieldsFirstBy, item_count};
ghost use Rattle.bdb_overflow.specs.of_image.Linked.{HasMetadata, IsForest};
ghost use Rattle.bdb_overflow.specs.of_format.Terms.{NumberKey, QueueFields, file_of, get, page_at, queue_list};
ghost use Rattle.bdb_overflow.specs.Datum.{datum_seen};
ghost use Rattle.bdb_queue.specs.Records.{data_in, record_in_slot, records_seen};

use crate::record::{Record, record_in};
use bdb_overflow::{Datum, Forest, Linked, PageView, QueueMeta, Steps};
use std::marker::Model;
use std::sync::ledger::Ledger;

/// The record in a slot of a page, if it's live. A page of zeros has none.
#[tactic(auto, using(crate::proofs::QueueLemmas::page_slots, crate::proofs::RecordLemmas::slot_room))]
fn record_on<'a>(forest: &Forest<'a>, meta: &QueueMeta, page: u32, slot: u32) -> Option<Record<'a>>
    requires forest { IsForest forest.now }
    requires meta { HasMetadata (file_of forest.now) (QueueFields meta.now) }
    requires low { 1 ≤ page }
    requires high { page ≤ (file_of forest.now).last }
    requires slot { slot < meta.now.per_page }
    ensures { records_seen result ≡ record_in_slot meta.now page (page_at (file_of forest.now) page) slot }
{
    match forest.page(page) {
        PageView::Queue(view) => record_in(&view, meta, page, slot),
        _ => None,
    }
}

/// The record with the number after this one, if it's live. It stands at one place alone.
fn record_after<'a, L: Ledger>(
    forest: &Forest<'a>,
    meta: &QueueMeta,
    number: u32,
    steps: &mut Steps<L>,
) -> Option<Record<'a>>
    requires { HasMetadata (file_of forest.now) (QueueFields meta.now) }
    ensures data { data_in (records_seen result) ≡ get (queue_list (file_of forest.now) meta.now) (NumberKey (number + 1)) }
    ensures cost { steps.new ≤ steps.old + 1 }
{
    let last = forest.head().last;
    let before = number / meta.per_page;
    if before >= last {
        return None;
    }
    steps.tick();
    record_on(forest, meta, before + 1, number % meta.per_page)
}

/// The datum of a record that was found, until it's taken.
#[derive(Drop)]
pub struct Found<'a> {
    found: Option<Record<'a>>,
}

impl<'a> Model for Found<'a> {
    ghost use Rattle.std.specs.Prelude.{List, ℕ};
    ghost use Rattle.bdb_queue.specs.Records.{data_in, records_seen};

    ghost Value = { List (List ℕ) };

    ghost view = { λ it. data_in (records_seen it.found) };
}

/// What the queue with this metadata has under a number: one datum or none. At most one step; no memory is
/// taken.
pub fn find<'a, L: Ledger>(
    linked: &Linked<'a>,
    meta: &QueueMeta,
    number: u32,
    steps: &mut Steps<L>,
) -> Found<'a>
    requires { HasMetadata (file_of linked.now) (QueueFields meta.now) }
    ensures data { result ≡ get (queue_list (file_of linked.now) meta.now) (NumberKey number) }
    ensures few { length result ≤ 1 }
    ensures cost { steps.new ≤ steps.old + 1 }
{
    match number.checked_sub(1) {
        Some(before) => Found {
            found: record_after(&linked.forest(), meta, before, steps),
        },
        None => Found { found: None },
    }
}

impl<'a> Iterator for Found<'a> {
    type Item = Datum<'a>;

    ghost next_gives = { YieldsFirstBy datum_seen (λ left. left) };

    ghost remaining = { item_count (λ left. left) };

    fn next(&mut self) -> Option<Datum<'a>> {
        let record = self.found?;
        self.found = None;
        Some(Datum::Inline(record.bytes))
    }
}
