ghost use Rattle.std.specs.Prelude.{◌≡◌, ◌<◌, ◌≤◌, ◌∷◌, [], IfSome, MatchOption};
ghost use Rattle.bdb_overflow.specs.of_image.Linked.{HasMetadata, IsForest};
ghost use Rattle.bdb_overflow.specs.of_format.Terms.{QueueFields, file_of, page_at};
ghost use Rattle.bdb_queue.specs.Records.{HasSlots, left_from, record_seen, records_from, slots_from};

use crate::record::{Record, record_in};
use bdb_overflow::{Forest, PageView, QueueMeta, QueueView};

/// The first record of a page from a slot on, and the slot after it.
#[tactic(auto, using(crate::proofs::RecordLemmas::none_from, crate::proofs::RecordLemmas::next_from, crate::proofs::RecordLemmas::slot_room))]
fn first_in<'a>(
    view: &QueueView<'a>,
    meta: &QueueMeta,
    page: u32,
    slot: u32,
) -> Option<(Record<'a>, u32)>
    requires page { 1 ≤ page }
    requires slots { HasSlots meta.now view.now.bytes }
    ensures { MatchOption result (slots_from meta.now page view.now.bytes slot ≡ [])
        (λ first. slots_from meta.now page view.now.bytes slot ≡ record_seen first.0 ∷ slots_from meta.now page view.now.bytes first.1) }
{
    for at in slot..meta.per_page {
        if let Some(record) = record_in(view, meta, page, at) {
            return Some((record, at + 1));
        }
    }
    None
}

/// The first record of a page of a queue from a slot on, and the slot after it. A page of zeros has none.
#[tactic(auto, using(crate::proofs::QueueLemmas::page_slots))]
pub(crate) fn first_on<'a>(
    forest: &Forest<'a>,
    meta: &QueueMeta,
    page: u32,
    slot: u32,
) -> Option<(Record<'a>, u32)>
    requires forest { IsForest forest.now }
    requires meta { HasMetadata (file_of forest.now) (QueueFields meta.now) }
    requires low { 1 ≤ page }
    requires high { page ≤ (file_of forest.now).last }
    ensures { MatchOption result (records_from meta.now page (page_at (file_of forest.now) page) slot ≡ [])
        (λ first. records_from meta.now page (page_at (file_of forest.now) page) slot
        ≡ record_seen first.0 ∷ records_from meta.now page (page_at (file_of forest.now) page) first.1) }
{
    match forest.page(page) {
        PageView::Queue(view) => first_in(&view, meta, page, slot),
        _ => None,
    }
}

/// A slot of a page.
#[derive(Clone, Copy)]
pub(crate) struct SlotPlace {
    pub(crate) page: u32,
    pub(crate) slot: u32,
}

/// The first record of a queue from a place on, and the place after it. Only pages of the file are looked at.
#[tactic(auto, using(crate::proofs::RecordLemmas::next_records))]
pub(crate) fn first_from<'a>(
    forest: &Forest<'a>,
    meta: &QueueMeta,
    place: SlotPlace,
) -> Option<(Record<'a>, SlotPlace)>
    requires meta { HasMetadata (file_of forest.now) (QueueFields meta.now) }
    requires page { 1 ≤ place.page }
    ensures records { MatchOption result (left_from (file_of forest.now) meta.now place.page place.slot ≡ [])
        (λ first. left_from (file_of forest.now) meta.now place.page place.slot
        ≡ record_seen first.0 ∷ left_from (file_of forest.now) meta.now first.1.page first.1.slot) }
    ensures after { IfSome result (λ first. 1 ≤ first.1.page) }
{
    let mut slot = place.slot;
    for page in place.page..forest.head().last + 1 {
        if let Some((record, after)) = first_on(forest, meta, page, slot) {
            return Some((record, SlotPlace { page, slot: after }));
        }
        slot = 0;
    }
    None
}
