ghost use Rattle.std.specs.Prelude.{◌≡◌, ◌<◌, ◌≤◌, ◌+◌, ◌*◌, Some, drop, length, slice_index, slice_range};
ghost use Rattle.std.specs.Iterator.{YieldsFirstBy, item_count};
ghost use Rattle.bdb_rescue.specs.Entries.{record_read};
ghost use Rattle.bdb_rescue.specs.Kept.{file_in};
ghost use Rattle.bdb_rescue.specs.of_format.Terms.{has_bit, pad4, record_number};
ghost use Rattle.bdb_apart.specs.Left.{fit_left};
ghost use Rattle.bdb_apart.specs.Queues.{queue_in, queue_records, queue_records_on, queue_slot};
ghost use Rattle.bdb_apart.specs.Slots.{HasSlots, record_seen};

use bdb_homes::{PageType, QueueMeta, u32_at};
use bdb_rescue::{Datum, Salvaged};
use std::marker::Model;

/// How many bytes a slot has for a record of a length: the one that says what it is, the record, and what pads them.
fn slot_size(re_len: u32) -> usize
    ensures size { result ≡ pad4 (re_len + 1) }
    ensures room { re_len + 1 ≤ result }
    ensures high { result ≤ re_len + 4 }
{
    (re_len as usize + 4) / 4 * 4
}

/// The number of the record in a slot.
fn record_number(meta: &QueueMeta, page: u32, slot: u32) -> u64
    requires { 1 ≤ page }
    ensures { result ≡ record_number meta.now page slot }
{
    u64::from(page - 1) * u64::from(meta.per_page) + u64::from(slot) + 1
}

/// Whether a slot is valid, and its record: the bytes are those behind the page's header.
fn slot_of(bytes: &[u8], slot: u32, re_len: u32) -> (bool, &[u8])
    requires { (slot + 1) * pad4 (re_len + 1) ≤ length bytes.now }
    ensures valid { result.0 ≡ has_bit (slice_index bytes.now (slot * pad4 (re_len + 1))) 1 }
    ensures record { result.1.now ≡ slice_range bytes.now (slot * pad4 (re_len + 1) + 1) (slot * pad4 (re_len + 1) + 1 + re_len) }
{
    let start = slot as usize * slot_size(re_len);
    let end = start + 1 + re_len as usize;
    (bytes[start] & 1 != 0, &bytes[start + 1..end])
}

/// The record in a slot of a page, if it's live: the bytes are those behind the page's header.
fn record_in<'a>(
    bytes: &'a [u8],
    meta: &QueueMeta,
    page: u32,
    slot: u32,
) -> Option<(u32, Datum<'a>)>
    requires page { 1 ≤ page }
    requires slot { (slot + 1) * pad4 (meta.now.re_len + 1) ≤ length bytes.now }
    ensures { record_seen result ≡ queue_slot meta.now page bytes.now slot }
{
    let number = record_number(meta, page, slot);
    let (is_valid, record) = slot_of(bytes, slot, meta.re_len);
    if is_valid && number >= u64::from(meta.first) && number < u64::from(meta.current) {
        return Some((number as u32, Datum::Inline(record)));
    }
    None
}

/// The records of a page of a queue that are left.
#[derive(Drop)]
pub(crate) struct PageSlots<'a> {
    bytes: &'a [u8],
    meta: QueueMeta,
    page: u32,
    slot: u32,
}

impl<'a> Model for PageSlots<'a> {
    ghost use Rattle.std.specs.Prelude.{List, ℕ};
    ghost use Rattle.bdb_apart.specs.Queues.{queue_slots_from};
    ghost use Rattle.bdb_apart.specs.Slots.{IsOnPage};

    ghost Value = { List (ℕ × List ℕ) };

    ghost view = { λ v. queue_slots_from v.meta v.page v.bytes.now v.slot };

    ghost invariant = { λ v. IsOnPage v.meta v.page v.bytes.now };
}

impl<'a> PageSlots<'a> {
    /// The next one.
    #[tactic(auto, using(crate::proofs::SlotLemmas::slots_none, crate::proofs::SlotLemmas::slots_more, crate::proofs::SlotLemmas::slot_room))]
    fn next(&mut self) -> Option<(u32, Datum<'a>)>
        ensures { YieldsFirstBy record_read (λ left. left) self.old result self.new }
    {
        'slots: while self.slot < self.meta.per_page {
            let slot = self.slot;
            self.slot += 1;
            match record_in(self.bytes, &self.meta, self.page, slot) {
                Some(record) => return Some(record),
                None => {}
            }
        }
        None
    }
}

/// The records of a queue that are left.
#[derive(Drop)]
pub(crate) struct QueueRecords<'s, 'a> {
    salvaged: &'s Salvaged<'a>,
    meta: QueueMeta,
    here: Option<PageSlots<'a>>,
    page: u32,
}

impl<'s, 'a> Model for QueueRecords<'s, 'a> {
    ghost use Rattle.std.specs.Prelude.{List, ℕ, ◌++◌};
    ghost use Rattle.bdb_apart.specs.Left.{fit_left};
    ghost use Rattle.bdb_apart.specs.Queues.{queue_from};
    ghost use Rattle.bdb_apart.specs.Slots.{IsInQueue};

    ghost Value = { List (ℕ × List ℕ) };

    ghost view = { λ v. fit_left v.here ++ queue_from v.salvaged.now v.meta v.page };

    ghost invariant = { λ v. IsInQueue v.salvaged.now v.meta v.page };
}

impl<'s, 'a> QueueRecords<'s, 'a> {
    /// All of them.
    #[tactic(auto, unfolding(crate::specs::Queues::queue_records))]
    pub(crate) fn over(salvaged: &'s Salvaged<'a>, meta: QueueMeta) -> QueueRecords<'s, 'a>
        requires { queue_in salvaged.now ≡ Some meta }
        ensures { result ≡ queue_records salvaged.now meta }
    {
        QueueRecords {
            salvaged,
            meta,
            here: None,
            page: 1,
        }
    }
}

/// The bytes of a page behind its header.
fn behind_header(page: &[u8]) -> &[u8]
    requires { 28 ≤ length page.now }
    ensures { result.now ≡ drop 28 page.now }
{
    &page[28..]
}

/// The records of a page of a queue.
fn slots_on<'a>(salvaged: &Salvaged<'a>, meta: &QueueMeta, page: u32) -> Option<PageSlots<'a>>
    requires low { 1 ≤ page }
    requires there { page < (file_in salvaged.now).count }
    requires slots { HasSlots salvaged.now.guess.page_size meta.now }
    ensures { fit_left result ≡ queue_records_on salvaged.now meta.now page }
{
    let bytes = salvaged.bytes_at(page);
    if bytes[25] != PageType::QUEUE || u32_at(bytes, 8, salvaged.guess().order) != page {
        return None;
    }
    Some(PageSlots {
        bytes: behind_header(bytes),
        meta: *meta,
        page,
        slot: 0,
    })
}

/// The next record of a page, if there is one.
fn next_here<'a>(here: &mut Option<PageSlots<'a>>) -> Option<(u32, Datum<'a>)>
    ensures { YieldsFirstBy record_read fit_left here.old result here.new }
{
    match here {
        Some(records) => records.next(),
        None => None,
    }
}

impl<'s, 'a> Iterator for QueueRecords<'s, 'a> {
    type Item = (u32, Datum<'s>);

    ghost next_gives = { YieldsFirstBy record_read (λ left. left) };

    ghost remaining = { item_count (λ left. left) };

    #[tactic(auto, using(crate::proofs::SlotLemmas::queue_none, crate::proofs::SlotLemmas::queue_more, crate::proofs::SlotLemmas::has_slots))]
    fn next(&mut self) -> Option<(u32, Datum<'s>)> {
        'walk: loop {
            match next_here(&mut self.here) {
                Some(record) => return Some(record),
                None => {}
            }
            if self.page >= self.salvaged.pages().count() {
                return None;
            }
            self.here = slots_on(self.salvaged, &self.meta, self.page);
            self.page += 1;
        }
    }
}
