ghost use Rattle.std.specs.Prelude.{◌≡◌, ◌+◌, ◌*◌, ◌≤◌, length};
ghost use Rattle.bdb_overflow.specs.of_format.Terms.{listed_slot, pad4, record_number};
ghost use Rattle.bdb_queue.specs.Records.{records_seen};

use bdb_overflow::{QueueMeta, QueueView};

/// A live record of a queue.
#[derive(Clone, Copy)]
pub(crate) struct Record<'a> {
    pub(crate) number: u32,
    pub(crate) bytes: &'a [u8],
}

/// The number of the record in a slot. It may be more than fits a key.
fn record_number(meta: &QueueMeta, page: u32, slot: u32) -> u64
    requires { 1 ≤ page }
    ensures { result ≡ record_number meta.now page slot }
{
    u64::from(page - 1) * u64::from(meta.per_page) + u64::from(slot) + 1
}

/// The record in a slot of a page, where it's live.
pub(crate) fn record_in<'a>(
    view: &QueueView<'a>,
    meta: &QueueMeta,
    page: u32,
    slot: u32,
) -> Option<Record<'a>>
    requires page { 1 ≤ page }
    requires slot { (slot + 1) * pad4 (meta.now.re_len + 1) ≤ length view.now.bytes }
    ensures { records_seen result ≡ listed_slot meta.now page view.now.bytes slot }
{
    let number = record_number(meta, page, slot);
    let (is_valid, bytes) = view.slot(slot, meta.re_len);
    if is_valid && number >= u64::from(meta.first) && number < u64::from(meta.current) {
        return Some(Record {
            number: number as u32,
            bytes,
        });
    }
    None
}
