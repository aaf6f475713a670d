ghost use Rattle.std.specs.Prelude.{◌≡◌, ◌+◌, ◌*◌, ◌<◌, ◌≤◌, ◌^◌, ◌∷◌, length};
ghost use Rattle.bdb_text_format.specs.of_format.Terms.{overwritten, pad4};
ghost use Rattle.bdb_mkqueue.specs.Layout.{page_of_record, slot_of};

use bdb_law_join::slot_size;
use bdb_text_format::QueueMeta;

// What the first byte of a slot says of its record. Readers ask for the first bit alone; some tools of the original look for the second one.
const VALID: u8 = 0x01;

const SET: u8 = 0x02;

/// The page of a record, where a page has so many.
pub fn page_of_record(per_page: u32, number: u32) -> u32
    requires number { 1 ≤ number }
    requires some { 1 ≤ per_page }
    ensures { result ≡ page_of_record per_page number }
{
    1 + (number - 1) / per_page
}

/// The slot of a record on its page.
pub(crate) fn slot_of(meta: &QueueMeta, number: u32) -> u32
    requires number { 1 ≤ number }
    requires some { 1 ≤ meta.now.per_page }
    ensures { result ≡ slot_of meta.now.per_page number }
{
    (number - 1) % meta.per_page
}

/// Writes a record into a slot of its page: a byte that says that it's valid and set, and its bytes.
pub(crate) fn put_record(page: &mut [u8], meta: &QueueMeta, slot: u32, value: &[u8])
    requires room { 28 + slot * pad4 (meta.now.re_len + 1) + 1 + length value.now ≤ length page.old }
    requires short { length page.old ≤ 32768 }
    ensures { page.new ≡ overwritten page.old (28 + slot * pad4 (meta.now.re_len + 1)) (3 ∷ value.now) }
{
    let at = 28 + slot as usize * slot_size(meta.re_len);
    page[at] = VALID | SET;
    page[at + 1..at + 1 + value.len()].copy_from_slice(value);
}
