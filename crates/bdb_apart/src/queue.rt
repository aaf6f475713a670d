ghost use Rattle.std.specs.Prelude.{◌≡◌, ◌≤◌, ◌<◌, ◌^◌, is_none, length, not};
ghost use Rattle.std.specs.Option.{is_some};
ghost use Rattle.bdb_rescue.specs.of_format.Terms.{field_rows, first_row, meta_rows, queue_fields, queue_rows};
ghost use Rattle.bdb_rescue.specs.of_format.declared.metadata.FileKind.TheVariants.{Queue};
ghost use Rattle.bdb_apart.specs.Queues.{queue_in, queue_on};

use bdb_homes::{Order, PageType, QueueMeta, queue_fields, records_per_page, u32_at};
use bdb_rescue::Salvaged;

/// Whether a row of metadata above page 0 holds, by the magic number and the version of a queue.
fn has_meta_row(page: &[u8], order: Order) -> bool
    requires room { 512 ≤ length page.now }
    requires size { length page.now < 2 ^ 32 }
    ensures { result ≡ is_some (first_row (meta_rows order page.now 1 Queue)) }
{
    if u32_at(page, 12, order) != 0x042253 {
        return true;
    }
    if u32_at(page, 16, order) != 4 {
        return true;
    }
    if u32_at(page, 20, order) != page.len() as u32 {
        return true;
    }
    if page[24] != 0 {
        return true;
    }
    if page[26] & 0x01 != 0 {
        return true;
    }
    if page[26] & 0x06 != 0 || u32_at(page, 36, order) != 0 {
        return true;
    }
    false
}

/// Whether a row of the fields of a queue holds.
fn has_queue_row(page: &[u8], order: Order, meta: &QueueMeta) -> bool
    requires room { 512 ≤ length page.now }
    requires size { length page.now < 2 ^ 32 }
    requires meta { meta.now ≡ queue_fields order page.now }
    ensures { result ≡ is_some (first_row (queue_rows order page.now)) }
{
    let per_page = records_per_page(page.len() as u32, meta.re_len);
    if u32_at(page, 92, order) != 0 {
        return true;
    }
    if per_page == 0 || meta.per_page != per_page {
        return true;
    }
    if meta.first == 0 || meta.current == 0 {
        return true;
    }
    if meta.current < meta.first {
        return true;
    }
    false
}

/// Whether one of both holds.
#[tactic(auto, using(crate::proofs::SlotLemmas::none_of_both))]
fn has_row(page: &[u8], order: Order, meta: &QueueMeta) -> bool
    requires room { 512 ≤ length page.now }
    requires size { length page.now < 2 ^ 32 }
    requires meta { meta.now ≡ queue_fields order page.now }
    ensures { is_none (first_row (field_rows order page.now 1 0 Queue)) ≡ not result }
{
    let by_meta = has_meta_row(page, order);
    let by_fields = has_queue_row(page, order, meta);
    by_meta || by_fields
}

/// The fields of a page, if it's the metadata of a queue whose records have some length.
fn queue_on(page: &[u8], order: Order) -> Option<QueueMeta>
    requires room { 512 ≤ length page.now }
    requires size { length page.now < 2 ^ 32 }
    ensures { result ≡ queue_on order page.now }
{
    let meta = queue_fields(page, order);
    if page[25] != PageType::QUEUE_META || has_row(page, order, &meta) || meta.re_len == 0 {
        return None;
    }
    Some(meta)
}

/// The metadata on page 0, if it's that of a queue.
#[tactic(auto, unfolding(crate::specs::Queues::queue_in), using(crate::proofs::Below::size_bounds))]
pub(crate) fn queue_of(salvaged: &Salvaged<'_>) -> Option<QueueMeta>
    ensures { result ≡ queue_in salvaged.now }
{
    if salvaged.pages().count() == 0 {
        return None;
    }
    queue_on(salvaged.bytes_at(0), salvaged.guess().order)
}
