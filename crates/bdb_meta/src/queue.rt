ghost use Rattle.std.specs.Prelude.{◌≡◌, ◌<◌, ◌≤◌, ◌^◌, length, IsTrue};
ghost use Rattle.bdb_layout.specs.of_format.Terms.{answer, coded, faulted, form_fault, form_row_code, is_page_size, is_zero, metadata_rows, queue_bytes};
ghost use Rattle.bdb_layout.specs.of_format.Terms.{queue_fields, queue_rows};
ghost use Rattle.bdb_layout.specs.of_format.declared.metadata.FileKind.TheVariants.{Queue};

use crate::generic::{Generic, check_common, put_generic};
use bdb_layout::{
    FileKind, FormRow, MetaFault, Order, PageBytes, QueueMeta, put_u32, records_per_page, u32_at,
};

/// The rows of queue metadata alone hold nowhere. A refusal is the first that does.
fn check_queue(page: &[u8], order: Order, meta: &QueueMeta) -> Result<(), FormRow>
    requires page { 96 ≤ length page.now }
    requires size { length page.now < 2 ^ 32 }
    requires meta { meta.now ≡ queue_fields order page.now }
    ensures { coded form_row_code result ≡ answer (queue_rows order page.now) tt }
{
    let per_page = records_per_page(page.len() as u32, meta.re_len);
    if u32_at(page, 92, order) != 0 {
        return Err(FormRow::Extent);
    }
    if per_page == 0 || meta.per_page != per_page {
        return Err(FormRow::QueueRecord);
    }
    if meta.first == 0 || meta.current == 0 {
        return Err(FormRow::QueueFirst);
    }
    if meta.first > meta.current {
        return Err(FormRow::WrappedQueue);
    }
    Ok(())
}

/// The fields of queue metadata, taken as they are: for a page on which no row of the fault table holds.
pub fn queue_fields(page: &[u8], order: Order) -> QueueMeta
    requires { 92 ≤ length page.now }
    ensures { result ≡ queue_fields order page.now }
{
    let page = PageBytes { bytes: page, order };
    QueueMeta {
        first: page.u32_at(72),
        current: page.u32_at(76),
        re_len: page.u32_at(80),
        re_pad: page.u32_at(84),
        per_page: page.u32_at(88),
    }
}

/// The fields of this page as queue metadata. A refusal is the first row that holds.
#[tactic(auto, unfolding(crate::specs::Below::metadata_rows))]
pub fn checked_queue(page: &[u8], order: Order) -> Result<QueueMeta, FormRow>
    requires room { 512 ≤ length page.now }
    requires size { length page.now < 2 ^ 32 }
    ensures { coded form_row_code result ≡ answer (metadata_rows order page.now 0 0 Queue) (queue_fields order page.now) }
{
    check_common(page, order, 0, FileKind::Queue)?;
    let meta = queue_fields(page, order);
    check_queue(page, order, &meta)?;
    Ok(meta)
}

/// The fields of queue metadata, which is page 0, or the first row of the fault table that holds for
/// it.
pub fn queue_meta(page: &[u8], order: Order) -> Result<QueueMeta, MetaFault>
    requires { IsTrue (is_page_size (length page.now)) }
    ensures { result ≡ faulted form_fault (answer (metadata_rows order page.now 0 0 Queue) (queue_fields order page.now)) }
{
    match checked_queue(page, order) {
        Ok(meta) => Ok(meta),
        Err(row) => Err(row.fault()),
    }
}

/// Writes queue metadata over a page of zeros: page 0 of a file whose last page is `last`.
pub fn put_queue_meta(page: &mut [u8], order: Order, last: u32, meta: &QueueMeta)
    requires size { IsTrue (is_page_size (length page.old)) }
    requires zero { IsTrue (is_zero page.old) }
    ensures page { page.new ≡ queue_bytes order (length page.old) last meta.now }
    ensures fields { queue_fields order page.new ≡ meta.now }
{
    let generic = Generic {
        kind: FileKind::Queue,
        number: 0,
        free: 0,
        last,
        flags: 0,
    };
    put_generic(page, order, generic);
    put_u32(page, 72, order, meta.first);
    put_u32(page, 76, order, meta.current);
    put_u32(page, 80, order, meta.re_len);
    put_u32(page, 84, order, meta.re_pad);
    put_u32(page, 88, order, meta.per_page);
}
