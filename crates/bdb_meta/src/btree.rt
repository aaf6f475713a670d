ghost use Rattle.std.specs.Prelude.{◌≡◌, ◌≤◌, length, IsTrue};
ghost use Rattle.bdb_layout.specs.of_format.Terms.{answer, are_wrong_flags, btree_bytes, btree_fields, coded, faulted, form_fault, form_row_code, is_page_size};
ghost use Rattle.bdb_layout.specs.of_format.Terms.{is_zero, metadata_rows};
ghost use Rattle.bdb_meta.specs.RowGroups.{flag_rows};
ghost use Rattle.bdb_layout.specs.of_format.declared.metadata.FileKind.TheVariants.{Btree};

use crate::generic::{Generic, check_common, has_bit, put_generic};
use bdb_layout::{BtreeMeta, FileKind, FormRow, MetaFault, Order, PageBytes, put_u32};

/// Whether flags aren't known or don't go together.
fn are_wrong_flags(number: u32, flags: u32) -> bool
    ensures { result ≡ are_wrong_flags number flags }
{
    flags > BtreeMeta::ALL
        || (has_bit(flags, BtreeMeta::RECNO)
            && (has_bit(flags, BtreeMeta::KEYED)
                || (number == 0 && has_bit(flags, BtreeMeta::NAMES))))
        || (has_bit(flags, BtreeMeta::RECORD_NUMBERS) && has_bit(flags, BtreeMeta::SEVERAL))
}

/// The rows of btree metadata alone hold nowhere. A refusal is the first that does.
fn check_btree(number: u32, meta: &BtreeMeta) -> Result<(), FormRow>
    ensures { coded form_row_code result ≡ answer (flag_rows number meta.now.flags) tt }
{
    if has_bit(meta.flags, BtreeMeta::COMPRESSED) {
        return Err(FormRow::Compression);
    }
    if are_wrong_flags(number, meta.flags) {
        return Err(FormRow::BtreeFlags);
    }
    Ok(())
}

/// The fields of btree metadata, taken as they are: for a page on which no row of the fault table holds.
pub fn btree_fields(page: &[u8], order: Order) -> BtreeMeta
    requires { 92 ≤ length page.now }
    ensures { result ≡ btree_fields order page.now }
{
    let page = PageBytes { bytes: page, order };
    BtreeMeta {
        flags: page.u32_at(48),
        minkey: page.u32_at(76),
        re_len: page.u32_at(80),
        re_pad: page.u32_at(84),
        root: page.u32_at(88),
        free: page.u32_at(28),
    }
}

/// The fields of this page as btree metadata. A refusal is the first row that holds.
#[tactic(auto, unfolding(crate::specs::Below::metadata_rows))]
pub fn checked_btree(page: &[u8], order: Order, number: u32) -> Result<BtreeMeta, FormRow>
    requires { 512 ≤ length page.now }
    ensures { coded form_row_code result ≡ answer (metadata_rows order page.now number 0 Btree) (btree_fields order page.now) }
{
    check_common(page, order, number, FileKind::Btree)?;
    let meta = btree_fields(page, order);
    check_btree(number, &meta)?;
    Ok(meta)
}

/// The fields of the btree metadata page `number`, or the first row of the fault table that holds
/// for it.
pub fn btree_meta(page: &[u8], order: Order, number: u32) -> Result<BtreeMeta, MetaFault>
    requires { IsTrue (is_page_size (length page.now)) }
    ensures { result ≡ faulted form_fault (answer (metadata_rows order page.now number 0 Btree) (btree_fields order page.now)) }
{
    match checked_btree(page, order, number) {
        Ok(meta) => Ok(meta),
        Err(row) => Err(row.fault()),
    }
}

/// Writes btree metadata over a page of zeros: page `number` of a file whose last page is `last`.
pub fn put_btree_meta(page: &mut [u8], order: Order, number: u32, last: u32, meta: &BtreeMeta)
    requires size { IsTrue (is_page_size (length page.old)) }
    requires zero { IsTrue (is_zero page.old) }
    ensures page { page.new ≡ btree_bytes order (length page.old) number last meta.now }
    ensures fields { btree_fields order page.new ≡ meta.now }
{
    let generic = Generic {
        kind: FileKind::Btree,
        number,
        free: meta.free,
        last,
        flags: meta.flags,
    };
    put_generic(page, order, generic);
    put_u32(page, 76, order, meta.minkey);
    put_u32(page, 80, order, meta.re_len);
    put_u32(page, 84, order, meta.re_pad);
    put_u32(page, 88, order, meta.root);
}
