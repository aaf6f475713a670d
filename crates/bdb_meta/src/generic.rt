ghost use Rattle.std.specs.Prelude.{◌≡◌, ◌==◌, ◌≤◌, ◌<◌, ◌^◌, ◌-◌, ◌++◌, ◌||◌, length, not, IsTrue};
ghost use Rattle.bdb_layout.specs.of_format.Terms.{answer, byte_at, coded, common_bytes, form_row_code, four_at, has_bit, identity_rows, is_zero, last_field};
ghost use Rattle.bdb_layout.specs.of_format.Terms.{magic_of, meta_rows, type_of, version_of, zeros};
ghost use Rattle.bdb_meta.specs.RowGroups.{common_rows, left_out};

use bdb_layout::{FileKind, FormRow, Order, PageType, magic_of, put_u32, u32_at};

/// The version that is read of a kind of file.
pub fn version_of(kind: FileKind) -> u32
    ensures { result ≡ version_of kind }
{
    match kind {
        FileKind::Btree | FileKind::Hash => 9,
        FileKind::Queue => 4,
    }
}

/// The type byte of metadata of a kind.
pub fn type_of(kind: FileKind) -> u8
    ensures { result ≡ type_of kind }
{
    match kind {
        FileKind::Btree => PageType::BTREE_META,
        FileKind::Hash => PageType::HASH_META,
        FileKind::Queue => PageType::QUEUE_META,
    }
}

/// A bit of the metaflags: each page has a checksum.
pub(crate) const CHECKSUM: u32 = 0x01;

// The bits of the metaflags that a partitioned file has.
const PARTITIONS: u32 = 0x06;

/// Whether one of these bits is set.
pub fn has_bit(flags: u32, bits: u32) -> bool
    ensures { result ≡ has_bit flags bits }
{
    flags & bits != 0
}

/// Whether the metaflags or the number of partitions say that the file is partitioned.
pub fn is_partitioned(page: &[u8], order: Order) -> bool
    requires { 40 ≤ length page.now }
    ensures { result ≡ (has_bit (byte_at page.now 26) 0x06 || not (four_at order page.now 36 == 0)) }
{
    has_bit(u32::from(page[26]), PARTITIONS) || u32_at(page, 36, order) != 0
}

/// The page has its number, and the type of metadata of this kind. A refusal is the row.
fn check_identity(page: &[u8], order: Order, number: u32, kind: FileKind) -> Result<(), FormRow>
    requires { 40 ≤ length page.now }
    ensures { coded form_row_code result ≡ answer (identity_rows order page.now number (λ byte. byte == type_of kind)) tt }
{
    if u32_at(page, 8, order) != number {
        return Err(FormRow::PageNumber);
    }
    if page[25] != type_of(kind) {
        return Err(FormRow::PageType);
    }
    Ok(())
}

/// Pages aren't encrypted and have no checksums, and the file isn't partitioned. A refusal is the row that is given for the first that is so.
pub(crate) fn check_left_out<R: Copy>(
    page: &[u8],
    order: Order,
    encryption: R,
    checksum: R,
    partition: R,
) -> Result<(), R>
    requires { 40 ≤ length page.now }
    ensures { result ≡ answer (left_out encryption checksum partition order page.now) tt }
{
    if page[24] != 0 {
        return Err(encryption);
    }
    if has_bit(u32::from(page[26]), CHECKSUM) {
        return Err(checksum);
    }
    if is_partitioned(page, order) {
        return Err(partition);
    }
    Ok(())
}

/// The rows of all metadata hold nowhere. A refusal is the first that does.
#[tactic(auto, using(crate::proofs::RowLemmas::coded_left_out))]
fn check_generic(page: &[u8], order: Order, number: u32, kind: FileKind) -> Result<(), FormRow>
    requires { 40 ≤ length page.now }
    ensures { coded form_row_code result ≡ answer (meta_rows order page.now number kind) tt }
{
    if number > 0 && u32_at(page, 12, order) != magic_of(kind) {
        return Err(FormRow::MetaMagic);
    }
    if number > 0 && u32_at(page, 16, order) != version_of(kind) {
        return Err(FormRow::Version);
    }
    if u32_at(page, 20, order) as usize != page.len() {
        return Err(FormRow::MetaPageSize);
    }
    check_left_out(
        page,
        order,
        FormRow::Encryption,
        FormRow::Checksum,
        FormRow::Partition,
    )
}

/// No row of any metadata holds for this page. A refusal is the first that does.
pub fn check_common(page: &[u8], order: Order, number: u32, kind: FileKind) -> Result<(), FormRow>
    requires { 40 ≤ length page.now }
    ensures { coded form_row_code result ≡ answer (common_rows order page.now number kind) tt }
{
    check_identity(page, order, number, kind)?;
    check_generic(page, order, number, kind)
}

/// The fields that all metadata has.
#[derive(Clone, Copy)]
pub struct Generic {
    pub kind: FileKind,
    pub number: u32,
    pub free: u32,
    pub last: u32,
    pub flags: u32,
}

/// The last page field: that of page 0 is the last page of the file, all others are 0.
fn last_field(number: u32, last: u32) -> u32
    ensures { result ≡ last_field number last }
{
    if number == 0 { last } else { 0 }
}

/// Writes the fields that all metadata has over a page of zeros.
pub fn put_generic(page: &mut [u8], order: Order, fields: Generic)
    requires zero { IsTrue (is_zero page.old) }
    requires room { 72 ≤ length page.old }
    requires size { length page.old < 2 ^ 32 }
    ensures { page.new ≡ common_bytes order fields.kind (length page.old) fields.number fields.free (last_field fields.number fields.last) fields.flags
        ++ zeros (length page.old - 72) }
{
    let size = page.len() as u32;
    put_u32(page, 4, order, 1);
    put_u32(page, 8, order, fields.number);
    put_u32(page, 12, order, magic_of(fields.kind));
    put_u32(page, 16, order, version_of(fields.kind));
    put_u32(page, 20, order, size);
    page[25] = type_of(fields.kind);
    put_u32(page, 28, order, fields.free);
    put_u32(page, 32, order, last_field(fields.number, fields.last));
    put_u32(page, 48, order, fields.flags);
}
