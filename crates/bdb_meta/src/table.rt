ghost use Rattle.std.specs.Prelude.{◌≡◌, ◌+◌, ◌^◌, ◌<◌, ◌≤◌, length, IsTrue};
ghost use Rattle.bdb_layout.specs.of_format.Terms.{answer, are_masks, coded, faulted, form_fault, form_row_code, group, hash_fields, is_page_size, is_zero};
ghost use Rattle.bdb_layout.specs.of_format.Terms.{lacks_spare, metadata_rows, overwritten, spelled, table_bytes, table_rows};
ghost use Rattle.std.specs.List.{flat_map};
ghost use Rattle.bdb_layout.specs.of_format.declared.metadata.FileKind.TheVariants.{Hash};

use crate::generic::{Generic, check_common, put_generic};
use bdb_layout::{
    FileKind, FormRow, HashMeta, MetaFault, Order, PageBytes, group_of, put_u32, u32_at,
};

/// The hash of a fixed text, by which a file tells its hash function.
pub(crate) const CHARKEY: u32 = 0x5e688dd1;

/// Whether there is one bucket alone, or the masks are one and the same power of two around the
/// greatest bucket.
fn are_masks(meta: &HashMeta) -> bool
    ensures { result ≡ are_masks meta.now }
{
    (meta.max_bucket == 0 && meta.high_mask == 0)
        || (meta.high_mask >= 1
            && (u64::from(meta.high_mask) + 1).is_power_of_two()
            && meta.low_mask == meta.high_mask / 2
            && meta.low_mask <= meta.max_bucket
            && meta.max_bucket <= meta.high_mask)
}

/// How many groups the buckets up to the greatest are in.
fn groups(max_bucket: u32) -> usize
    requires { max_bucket < 2 ^ 31 }
    ensures count { result ≡ group max_bucket + 1 }
    ensures bound { result ≤ 32 }
{
    group_of(max_bucket) as usize + 1
}

/// Whether a group of a bucket up to the greatest has the spare 0.
fn lacks_spare(meta: &HashMeta) -> bool
    requires { meta.now.max_bucket < 2 ^ 31 }
    ensures { result ≡ lacks_spare meta.now }
{
    (0..groups(meta.max_bucket)).any(|group| meta.spares[group] == 0)
}

/// The rows of hash metadata alone hold nowhere. A refusal is the first that does.
fn check_table(page: &[u8], order: Order, last: u32, meta: &HashMeta) -> Result<(), FormRow>
    requires page { 224 ≤ length page.now }
    requires last { last < 2 ^ 21 }
    requires meta { meta.now ≡ hash_fields order page.now }
    ensures { coded form_row_code result ≡ answer (table_rows order page.now last) tt }
{
    if u32_at(page, 92, order) != CHARKEY {
        return Err(FormRow::OwnHash);
    }
    if meta.flags > HashMeta::ALL {
        return Err(FormRow::HashFlags);
    }
    if !are_masks(meta) {
        return Err(FormRow::HashMasks);
    }
    if meta.max_bucket > last || lacks_spare(meta) {
        return Err(FormRow::HashBuckets);
    }
    Ok(())
}

/// The 32 spares.
fn spares(page: &[u8], order: Order) -> [u32; 32]
    requires { 224 ≤ length page.now }
    ensures { result ≡ (hash_fields order page.now).spares }
{
    let mut spares = [0; 32];
    for (group, spare) in spares.iter_mut().enumerate() {
        *spare = u32_at(page, 96 + 4 * group, order);
    }
    spares
}

/// The fields of hash metadata, taken as they are: for a page on which no row of the fault table holds.
pub fn hash_fields(page: &[u8], order: Order) -> HashMeta
    requires { 224 ≤ length page.now }
    ensures { result ≡ hash_fields order page.now }
{
    let page = PageBytes { bytes: page, order };
    HashMeta {
        flags: page.u32_at(48),
        max_bucket: page.u32_at(72),
        high_mask: page.u32_at(76),
        low_mask: page.u32_at(80),
        ffactor: page.u32_at(84),
        spares: spares(page.bytes, order),
        free: page.u32_at(28),
    }
}

/// The fields of this page as hash metadata. A refusal is the first row that holds.
#[tactic(auto, unfolding(crate::specs::Below::metadata_rows))]
pub fn checked_table(page: &[u8], order: Order, number: u32, last: u32) -> Result<HashMeta, FormRow>
    requires page { 512 ≤ length page.now }
    requires last { last < 2 ^ 21 }
    ensures { coded form_row_code result ≡ answer (metadata_rows order page.now number last Hash) (hash_fields order page.now) }
{
    check_common(page, order, number, FileKind::Hash)?;
    let meta = hash_fields(page, order);
    check_table(page, order, last, &meta)?;
    Ok(meta)
}

/// The fields of the hash metadata page `number` of a file whose last page is `last`, or the first row
/// of the fault table that holds for it.
pub fn hash_meta(page: &[u8], order: Order, number: u32, last: u32) -> Result<HashMeta, MetaFault>
    requires size { IsTrue (is_page_size (length page.now)) }
    requires last { last < 2 ^ 21 }
    ensures { result ≡ faulted form_fault (answer (metadata_rows order page.now number last Hash) (hash_fields order page.now)) }
{
    match checked_table(page, order, number, last) {
        Ok(meta) => Ok(meta),
        Err(row) => Err(row.fault()),
    }
}

/// Writes the 32 spares.
fn put_spares(page: &mut [u8], order: Order, spares: &[u32; 32])
    requires { 224 ≤ length page.old }
    ensures page { page.new ≡ overwritten page.old 96 (flat_map (λ spare. spelled 4 order spare) spares.now) }
    ensures field { (hash_fields order page.new).spares ≡ spares.now }
{
    for (group, spare) in spares.iter().enumerate() {
        put_u32(page, 96 + 4 * group, order, *spare);
    }
}

/// Writes hash metadata over a page of zeros: page `number` of a file whose last page is `last`, of a
/// table of this many elements.
pub fn put_hash_meta(
    page: &mut [u8],
    order: Order,
    number: u32,
    last: u32,
    elements: u32,
    meta: &HashMeta,
)
    requires size { IsTrue (is_page_size (length page.old)) }
    requires zero { IsTrue (is_zero page.old) }
    ensures page { page.new ≡ table_bytes order (length page.old) number last elements meta.now }
    ensures fields { hash_fields order page.new ≡ meta.now }
{
    let generic = Generic {
        kind: FileKind::Hash,
        number,
        free: meta.free,
        last,
        flags: meta.flags,
    };
    put_generic(page, order, generic);
    put_u32(page, 72, order, meta.max_bucket);
    put_u32(page, 76, order, meta.high_mask);
    put_u32(page, 80, order, meta.low_mask);
    put_u32(page, 84, order, meta.ffactor);
    put_u32(page, 88, order, elements);
    put_u32(page, 92, order, CHARKEY);
    put_spares(page, order, &meta.spares);
}
