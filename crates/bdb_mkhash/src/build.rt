ghost use Rattle.std.specs.Prelude.{◌≡◌, ◌≤◌, ◌+◌, ◌-◌, ◌++◌, IfOk, length, replicate};
ghost use Rattle.bdb_mktree.specs.of_format.declared.kinds.Kind.TheVariants.{Hash as HashKind};
ghost use Rattle.bdb_mktree.specs.of_text_format.Terms.{listed, pairs_of};
ghost use Rattle.bdb_law_buckets.specs.Tables.{table_meta};
ghost use Rattle.bdb_mkhash.specs.Buckets.{table_units};
ghost use Rattle.bdb_mkhash.specs.Table.{IsTableBuilt, IsTableList};

use crate::buckets::{bucket_count, deal, table_bits};
use crate::fill::{add_buckets, fill_buckets};
use bdb_mktree::{HashMeta, Pages, PairSlice, Settings};
use std::alloc::{AllocError, Global};

// The most bits of the number of a bucket: the longest file that is read has no more pages.
const MAX_BITS: u32 = 21;

// The spares of a table with so many bits to the number of a bucket, whose first page this is.
fn spares_of(first: u32, bits: u32) -> [u32; 32]
    requires { bits ≤ 21 }
    ensures { result ≡ replicate (bits + 1) first ++ replicate (31 - bits) 0 }
{
    let mut spares = [0; 32];
    for group in 0..bits as usize + 1 {
        spares[group] = first;
    }
    spares
}

// The metadata of a table with so many bits to the number of a bucket, whose first page this is.
fn table_meta(settings: &Settings, first: u32, bits: u32) -> HashMeta
    requires some { 1 ≤ bits }
    requires few { bits ≤ 21 }
    ensures { result ≡ table_meta settings.now first bits }
{
    let count = bucket_count(bits);
    let duplicates = if settings.duplicates {
        HashMeta::DUPLICATES
    } else {
        0
    };
    let sorted = if settings.sorted { HashMeta::SORTED } else { 0 };
    HashMeta {
        flags: duplicates + sorted,
        max_bucket: count - 1,
        high_mask: count - 1,
        low_mask: count / 2 - 1,
        ffactor: settings.ffactor,
        spares: spares_of(first, bits),
        free: 0,
    }
}

/// Builds the table of a list behind all pages, and answers its metadata. The page size and the order of the settings are those of the
/// pages. An error means that memory ran out, that there would be more than 2^21 pages, or that a sum of counts doesn't fit its field.
pub fn build_table(
    alloc: Global,
    pages: &mut Pages,
    settings: &Settings,
    list: PairSlice<'_>,
) -> Result<HashMeta, AllocError>
    requires kind { settings.now.kind ≡ HashKind }
    requires size { pages.old.size ≡ settings.now.page_size }
    requires order { pages.old.order ≡ settings.now.order }
    requires some { 1 ≤ length pages.old.pages }
    requires list { IsTableList settings.now (pairs_of list) }
    ensures { IfOk result (λ meta. IsTableBuilt settings.now pages.old pages.new (table_units (pairs_of list.entry)) (listed (pairs_of list.entry)) meta) }
{
    let bits = table_bits(pages.size(), list)?;
    if bits > MAX_BITS {
        return Err(AllocError);
    }
    let buckets = deal(alloc, list, bits)?;
    let first = pages.count();
    add_buckets(pages, bucket_count(bits))?;
    fill_buckets(alloc, pages, first, settings.sorted, buckets.as_slice())?;
    Ok(table_meta(settings, first, bits))
}
