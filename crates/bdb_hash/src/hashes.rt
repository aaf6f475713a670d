ghost use Rattle.std.specs.Prelude.{◌≡◌, ◌++◌, ℕ, [], IfOk, OnOk, map, true};
ghost use Rattle.std.specs.BTreeSet.{BTreeSet};
ghost use Rattle.std.specs.List.{IsDistinct};
ghost use Rattle.bdb_ranks.specs.of_image.Linked.{HasMetadata};
ghost use Rattle.bdb_buckets.specs.Chained.{AreAllOf, AreOf};
ghost use Rattle.bdb_hash.specs.Passed.{is_among, is_missed, key_hash};
ghost use Rattle.bdb_buckets.specs.Told.{joined_pages, table_told};
ghost use Rattle.bdb_ranks.specs.of_format.Terms.{HashFields, file_of, structure_faults};

use crate::Chains;
use bdb_buckets::{BucketPages, PagePairs, bucket_pages, buckets};
use bdb_ranks::{HashMeta, Linked};
use std::alloc::{AllocError, Global};
use std::collections::BTreeSet;

/// Adds the hashes of the keys of a page.
#[tactic(auto, using(bdb_buckets::proofs::ChainedLemmas::first_of, bdb_buckets::proofs::ChainedLemmas::rest_of))]
fn push_page(
    hashes: &mut Vec<u32>,
    known: &mut Chains<'_>,
    page: &mut PagePairs<'_>,
) -> Result<(), AllocError>
    requires { AreOf known.old page.old }
    ensures same { known.new ≡ known.old }
    ensures hashes { OnOk result (hashes.new.items ≡ hashes.old.items ++ map key_hash page.old) }
{
    for pair in page {
        let hash = known.hash_of(&pair)?;
        hashes.push(hash)?;
    }
    Ok(())
}

/// Adds the hashes of the keys of the pages of a bucket.
#[tactic(auto, using(crate::proofs::ChainedLemmas::first_page_of, crate::proofs::ChainedLemmas::other_pages_of))]
fn push_bucket(
    hashes: &mut Vec<u32>,
    known: &mut Chains<'_>,
    pages: BucketPages<'_>,
) -> Result<(), AllocError>
    requires { AreAllOf known.old pages }
    ensures same { known.new ≡ known.old }
    ensures hashes { OnOk result (hashes.new.items ≡ hashes.old.items ++ map key_hash (joined_pages pages.entry)) }
{
    for mut page in pages {
        push_page(hashes, known, &mut page)?;
    }
    Ok(())
}

/// The hashes of the keys of a table, four bytes each. An error means that memory ran out.
#[tactic(auto, using(crate::proofs::ChainedLemmas::bucket_of_file, crate::proofs::HashedLemmas::hashes_more))]
fn table_hashes(
    alloc: Global,
    linked: &Linked<'_>,
    meta: &HashMeta,
    known: &mut Chains<'_>,
) -> Result<Vec<u32>, AllocError>
    requires meta { HasMetadata (file_of linked.now) (HashFields meta.now) }
    requires stage { structure_faults (file_of linked.now) ≡ [] }
    requires known { known.old ≡ linked.now }
    ensures same { known.new ≡ known.old }
    ensures hashes { IfOk result (λ hashes. hashes.items ≡ map key_hash (table_told linked.now meta.now)) }
{
    let mut hashes = Vec::new(alloc);
    for b in 0..buckets(linked, meta) {
        push_bucket(&mut hashes, known, bucket_pages(linked, meta, b))?;
    }
    Ok(hashes)
}

/// Adds a number where it is the one before it.
fn push_same(twice: &mut BTreeSet<u32>, before: u32, number: u32) -> Result<(), AllocError>
    ensures same { OnOk result (before ≡ number → is_among twice.new before ≡ true) }
    ensures kept { OnOk result ((other : ℕ) → is_among twice.old other ≡ true → is_among twice.new other ≡ true) }
{
    if before == number {
        twice.insert(number)?;
    }
    Ok(())
}

/// The numbers that are among these twice or more often. These are sorted for that; an error means that memory ran out for those.
fn repeated_of(alloc: Global, numbers: &mut Vec<u32>) -> Result<BTreeSet<u32>, AllocError>
    ensures { IfOk result (λ twice. IsDistinct (is_missed twice) numbers.old.items) }
{
    numbers.sort_unstable();
    let mut twice = BTreeSet::new(alloc);
    for i in 1..numbers.len() {
        push_same(&mut twice, numbers[i - 1], numbers[i])?;
    }
    Ok(twice)
}

/// The hashes that more than one key of a table has. While it runs it takes four bytes for each pair; an error is want
/// of memory.
pub(crate) fn repeated_hashes(
    alloc: Global,
    linked: &Linked<'_>,
    meta: &HashMeta,
    known: &mut Chains<'_>,
) -> Result<BTreeSet<u32>, AllocError>
    requires meta { HasMetadata (file_of linked.now) (HashFields meta.now) }
    requires stage { structure_faults (file_of linked.now) ≡ [] }
    requires known { known.old ≡ linked.now }
    ensures same { known.new ≡ known.old }
    ensures twice { IfOk result (λ twice. IsDistinct (is_missed twice) (map key_hash (table_told linked.now meta.now))) }
{
    let mut hashes = table_hashes(alloc, linked, meta, known)?;
    repeated_of(alloc, &mut hashes)
}
