ghost use Rattle.std.specs.Prelude.{◌≡◌, ◌+◌, ◌-◌, ◌^◌, [], IfOk, OnOk, length, min};
ghost use Rattle.std.specs.List.{flat_map};
ghost use Rattle.std.specs.List.Sorted.{IsPermutation, IsSortedBy};
ghost use Rattle.bdb_buckets.specs.of_image.Linked.{HasMetadata};
ghost use Rattle.bdb_buckets.specs.Chained.{AreOf};
ghost use Rattle.bdb_buckets.specs.Places.{Adds, AreAt, place_less};
ghost use Rattle.bdb_hash_list.specs.Scanned.{KeysDiffer, ranked};
ghost use Rattle.bdb_buckets.specs.Told.{joined_pages, listed_told, table_told};
ghost use Rattle.bdb_buckets.specs.Views.{IsTable};
ghost use Rattle.bdb_buckets.specs.of_format.Terms.{HashFields, file_of, hash_list, structure_faults};

use crate::Scan;
use crate::ranked::Ranked;
use bdb_buckets::{
    BucketPages, Forest, HashMeta, Linked, PagePairs, PairPlace, bucket_pages, buckets,
    compare_places,
};
use std::alloc::{AllocError, Global};

/// How many pairs there are, once those of the pages of a bucket are counted; at most what a `usize` holds.
#[tactic(auto, using(crate::proofs::PlaceLemmas::page_counted))]
fn count_bucket(count: usize, pages: BucketPages<'_>) -> usize
    ensures { result ≡ min (count + length (joined_pages pages.entry)) (2 ^ 64 - 1) }
{
    let mut count = count;
    for page in pages {
        count = count.saturating_add(page.len());
    }
    count
}

/// How many pairs a table has; at most what a `usize` holds.
#[tactic(auto, using(crate::proofs::PlaceLemmas::bucket_counted))]
fn count_pairs(linked: &Linked<'_>, meta: &HashMeta) -> usize
    requires meta { HasMetadata (file_of linked.now) (HashFields meta.now) }
    requires stage { structure_faults (file_of linked.now) ≡ [] }
    ensures count { result ≡ min (length (table_told linked.now meta.now)) (2 ^ 64 - 1) }
    ensures table { IsTable linked.now }
{
    let mut count = 0;
    for b in 0..buckets(linked, meta) {
        count = count_bucket(count, bucket_pages(linked, meta, b));
    }
    count
}

/// Adds the places of the pairs of a page.
#[tactic(auto, using(crate::proofs::PlaceLemmas::all_collected, crate::proofs::PlaceLemmas::none_collected, crate::proofs::PlaceLemmas::one_collected))]
fn push_page(places: &mut Vec<PairPlace>, page: PagePairs<'_>) -> Result<(), AllocError>
    ensures { OnOk result (Adds places.old.items places.new.items page.entry) }
{
    for pair in page {
        places.push(pair.place())?;
    }
    Ok(())
}

/// Adds the places of the pairs of the pages of a bucket.
#[tactic(auto, using(crate::proofs::PlaceLemmas::all_collected, crate::proofs::PlaceLemmas::more_collected, crate::proofs::PlaceLemmas::none_collected))]
fn push_bucket(places: &mut Vec<PairPlace>, pages: BucketPages<'_>) -> Result<(), AllocError>
    ensures { OnOk result (Adds places.old.items places.new.items (joined_pages pages.entry)) }
{
    for page in pages {
        push_page(places, page)?;
    }
    Ok(())
}

/// The places of all pairs of a table, in the order of buckets, chains and indexes. Room for all is taken at once; an
/// error means that memory ran out.
#[tactic(auto, using(crate::proofs::PlaceLemmas::bucket_added))]
fn table_places(
    alloc: Global,
    linked: &Linked<'_>,
    meta: &HashMeta,
) -> Result<Vec<PairPlace>, AllocError>
    requires meta { HasMetadata (file_of linked.now) (HashFields meta.now) }
    requires stage { structure_faults (file_of linked.now) ≡ [] }
    ensures places { IfOk result (λ places. AreAt places.items (table_told linked.now meta.now)) }
    ensures table { IsTable linked.now }
{
    let mut places = Vec::with_capacity(alloc, count_pairs(linked, meta))?;
    for b in 0..buckets(linked, meta) {
        push_bucket(&mut places, bucket_pages(linked, meta, b))?;
    }
    Ok(places)
}

/// Puts places into the order of their keys, and takes no memory.
fn sort_places(forest: &Forest<'_>, places: &mut Vec<PairPlace>)
    requires { IsTable forest.now }
    ensures moved { IsPermutation places.old.items places.new.items }
    ensures sorted { IsSortedBy (place_less forest.now) places.new.items }
{
    places.sort_unstable_by(|a, b| compare_places(forest, a, b));
}

/// All pairs of a table, in the order of their keys. An error means that memory ran out.
#[tactic(auto, using(crate::proofs::PlaceLemmas::sorted_places))]
fn ranked_pairs<'a>(
    alloc: Global,
    linked: &Linked<'a>,
    meta: &HashMeta,
) -> Result<Ranked<'a>, AllocError>
    requires meta { HasMetadata (file_of linked.now) (HashFields meta.now) }
    requires stage { structure_faults (file_of linked.now) ≡ [] }
    requires keys { KeysDiffer (file_of linked.now) meta.now }
    ensures { IfOk result (λ pairs. pairs ≡ ranked linked.now meta.now) }
{
    let mut places = table_places(alloc, linked, meta)?;
    let forest = linked.forest();
    sort_places(&forest, &mut places);
    Ranked::over(alloc, &forest, places)
}

/// All pairs of a table without repeated keys, in the order of its keys: what they list, one after another, is the list of the table. It takes sixteen
/// bytes for each pair. An error means that memory ran out.
#[tactic(auto, using(crate::proofs::ScanLemmas::ranked_list, crate::proofs::ScanLemmas::ranked_of))]
pub fn pairs_in_order<'a>(
    alloc: Global,
    linked: &Linked<'a>,
    meta: &HashMeta,
) -> Result<Ranked<'a>, AllocError>
    requires meta { HasMetadata (file_of linked.now) (HashFields meta.now) }
    requires stage { structure_faults (file_of linked.now) ≡ [] }
    requires keys { KeysDiffer (file_of linked.now) meta.now }
    ensures list { IfOk result (λ pairs. flat_map listed_told pairs ≡ hash_list (file_of linked.now) meta.now) }
    ensures image { IfOk result (λ pairs. AreOf linked.now pairs) }
{
    let pairs = ranked_pairs(alloc, linked, meta)?;
    Ok(pairs)
}

/// The list of a table without repeated keys, in the order of its keys. It takes sixteen bytes for each pair of the table; an error is want
/// of memory.
pub fn scan<'a>(alloc: Global, linked: &Linked<'a>, meta: &HashMeta) -> Result<Scan<'a>, AllocError>
    requires meta { HasMetadata (file_of linked.now) (HashFields meta.now) }
    requires stage { structure_faults (file_of linked.now) ≡ [] }
    requires keys { KeysDiffer (file_of linked.now) meta.now }
    ensures { IfOk result (λ scan. scan ≡ hash_list (file_of linked.now) meta.now) }
{
    let pairs = pairs_in_order(alloc, linked, meta)?;
    Ok(Scan::over(pairs))
}
