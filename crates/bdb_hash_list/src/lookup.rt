ghost use Rattle.std.specs.Prelude.{◌≡◌, ◌+◌, ◌≤◌, []};
ghost use Rattle.std.specs.List.{find};
ghost use Rattle.bdb_buckets.specs.of_image.Linked.{HasMetadata};
ghost use Rattle.bdb_buckets.specs.Told.{bucket_told, has_key};
ghost use Rattle.bdb_buckets.specs.Views.{IsTable};
ghost use Rattle.bdb_buckets.specs.of_format.Terms.{BytesKey, HashFields, bucket_of_key, database_faults, file_of, get, hash_list, structure_faults};

use bdb_buckets::{
    Data, HashMeta, Linked, PagePairs, Pair, Steps, bucket_of, bucket_pages, buckets, hash5,
};
use std::sync::ledger::Ledger;

/// The first pair of a page with this key.
fn find_on<'a>(page: PagePairs<'a>, key: &[u8]) -> Option<Pair<'a>>
    ensures { result ≡ find (has_key key.now) page.entry }
{
    for pair in page {
        if pair.has_key(key) {
            return Some(pair);
        }
    }
    None
}

/// The bucket of a key that is sought.
fn bucket_of_bytes(linked: &Linked<'_>, meta: &HashMeta, key: &[u8]) -> u32
    requires meta { HasMetadata (file_of linked.now) (HashFields meta.now) }
    requires stage { structure_faults (file_of linked.now) ≡ [] }
    ensures bucket { result ≡ bucket_of_key meta.now key.now }
    ensures within { result ≤ meta.now.max_bucket }
    ensures table { IsTable linked.now }
{
    let bucket = bucket_of(hash5(key), meta.max_bucket, meta.high_mask, meta.low_mask);
    prove!(bucket < buckets(linked, meta));
    bucket
}

/// The first pair of a bucket with this key: one step for each page that is looked into.
#[tactic(auto, using(crate::proofs::LookupLemmas::sought_more, crate::proofs::LookupLemmas::sought_none))]
fn find_in<'a, L: Ledger>(
    linked: &Linked<'a>,
    meta: &HashMeta,
    bucket: u32,
    key: &[u8],
    steps: &mut Steps<L>,
) -> Option<Pair<'a>>
    requires meta { HasMetadata (file_of linked.now) (HashFields meta.now) }
    requires bucket { bucket ≤ meta.now.max_bucket }
    requires stage { structure_faults (file_of linked.now) ≡ [] }
    ensures pair { result ≡ find (has_key key.now) (bucket_told linked.now meta.now bucket) }
    ensures cost { steps.new ≤ steps.old + (file_of linked.now).count }
{
    for page in bucket_pages(linked, meta, bucket) {
        steps.tick();
        if let Some(pair) = find_on(page, key) {
            return Some(pair);
        }
    }
    None
}

/// The data of the pair with this key, in order; none where no pair has it. It looks into the pages of one
/// bucket alone, a step for each, and takes no memory.
pub fn find<'a, L: Ledger>(
    linked: &Linked<'a>,
    meta: &HashMeta,
    key: &[u8],
    steps: &mut Steps<L>,
) -> Data<'a>
    requires meta { HasMetadata (file_of linked.now) (HashFields meta.now) }
    requires stage { structure_faults (file_of linked.now) ≡ [] }
    requires contents { database_faults (file_of linked.now) (HashFields meta.now) ≡ [] }
    ensures data { result ≡ get (hash_list (file_of linked.now) meta.now) (BytesKey key.now) }
    ensures cost { steps.new ≤ steps.old + (file_of linked.now).count }
{
    let bucket = bucket_of_bytes(linked, meta, key);
    match find_in(linked, meta, bucket, key, steps) {
        Some(pair) => pair.into_data(),
        None => Data::none(),
    }
}
