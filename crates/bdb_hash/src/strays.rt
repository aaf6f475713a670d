ghost use Rattle.std.specs.Prelude.{◌≡◌, ◌∷◌, [], OnOk, map};
ghost use Rattle.std.specs.BTreeSet.{BTreeSet};
ghost use Rattle.std.specs.List.{IsDistinct, filter};
ghost use Rattle.bdb_faults.specs.Notes.{Notes};
ghost use Rattle.bdb_ranks.specs.of_image.Linked.{HasMetadata};
ghost use Rattle.bdb_buckets.specs.Chained.{AreAllOf, AreOf};
ghost use Rattle.bdb_hash.specs.Noted.{repeat_faults, stray_faults};
ghost use Rattle.bdb_hash.specs.Passed.{NotesRepeats, is_kept};
ghost use Rattle.bdb_buckets.specs.Told.{joined_pages, table_told};
ghost use Rattle.bdb_ranks.specs.of_format.Terms.{HashFields, file_of, structure_faults};

use crate::Chains;
use crate::hashes::repeated_hashes;
use crate::seen::SeenKeys;
use bdb_buckets::{BucketPages, PagePairs, Pair, bucket_pages, buckets};
use bdb_faults::FaultSink;
use bdb_ranks::{HashMeta, Linked};
use std::alloc::{AllocError, Global};
use std::collections::BTreeSet;

/// Notes a pair whose key there was, and adds its key, where its hash is among these.
#[tactic(auto, using(crate::proofs::RepeatLemmas::none_noted))]
fn note_kept<'a, F: FaultSink>(
    keys: &mut SeenKeys<'a>,
    known: &mut Chains<'a>,
    twice: &BTreeSet<u32>,
    pair: &Pair<'a>,
    found: &mut F,
) -> Result<(), AllocError>
    requires seen { pair.now.image ≡ keys.old.image }
    requires hashed { pair.now.image ≡ known.old }
    ensures noted { OnOk result (NotesRepeats keys.old.keys keys.new.keys (F.has_noted found.old) (F.has_noted found.new)
        (filter (is_kept twice.now) (pair.now ∷ []))) }
    ensures seen { keys.new.image ≡ keys.old.image }
    ensures hashed { known.new ≡ known.old }
{
    let hash = known.hash_of(pair)?;
    if twice.contains(&hash) {
        keys.note(pair, found)?;
    }
    Ok(())
}

/// The same, of the pairs of a page.
#[tactic(auto, using(crate::proofs::KeptLemmas::keeping_page))]
fn note_page<'a, F: FaultSink>(
    keys: &mut SeenKeys<'a>,
    known: &mut Chains<'a>,
    twice: &BTreeSet<u32>,
    page: PagePairs<'a>,
    found: &mut F,
) -> Result<(), AllocError>
    requires seen { AreOf keys.old.image page }
    requires hashed { AreOf known.old page }
    ensures noted { OnOk result (NotesRepeats keys.old.keys keys.new.keys (F.has_noted found.old) (F.has_noted found.new)
        (filter (is_kept twice.now) page.entry)) }
    ensures seen { keys.new.image ≡ keys.old.image }
    ensures hashed { known.new ≡ known.old }
{
    for pair in page {
        note_kept(keys, known, twice, &pair, found)?;
    }
    Ok(())
}

/// The same, of the pairs of the pages of a bucket.
#[tactic(auto, using(crate::proofs::KeptLemmas::keeping_bucket))]
fn note_bucket<'a, F: FaultSink>(
    keys: &mut SeenKeys<'a>,
    known: &mut Chains<'a>,
    twice: &BTreeSet<u32>,
    pages: BucketPages<'a>,
    found: &mut F,
) -> Result<(), AllocError>
    requires seen { AreAllOf keys.old.image pages }
    requires hashed { AreAllOf known.old pages }
    ensures noted { OnOk result (NotesRepeats keys.old.keys keys.new.keys (F.has_noted found.old) (F.has_noted found.new)
        (filter (is_kept twice.now) (joined_pages pages.entry))) }
    ensures seen { keys.new.image ≡ keys.old.image }
    ensures hashed { known.new ≡ known.old }
{
    for page in pages {
        note_page(keys, known, twice, page, found)?;
    }
    Ok(())
}

/// Notes the pairs of a table that have the key of an earlier one. It takes memory for the hashes of all keys, and for the
/// keys whose hash another one has too. An error means that memory ran out, for them or for the sink.
#[tactic(auto, using(crate::proofs::KeptLemmas::keeping_table))]
fn note_whole<'a, F: FaultSink>(
    alloc: Global,
    linked: &Linked<'a>,
    meta: &HashMeta,
    known: &mut Chains<'a>,
    found: &mut F,
) -> Result<(), AllocError>
    requires meta { HasMetadata (file_of linked.now) (HashFields meta.now) }
    requires stage { structure_faults (file_of linked.now) ≡ [] }
    requires known { known.old ≡ linked.now }
    ensures noted { OnOk result (Notes (F.has_noted found.old) (F.has_noted found.new) (repeat_faults (table_told linked.now meta.now))) }
    ensures same { known.new ≡ known.old }
{
    let twice = repeated_hashes(alloc, linked, meta, known)?;
    let mut keys = SeenKeys::new(alloc, linked.forest());
    for b in 0..buckets(linked, meta) {
        note_bucket(
            &mut keys,
            known,
            &twice,
            bucket_pages(linked, meta, b),
            found,
        )?;
    }
    Ok(())
}

/// The same, where the table has a stray: else equal keys stand in one bucket, and none is looked for.
pub(crate) fn note_strayed<'a, F: FaultSink>(
    alloc: Global,
    linked: &Linked<'a>,
    meta: &HashMeta,
    known: &mut Chains<'a>,
    has_stray: bool,
    found: &mut F,
) -> Result<(), AllocError>
    requires meta { HasMetadata (file_of linked.now) (HashFields meta.now) }
    requires stage { structure_faults (file_of linked.now) ≡ [] }
    requires known { known.old ≡ linked.now }
    ensures noted { OnOk result (Notes (F.has_noted found.old) (F.has_noted found.new) (stray_faults linked.now meta.now has_stray)) }
    ensures same { known.new ≡ known.old }
{
    if has_stray {
        note_whole(alloc, linked, meta, known, found)?;
    }
    Ok(())
}
