ghost use Rattle.std.specs.Prelude.{◌≡◌, OnOk, false, map, nat_eq};
ghost use Rattle.std.specs.List.{IsDistinct};
ghost use Rattle.bdb_faults.specs.Notes.{Notes};
ghost use Rattle.bdb_buckets.specs.Chained.{AreAllOf, AreOf};
ghost use Rattle.bdb_hash.specs.Noted.{repeat_faults};
ghost use Rattle.bdb_hash.specs.Passed.{NotesRepeats, key_hash};
ghost use Rattle.bdb_buckets.specs.Told.{joined_pages};

use crate::seen::SeenKeys;
use bdb_buckets::{BucketPages, PagePairs};
use bdb_faults::FaultSink;
use bdb_ranks::Forest;
use std::alloc::{AllocError, Global};

/// Notes those of the pairs of a page whose key there was, and adds the keys of all.
#[tactic(auto, using(crate::proofs::RepeatLemmas::noting_page))]
fn note_page<'a, F: FaultSink>(
    keys: &mut SeenKeys<'a>,
    page: PagePairs<'a>,
    found: &mut F,
) -> Result<(), AllocError>
    requires { AreOf keys.old.image page }
    ensures noted { OnOk result (NotesRepeats keys.old.keys keys.new.keys (F.has_noted found.old) (F.has_noted found.new) page.entry) }
    ensures same { keys.new.image ≡ keys.old.image }
{
    for pair in page {
        keys.note(&pair, found)?;
    }
    Ok(())
}

/// Notes those of the pairs of the pages of a bucket.
#[tactic(auto, using(crate::proofs::RepeatLemmas::noting_bucket))]
fn note_bucket<'a, F: FaultSink>(
    keys: &mut SeenKeys<'a>,
    pages: BucketPages<'a>,
    found: &mut F,
) -> Result<(), AllocError>
    requires { AreAllOf keys.old.image pages }
    ensures noted { OnOk result (NotesRepeats keys.old.keys keys.new.keys (F.has_noted found.old) (F.has_noted found.new) (joined_pages pages.entry)) }
    ensures same { keys.new.image ≡ keys.old.image }
{
    for page in pages {
        note_page(keys, page, found)?;
    }
    Ok(())
}

/// Whether some number is among these twice. They are sorted for that.
fn has_twice(numbers: &mut Vec<u32>) -> bool
    ensures { result ≡ false → IsDistinct nat_eq numbers.old.items }
{
    numbers.sort_unstable();
    for i in 1..numbers.len() {
        if numbers[i - 1] == numbers[i] {
            return true;
        }
    }
    false
}

/// Notes the pairs of a bucket that have the key of an earlier one, by the hashes of their keys. Only where two of these
/// are the same it takes memory for the keys. An error means that memory ran out, for them or for the sink.
#[tactic(auto, using(crate::proofs::RepeatLemmas::noted_anew))]
pub(crate) fn note_again<'a, F: FaultSink>(
    alloc: Global,
    forest: &Forest<'a>,
    hashes: &mut Vec<u32>,
    pages: BucketPages<'a>,
    found: &mut F,
) -> Result<(), AllocError>
    requires hashes { hashes.now.items ≡ map key_hash (joined_pages pages) }
    requires pages { AreAllOf forest.now pages }
    ensures { OnOk result (Notes (F.has_noted found.old) (F.has_noted found.new) (repeat_faults (joined_pages pages.entry))) }
{
    if has_twice(hashes) {
        let mut keys = SeenKeys::new(alloc, forest.again());
        note_bucket(&mut keys, pages, found)?;
    }
    Ok(())
}
