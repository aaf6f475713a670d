ghost use Rattle.std.specs.Prelude.{◌≡◌, ◌+◌, [], IfErr, IfOk, OnOk};
ghost use Rattle.std.specs.List.{flat_map, range_with_len};
ghost use Rattle.bdb_faults.specs.Notes.{HasNoted};
ghost use Rattle.bdb_faults.specs.Notes.{Notes, NotesAll};
ghost use Rattle.bdb_ranks.specs.of_image.Linked.{HasMetadata};
ghost use Rattle.bdb_hash.specs.Noted.{bucket_faults, has_stray};
ghost use Rattle.bdb_buckets.specs.Views.{IsTable};
ghost use Rattle.bdb_ranks.specs.of_format.Terms.{HashFields, IsFirstOf, database_faults, file_of, structure_faults};

use crate::Chains;
use crate::passed::{Passed, note_bucket};
use crate::repeats::note_again;
use crate::strays::note_strayed;
use bdb_buckets::{bucket_pages, buckets};
use bdb_faults::{FaultSink, First, NamedList, checked};
use bdb_ranks::{CheckError, HashMeta, Linked};
use std::alloc::{AllocError, Global};

/// Notes the pairs of a table by themselves, and those that have the key of an earlier one of their bucket, while its
/// pages are at hand. It tells whether the table has a stray. It takes memory for the pairs of one bucket at a time. An
/// error means that memory ran out, for them or for the sink.
#[tactic(auto, using(crate::proofs::ChainedLemmas::bucket_of_file))]
fn note_by_bucket<'a, F: FaultSink>(
    alloc: Global,
    linked: &Linked<'a>,
    meta: &HashMeta,
    known: &mut Chains<'a>,
    found: &mut F,
) -> Result<bool, AllocError>
    requires meta { HasMetadata (file_of linked.now) (HashFields meta.now) }
    requires stage { structure_faults (file_of linked.now) ≡ [] }
    requires known { known.old ≡ linked.now }
    ensures noted { OnOk result (Notes (F.has_noted found.old) (F.has_noted found.new)
        (flat_map (bucket_faults linked.now meta.now) (range_with_len 0 (meta.now.max_bucket + 1)))) }
    ensures stray { IfOk result (λ strayed. strayed ≡ has_stray linked.now meta.now) }
    ensures table { IsTable linked.now }
    ensures same { known.new ≡ known.old }
{
    let forest = linked.forest();
    let mut passed = Passed::new(alloc);
    for b in 0..buckets(linked, meta) {
        passed.hashes.clear();
        note_bucket(
            &mut passed,
            known,
            bucket_pages(linked, meta, b),
            meta,
            b,
            found,
        )?;
        note_again(
            alloc,
            &forest,
            &mut passed.hashes,
            bucket_pages(linked, meta, b),
            found,
        )?;
    }
    Ok(passed.has_stray)
}

/// Notes each row of contents at each page where it holds for the table of this metadata, in any order and repeats
/// allowed. What is found of chains is kept for the other tables of the file. An error means that memory ran out: the sink's, or that for hashes and keys.
pub fn note_contents<'a, F: FaultSink>(
    alloc: Global,
    linked: &Linked<'a>,
    meta: &HashMeta,
    known: &mut Chains<'a>,
    found: &mut F,
) -> Result<(), AllocError>
    requires meta { HasMetadata (file_of linked.now) (HashFields meta.now) }
    requires stage { structure_faults (file_of linked.now) ≡ [] }
    requires known { known.old ≡ linked.now }
    ensures noted { OnOk result (NotesAll (F.has_noted found.old) (F.has_noted found.new) (database_faults (file_of linked.now) (HashFields meta.now))) }
    ensures same { known.new ≡ known.old }
{
    let has_stray = note_by_bucket(alloc, linked, meta, known, found)?;
    note_strayed(alloc, linked, meta, known, has_stray, found)?;
    Ok(())
}

/// The same for a table by itself.
fn note_alone<F: FaultSink>(
    alloc: Global,
    linked: &Linked<'_>,
    meta: &HashMeta,
    found: &mut F,
) -> Result<(), AllocError>
    requires meta { HasMetadata (file_of linked.now) (HashFields meta.now) }
    requires stage { structure_faults (file_of linked.now) ≡ [] }
    ensures { OnOk result (NotesAll (F.has_noted found.old) (F.has_noted found.new) (database_faults (file_of linked.now) (HashFields meta.now))) }
{
    let mut known = Chains::new(alloc, linked.forest());
    note_contents(alloc, linked, meta, &mut known, found)
}

/// No row of contents holds for the table of this metadata. A refusal is the first fault: the least page,
/// and there the least code; or lack of memory. It takes four bytes for each pair of the largest bucket, and memory for
/// the keys of a bucket where two of them have one hash. Where a pair isn't in the bucket of its key it takes these for
/// the whole table: four bytes for each pair, and memory for the keys whose hash another key has.
pub fn check(alloc: Global, linked: &Linked<'_>, meta: &HashMeta) -> Result<(), CheckError>
    requires meta { HasMetadata (file_of linked.now) (HashFields meta.now) }
    requires stage { structure_faults (file_of linked.now) ≡ [] }
    ensures accepted { OnOk result (database_faults (file_of linked.now) (HashFields meta.now) ≡ []) }
    ensures refusal { IfErr result (IsFirstOf (database_faults (file_of linked.now) (HashFields meta.now))) }
{
    let mut first = First::new();
    let answer = note_alone(alloc, linked, meta, &mut first);
    checked(first, answer)
}

/// Notes each row of contents at each page where it holds for the table of this metadata, in a list of all. An error
/// means that memory ran out.
pub fn all_faults(
    alloc: Global,
    linked: &Linked<'_>,
    meta: &HashMeta,
    found: &mut NamedList,
) -> Result<(), AllocError>
    requires meta { HasMetadata (file_of linked.now) (HashFields meta.now) }
    requires stage { structure_faults (file_of linked.now) ≡ [] }
    ensures { OnOk result (NotesAll (HasNoted found.old) (HasNoted found.new) (database_faults (file_of linked.now) (HashFields meta.now))) }
{
    note_alone(alloc, linked, meta, found)
}
