// A thousand ranges of a file of 200,000 pairs: scanning the file for each of them wouldn't end in time.
ghost use Rattle.std.specs.Prelude.{◌≡◌, ◌<◌, [], false, length};
ghost use Rattle.bdb_tool.specs.of_image.Linked.{HasMetadata};
ghost use Rattle.bdb_tool.specs.of_format.Terms.{BtreeFields, database_faults, databases, file_of, is_recno, structure_faults};

use crate::generated::text_of;
use crate::loaded::image_of;
use crate::settled::list_of;
use bdb_tool::{
    BtreeMeta, Db, KeyRef, Kind, Linked, Meta, PairSlice, Sound, Steps, pairs_of, span, verify,
};
use std::alloc::Global;
use std::marker::Brand;
use std::sync::ledger::{Blank, Ledger};
use std::test::Fail;
use test_lists::{is_pair_at, pair_of};

// How many pairs a range has.
const PAIRS: usize = 10;

// How many pairs one begins behind another.
const APART: usize = 199;

// The bytes of the key at a place of a list; none past its end.
fn key_at(list: PairSlice<'_>, place: usize) -> Option<&[u8]> {
    match pair_of(list, place)?.key {
        KeyRef::Bytes(key) => Some(key),
        KeyRef::Number(_) => None,
    }
}

// Whether the range from the key at a place to that ten places behind it has just the pairs between.
fn is_range<L: Ledger>(
    linked: &Linked<'_>,
    meta: &BtreeMeta,
    list: PairSlice<'_>,
    start: usize,
    steps: &mut Steps<L>,
) -> bool
    requires meta { HasMetadata (file_of linked.now) (BtreeFields meta.now) }
    requires keys { is_recno meta.now ≡ false }
    requires stage { structure_faults (file_of linked.now) ≡ [] }
    requires contents { database_faults (file_of linked.now) (BtreeFields meta.now) ≡ [] }
{
    let end = start.saturating_add(PAIRS);
    let (Some(from), Some(to)) = (key_at(list, start), key_at(list, end)) else {
        return false;
    };
    let leaves = span(linked, meta, from, to, steps);
    let mut place = start;
    for (key, datum) in pairs_of(linked, meta, &leaves, from, to) {
        if place >= end || !is_pair_at(list, place, &key, &datum) {
            return false;
        }
        place = place.saturating_add(1);
    }
    place == end
}

// Whether all ranges of a btree are so.
fn are_ranges<L: Ledger>(
    linked: &Linked<'_>,
    meta: &BtreeMeta,
    list: PairSlice<'_>,
    steps: &mut Steps<L>,
) -> bool
    requires meta { HasMetadata (file_of linked.now) (BtreeFields meta.now) }
    requires stage { structure_faults (file_of linked.now) ≡ [] }
    requires contents { database_faults (file_of linked.now) (BtreeFields meta.now) ≡ [] }
{
    if meta.is_recno() {
        return false;
    }
    for turn in 0..1000usize {
        if !is_range(linked, meta, list, turn * APART, steps) {
            return false;
        }
    }
    true
}

// Whether a database is a btree, and all its ranges are so.
fn has_ranges<L: Ledger>(
    sound: &Sound<'_>,
    db: Db,
    list: PairSlice<'_>,
    steps: &mut Steps<L>,
) -> bool
    requires { db < length (databases (file_of sound.now)) }
{
    match sound.meta(db) {
        Meta::Btree(meta) => are_ranges(sound.linked(), meta, list, steps),
        _ => false,
    }
}

// The same of the first database of an image.
fn image_has_ranges<L: Ledger>(
    alloc: Global,
    image: &[u8],
    list: PairSlice<'_>,
    blank: Blank,
) -> bool
    requires name { blank.name ≡ L.name }
    requires parts { blank.parts ≡ L.parts }
    requires one { L.parts ≡ 1 }
{
    if image.len() > 1 << 30 {
        return false;
    }
    let mut steps = Steps::<L>::new(blank);
    let Ok(sound) = verify(alloc, image, &mut steps) else {
        return false;
    };
    sound.databases() == 1 && has_ranges(&sound, sound.database(0), list, &mut steps)
}

#[test]
fn gives_a_thousand_ranges_of_a_large_file(rt: HostRuntime) -> Result<(), Fail> {
    let alloc = rt.alloc();
    let text = text_of(alloc, Kind::Btree, b"VERSION=3\ntype=btree\nHEADER=END\n")?;
    let list = list_of(alloc, text.as_slice())?;
    let image = image_of(alloc, text.as_slice())?;
    assert!(rt; image_has_ranges::<Brand>(alloc, image.as_slice(), list.as_slice(), Blank::new(1)));
    Ok(())
}
