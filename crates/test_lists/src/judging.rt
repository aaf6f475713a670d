//! The verdict on a file that was built, and what is read of it.

ghost use Rattle.std.specs.Prelude.{◌≡◌, ◌<◌, ◌≤◌, ◌^◌, IfOk, None, length, true};
ghost use Rattle.bdb_text_format.specs.of_format.Terms.{databases, file_of, verdict_of};

use bdb_file::{Datum, Db, Found, KeyView, Scan, Sound, is_same, verify};
use bdb_text_format::{Bytes, KeyRef, PairRef, PairSlice, Steps};
use std::alloc::{AllocError, Global};
use std::marker::Brand;
use std::sync::ledger::{Blank, Ledger};

fn is_datum(datum: &Datum<'_>, bytes: &[u8]) -> bool {
    is_same(datum, &Datum::Inline(bytes))
}

fn is_key(view: &KeyView<'_>, key: KeyRef<'_>) -> bool {
    match (view, key) {
        (KeyView::Bytes(datum), KeyRef::Bytes(bytes)) => is_datum(datum, bytes),
        (KeyView::Number(number), KeyRef::Number(other)) => *number == other,
        _ => false,
    }
}

/// The pair at a place of a list, where there is one.
pub fn pair_of(list: PairSlice<'_>, place: usize) -> Option<PairRef<'_>> {
    if place < list.len() {
        Some(list.at(place))
    } else {
        None
    }
}

/// Whether these are the key and the datum at a place of a list.
pub fn is_pair_at(list: PairSlice<'_>, place: usize, key: &KeyView<'_>, datum: &Datum<'_>) -> bool {
    match pair_of(list, place) {
        Some(pair) => is_key(key, pair.key) && is_datum(datum, pair.value),
        None => false,
    }
}

// The same, of a pair that isn't asked for again.
fn is_next_pair(list: PairSlice<'_>, place: usize, pair: (KeyView<'_>, Datum<'_>)) -> bool {
    is_pair_at(list, place, &pair.0, &pair.1)
}

// Whether what a database lists are just the pairs of a list.
fn are_pairs(listed: &mut Scan<'_>, list: PairSlice<'_>) -> bool {
    let mut place: usize = 0;
    for pair in listed {
        if !is_next_pair(list, place, pair) {
            return false;
        }
        place = place.saturating_add(1);
    }
    place == list.len()
}

// Whether a database has just the pairs of a list.
fn scans(alloc: Global, sound: &Sound<'_>, db: Db, list: PairSlice<'_>) -> Result<bool, AllocError>
    requires { db < length (databases (file_of sound.now)) }
{
    match sound.scan(alloc, db) {
        Ok(mut listed) => Ok(are_pairs(&mut listed, list)),
        Err(_) => Err(AllocError),
    }
}

// A key as `get` is asked for it: a number by its digits.
fn asked(alloc: Global, key: KeyRef<'_>) -> Result<Bytes, AllocError> {
    let mut bytes = Bytes::new(alloc);
    match key {
        KeyRef::Bytes(key) => bytes.push_all(key)?,
        KeyRef::Number(number) => {
            let digits = format!(in alloc; "{number}")?;
            bytes.push_all(digits.as_bytes())?;
        }
    }
    Ok(bytes)
}

fn same_key(list: PairSlice<'_>, a: usize, b: usize) -> bool {
    let (Some(a), Some(b)) = (pair_of(list, a), pair_of(list, b)) else {
        return false;
    };
    match (a.key, b.key) {
        (KeyRef::Bytes(a), KeyRef::Bytes(b)) => a == b,
        (KeyRef::Number(a), KeyRef::Number(b)) => a == b,
        _ => false,
    }
}

// Whether a datum is that at a place of a list, under the key at another place.
fn is_next_datum(list: PairSlice<'_>, start: usize, place: usize, datum: Datum<'_>) -> bool {
    match pair_of(list, place) {
        Some(pair) => same_key(list, start, place) && is_datum(&datum, pair.value),
        None => false,
    }
}

// The place behind the pairs that have the key at a place, where these data are just theirs.
fn run_end(found: &mut Found<'_>, list: PairSlice<'_>, start: usize) -> Option<usize> {
    let mut place = start;
    for datum in found {
        if !is_next_datum(list, start, place, datum) {
            return None;
        }
        place = place.saturating_add(1);
    }
    if same_key(list, start, place) {
        return None;
    }
    Some(place)
}

// The place behind the pairs that have the key at a place, where a database has just their data under it.
fn found_run<L: Ledger>(
    alloc: Global,
    sound: &Sound<'_>,
    db: Db,
    list: PairSlice<'_>,
    start: usize,
    steps: &mut Steps<L>,
) -> Result<Option<usize>, AllocError>
    requires { db < length (databases (file_of sound.now)) }
{
    let Some(first) = pair_of(list, start) else {
        return Ok(None);
    };
    let key = asked(alloc, first.key)?;
    Ok(run_end(&mut sound.get(db, key.as_slice(), steps), list, start))
}

// Whether a database has under each key of a list just its data.
fn finds<L: Ledger>(
    alloc: Global,
    sound: &Sound<'_>,
    db: Db,
    list: PairSlice<'_>,
    steps: &mut Steps<L>,
) -> Result<bool, AllocError>
    requires { db < length (databases (file_of sound.now)) }
{
    let mut start = 0;
    for _ in 0..list.len() {
        if start >= list.len() {
            return Ok(true);
        }
        let Some(next) = found_run(alloc, sound, db, list, start, steps)? else {
            return Ok(false);
        };
        start = next;
    }
    Ok(start == list.len())
}

// Whether nothing is found.
fn is_none(found: &mut Found<'_>) -> bool {
    found.next().is_none()
}

// Whether a database has nothing under a key.
fn has_none<L: Ledger>(sound: &Sound<'_>, db: Db, key: &[u8], steps: &mut Steps<L>) -> bool
    requires { db < length (databases (file_of sound.now)) }
{
    is_none(&mut sound.get(db, key, steps))
}

// Whether a file has one database, with just the pairs of a list, and nothing under another key.
fn has_just<L: Ledger>(
    alloc: Global,
    sound: &Sound<'_>,
    list: PairSlice<'_>,
    absent: &[u8],
    steps: &mut Steps<L>,
) -> Result<bool, AllocError> {
    if sound.databases() != 1 {
        return Ok(false);
    }
    let db = sound.database(0);
    Ok(
        has_none(sound, db, absent, steps)
            && scans(alloc, sound, db, list)?
            && finds(alloc, sound, db, list, steps)?,
    )
}

fn gives_counted<L: Ledger>(
    alloc: Global,
    image: &[u8],
    list: PairSlice<'_>,
    absent: &[u8],
    steps: &mut Steps<L>,
) -> Result<bool, AllocError>
    ensures sound { IfOk result (λ so. so ≡ true → verdict_of image.now ≡ None) }
{
    if image.len() > 1 << 30 {
        return Ok(false);
    }
    match verify(alloc, image, steps) {
        Ok(sound) => has_just(alloc, &sound, list, absent, steps),
        Err(_) => Ok(false),
    }
}

fn gives_blank<L: Ledger>(
    alloc: Global,
    image: &[u8],
    list: PairSlice<'_>,
    absent: &[u8],
    blank: Blank,
) -> Result<bool, AllocError>
    requires name { blank.name ≡ L.name }
    requires parts { blank.parts ≡ L.parts }
    requires one { L.parts ≡ 1 }
    ensures sound { IfOk result (λ so. so ≡ true → verdict_of image.now ≡ None) }
{
    let mut steps = Steps::<L>::new(blank);
    gives_counted(alloc, image, list, absent, &mut steps)
}

/// Whether an image is sound and has one database, with just the pairs of a list, in their order and under their keys, and nothing under another key.
pub fn gives(
    alloc: Global,
    image: &[u8],
    list: PairSlice<'_>,
    absent: &[u8],
) -> Result<bool, AllocError>
    ensures sound { IfOk result (λ so. so ≡ true → verdict_of image.now ≡ None) }
{
    gives_blank::<Brand>(alloc, image, list, absent, Blank::new(1))
}
