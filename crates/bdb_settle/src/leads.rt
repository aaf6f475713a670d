ghost use Rattle.std.specs.Prelude.{◌≡◌, ◌≤◌, get_or, length, map, take, true, IfOk, OnOk};
ghost use Rattle.std.specs.List.Sorted.{IsPermutation, IsSortedBy, IsStableBy};
ghost use Rattle.std.specs.Ordering.{is_lt};
ghost use Rattle.bdb_mktree.specs.of_text_format.Terms.{key_seen, placed_key};
ghost use Rattle.bdb_settle.specs.Leads.{Begins, Share, lead_of, led, led_before, leading_number};
ghost use Rattle.bdb_settle.specs.Settling.{place_before};

use crate::order::{compare_places, stands_before};
use bdb_mktree::{KeyRef, Place, PlacedKey, Settings, are_one, key_at};
use std::alloc::{AllocError, Global};
use std::cmp::Ordering;

/// A place, and the first bytes in which its key may differ from others, as a number: most keys are told apart by it, and their bytes, which lie
/// anywhere in the run, needn't be looked at.
#[derive(Clone, Copy)]
pub struct Led {
    pub lead: u64,
    pub place: Place,
}

// Of two runs of bytes, how many first bytes are the same.
fn agreeing(a: &[u8], b: &[u8]) -> usize
    ensures within { result ≤ length a.now }
    ensures same { take result a.now ≡ take result b.now }
{
    let most = a.len().min(b.len());
    for i in 0..most {
        if a[i] != b[i] {
            return i;
        }
    }
    most
}

// Of some bytes, the first of them with which a key begins.
fn shared_with<'a>(start: &'a [u8], key: KeyRef<'_>) -> &'a [u8]
    ensures begins { Begins result.now (key_seen key.entry) }
    ensures first { result.now ≡ take (length result.now) start.now }
{
    match key {
        KeyRef::Bytes(bytes) => &start[..agreeing(start, bytes)],
        KeyRef::Number(_) => start,
    }
}

// Of some bytes, the first of them with which a key of a run begins, where the last key that was looked at begins with them all.
fn shared_on<'a>(start: &'a [u8], bytes: &[u8], last: PlacedKey, key: PlacedKey) -> &'a [u8]
    requires { Begins start.now (placed_key bytes.now last) }
    ensures begins { Begins result.now (placed_key bytes.now key) }
    ensures first { result.now ≡ take (length result.now) start.now }
{
    if are_one(last, key) {
        start
    } else {
        shared_with(start, key_at(bytes, key))
    }
}

// The bytes of a key.
fn bytes_of(bytes: &[u8], key: PlacedKey) -> &[u8]
    ensures { Begins result.now (placed_key bytes.now key) }
{
    match key {
        PlacedKey::Bytes(span) => span.of(bytes),
        PlacedKey::Number(_) => &[],
    }
}

// How many first bytes all keys share.
fn shared_len(bytes: &[u8], places: &[Place]) -> usize
    ensures { Share bytes.now places.now result }
{
    let Some(first) = places.first() else {
        return 0;
    };
    let mut last = first.key;
    let mut start = bytes_of(bytes, last);
    for place in places {
        start = shared_on(start, bytes, last, place.key);
        last = place.key;
    }
    start.len()
}

// The byte at a place, 0 behind the end.
fn byte_or_zero(bytes: &[u8], i: usize) -> u8
    ensures { result ≡ get_or bytes.now i 0 }
{
    match bytes.get(i) {
        Some(byte) => *byte,
        None => 0,
    }
}

// The first eight bytes as a number.
fn first_eight(bytes: &[u8]) -> u64
    ensures { result ≡ leading_number 8 bytes.now }
{
    let mut number = 0;
    for i in 0..8 {
        number = number * 256 + u64::from(byte_or_zero(bytes, i));
    }
    number
}

// What a key is sorted by first: the bytes behind those that all share.
fn lead(key: KeyRef<'_>, shared: usize) -> u64
    ensures { result ≡ lead_of shared (key_seen key.entry) }
{
    match key {
        KeyRef::Bytes(bytes) => first_eight(&bytes[shared.min(bytes.len())..]),
        KeyRef::Number(_) => 0,
    }
}

// Places with the leads of their keys.
fn led_all(
    alloc: Global,
    bytes: &[u8],
    shared: usize,
    places: &[Place],
) -> Result<Vec<Led>, AllocError>
    ensures { IfOk result (λ leads. leads.items ≡ map (led bytes.now shared) places.now) }
{
    let mut leads = Vec::with_capacity(alloc, places.len())?;
    for place in places {
        leads.push(Led {
            lead: lead(key_at(bytes, place.key), shared),
            place: *place,
        })?;
    }
    Ok(leads)
}

// The order of two pairs, whose leads are compared first.
fn compare_led(settings: &Settings, bytes: &[u8], a: Led, b: Led) -> Ordering
    ensures { is_lt result ≡ led_before settings.now bytes.now a b }
{
    match a.lead.cmp(&b.lead) {
        Ordering::Less => Ordering::Less,
        Ordering::Greater => Ordering::Greater,
        Ordering::Equal => compare_places(settings, bytes, a.place, b.place),
    }
}

// Puts places with their leads into the order of their pairs.
fn sort_led(settings: &Settings, bytes: &[u8], leads: &mut Vec<Led>) -> Result<(), AllocError>
    ensures moved { IsPermutation leads.old.items leads.new.items }
    ensures sorted { OnOk result (IsSortedBy (led_before settings.now bytes.now) leads.new.items) }
    ensures stable { IsStableBy (led_before settings.now bytes.now) leads.old.items leads.new.items }
{
    leads.sort_by(|a, b| compare_led(settings, bytes, *a, *b))
}

// Puts places into the order in which they stand with their leads.
fn put_back(leads: &[Led], places: &mut Vec<Place>)
    requires { length leads.now ≡ length places.old.items }
    ensures { places.new.items ≡ map (λ (item : Led). item.place) leads.now }
{
    for i in 0..leads.len() {
        places[i] = leads[i].place;
    }
}

/// Whether no pair stands before the one ahead of it.
pub(crate) fn are_sorted(settings: &Settings, bytes: &[u8], places: &[Place]) -> bool
    ensures { result ≡ true → IsSortedBy (place_before settings.now bytes.now) places.now }
{
    for i in 1..places.len() {
        if stands_before(settings, bytes, places[i], places[i - 1]) {
            return false;
        }
    }
    true
}

/// Puts places into the order of their pairs; those of which neither stands before the other keep theirs. No bytes are moved.
pub(crate) fn sort_places(
    alloc: Global,
    settings: &Settings,
    bytes: &[u8],
    places: &mut Vec<Place>,
) -> Result<(), AllocError>
    ensures moved { IsPermutation places.old.items places.new.items }
    ensures sorted { OnOk result (IsSortedBy (place_before settings.now bytes.now) places.new.items) }
    ensures stable { IsStableBy (place_before settings.now bytes.now) places.old.items places.new.items }
{
    let unsorted = places.as_slice();
    let shared = shared_len(bytes, unsorted);
    let mut leads = led_all(alloc, bytes, shared, unsorted)?;
    sort_led(settings, bytes, &mut leads)?;
    put_back(leads.as_slice(), places);
    Ok(())
}
