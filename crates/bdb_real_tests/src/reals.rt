//! Files that the original library wrote: what they list and what is found in them is what its `db_dump` printed.

ghost use Rattle.std.specs.Prelude.{◌≡◌, [], IsTrue, false};
ghost use Rattle.std.specs.Iterator.{IsFinite};
ghost use Rattle.bdb_btree.specs.of_image.Linked.{HasMetadata};
ghost use Rattle.bdb_btree.specs.of_format.Terms.{BtreeFields, HashFields, QueueFields, database_faults, file_of, is_recno, structure_faults};

use crate::real_images::{self, Image};
use crate::{real_btree_lists, real_btrees, real_lists, real_set_lists};
use bdb_btree::{
    BtreeMeta, Datum, HashMeta, KeyView, Linked, Meta, QueueMeta, Steps, compare_datum, link,
    open_image,
};
use std::alloc::Global;
use std::cmp::Ordering;
use std::marker::Brand;
use std::str::{self, Lines};
use std::sync::ledger::{Blank, Ledger};
use test_images::{has_sound_trees, is_keyed, is_recno};

const SIZE: usize = 8192;

/// A file, and the lines of its list.
#[derive(Clone, Copy)]
struct Real {
    image: Image,
    list: &'static str,
}

const QUEUE_WITHOUT_A_HEAD: Real = Real {
    image: real_images::QUEUE_WITHOUT_A_HEAD,
    list: real_lists::QUEUE_WITHOUT_A_HEAD,
};

const RECNO_WITH_A_GAP: Real = Real {
    image: real_images::RECNO_WITH_A_GAP,
    list: real_lists::RECNO_WITH_A_GAP,
};

const HASH_WITH_SORTED_SETS: Real = Real {
    image: real_images::HASH_WITH_SORTED_SETS,
    list: real_lists::HASH_WITH_SORTED_SETS,
};

const HASH_WITH_LONG_DATA: Real = Real {
    image: real_images::HASH_WITH_LONG_DATA,
    list: real_lists::HASH_WITH_LONG_DATA,
};

const BTREE_WITH_FREE_PAGES: Real = Real {
    image: real_btrees::BTREE_WITH_FREE_PAGES,
    list: real_btree_lists::BTREE_WITH_FREE_PAGES,
};

const BTREE_WITH_DELETED_SETS: Real = Real {
    image: real_btrees::BTREE_WITH_DELETED_SETS,
    list: real_set_lists::BTREE_WITH_DELETED_SETS,
};

const BTREE_AFTER_RECOVERY: Real = Real {
    image: real_btrees::BTREE_AFTER_RECOVERY,
    list: real_btree_lists::BTREE_AFTER_RECOVERY,
};

/// Writes bytes at their place; `None` where there is no room, or where the text isn't one of bytes.
fn put(image: &mut [u8], at: usize, digits: &str) -> Option<()> {
    let end = at.checked_add(digits.len() / 2)?;
    hex::decode_to_slice(digits, image.get_mut(at..end)?).ok()
}

/// The bytes of an image, and zeros up to the size of the buffer.
fn bytes_of(image: &Image) -> Option<[u8; SIZE]> {
    let mut bytes = [0u8; SIZE];
    for (at, digits) in image.pieces {
        put(&mut bytes, *at, digits)?;
    }
    Some(bytes)
}

/// The bytes that a line spells behind its space.
fn spelled(alloc: Global, line: &str) -> Option<Vec<u8>> {
    hex::decode(alloc, line.strip_prefix(' ')?).ok()
}

/// The record number that a line spells in decimal digits.
fn number_of(alloc: Global, line: &str) -> Option<u32> {
    let digits = spelled(alloc, line)?;
    str::from_utf8(&digits).ok()?.parse().ok()
}

fn is_value(alloc: Global, value: &Datum<'_>, line: &str) -> bool {
    match spelled(alloc, line) {
        Some(bytes) => compare_datum(value, &Datum::Inline(&bytes)) == Ordering::Equal,
        None => false,
    }
}

fn is_key(alloc: Global, key: &KeyView<'_>, line: &str) -> bool {
    match key {
        KeyView::Bytes(bytes) => is_value(alloc, bytes, line),
        KeyView::Number(number) => number_of(alloc, line) == Some(*number),
    }
}

/// Whether the next two lines are those of a pair.
fn is_next(alloc: Global, lines: &mut Lines<'_>, key: &KeyView<'_>, value: &Datum<'_>) -> bool {
    match (lines.next(), lines.next()) {
        (Some(key_line), Some(value_line)) => {
            is_key(alloc, key, key_line) && is_value(alloc, value, value_line)
        }
        _ => false,
    }
}

/// Whether a list has exactly the pairs of these lines, in order.
fn lists<'a, I: Iterator<Item = (KeyView<'a>, Datum<'a>)> + Drop>(
    alloc: Global,
    list: I,
    text: &str,
) -> bool
    requires can { I.can_next list }
    requires ends { IsFinite (I.remaining list) }
{
    let mut lines = text.lines();
    for (key, value) in list {
        if !is_next(alloc, &mut lines, &key, &value) {
            return false;
        }
    }
    lines.next().is_none()
}

/// The line of the next value under a key, which is given by its line.
fn next_under<'t>(lines: &mut Lines<'t>, key: &str) -> Option<&'t str> {
    while let Some(line) = lines.next() {
        let value = lines.next()?;
        if line == key {
            return Some(value);
        }
    }
    None
}

/// Whether exactly the values under a key were found, in order.
fn has_all<'a, I: Iterator<Item = Datum<'a>> + Drop>(
    alloc: Global,
    found: I,
    text: &str,
    key: &str,
) -> bool
    requires can { I.can_next found }
    requires ends { IsFinite (I.remaining found) }
{
    let mut lines = text.lines();
    for value in found {
        match next_under(&mut lines, key) {
            Some(line) => {
                if !is_value(alloc, &value, line) {
                    return false;
                }
            }
            None => return false,
        }
    }
    next_under(&mut lines, key).is_none()
}

/// The lines of the first key and of the last.
fn ends(text: &str) -> Option<(&str, &str)> {
    let mut lines = text.lines();
    let first = lines.next()?;
    let mut last = first;
    while let Some(_value) = lines.next() {
        if let Some(key) = lines.next() {
            last = key;
        }
    }
    Some((first, last))
}

fn queue_finds<L: Ledger>(
    alloc: Global,
    linked: &Linked<'_>,
    meta: &QueueMeta,
    text: &str,
    key: &str,
    steps: &mut Steps<L>,
) -> bool
    requires { HasMetadata (file_of linked.now) (QueueFields meta.now) }
{
    match number_of(alloc, key) {
        Some(number) => has_all(
            alloc,
            bdb_queue::find(linked, meta, number, steps),
            text,
            key,
        ),
        None => false,
    }
}

fn queue_holds<L: Ledger>(
    alloc: Global,
    linked: &Linked<'_>,
    meta: &QueueMeta,
    text: &str,
    steps: &mut Steps<L>,
) -> bool
    requires { HasMetadata (file_of linked.now) (QueueFields meta.now) }
{
    let Some((first, last)) = ends(text) else {
        return false;
    };
    lists(alloc, bdb_queue::scan(linked, meta), text)
        && queue_finds(alloc, linked, meta, text, first, steps)
        && queue_finds(alloc, linked, meta, text, last, steps)
}

fn recno_finds<L: Ledger>(
    alloc: Global,
    linked: &Linked<'_>,
    meta: &BtreeMeta,
    text: &str,
    key: &str,
    steps: &mut Steps<L>,
) -> bool
    requires meta { HasMetadata (file_of linked.now) (BtreeFields meta.now) }
    requires recno { IsTrue (is_recno meta.now) }
    requires contents { database_faults (file_of linked.now) (BtreeFields meta.now) ≡ [] }
{
    match number_of(alloc, key) {
        Some(number) => has_all(
            alloc,
            bdb_recno::find(linked, meta, number, steps),
            text,
            key,
        ),
        None => false,
    }
}

fn recno_holds<L: Ledger>(
    alloc: Global,
    linked: &Linked<'_>,
    meta: &BtreeMeta,
    text: &str,
    steps: &mut Steps<L>,
) -> bool
    requires meta { HasMetadata (file_of linked.now) (BtreeFields meta.now) }
    requires recno { IsTrue (is_recno meta.now) }
    requires stage { structure_faults (file_of linked.now) ≡ [] }
{
    let Some((first, last)) = ends(text) else {
        return false;
    };
    bdb_recno::check(linked, meta).is_ok()
        && lists(alloc, bdb_recno::scan(linked, meta), text)
        && recno_finds(alloc, linked, meta, text, first, steps)
        && recno_finds(alloc, linked, meta, text, last, steps)
}

fn btree_finds<L: Ledger>(
    alloc: Global,
    linked: &Linked<'_>,
    meta: &BtreeMeta,
    text: &str,
    key: &str,
    steps: &mut Steps<L>,
) -> bool
    requires meta { HasMetadata (file_of linked.now) (BtreeFields meta.now) }
    requires keys { is_recno meta.now ≡ false }
    requires stage { structure_faults (file_of linked.now) ≡ [] }
    requires contents { database_faults (file_of linked.now) (BtreeFields meta.now) ≡ [] }
{
    match spelled(alloc, key) {
        Some(bytes) => has_all(
            alloc,
            bdb_btree::find(linked, meta, &bytes, steps),
            text,
            key,
        ),
        None => false,
    }
}

fn btree_holds<L: Ledger>(
    alloc: Global,
    linked: &Linked<'_>,
    meta: &BtreeMeta,
    text: &str,
    steps: &mut Steps<L>,
) -> bool
    requires meta { HasMetadata (file_of linked.now) (BtreeFields meta.now) }
    requires keys { is_recno meta.now ≡ false }
    requires stage { structure_faults (file_of linked.now) ≡ [] }
{
    let Some((first, last)) = ends(text) else {
        return false;
    };
    bdb_btree::check(alloc, linked, meta).is_ok()
        && lists(alloc, bdb_btree::scan(linked, meta), text)
        && btree_finds(alloc, linked, meta, text, first, steps)
        && btree_finds(alloc, linked, meta, text, last, steps)
}

fn hash_finds<L: Ledger>(
    alloc: Global,
    linked: &Linked<'_>,
    meta: &HashMeta,
    text: &str,
    key: &str,
    steps: &mut Steps<L>,
) -> bool
    requires meta { HasMetadata (file_of linked.now) (HashFields meta.now) }
    requires stage { structure_faults (file_of linked.now) ≡ [] }
    requires contents { database_faults (file_of linked.now) (HashFields meta.now) ≡ [] }
{
    match spelled(alloc, key) {
        Some(bytes) => has_all(
            alloc,
            bdb_hash_list::find(linked, meta, &bytes, steps),
            text,
            key,
        ),
        None => false,
    }
}

#[tactic(auto, using(bdb_hash_list::proofs::LookupLemmas::no_key_twice))]
fn hash_lists(alloc: Global, linked: &Linked<'_>, meta: &HashMeta, text: &str) -> bool
    requires meta { HasMetadata (file_of linked.now) (HashFields meta.now) }
    requires stage { structure_faults (file_of linked.now) ≡ [] }
    requires contents { database_faults (file_of linked.now) (HashFields meta.now) ≡ [] }
{
    match bdb_hash_list::scan(alloc, linked, meta) {
        Ok(list) => lists(alloc, list, text),
        Err(_) => false,
    }
}

fn hash_holds<L: Ledger>(
    alloc: Global,
    linked: &Linked<'_>,
    meta: &HashMeta,
    text: &str,
    steps: &mut Steps<L>,
) -> bool
    requires meta { HasMetadata (file_of linked.now) (HashFields meta.now) }
    requires stage { structure_faults (file_of linked.now) ≡ [] }
{
    let Some((first, last)) = ends(text) else {
        return false;
    };
    bdb_hash::check(alloc, linked, meta).is_ok()
        && hash_lists(alloc, linked, meta, text)
        && hash_finds(alloc, linked, meta, text, first, steps)
        && hash_finds(alloc, linked, meta, text, last, steps)
}

/// Whether the database on page 0 has no fault and holds exactly the pairs of these lines.
fn holds<L: Ledger>(alloc: Global, linked: &Linked<'_>, text: &str, steps: &mut Steps<L>) -> bool {
    if linked.metas() == 0 || !has_sound_trees(alloc, linked) {
        return false;
    }
    match linked.meta(0).1 {
        Meta::Queue(meta) => queue_holds(alloc, linked, &meta, text, steps),
        Meta::Hash(meta) => hash_holds(alloc, linked, &meta, text, steps),
        Meta::Btree(meta) => {
            if is_keyed(&meta) {
                btree_holds(alloc, linked, &meta, text, steps)
            } else {
                is_recno(&meta) && recno_holds(alloc, linked, &meta, text, steps)
            }
        }
    }
}

fn holds_in<L: Ledger>(alloc: Global, image: &[u8], text: &str, steps: &mut Steps<L>) -> bool {
    if image.len() > SIZE {
        return false;
    }
    let Ok(formed) = open_image(alloc, image) else {
        return false;
    };
    match link(alloc, formed, steps) {
        Ok(linked) => holds(alloc, &linked, text, steps),
        Err(_) => false,
    }
}

fn holds_counted<L: Ledger>(alloc: Global, image: &[u8], real: &Real, blank: Blank) -> bool
    requires name { blank.name ≡ L.name }
    requires parts { blank.parts ≡ L.parts }
    requires one { L.parts ≡ 1 }
{
    let mut steps = Steps::<L>::new(blank);
    holds_in(alloc, image, real.list, &mut steps)
}

fn is_as_dumped(alloc: Global, real: &Real) -> bool {
    let Some(bytes) = bytes_of(&real.image) else {
        return false;
    };
    match bytes.get(..real.image.size) {
        Some(image) => holds_counted::<Brand>(alloc, image, real, Blank::new(1)),
        None => false,
    }
}

#[test]
fn lists_and_finds_the_records_of_a_real_queue(rt: HostRuntime) {
    assert!(rt; is_as_dumped(rt.alloc(), &QUEUE_WITHOUT_A_HEAD));
}

#[test]
fn lists_and_finds_the_records_of_a_real_recno(rt: HostRuntime) {
    assert!(rt; is_as_dumped(rt.alloc(), &RECNO_WITH_A_GAP));
}

#[test]
fn lists_and_finds_the_pairs_of_a_hash_with_sorted_sets(rt: HostRuntime) {
    assert!(rt; is_as_dumped(rt.alloc(), &HASH_WITH_SORTED_SETS));
}

#[test]
fn lists_and_finds_the_pairs_of_a_hash_with_long_data(rt: HostRuntime) {
    assert!(rt; is_as_dumped(rt.alloc(), &HASH_WITH_LONG_DATA));
}

#[test]
fn lists_and_finds_the_pairs_of_a_btree_with_free_pages(rt: HostRuntime) {
    assert!(rt; is_as_dumped(rt.alloc(), &BTREE_WITH_FREE_PAGES));
}

#[test]
fn lists_and_finds_the_pairs_of_a_btree_with_deleted_sets(rt: HostRuntime) {
    assert!(rt; is_as_dumped(rt.alloc(), &BTREE_WITH_DELETED_SETS));
}

#[test]
fn lists_and_finds_the_pairs_of_a_btree_after_recovery(rt: HostRuntime) {
    assert!(rt; is_as_dumped(rt.alloc(), &BTREE_AFTER_RECOVERY));
}
