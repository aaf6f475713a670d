//! The lists of btrees, and what keys have in them. Values: docs/FORMAT.md, "Items" and "Lists of databases".

ghost use Rattle.std.specs.Prelude.{◌≡◌, [], false};
ghost use Rattle.bdb_range.specs.of_image.Linked.{HasMetadata};
ghost use Rattle.bdb_format.specs.Terms.{BtreeFields, database_faults, file_of, is_recno, structure_faults};

use crate::lookup_cases::{CASES, Case, Entry, Part};
use bdb_btree::{Found, Scan, check, find, scan};
use bdb_format::{BtreeMeta, Order, Steps};
use bdb_overflow::{Datum, KeyView, compare_datum};
use bdb_range::{Linked, link, open_image};
use std::alloc::Global;
use std::cmp::Ordering;
use std::marker::Brand;
use std::sync::ledger::{Blank, Ledger};
use test_images::{btree_of, has_sound_trees, is_keyed, write};

const SIZE: usize = 9 * 512;

/// Whether a value has these bytes.
fn is_value(value: &Datum<'_>, bytes: &[u8]) -> bool {
    compare_datum(value, &Datum::Inline(bytes)) == Ordering::Equal
}

/// Whether a key and a datum are these.
pub fn is_entry(key: &KeyView<'_>, value: &Datum<'_>, entry: &Entry) -> bool {
    match key {
        KeyView::Bytes(key) => is_value(key, entry.key) && is_value(value, entry.value),
        KeyView::Number(_) => false,
    }
}

/// Whether what comes next is this entry.
pub fn is_next_entry(next: Option<(KeyView<'_>, Datum<'_>)>, entry: &Entry) -> bool {
    match next {
        Some((key, value)) => is_entry(&key, &value, entry),
        None => false,
    }
}

/// Whether exactly these entries are left, in order.
fn are_left(left: &mut Scan<'_>, list: &[Entry]) -> bool {
    for entry in list {
        if !is_next_entry(left.next(), entry) {
            return false;
        }
    }
    left.next().is_none()
}

/// Whether a scan gives exactly these entries, in order.
fn lists(linked: &Linked<'_>, meta: &BtreeMeta, list: &[Entry]) -> bool
    requires meta { HasMetadata (file_of linked.now) (BtreeFields meta.now) }
    requires stage { structure_faults (file_of linked.now) ≡ [] }
{
    are_left(&mut scan(linked, meta), list)
}

/// Whether the next value that is left has these bytes.
fn next_is(left: &mut Found<'_>, bytes: &[u8]) -> bool {
    match left.next() {
        Some(value) => is_value(&value, bytes),
        None => false,
    }
}

/// Whether nothing is left.
fn is_over(left: &mut Found<'_>) -> bool {
    left.next().is_none()
}

/// Whether exactly the data that a list has under a key are left, in order.
fn are_data(left: &mut Found<'_>, key: &[u8], list: &[Entry]) -> bool {
    for entry in list {
        if entry.key == key && !next_is(left, entry.value) {
            return false;
        }
    }
    is_over(left)
}

/// Whether exactly the data that a list has under a key are found, in order.
fn finds<L: Ledger>(
    linked: &Linked<'_>,
    meta: &BtreeMeta,
    key: &[u8],
    list: &[Entry],
    steps: &mut Steps<L>,
) -> bool
    requires meta { HasMetadata (file_of linked.now) (BtreeFields meta.now) }
    requires keys { is_recno meta.now ≡ false }
    requires stage { structure_faults (file_of linked.now) ≡ [] }
    requires contents { database_faults (file_of linked.now) (BtreeFields meta.now) ≡ [] }
{
    are_data(&mut find(linked, meta, key, steps), key, list)
}

/// Whether each key of the list, and each of the keys that it hasn't, has what the list says.
fn finds_all<L: Ledger>(
    linked: &Linked<'_>,
    meta: &BtreeMeta,
    list: &[Entry],
    missing: &[&[u8]],
    steps: &mut Steps<L>,
) -> bool
    requires meta { HasMetadata (file_of linked.now) (BtreeFields meta.now) }
    requires keys { is_recno meta.now ≡ false }
    requires stage { structure_faults (file_of linked.now) ≡ [] }
    requires contents { database_faults (file_of linked.now) (BtreeFields meta.now) ≡ [] }
{
    for entry in list {
        if !finds(linked, meta, entry.key, list, steps) {
            return false;
        }
    }
    for key in missing {
        if !finds(linked, meta, key, &[], steps) {
            return false;
        }
    }
    true
}

fn agrees<L: Ledger>(
    alloc: Global,
    linked: &Linked<'_>,
    list: &[Entry],
    missing: &[&[u8]],
    steps: &mut Steps<L>,
) -> bool {
    let Some(meta) = btree_of(linked) else {
        return false;
    };
    if !is_keyed(&meta) || !has_sound_trees(alloc, linked) {
        return false;
    }
    match check(alloc, linked, &meta) {
        Ok(()) => { lists(linked, &meta, list) && finds_all(linked, &meta, list, missing, steps) }
        Err(_) => false,
    }
}

fn agrees_counted<L: Ledger>(
    alloc: Global,
    image: &[u8],
    list: &[Entry],
    missing: &[&[u8]],
    steps: &mut Steps<L>,
) -> bool {
    if image.len() > 8192 {
        return false;
    }
    let Ok(formed) = open_image(alloc, image) else {
        return false;
    };
    match link(alloc, formed, steps) {
        Ok(linked) => agrees(alloc, &linked, list, missing, steps),
        Err(_) => false,
    }
}

fn agrees_blank<L: Ledger>(
    alloc: Global,
    image: &[u8],
    list: &[Entry],
    missing: &[&[u8]],
    blank: Blank,
) -> bool
    requires name { blank.name ≡ L.name }
    requires parts { blank.parts ≡ L.parts }
    requires one { L.parts ≡ 1 }
{
    let mut steps = Steps::<L>::new(blank);
    agrees_counted(alloc, image, list, missing, &mut steps)
}

/// Whether the btree of an image has this list, and none of the other keys.
pub fn has_list(alloc: Global, image: &[u8], list: &[Entry], missing: &[&[u8]]) -> bool {
    agrees_blank::<Brand>(alloc, image, list, missing, Blank::new(1))
}

/// Writes a part of an image, a page of which begins where its number says.
pub fn write_part(image: &mut [u8], part: &Part, order: Order) {
    let start = usize::from(part.page) * 512;
    if start <= image.len() {
        write(&mut image[start..], part.fields, order);
    }
}

fn has_case(alloc: Global, case: &Case, order: Order) -> bool {
    let mut image = [0u8; SIZE];
    for part in case.parts {
        write_part(&mut image, part, order);
    }
    match image.get(..case.pages.saturating_mul(512)) {
        Some(pages) => has_list(alloc, pages, case.list, case.missing),
        None => false,
    }
}

#[test]
fn lists_and_finds_the_pairs_of_a_btree(rt: HostRuntime) {
    for case in &CASES {
        for order in [Order::Little, Order::Big] {
            assert!(rt; has_case(rt.alloc(), case, order));
        }
    }
}
