//! What a sound file tells: its databases, their settings, their lists, and what they have under a key.

ghost use Rattle.std.specs.Prelude.{◌≡◌, ◌<◌, ◌≤◌, ◌^◌, length};
ghost use Rattle.bdb_format.specs.Terms.{databases, file_of};

use crate::files::TWO_DATABASES;
use crate::judging::SIZE;
use crate::worked::{ONE_PAIR, QUEUE};
use bdb_file::{Datum, Db, KeyView, Scan, Sound, verify};
use bdb_format::{Bytes, Kind, Order, Steps};
use std::alloc::{AllocError, Global};
use std::marker::Brand;
use std::sync::ledger::{Blank, Ledger};
use test_images::{Field, write};

fn kind_word(kind: Kind) -> &'static [u8] {
    match kind {
        Kind::Btree => b"btree",
        Kind::Recno => b"recno",
        Kind::Hash => b"hash",
        Kind::Queue => b"queue",
    }
}

fn add_datum(alloc: Global, text: &mut Bytes, value: &Datum<'_>) -> Result<(), AllocError> {
    let copy = value.copy(alloc)?;
    text.push_all(copy.as_slice())
}

fn add_key(alloc: Global, text: &mut Bytes, key: &KeyView<'_>) -> Result<(), AllocError> {
    match key {
        KeyView::Bytes(key) => add_datum(alloc, text, key),
        KeyView::Number(number) => {
            let number = *number;
            let digits = format!(in alloc; "{number}")?;
            text.push_all(digits.as_bytes())
        }
    }
}

/// Adds ` KEY=VALUE`.
fn add_pair(
    alloc: Global,
    text: &mut Bytes,
    key: &KeyView<'_>,
    value: &Datum<'_>,
) -> Result<(), AllocError> {
    text.push_all(b" ")?;
    add_key(alloc, text, key)?;
    text.push_all(b"=")?;
    add_datum(alloc, text, value)
}

/// Adds ` KEY=VALUE` for each pair of a list.
fn add_pairs(alloc: Global, text: &mut Bytes, list: &mut Scan<'_>) -> Result<(), AllocError> {
    for (key, value) in list {
        add_pair(alloc, text, &key, &value)?;
    }
    Ok(())
}

/// Adds the list of a database.
fn add_list(alloc: Global, text: &mut Bytes, sound: &Sound<'_>, db: Db) -> Result<(), AllocError>
    requires { db < length (databases (file_of sound.now)) }
{
    let mut list = sound.scan(alloc, db)?;
    add_pairs(alloc, text, &mut list)
}

/// Adds `KIND NAME:`, the list, and a line feed.
fn add_database(
    alloc: Global,
    text: &mut Bytes,
    sound: &Sound<'_>,
    db: Db,
) -> Result<(), AllocError>
    requires { db < length (databases (file_of sound.now)) }
{
    text.push_all(kind_word(sound.settings(db).kind))?;
    if let Some(name) = sound.name(db) {
        text.push_all(b" ")?;
        text.push_all(name)?;
    }
    text.push_all(b":")?;
    add_list(alloc, text, sound, db)?;
    text.push_all(b"\n")
}

fn description(alloc: Global, sound: &Sound<'_>) -> Result<Bytes, AllocError> {
    let mut text = Bytes::new(alloc);
    for i in 0..sound.databases() {
        add_database(alloc, &mut text, sound, sound.database(i))?;
    }
    Ok(text)
}

/// What is asked of a file, and what comes of it.
#[derive(Clone, Copy)]
struct Case {
    image: &'static [Field],
    length: usize,
    /// The databases with their lists.
    description: &'static [u8],
    name: Option<&'static [u8]>,
    key: &'static [u8],
    /// The first of what the database with the name has under the key, or nothing.
    first: Option<&'static [u8]>,
}

const CASES: [Case; 3] = [
    Case {
        image: &ONE_PAIR,
        length: 1024,
        description: b"btree: a=b\n",
        name: None,
        key: b"a",
        first: Some(b"b"),
    },
    Case {
        image: &QUEUE,
        length: 1024,
        description: b"queue: 2=abcd\n",
        name: None,
        key: b"02",
        first: Some(b"abcd"),
    },
    Case {
        image: &TWO_DATABASES,
        length: SIZE,
        description: b"btree a:\nhash b:\n",
        name: Some(b"b"),
        key: b"a",
        first: None,
    },
];

fn is_first(alloc: Global, found: Option<Datum<'_>>, first: Option<&'static [u8]>) -> bool {
    match (found, first) {
        (None, None) => true,
        (Some(found), Some(first)) => match found.copy(alloc) {
            Ok(bytes) => bytes.as_slice() == first,
            Err(_) => false,
        },
        _ => false,
    }
}

fn answers<L: Ledger>(alloc: Global, sound: &Sound<'_>, case: &Case, steps: &mut Steps<L>) -> bool {
    let Some(db) = sound.by_name(case.name) else {
        return false;
    };
    let mut found = sound.get(db, case.key, steps);
    is_first(alloc, found.next(), case.first)
}

fn is_told<L: Ledger>(alloc: Global, image: &[u8], case: &Case, steps: &mut Steps<L>) -> bool
    requires { length image.now ≤ 2 ^ 30 }
{
    let Ok(sound) = verify(alloc, image, steps) else {
        return false;
    };
    let Ok(text) = description(alloc, &sound) else {
        return false;
    };
    text.as_slice() == case.description && answers(alloc, &sound, case, steps)
}

fn is_told_blank<L: Ledger>(alloc: Global, case: &Case, order: Order, blank: Blank) -> bool
    requires name { blank.name ≡ L.name }
    requires parts { blank.parts ≡ L.parts }
    requires one { L.parts ≡ 1 }
{
    let mut bytes = [0u8; SIZE];
    write(&mut bytes, case.image, order);
    let mut steps = Steps::<L>::new(blank);
    match bytes.get(..case.length) {
        Some(image) => is_told(alloc, image, case, &mut steps),
        None => false,
    }
}

fn is_case(alloc: Global, case: &Case, order: Order) -> bool {
    is_told_blank::<Brand>(alloc, case, order, Blank::new(1))
}

#[test]
fn tells_its_databases(rt: HostRuntime) {
    for case in &CASES {
        for order in [Order::Little, Order::Big] {
            assert!(rt; is_case(rt.alloc(), case, order));
        }
    }
}
