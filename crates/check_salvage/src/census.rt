//! Both sides of a file, and what is told of them.

ghost use Rattle.std.specs.Prelude.{◌≡◌, ◌<◌, ◌≤◌, ◌^◌, length};
ghost use Rattle.bdb_salvage.specs.of_format.Terms.{databases, file_of};

use crate::held::Held;
use bdb_salvage::{
    Bytes, FileKind, Meta, SalvageError, SalvagePairs, SalvageValues, Salvaged, Steps, salvage,
};
use bdb_tool::{Db, Scan, Sound, verify};
use std::alloc::{AllocError, Global};
use std::marker::Brand;
use std::sync::ledger::{Blank, Ledger};

/// Adds the list of a master: its keys are names.
fn add_names<'a>(held: &mut Held<'a>, list: &mut bdb_btree::Scan<'a>) -> Result<(), AllocError> {
    for (key, value) in list {
        held.add_entry(key, value)?;
    }
    Ok(())
}

/// Adds the list of a master, where there is one.
#[tactic(auto, using(crate::proofs::Below::has_metadata, crate::proofs::Below::no_structure))]
fn add_master<'a>(held: &mut Held<'a>, sound: &Sound<'a>) -> Result<(), AllocError> {
    let linked = sound.linked();
    if linked.metas() == 0 {
        return Ok(());
    }
    let (number, meta) = linked.meta(0);
    if let Meta::Btree(meta) = meta
        && number == 0
        && meta.names_databases()
    {
        return add_names(held, &mut bdb_btree::scan(linked, &meta));
    }
    Ok(())
}

/// Adds the list of a database.
fn add_list<'a>(held: &mut Held<'a>, list: &mut Scan<'a>) -> Result<(), AllocError> {
    for (key, value) in list {
        held.add_entry(key, value)?;
    }
    Ok(())
}

/// Adds the same list, which is given up.
fn add_whole<'a>(held: &mut Held<'a>, mut list: Scan<'a>) -> Result<(), AllocError> {
    add_list(held, &mut list)
}

/// Adds what a database lists.
fn add_database<'a>(
    alloc: Global,
    held: &mut Held<'a>,
    sound: &Sound<'a>,
    db: Db,
) -> Result<(), AllocError>
    requires { db < length (databases (file_of sound.now)) }
{
    match sound.scan(alloc, db) {
        Ok(list) => add_whole(held, list),
        Err(_) => Err(AllocError),
    }
}

/// Adds what the master and the databases of a file list.
fn add_listed<'a>(alloc: Global, held: &mut Held<'a>, sound: &Sound<'a>) -> Result<(), AllocError> {
    add_master(held, sound)?;
    for i in 0..sound.databases() {
        add_database(alloc, held, sound, sound.database(i))?;
    }
    Ok(())
}

/// Adds stored pairs that are salvaged.
fn add_stored<'s>(held: &mut Held<'s>, pairs: &mut SalvagePairs<'s, '_>) -> Result<(), AllocError> {
    for (key, value) in pairs {
        held.add_pair(key, value)?;
    }
    Ok(())
}

/// Adds loose records that are salvaged.
fn add_loose<'s>(
    held: &mut Held<'s>,
    records: &mut SalvageValues<'s, '_>,
) -> Result<(), AllocError> {
    for value in records {
        held.add_record(value)?;
    }
    Ok(())
}

/// Adds what is salvaged of an image.
fn add_salvaged<'s>(held: &mut Held<'s>, found: &'s Salvaged<'_>) -> Result<(), AllocError> {
    add_stored(held, &mut found.pairs())?;
    add_loose(held, &mut found.loose())
}

fn bytes_of(alloc: Global, text: &str) -> Result<Bytes, AllocError> {
    let mut bytes = Bytes::new(alloc);
    bytes.push_all(text.as_bytes())?;
    Ok(bytes)
}

/// What is told of two sides.
fn compared(
    alloc: Global,
    listed: &mut Held<'_>,
    salvaged: &mut Held<'_>,
) -> Result<Bytes, AllocError> {
    listed.sort();
    salvaged.sort();
    let pairs = listed.pairs();
    let records = listed.records();
    if !listed.is_same(salvaged) {
        return bytes_of(alloc, "another census");
    }
    let text = format!(in alloc; "{pairs} pairs, {records} records")?;
    bytes_of(alloc, text.as_str())
}

/// Fills both sides, and tells of them.
fn told_of_sides<'a, 's>(
    alloc: Global,
    listed: &mut Held<'a>,
    salvaged: &mut Held<'s>,
    sound: &Sound<'a>,
    found: &'s Salvaged<'_>,
) -> Result<Bytes, AllocError> {
    add_listed(alloc, listed, sound)?;
    add_salvaged(salvaged, found)?;
    compared(alloc, listed, salvaged)
}

/// What is told of a sound file and of what is salvaged of it.
fn told_of_both(
    alloc: Global,
    sound: &Sound<'_>,
    found: &Salvaged<'_>,
) -> Result<Bytes, AllocError> {
    let mut listed = Held::new(alloc);
    let mut salvaged = Held::new(alloc);
    told_of_sides(alloc, &mut listed, &mut salvaged, sound, found)
}

/// What is told of a sound file.
fn told_of_sound<L: Ledger>(
    alloc: Global,
    image: &[u8],
    sound: &Sound<'_>,
    steps: &mut Steps<L>,
) -> Result<Bytes, AllocError>
    requires { length image.now ≤ 2 ^ 30 }
{
    if sound.head().kind == FileKind::Queue {
        return bytes_of(alloc, "a queue");
    }
    match salvage(alloc, image, None, steps) {
        Ok(found) => told_of_both(alloc, sound, &found),
        Err(SalvageError::NoMeta) => bytes_of(alloc, "no guess"),
        Err(SalvageError::Memory) => Err(AllocError),
    }
}

fn told_by<L: Ledger>(alloc: Global, image: &[u8], blank: Blank) -> Result<Bytes, AllocError>
    requires name { blank.name ≡ L.name }
    requires parts { blank.parts ≡ L.parts }
    requires one { L.parts ≡ 1 }
    requires small { length image.now ≤ 2 ^ 30 }
{
    let mut steps = Steps::<L>::new(blank);
    match verify(alloc, image, &mut steps) {
        Ok(sound) => told_of_sound(alloc, image, &sound, &mut steps),
        Err(_) => bytes_of(alloc, "not sound"),
    }
}

/// What is told of an image: how many pairs and records its databases list, where salvage gives the same, each as often.
pub(crate) fn census_of(alloc: Global, image: &[u8]) -> Result<Bytes, AllocError> {
    if image.len() > 1 << 30 {
        return bytes_of(alloc, "too long");
    }
    told_by::<Brand>(alloc, image, Blank::new(1))
}
