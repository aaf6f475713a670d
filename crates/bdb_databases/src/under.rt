//! The data under a key, found by going over a list.
ghost use Rattle.std.specs.Prelude.{◌≡◌, IfOk, true};
ghost use Rattle.std.specs.Iterator.{YieldsFirstBy};
ghost use Rattle.bdb_databases.specs.Under.{IsSought, has_key, listed_under};
ghost use Rattle.bdb_recno.specs.of_format.Terms.{BytesKey, NumberKey, is_key};
ghost use Rattle.bdb_recno.specs.of_format.Flags.{has_records};
ghost use Rattle.bdb_recno.specs.of_image.Metas.{meta_seen};
ghost use Rattle.bdb_recno.specs.of_overflow.Datum.{datum_seen, key_view_seen};

use crate::Scan;
use bdb_recno::{Bytes, Datum, KeyView, Meta, is_same, number_in};
use std::alloc::{AllocError, Global};
use std::marker::Model;

/// A key that is looked for in a list: bytes, or the number of a record. Bytes that are no number are no record's key.
#[derive(Drop)]
pub(crate) enum Sought {
    Bytes(Bytes),
    Number(u64),
    Nothing,
}

/// Whether an entry has these bytes as its key.
fn has_bytes(entry: &KeyView<'_>, key: &[u8]) -> bool
    ensures { result ≡ is_key (key_view_seen entry.now) (BytesKey key.now) }
{
    match entry {
        KeyView::Bytes(datum) => is_same(datum, &Datum::Inline(key)),
        KeyView::Number(_) => false,
    }
}

/// Whether an entry is the record with this number.
fn has_number(entry: &KeyView<'_>, number: u64) -> bool
    ensures { result ≡ is_key (key_view_seen entry.now) (NumberKey number) }
{
    match entry {
        KeyView::Bytes(_) => false,
        KeyView::Number(record) => u64::from(*record) == number,
    }
}

/// Whether an entry has the key.
fn has_key(entry: &KeyView<'_>, sought: &Sought) -> bool
    ensures { result ≡ has_key sought.now (key_view_seen entry.now) }
{
    match sought {
        Sought::Bytes(key) => has_bytes(entry, key.as_slice()),
        Sought::Number(number) => has_number(entry, *number),
        Sought::Nothing => false,
    }
}

/// Whether a database holds records.
pub(crate) fn has_records(meta: &Meta) -> bool
    ensures { result ≡ has_records (meta_seen meta.now) }
{
    match meta {
        Meta::Btree(meta) => meta.is_recno(),
        Meta::Hash(_) => false,
        Meta::Queue(_) => true,
    }
}

/// The number that digits say, as a key that is looked for.
fn number_sought(key: &[u8]) -> Sought
    ensures { IsSought true key.now result }
{
    match number_in(key) {
        Some(number) => Sought::Number(number),
        None => Sought::Nothing,
    }
}

/// The key that bytes are in a database, of records or of pairs.
pub(crate) fn key_sought(alloc: Global, has_records: bool, key: &[u8]) -> Result<Sought, AllocError>
    ensures { IfOk result (λ sought. IsSought has_records key.now sought) }
{
    if has_records {
        return Ok(number_sought(key));
    }
    let mut copy = Bytes::new(alloc);
    copy.push_all(key)?;
    Ok(Sought::Bytes(copy))
}

/// The data under a key that are left in a list, whatever order that stands in.
#[derive(Drop)]
pub(crate) struct Under<'a> {
    list: Scan<'a>,
    key: Sought,
}

impl<'a> Model for Under<'a> {
    ghost use Rattle.std.specs.Prelude.{List, ℕ};
    ghost use Rattle.bdb_databases.specs.Under.{listed_under};

    ghost Value = { List (List ℕ) };

    ghost view = { λ v. listed_under v.key v.list };
}

impl<'a> Under<'a> {
    pub(crate) fn of(list: Scan<'a>, key: Sought) -> Under<'a>
        ensures { result ≡ listed_under key list.entry }
    {
        Under { list, key }
    }

    /// The first datum that is left.
    pub(crate) fn first(&mut self) -> Option<Datum<'a>>
        ensures { YieldsFirstBy datum_seen (λ left. left) self.old result self.new }
    {
        while let Some((key, value)) = self.list.next() {
            if has_key(&key, &self.key) {
                return Some(value);
            }
        }
        None
    }
}
