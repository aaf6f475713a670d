ghost use Rattle.std.specs.Prelude.{◌≡◌, ◌<◌, ◌≤◌, ◌^◌, IsTrue, length, not};
ghost use Rattle.std.specs.List.{filter, sum_by};
ghost use Rattle.bdb_apart.specs.Found.{found};
ghost use Rattle.bdb_apart.specs.Given.{names_found, pairs_left_on, records_given};
ghost use Rattle.bdb_apart.specs.Kept.{holds_in, row_in};
ghost use Rattle.bdb_apart.specs.Left.{pairs_on};
ghost use Rattle.bdb_apart.specs.declared.holds.Holds.TheVariants.{Slots};
ghost use Rattle.bdb_apart.specs.of_format.Flags.{has_records};
ghost use Rattle.bdb_apart.specs.of_rescue.Kept.{file_in};
ghost use Rattle.bdb_apart.specs.of_survey.Salvage.{stored_on};
ghost use Rattle.bdb_damage.specs.Counts.{given_count, lost_count, rest_pairs, rest_records};
ghost use Rattle.bdb_damage.specs.Tallies.{lost_in_row, tally_on};

use crate::one::one;
use crate::pages::page_count;
use crate::pair_counts::{lost_pairs_on, pairs_on};
use crate::record_counts::{fit_on, left_on, lost_on};
use bdb_apart::{Apart, Database, Holds, holds_pairs};

/// How many pairs of a page a database gives that holds so.
fn pairs_given_on(apart: &Apart<'_, '_>, holds: Holds, page: u32) -> u64
    requires { page < (file_in apart.now).count }
    ensures count { result ≡ length (pairs_on (file_in apart.now) holds page) }
    ensures few { result ≤ 2 ^ 42 }
{
    if holds_pairs(holds, apart.kind(page)) {
        pairs_on(apart.salvaged(), page)
    } else {
        0
    }
}

/// How many pairs of a page are lost, where it holds some of a database that holds so.
fn pairs_lost_on(apart: &Apart<'_, '_>, holds: Holds, page: u32) -> u32
    requires { page < (file_in apart.now).count }
    ensures lost { result ≡ lost_in_row (file_in apart.now) holds page }
    ensures few { result < 2 ^ 32 }
{
    if holds_pairs(holds, apart.kind(page)) {
        lost_pairs_on(apart.salvaged(), page)
    } else {
        0
    }
}

/// What is counted of the pages of a database: its pairs or records that are given, or those that are lost.
#[derive(Clone, Copy)]
pub(crate) enum Tally {
    PairsGiven,
    RecordsGiven,
    PairsLost,
    RecordsLost,
}

/// How many of them a page has.
fn tally_on(apart: &Apart<'_, '_>, holds: Holds, tally: Tally, page: u32) -> u64
    requires { page < (file_in apart.now).count }
    ensures count { result ≡ tally_on tally (file_in apart.now) holds page }
    ensures few { result ≤ 2 ^ 42 }
{
    match tally {
        Tally::PairsGiven => pairs_given_on(apart, holds, page),
        Tally::RecordsGiven => u64::from(fit_on(apart, holds, page)),
        Tally::PairsLost => u64::from(pairs_lost_on(apart, holds, page)),
        Tally::RecordsLost => u64::from(lost_on(apart, holds, page)),
    }
}

/// How many of them the pages of a database have.
fn tally_of(database: &Database<'_, '_, '_>, tally: Tally) -> u64
    ensures { result ≡ sum_by (λ p. tally_on tally (file_in database.now.reading) (holds_in database.now.db) p)
        (row_in database.now.reading database.now.db.meta) }
{
    let apart = database.apart();
    let holds = database.holds();
    let _pages = page_count(apart);
    let mut count = 0;
    for page in database.pages() {
        count += tally_on(apart, holds, tally, page);
    }
    count
}

/// How many records of a queue are given.
fn given_in_slots(database: &Database<'_, '_, '_>) -> u64
    requires { holds_in database.now.db ≡ Slots }
    ensures { result ≡ length (records_given database.now) }
{
    let _known = database.holds();
    let _pages = page_count(database.apart());
    let mut count = 0;
    for _record in database.records() {
        count += 1;
    }
    count
}

/// How many records of a database that has records are given.
fn given_records(database: &Database<'_, '_, '_>) -> u64
    requires { IsTrue (has_records database.now.db.fields) }
    ensures { result ≡ length (records_given database.now) }
{
    match database.holds() {
        Holds::Slots => given_in_slots(database),
        _ => tally_of(database, Tally::RecordsGiven),
    }
}

/// How many pairs or records `salvage --apart` gives of a database.
pub fn given_count(database: &Database<'_, '_, '_>) -> u64
    ensures { result ≡ given_count database.now }
{
    if database.has_records() {
        given_records(database)
    } else {
        tally_of(database, Tally::PairsGiven)
    }
}

/// How many live pairs or records on the pages of a database aren't given: a key or a datum isn't whole, or a record isn't, has another length than
/// the fixed one or a number of more than four bytes. 0 for a queue.
pub fn lost_count(database: &Database<'_, '_, '_>) -> u64
    ensures { result ≡ lost_count database.now }
{
    if !database.has_records() {
        return tally_of(database, Tally::PairsLost);
    }
    match database.holds() {
        Holds::Slots => 0,
        _ => tally_of(database, Tally::RecordsLost),
    }
}

/// How many pairs of a leaf of a master don't name a database that is found.
fn others_on(apart: &Apart<'_, '_>, page: u32) -> u64
    requires { page < (file_in apart.now).count }
    ensures { result ≡ length (filter (λ pair. not (names_found (found apart.now) pair)) (stored_on (file_in apart.now) page)) }
{
    let _few = pairs_on(apart.salvaged(), page);
    let mut count = 0;
    for (_key, value) in apart.salvaged().pairs_on(page) {
        count += u64::from(one(!apart.names_found(&value)));
    }
    count
}

/// How many pairs of a page belong to no database.
fn pairs_left_on(apart: &Apart<'_, '_>, page: u32) -> u64
    requires { page < (file_in apart.now).count }
    ensures { result ≡ length (pairs_left_on (file_in apart.now) (found apart.now) page) }
{
    if apart.are_given(page) {
        return 0;
    }
    if apart.is_master_leaf(page) {
        return others_on(apart, page);
    }
    pairs_on(apart.salvaged(), page)
}

/// How many stored pairs belong to no database that is found, as `salvage --rest` gives them.
pub fn rest_pairs(apart: &Apart<'_, '_>) -> u64
    ensures { result ≡ rest_pairs apart.now }
{
    let mut count = 0;
    for page in 0..page_count(apart) {
        count += pairs_left_on(apart, page);
    }
    count
}

/// How many loose records belong to no database that is found, as `salvage --rest` gives them.
pub fn rest_records(apart: &Apart<'_, '_>) -> u64
    ensures { result ≡ rest_records apart.now }
{
    let mut count = 0;
    for page in 0..page_count(apart) {
        count += u64::from(left_on(apart, page));
    }
    count
}
