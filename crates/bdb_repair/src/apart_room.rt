//! Whether what is given of the databases that are found has room in a file, counted where it lies.
ghost use Rattle.std.specs.Prelude.{◌≡◌, ◌+◌, ◌<◌, MatchOption, nat_lt};
ghost use Rattle.std.specs.List.{sum_by};
ghost use Rattle.bdb_mkfile.specs.of_settle.Loaded.{keeps_data};
ghost use Rattle.bdb_repair.specs.ApartRoom.{apart_room, found_room};
ghost use Rattle.bdb_repair.specs.Room.{pair_room};

use crate::room::after_datum;
use bdb_apart::{Apart, Database, Databases, Kind, Pairs, Settings};

// Whether the data of a key stand one behind the other, as they come, so that none replaces another.
fn keeps_data(settings: &Settings) -> bool
    ensures { result ≡ keeps_data settings.now }
{
    match settings.kind {
        Kind::Btree | Kind::Hash => settings.duplicates && !settings.sorted,
        Kind::Recno | Kind::Queue => false,
    }
}

// What is left of a file after the data of pairs, which stand in it; `None` where they have no room there.
fn after_pairs(room: u64, pairs: &mut Pairs<'_, '_, '_>) -> Option<u64>
    ensures { MatchOption result (room < sum_by pair_room pairs.old) (λ left. left + sum_by pair_room pairs.old ≡ room) }
{
    let mut left = room;
    for pair in pairs {
        left = after_datum(left, pair.1.len())?;
    }
    Some(left)
}

// The same of the data of a database. Where one may take the place of another, none is sure to stand there.
fn after_database(room: u64, db: &Database<'_, '_, '_>) -> Option<u64>
    ensures { MatchOption result (room < found_room db.now) (λ left. left + found_room db.now ≡ room) }
{
    if keeps_data(&db.settings()) {
        after_pairs(room, &mut db.pairs())
    } else {
        Some(room)
    }
}

// The same of the data of databases.
fn after_databases(room: u64, dbs: &mut Databases<'_, '_, '_>) -> Option<u64>
    ensures { MatchOption result (room < sum_by found_room dbs.old) (λ left. left + sum_by found_room dbs.old ≡ room) }
{
    let mut left = room;
    for db in dbs {
        left = after_database(left, &db)?;
    }
    Some(left)
}

/// Whether the data that a file of the databases keeps have no room in so many bytes. No more of them is looked at than have, and nothing is copied.
pub(crate) fn are_past(apart: &Apart<'_, '_>, max: u64) -> bool
    ensures { result ≡ nat_lt max (apart_room apart.now) }
{
    after_databases(max, &mut apart.databases()).is_none()
}
