//! Whether what is salvaged has room in a file, counted where it lies.
ghost use Rattle.std.specs.Prelude.{◌≡◌, ◌+◌, ◌<◌, MatchOption, nat_lt};
ghost use Rattle.std.specs.List.{sum_by};
ghost use Rattle.bdb_rescue.specs.Kept.{file_in};
ghost use Rattle.bdb_repair.specs.Room.{datum_room, entry_room, kept_room, least_room, room_as, stored_room};

use crate::{Duplicates, Shape};
use bdb_rescue::{SalvageEntries, SalvageEntry, SalvageValues, Salvaged};

// What is left of so many bytes after those of a datum and four more; `None` where they are too few.
pub(crate) fn after_datum(room: u64, datum: u64) -> Option<u64>
    ensures { MatchOption result (room < 4 + datum) (λ left. left + (4 + datum) ≡ room) }
{
    if room < 4 || room - 4 < datum {
        return None;
    }
    Some(room - 4 - datum)
}

// What is left of a file after the data of a key, which stand in it; `None` where they have no room there.
fn after_entry(room: u64, entry: &mut SalvageEntry<'_, '_>) -> Option<u64>
    ensures { MatchOption result (room < entry_room entry.old) (λ left. left + entry_room entry.old ≡ room) }
{
    let mut left = room;
    while let Some(value) = entry.next() {
        left = after_datum(left, value.len())?;
    }
    Some(left)
}

// The same of the data of keys.
fn after_entries(room: u64, found: &mut SalvageEntries<'_, '_>) -> Option<u64>
    ensures { MatchOption result (room < sum_by entry_room found.old) (λ left. left + sum_by entry_room found.old ≡ room) }
{
    let mut left = room;
    for entry in found {
        let mut entry = entry;
        left = after_entry(left, &mut entry)?;
    }
    Some(left)
}

// The same of the data of all stored keys.
#[tactic(auto, using(crate::proofs::KeyedLemmas::all_entries_room))]
fn after_stored(room: u64, salvaged: &Salvaged<'_>) -> Option<u64>
    ensures { MatchOption result (room < stored_room (file_in salvaged.now)) (λ left. left + stored_room (file_in salvaged.now) ≡ room) }
{
    after_entries(room, &mut salvaged.entries())
}

// What is left of a file after records, which stand in it.
fn after_records(room: u64, found: SalvageValues<'_, '_>) -> Option<u64>
    ensures { MatchOption result (room < sum_by datum_room found.entry) (λ left. left + sum_by datum_room found.entry ≡ room) }
{
    let mut left = room;
    for value in found {
        left = after_datum(left, value.len())?;
    }
    Some(left)
}

// The same, where none of them may take the place of another; else none is sure to stand there.
fn after_kept(room: u64, salvaged: &Salvaged<'_>, duplicates: Duplicates) -> Option<u64>
    ensures { MatchOption result (room < kept_room duplicates (file_in salvaged.now)) (λ left. left + kept_room duplicates (file_in salvaged.now) ≡ room) }
{
    match duplicates {
        Duplicates::Unsorted => after_stored(room, salvaged),
        Duplicates::No | Duplicates::Sorted => Some(room),
    }
}

// What is left of a file after the data of a shape.
fn after_shape(room: u64, salvaged: &Salvaged<'_>, shape: Shape) -> Option<u64>
    ensures { MatchOption result (room < room_as shape (file_in salvaged.now)) (λ left. left + room_as shape (file_in salvaged.now) ≡ room) }
{
    match shape {
        Shape::Btree(duplicates) | Shape::Hash(duplicates) => {
            after_kept(room, salvaged, duplicates)
        }
        Shape::Recno => after_records(room, salvaged.loose()),
    }
}

// What is left of a file after all that is loaded.
fn after_all(room: u64, salvaged: &Salvaged<'_>, shape: Option<Shape>) -> Option<u64>
    ensures { MatchOption result (room < least_room shape (file_in salvaged.now)) (λ left. left + least_room shape (file_in salvaged.now) ≡ room) }
{
    match shape {
        None => after_records(after_stored(room, salvaged)?, salvaged.loose()),
        Some(shape) => after_shape(room, salvaged, shape),
    }
}

/// Whether the data that a file of what is salvaged keeps have no room in so many bytes. No more of them is looked at than have, and nothing is copied.
pub(crate) fn is_past(salvaged: &Salvaged<'_>, shape: Option<Shape>, max: u64) -> bool
    ensures { result ≡ nat_lt max (least_room shape (file_in salvaged.now)) }
{
    after_all(max, salvaged, shape).is_none()
}
