ghost use Rattle.std.specs.Prelude.{◌≡◌, ◌<◌, ◌^◌, false, length};
ghost use Rattle.std.specs.List.{All, count_by};
ghost use Rattle.bdb_apart.specs.of_format.Terms.{entries_in, page_at};
ghost use Rattle.bdb_apart.specs.of_rescue.Kept.{IsKeptValue, file_in, untaken_on, value_at};
ghost use Rattle.bdb_apart.specs.of_survey.Salvage.{is_taken};
ghost use Rattle.bdb_apart.specs.of_survey.Slots.{slots_seen};
ghost use Rattle.bdb_apart.specs.Found.{found};
ghost use Rattle.bdb_apart.specs.Given.{records_left_on};
ghost use Rattle.bdb_apart.specs.Left.{fit_on};
ghost use Rattle.bdb_damage.specs.Tallies.{is_fit_at, live_slots_in, lost_at};

use crate::one::one;
use bdb_apart::{Apart, Content, Holds, KeptValue, Salvaged, Slots, entry_slots};

/// How many bytes the value at a place has. That of a chain is told by the item that names it.
fn value_len(salvaged: &Salvaged<'_>, place: KeptValue) -> u64
    requires { IsKeptValue (file_in salvaged.now) place }
    ensures { result ≡ length (value_at (file_in salvaged.now) place) }
{
    match salvaged.pages().content(place.page, u32::from(place.index)) {
        Content::Inline(bytes) => bytes.len() as u64,
        Content::Overflow { total, .. } => u64::from(total),
        Content::Set(_) | Content::OffPage { .. } => 0,
    }
}

/// Whether the value at a place has a length that is fixed, where that isn't 0.
fn has_len(salvaged: &Salvaged<'_>, len: u32, place: KeptValue) -> bool
    requires { IsKeptValue (file_in salvaged.now) place }
    ensures { result ≡ Rattle.bdb_damage.specs.Tallies.has_len (file_in salvaged.now) len place }
{
    len == 0 || value_len(salvaged, place) == u64::from(len)
}

/// Whether the record at a place, where so many come before its page, is one of a database.
fn is_fit(salvaged: &Salvaged<'_>, holds: Holds, start: u32, place: KeptValue) -> bool
    requires { IsKeptValue (file_in salvaged.now) place }
    ensures { result ≡ is_fit_at (file_in salvaged.now) holds start place }
{
    let number = u64::from(start) + u64::from(place.index) + 1;
    match holds {
        Holds::Records { length } => number < 4294967296 && has_len(salvaged, length, place),
        Holds::Leaves | Holds::Buckets | Holds::Slots => false,
    }
}

/// How many of the records at some places are those of a database.
fn fit_among(salvaged: &Salvaged<'_>, holds: Holds, start: u32, places: &[KeptValue]) -> u32
    requires known { All (IsKeptValue (file_in salvaged.now)) places.now }
    requires few { length places.now < 2 ^ 32 }
    ensures { result ≡ count_by (is_fit_at (file_in salvaged.now) holds start) places.now }
{
    let mut count = 0;
    for place in places {
        count += one(is_fit(salvaged, holds, start, *place));
    }
    count
}

/// How many records of a page that belong to no set are those of a database, where so many come before the page.
fn fit_from(salvaged: &Salvaged<'_>, holds: Holds, start: u32, page: u32) -> u32
    requires { page < (file_in salvaged.now).count }
    ensures { result ≡ count_by (is_fit_at (file_in salvaged.now) holds start) (untaken_on (file_in salvaged.now) page) }
{
    let _image = salvaged.image();
    fit_among(salvaged, holds, start, salvaged.records_at(page))
}

/// How many records of a page a database takes.
pub(crate) fn fit_on(apart: &Apart<'_, '_>, holds: Holds, page: u32) -> u32
    requires { page < (file_in apart.now).count }
    ensures count { result ≡ length (fit_on (file_in apart.now) holds page) }
    ensures few { result < 2 ^ 32 }
{
    match apart.start_on(page) {
        Some(start) => fit_from(apart.salvaged(), holds, start, page),
        None => 0,
    }
}

/// How many items are live.
fn live_among(slots: &Slots<'_>) -> u32
    ensures { result ≡ live_slots_in (slots_seen slots.now) }
{
    let mut count = 0;
    for index in 0..slots.count() {
        count += one(!slots.is_deleted(index));
    }
    count
}

/// How many entries of a leaf are live.
fn live_on(salvaged: &Salvaged<'_>, page: u32) -> u32
    ensures { result ≡ live_slots_in (entries_in (page_at (file_in salvaged.now) page)) }
{
    match entry_slots(salvaged.pages().page(page)) {
        Some(slots) => live_among(&slots),
        None => 0,
    }
}

/// How many live entries of a leaf that no set takes don't fit a database.
fn lost_from(apart: &Apart<'_, '_>, holds: Holds, page: u32) -> u32
    requires there { page < (file_in apart.now).count }
    requires free { is_taken (file_in apart.now) page ≡ false }
    ensures { result ≡ lost_at (file_in apart.now) holds page }
{
    match apart.start_on(page) {
        Some(start) => {
            live_on(apart.salvaged(), page) - fit_from(apart.salvaged(), holds, start, page)
        }
        None => 0,
    }
}

/// How many live entries of a page in the row of a database aren't given: none of a leaf of a set.
#[tactic(auto, using(crate::proofs::TallyLemmas::lost_taken))]
pub(crate) fn lost_on(apart: &Apart<'_, '_>, holds: Holds, page: u32) -> u32
    requires { page < (file_in apart.now).count }
    ensures lost { result ≡ lost_at (file_in apart.now) holds page }
    ensures few { result < 2 ^ 32 }
{
    if apart.salvaged().is_taken(page) {
        0
    } else {
        lost_from(apart, holds, page)
    }
}

/// How many records of a page belong to no set.
fn untaken_on(salvaged: &Salvaged<'_>, page: u32) -> u32
    requires { page < (file_in salvaged.now).count }
    ensures { result ≡ length (untaken_on (file_in salvaged.now) page) }
{
    let _image = salvaged.image();
    salvaged.records_at(page).len() as u32
}

/// How many records of a page belong to no database.
pub(crate) fn left_on(apart: &Apart<'_, '_>, page: u32) -> u32
    requires { page < (file_in apart.now).count }
    ensures few { result < 2 ^ 32 }
    ensures left { result ≡ length (records_left_on (file_in apart.now) (found apart.now) page) }
{
    match apart.start(page) {
        Some((start, holds)) => {
            untaken_on(apart.salvaged(), page) - fit_from(apart.salvaged(), holds, start, page)
        }
        None => untaken_on(apart.salvaged(), page),
    }
}
