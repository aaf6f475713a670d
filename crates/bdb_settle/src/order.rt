ghost use Rattle.std.specs.Prelude.{◌≡◌, ◌&&◌};
ghost use Rattle.std.specs.Ordering.{is_lt};
ghost use Rattle.bdb_mktree.specs.of_text_format.Terms.{holds_records, key_seen, placed_key};
ghost use Rattle.bdb_settle.specs.Loaded.{keeps_data, sorts_data};
ghost use Rattle.bdb_mktree.specs.of_format.Terms.{less};
ghost use Rattle.bdb_settle.specs.Settling.{KeyOrderingIs, place_before};

use bdb_mktree::{KeyRef, Kind, Place, PlacedKey, Settings, are_one, compare, key_at};
use std::cmp::Ordering;

/// Whether keys are numbers of records.
pub(crate) fn holds_records(kind: Kind) -> bool
    ensures { result ≡ holds_records kind }
{
    match kind {
        Kind::Btree | Kind::Hash => false,
        Kind::Recno | Kind::Queue => true,
    }
}

/// Whether the data of a key stand in byte order, each once.
fn sorts_data(settings: &Settings) -> bool
    ensures { result ≡ sorts_data settings.now }
{
    settings.sorted && !holds_records(settings.kind)
}

/// Whether the data of a key stand one behind the other.
pub(crate) fn keeps_data(settings: &Settings) -> bool
    ensures { result ≡ keeps_data settings.now }
{
    settings.duplicates && !settings.sorted && !holds_records(settings.kind)
}

/// The order of two keys.
fn compare_keys(a: KeyRef<'_>, b: KeyRef<'_>) -> Ordering
    ensures { KeyOrderingIs result (key_seen a.entry) (key_seen b.entry) }
{
    match (a, b) {
        (KeyRef::Bytes(a), KeyRef::Bytes(b)) => compare(a, b),
        (KeyRef::Bytes(_), KeyRef::Number(_)) => Ordering::Greater,
        (KeyRef::Number(_), KeyRef::Bytes(_)) => Ordering::Less,
        (KeyRef::Number(a), KeyRef::Number(b)) => a.cmp(&b),
    }
}

/// The order of two data of a key, which is none where data aren't sorted.
fn compare_data(settings: &Settings, a: &[u8], b: &[u8]) -> Ordering
    ensures { is_lt result ≡ (sorts_data settings.now && less a.now b.now) }
{
    if sorts_data(settings) {
        compare(a, b)
    } else {
        Ordering::Equal
    }
}

/// The order of two keys of a run. A key is the same as itself, and its bytes aren't looked at.
fn compare_placed_keys(bytes: &[u8], a: PlacedKey, b: PlacedKey) -> Ordering
    ensures { KeyOrderingIs result (placed_key bytes.now a) (placed_key bytes.now b) }
{
    if are_one(a, b) {
        return Ordering::Equal;
    }
    compare_keys(key_at(bytes, a), key_at(bytes, b))
}

/// The order of the pairs at two places of a run: that of their keys, and of their data where these are sorted.
pub(crate) fn compare_places(settings: &Settings, bytes: &[u8], a: Place, b: Place) -> Ordering
    ensures { is_lt result ≡ place_before settings.now bytes.now a b }
{
    match compare_placed_keys(bytes, a.key, b.key) {
        Ordering::Less => Ordering::Less,
        Ordering::Greater => Ordering::Greater,
        Ordering::Equal => compare_data(settings, a.value.of(bytes), b.value.of(bytes)),
    }
}

/// Whether the pair at a place of a run stands before that at another.
pub(crate) fn stands_before(settings: &Settings, bytes: &[u8], a: Place, b: Place) -> bool
    ensures { result ≡ place_before settings.now bytes.now a b }
{
    match compare_places(settings, bytes, a, b) {
        Ordering::Less => true,
        Ordering::Equal | Ordering::Greater => false,
    }
}
