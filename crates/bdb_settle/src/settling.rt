ghost use Rattle.std.specs.Prelude.{◌≡◌, ◌||◌, ◌<◌, [], length, map, IfOk};
ghost use Rattle.std.specs.List.{fold};
ghost use Rattle.std.specs.List.Sorted.{IsSortedBy};
ghost use Rattle.bdb_mktree.specs.of_text_format.Terms.{ArePlaced, placed_pairs};
ghost use Rattle.bdb_settle.specs.Loaded.{keeps_data, ordered, unnumbered, with_loaded};
ghost use Rattle.bdb_settle.specs.Settling.{IsSortedOf, pair_on, place_before};

use crate::leads::{are_sorted, sort_places};
use crate::order::{keeps_data, stands_before};
use bdb_mktree::{PairSlice, Place, PlacedKey, PlacedPairs, Settings, Span, TextPairs, are_one};
use std::alloc::{AllocError, Global};

/// Whether a pair stays where the next one in their order comes.
fn keeps_both(settings: &Settings, bytes: &[u8], last: Place, place: Place) -> bool
    ensures { result ≡ (place_before settings.now bytes.now last place || keeps_data settings.now) }
{
    stands_before(settings, bytes, last, place) || keeps_data(settings)
}

/// A place whose pair is of no line.
fn unlined(place: Place) -> Place
    ensures { result ≡ record place { line = 0 } }
{
    Place { line: 0, ..place }
}

/// Of places in the order of their pairs, keeps those of the list, without lines. Each is written at its new place or further ahead, where it has been read.
fn settle_sorted(settings: &Settings, bytes: &[u8], places: &mut Vec<Place>)
    requires sorted { IsSortedBy (place_before settings.now bytes.now) places.old.items }
    requires placed { ArePlaced bytes.now places.old.items }
    ensures list { placed_pairs bytes.now places.new.items ≡ map unnumbered (fold (with_loaded settings.now) [] (map (pair_on bytes.now) places.old.items)) }
    ensures placed { ArePlaced bytes.now places.new.items }
{
    if places.is_empty() {
        return;
    }
    let mut kept = 0;
    let mut last = unlined(places[0]);
    for i in 1..places.len() {
        let place = unlined(places[i]);
        if keeps_both(settings, bytes, last, place) {
            places[kept] = last;
            kept += 1;
        }
        last = place;
    }
    places[kept] = last;
    places.truncate(kept + 1);
}

/// How many bytes stand there.
fn span_len(span: Span) -> usize {
    span.end.saturating_sub(span.start) as usize
}

/// How many bytes a key has; none where it's a number.
fn key_len(key: PlacedKey) -> usize {
    match key {
        PlacedKey::Bytes(span) => span_len(span),
        PlacedKey::Number(_) => 0,
    }
}

/// Whether pairs have more bytes than the run in which they stand. A key that several of them have one behind the other counts once.
fn share_bytes(bytes: &[u8], places: &[Place]) -> bool {
    let mut left = bytes.len();
    for i in 0..places.len() {
        let is_new = i == 0 || !are_one(places[i - 1].key, places[i].key);
        let key = if is_new { key_len(places[i].key) } else { 0 };
        let value = span_len(places[i].value);
        if left < key || left - key < value {
            return true;
        }
        left -= key + value;
    }
    false
}

/// The pairs at places of a run, whose bytes are moved to where the pairs are: so what goes through them after this finds them one behind the other. Where they
/// share bytes, these stay where they are.
fn moved(alloc: Global, bytes: Vec<u8>, places: Vec<Place>) -> Result<TextPairs, AllocError>
    requires { ArePlaced bytes.items places.items }
    ensures { IfOk result (λ pairs. pairs ≡ placed_pairs bytes.items places.items) }
{
    if share_bytes(bytes.as_slice(), places.as_slice()) {
        return Ok(TextPairs::from_placed(PlacedPairs { bytes, places }));
    }
    let mut pairs = TextPairs::new(alloc);
    pairs.push_all(PairSlice::at_places(bytes.as_slice(), places.as_slice()))?;
    Ok(pairs)
}

/// Pairs in their order; those of which neither stands before the other keep theirs.
fn sorted_pairs(
    alloc: Global,
    settings: &Settings,
    pairs: TextPairs,
) -> Result<TextPairs, AllocError>
    ensures { IfOk result (λ sorted. IsSortedOf settings.now pairs sorted) }
{
    let PlacedPairs { bytes, mut places } = pairs.into_placed();
    if are_sorted(settings, bytes.as_slice(), places.as_slice()) {
        return Ok(TextPairs::from_placed(PlacedPairs { bytes, places }));
    }
    sort_places(alloc, settings, bytes.as_slice(), &mut places)?;
    moved(alloc, bytes, places)
}

/// The list of the pairs of a section, whose records aren't filled up.
pub(crate) fn order_pairs(
    alloc: Global,
    settings: &Settings,
    pairs: TextPairs,
) -> Result<TextPairs, AllocError>
    ensures { IfOk result (λ list. list ≡ map unnumbered (ordered settings.now pairs)) }
{
    let PlacedPairs { bytes, mut places } = sorted_pairs(alloc, settings, pairs)?.into_placed();
    settle_sorted(settings, bytes.as_slice(), &mut places);
    Ok(TextPairs::from_placed(PlacedPairs { bytes, places }))
}
