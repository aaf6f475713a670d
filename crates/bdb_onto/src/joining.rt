//! The pairs of sections behind those of their partners, as if one text had both.
ghost use Rattle.std.specs.Prelude.{◌≡◌, ◌≤◌, [], ◌++◌, IfOk, List, Some, drop, length, map, option_to_list, take};
ghost use Rattle.std.specs.List.{AllZip, flat_map};
ghost use Rattle.bdb_mkfile.specs.of_text_format.Terms.{slice_seen};
ghost use Rattle.bdb_mkfile.specs.of_law_sections.Fit.{AreNamedBehind};
ghost use Rattle.bdb_onto.specs.Joining.{behind, emptied, place_placed, placed_section, taken_at};
ghost use Rattle.bdb_onto.specs.Onto.{joined};
ghost use Rattle.bdb_onto.specs.Search.{HasNames, IsPartnerAt, IsWithin};

use crate::Base;
use bdb_format::{Order, Settings};
use bdb_mkfile::{KeyRef, PairSlice, PlacedPairs, Section, Sections, TextPairs};
use std::alloc::{AllocError, Global};

/// A section, and the place of its partner in the base, where it has one.
#[derive(Drop)]
struct Placed {
    section: Section,
    place: Option<usize>,
}

// Pairs behind others, in the run of these.
fn pairs_behind(before: TextPairs, pairs: PairSlice<'_>) -> Result<TextPairs, AllocError>
    ensures { IfOk result (λ all. all ≡ before ++ slice_seen pairs.entry) }
{
    let mut all = before;
    all.push_all(pairs)?;
    Ok(all)
}

// The pairs at the end of a run before the others: places are moved, and no bytes.
fn turned(pairs: TextPairs, count: usize) -> TextPairs
    requires { count ≤ length pairs }
    ensures { result ≡ drop count pairs ++ take count pairs }
{
    let PlacedPairs { bytes, mut places } = pairs.into_placed();
    places.rotate_left(count);
    TextPairs::from_placed(PlacedPairs { bytes, places })
}

// Pairs before others, in the run of these.
fn pairs_before(before: PairSlice<'_>, pairs: TextPairs) -> Result<TextPairs, AllocError>
    ensures { IfOk result (λ all. all ≡ slice_seen before.entry ++ pairs) }
{
    let count = pairs.len();
    let all = pairs_behind(pairs, before)?;
    Ok(turned(all, count))
}

// How many bytes a key has.
fn key_length(key: KeyRef<'_>) -> u64 {
    match key {
        KeyRef::Bytes(bytes) => bytes.len() as u64,
        KeyRef::Number(_) => 0,
    }
}

/// How many bytes copies of pairs have, with a place of 32 for each. Items of a file may be one, or overlap: then these are more than those of their run.
pub(crate) fn copied_length(pairs: PairSlice<'_>) -> u64 {
    let mut length: u64 = 0;
    for i in 0..pairs.len() {
        let pair = pairs.at(i);
        length = length.saturating_add(key_length(pair.key));
        length = length
            .saturating_add(pair.value.len() as u64)
            .saturating_add(32);
    }
    length
}

/// Pairs and others behind them, in the run of those whose copies are longer: so the shorter ones are copied, which are no longer than the text.
pub(crate) fn pairs_of_both(before: TextPairs, pairs: TextPairs) -> Result<TextPairs, AllocError>
    ensures { IfOk result (λ all. all ≡ before ++ pairs) }
{
    if copied_length(before.as_slice()) < copied_length(pairs.as_slice()) {
        pairs_before(before.as_slice(), pairs)
    } else {
        pairs_behind(before, pairs.as_slice())
    }
}

// A section behind its partner, where it has one, in a file of this page size and order.
fn behind(
    page_size: u32,
    order: Order,
    partner: Option<Section>,
    section: Section,
) -> Result<Section, AllocError>
    ensures { IfOk result (λ joined. joined ≡ behind page_size order partner section) }
{
    let Section {
        name,
        settings,
        header_line,
        pairs,
    } = section;
    let (settings, pairs) = match partner {
        Some(partner) => (partner.settings, pairs_of_both(partner.pairs, pairs)?),
        None => (settings, pairs),
    };
    Ok(Section {
        name,
        settings: Settings {
            page_size,
            order,
            ..settings
        },
        header_line,
        pairs,
    })
}

// Sections with the places of their partners, of which there is one for each.
fn with_places(
    alloc: Global,
    sections: Sections,
    places: Vec<Option<usize>>,
) -> Result<Vec<Placed>, AllocError>
    requires { length places.items ≡ length sections }
    ensures sections { IfOk result (λ all. map placed_section all.items ≡ sections) }
    ensures places { IfOk result (λ all. map place_placed all.items ≡ places.items) }
{
    let mut sections = sections;
    let mut places = places;
    let mut all = Vec::with_capacity(alloc, sections.len())?;
    while let Some(section) = sections.pop() {
        let place = places.take_last();
        all.push(Placed { section, place })?;
    }
    all.reverse();
    Ok(all)
}

// Databases, each in a place from which it can be taken.
fn places_of(alloc: Global, databases: Sections) -> Result<Vec<Option<Section>>, AllocError>
    ensures { IfOk result (λ all. all.items ≡ map Some databases) }
{
    let mut databases = databases;
    let mut all = Vec::with_capacity(alloc, databases.len())?;
    while let Some(database) = databases.pop() {
        all.push(Some(database))?;
    }
    all.reverse();
    Ok(all)
}

// Takes what stands at a place.
fn take_at(places: &mut Vec<Option<Section>>, place: Option<usize>) -> Option<Section>
    requires { IsWithin (length places.old.items) place }
    ensures taken { result ≡ taken_at places.old.items place }
    ensures left { places.new.items ≡ emptied places.old.items place }
{
    places[place?].take()
}

// Sections, and behind them what still stands in its place.
fn with_left(all: Sections, places: Vec<Option<Section>>) -> Result<Sections, AllocError>
    ensures { IfOk result (λ every. every ≡ all ++ flat_map option_to_list places.items) }
{
    let mut all = all;
    for place in places {
        if let Some(database) = place {
            all.push(database)?;
        }
    }
    Ok(all)
}

/// Sections behind their partners, which stand at these places in the base, and the databases of the base that are left. Pairs are moved, but where a section
/// has a partner those of both are copied whose copies are shorter, behind the others in their run.
pub(crate) fn joined(
    alloc: Global,
    base: Base,
    sections: Sections,
    places: Vec<Option<usize>>,
) -> Result<Sections, AllocError>
    requires names { HasNames base }
    requires apart { AreNamedBehind [] sections }
    requires places { AllZip (IsPartnerAt base) sections places.items }
    ensures { IfOk result (λ all. all ≡ joined base sections) }
{
    let sections = with_places(alloc, sections, places)?;
    let Base {
        page_size,
        order,
        databases,
        ..
    } = base;
    let mut places = places_of(alloc, databases)?;
    let mut all = Sections::new(alloc);
    for placed in sections {
        let partner = take_at(&mut places, placed.place);
        all.push(behind(page_size, order, partner, placed.section)?)?;
    }
    with_left(all, places)
}
