//! The databases of a file one by one, each as its list, as long as their pages have no more bytes than there may be.
ghost use Rattle.std.specs.Prelude.{◌≡◌, ◌++◌, ◌∷◌, ◌<◌, ◌≤◌, ◌+◌, ◌*◌, [], IfErr, IfOk, MatchOption, OnOk, length, map, nat_lt, true};
ghost use Rattle.std.specs.List.{list_all};
ghost use Rattle.bdb_mkfile.specs.Lengths.{is_short_pair};
ghost use Rattle.bdb_mkfile.specs.of_need.Need.{AreSettled, section_pages};
ghost use Rattle.bdb_mkfile.specs.of_settle.Loaded.{filled_section, ordered, ordered_section, unnumbered};
ghost use Rattle.bdb_mkfile.specs.of_text_format.declared.sections.Section.{Section as ASection};
ghost use Rattle.bdb_mkfile.specs.of_text_format.Terms.{slice_seen};
ghost use Rattle.bdb_onto.specs.Bare.{with_before};
ghost use Rattle.bdb_onto.specs.Lists.{IsCountable, IsListRefusal, alone, list_bytes};

use crate::joining::{copied_length, pairs_of_both};
use bdb_format::Settings;
use bdb_mkfile::{LoadError, PairSlice, PlacedPairs, Section, Sections, TextPairs, ordered};
use bdb_need::{filled_need, is_short};
use std::alloc::{AllocError, Global};
use std::marker::Model;

/// Pairs, and how many pages their database has.
#[derive(Drop)]
struct CountedList {
    pairs: TextPairs,
    pages: u128,
}

// Pairs as a section alone, without a name.
fn alone(alloc: Global, settings: Settings, pairs: TextPairs) -> Result<Sections, AllocError>
    ensures { IfOk result (λ one. one ≡ alone settings pairs ∷ []) }
{
    let mut one = Sections::new(alloc);
    one.push(Section {
        name: None,
        settings,
        header_line: 0,
        pairs,
    })?;
    Ok(one)
}

// The pairs of the only section.
fn only_pairs(one: Sections) -> TextPairs
    requires { 0 < length one }
    ensures { (section : ASection) → one ≡ section ∷ [] → result ≡ section.pairs }
{
    let mut one = one;
    let Some(section) = one.pop() else {
        unreachable!()
    };
    section.pairs
}

// The list of pairs, whose records aren't filled up.
fn list_of(alloc: Global, settings: Settings, pairs: TextPairs) -> Result<TextPairs, AllocError>
    ensures { IfOk result (λ list. list ≡ map unnumbered (ordered settings pairs)) }
{
    let one = alone(alloc, settings, pairs)?;
    let list = ordered(alloc, one)?;
    Ok(only_pairs(list))
}

// Copies of pairs, in a run of their own.
fn copied(alloc: Global, pairs: PairSlice<'_>) -> Result<TextPairs, AllocError>
    ensures { IfOk result (λ copies. copies ≡ slice_seen pairs.entry) }
{
    let mut copies = TextPairs::new(alloc);
    copies.push_all(pairs)?;
    Ok(copies)
}

// Pairs in a run that isn't longer than copies of them, so that what was replaced is gone. Every run has fewer than 2^32 bytes.
fn own_run(alloc: Global, pairs: TextPairs) -> Result<TextPairs, AllocError>
    ensures pairs { IfOk result (λ own. own ≡ pairs) }
    ensures short { OnOk result (list_all is_short_pair pairs ≡ true) }
{
    let PlacedPairs { bytes, places } = pairs.into_placed();
    if !is_short(bytes.as_slice()) {
        return Err(AllocError);
    }
    let lent = PairSlice::at_places(bytes.as_slice(), places.as_slice());
    if copied_length(lent) < bytes.len() as u64 {
        let own = copied(alloc, lent)?;
        return Ok(own);
    }
    Ok(TextPairs::from_placed(PlacedPairs { bytes, places }))
}

// A list with the number of its pages, once its records are filled up.
fn counted(alloc: Global, settings: Settings, list: TextPairs) -> Result<CountedList, AllocError>
    requires { AreSettled (filled_section (alone settings list) ∷ []) }
    ensures pairs { IfOk result (λ it. it.pairs ≡ list) }
    ensures pages { IfOk result (λ it. it.pages ≡ section_pages settings.page_size (filled_section (alone settings list))) }
{
    let one = alone(alloc, settings, list)?;
    let pages = filled_need(alloc, &one)?;
    Ok(CountedList {
        pairs: only_pairs(one),
        pages,
    })
}

// How many bytes there are with these pages; `None` where there may not be as many.
fn bytes_with(taken: u128, pages: u128, page_size: u32, max: u64) -> Option<u128>
    ensures { MatchOption result (max < taken + pages * page_size) (λ bytes. (bytes ≡ taken + pages * page_size) × (bytes ≤ max)) }
{
    let bytes = pages
        .checked_mul(u128::from(page_size))?
        .checked_add(taken)?;
    if u128::from(max) < bytes {
        return None;
    }
    Some(bytes)
}

/// The databases of a file in the making, each with its list. Their runs have no bytes that their lists don't have, and their pages no more than the file may.
#[derive(Drop)]
pub struct Lists {
    page_size: u32,
    max: u64,
    taken: u128,
    lists: Sections,
}

impl Model for Lists {
    ghost use Rattle.std.specs.Prelude.{◌≡◌};
    ghost use Rattle.bdb_onto.specs.Lists.{Listing, list_bytes};

    ghost Value = { Listing };

    ghost view = { λ it. record { page_size = it.page_size; max = it.max; lists = it.lists } };

    ghost invariant = { λ it. it.taken ≡ list_bytes it.page_size it.lists };
}

impl Lists {
    /// No databases, for a file of this page size that is to have at most `max` bytes.
    pub fn new(alloc: Global, page_size: u32, max: u64) -> Lists
        ensures { result ≡ record { page_size = page_size; max = max; lists = [] } }
    {
        Lists {
            page_size,
            max,
            taken: 0,
            lists: Sections::new(alloc),
        }
    }

    /// Adds a database with the list that loading makes of these pairs and those of a section behind them; its records aren't filled up. `TooLarge` means that
    /// the pages of all lists so far have more than `max` bytes; and memory may run out.
    pub fn push(
        &mut self,
        alloc: Global,
        before: TextPairs,
        section: Section,
    ) -> Result<(), LoadError>
        requires { IsCountable self.old.page_size (with_before before section) }
        ensures page_size { self.new.page_size ≡ self.old.page_size }
        ensures max { self.new.max ≡ self.old.max }
        ensures ok { OnOk result (self.new.lists ≡ self.old.lists ++ ordered_section (with_before before section) ∷ []) }
        ensures within { OnOk result (list_bytes self.old.page_size (self.old.lists ++ ordered_section (with_before before section) ∷ []) ≤ self.old.max) }
        ensures refused { IfErr result (IsListRefusal self.old.page_size self.old.max (self.old.lists ++ ordered_section (with_before before section) ∷ [])) }
    {
        let Section {
            name,
            settings,
            header_line: _,
            pairs,
        } = section;
        let pairs = pairs_of_both(before, pairs)?;
        let list = list_of(alloc, settings, pairs)?;
        let own = own_run(alloc, list)?;
        let it = counted(alloc, settings, own)?;
        let Some(taken) = bytes_with(self.taken, it.pages, self.page_size, self.max) else {
            return Err(LoadError::TooLarge);
        };
        self.lists.push(Section {
            name,
            settings,
            header_line: 0,
            pairs: it.pairs,
        })?;
        self.taken = taken;
        Ok(())
    }

    /// The databases.
    pub fn into_sections(self) -> Sections
        ensures { result ≡ self.lists }
    {
        self.lists
    }
}
