ghost use Rattle.std.specs.Prelude.{◌≡◌, ◌≢◌, ◌^◌, ◌≤◌, ◌<◌, ◌*◌, IfOk, IfSome, IsTrue, Err, None, Some, drop, length, map, take};
ghost use Rattle.std.specs.List.{Contains, flat_map};
ghost use Rattle.bdb_text_format.specs.of_format.Terms.{Chain, chain, is_page_size, page_at, value_of};
ghost use Rattle.bdb_rescue.specs.Guesses.{chosen};
ghost use Rattle.bdb_rescue.specs.Kept.{AreTaken, IsKeptValue, IsTable, file_in, item_of, kept_on, kept_pairs, loose_values, numbered_at, pairs_under, set_from, thin_from, value_at};
ghost use Rattle.bdb_rescue.specs.Kept.{untaken_on, values_on};
ghost use Rattle.bdb_rescue.specs.Marks.{Marks};
ghost use Rattle.bdb_survey.specs.of_layout.Seen.{content_seen};
ghost use Rattle.bdb_survey.specs.Items.{is_valued, slots_in};
ghost use Rattle.bdb_survey.specs.of_overflow.Datum.{datum_seen};
ghost use Rattle.bdb_survey.specs.Salvage.{is_overflow, is_row, is_taken, is_whole, live_whole, loose, salvaged_file, set_starts, stored, stored_on};
ghost use Rattle.bdb_rescue.specs.declared.error.SalvageError.TheVariants.{Memory, NoMeta};

use crate::guess::chosen;
use crate::kept::{KeptPair, KeptValue};
use crate::kept_pairs::kept_pairs;
use crate::kept_values::loose_values;
use crate::places::Places;
use crate::sets::set_table;
use crate::starts::{first_leaves, is_marked, taken_pages};
use crate::tables::{Table, part};
use crate::thin::thin_table;
use crate::{Guess, SalvageEntries, SalvageError, SalvagePairs, SalvageRecords, SalvageValues};
use bdb_survey::{Content, Datum, Survey, WholePages};
use bdb_text_format::Steps;
use std::alloc::{AllocError, Global};
use std::marker::Model;
use std::sync::ledger::Ledger;

/// What can be had from an image. Kept are the places of the whole pairs, of the loose records and of the data of whole sets, at most one for each
/// slot, of at most 16 bytes, and 34 bytes for each page. Values are read where they lie; only those of whole chains with fewer bytes than pages are
/// kept.
pub struct Salvaged<'a> {
    image: &'a [u8],
    guess: Guess,
    pairs: Table<KeptPair>,
    values: Table<KeptValue>,
    /// Which pages belong to a whole set of a pair whose key is whole.
    taken: Vec<bool>,
    sets: Table<KeptValue>,
    thin: Table<u8>,
}

impl Drop for Salvaged<'_> {
    fn drop(self) {
        let Salvaged {
            image: _image,
            guess: _guess,
            pairs: _pairs,
            values: _values,
            taken: _taken,
            sets: _sets,
            thin: _thin,
        } = self;
    }
}

impl<'a> Model for Salvaged<'a> {
    ghost use Rattle.bdb_rescue.specs.Kept.{IsSalvaged, Reading};

    ghost Value = { Reading };

    ghost view = { λ v. record { guess = v.guess; image = v.image.now } };

    ghost invariant = { λ v. IsSalvaged v.guess v.image.now v.pairs.bounds.items v.pairs.all.items v.values.bounds.items v.values.all.items
        v.taken.items v.sets.bounds.items v.sets.all.items v.thin.bounds.items v.thin.all.items };
}

/// Finds what an image still has, by the given guess or else that of page 0. `NoMeta` without a guess, and then no memory is asked for; or memory ran
/// out.
///
/// While it runs it keeps 18 bytes for each page, above all what begins there: so a chain or a set is followed once, however many items name it.
#[tactic(auto, using(crate::proofs::GuessLemmas::chosen_legal))]
pub fn salvage<'a, L: Ledger>(
    alloc: Global,
    image: &'a [u8],
    guess: Option<Guess>,
    steps: &mut Steps<L>,
) -> Result<Salvaged<'a>, SalvageError>
    requires size { IfSome guess (λ guess. IsTrue (is_page_size guess.page_size)) }
    requires small { length image.now ≤ 2 ^ 30 }
    ensures guess { IfOk result (λ salvaged. chosen guess image.now ≡ Some salvaged.guess) }
    ensures image { IfOk result (λ salvaged. salvaged.image ≡ image.now) }
    ensures no_meta { result ≡ Err NoMeta → chosen guess image.now ≡ None }
    ensures memory { result ≡ Err Memory → chosen guess image.now ≢ None }
{
    let Some(guess) = chosen(guess, image) else {
        return Err(SalvageError::NoMeta);
    };
    Ok(salvage_as(alloc, image, guess, steps)?)
}

/// The loose records, and the leaves of the sets of pairs, where the first leaves of these are marked.
fn loose_beside(
    alloc: Global,
    survey: &Survey<'_>,
    starts: &[bool],
) -> Result<(Table<KeptValue>, Vec<bool>), AllocError>
    requires { Marks survey.now.count starts.now (set_starts survey.now) }
    ensures loose { IfOk result (λ kept. IsTable (untaken_on survey.now) survey.now.count kept.0.bounds.items kept.0.all.items) }
    ensures taken { IfOk result (λ kept. AreTaken survey.now kept.1.items) }
{
    let taken = taken_pages(alloc, survey.pages(), starts)?;
    let values = loose_values(alloc, survey, &taken)?;
    Ok((values, taken))
}

/// The loose records, the leaves of the sets of pairs, and the values of these sets.
fn values_beside(
    alloc: Global,
    survey: &Survey<'_>,
    pairs: &[KeptPair],
) -> Result<(Table<KeptValue>, Vec<bool>, Table<KeptValue>), AllocError>
    requires { pairs.now ≡ kept_pairs survey.now }
    ensures loose { IfOk result (λ kept. IsTable (untaken_on survey.now) survey.now.count kept.0.bounds.items kept.0.all.items) }
    ensures taken { IfOk result (λ kept. AreTaken survey.now kept.1.items) }
    ensures sets { IfOk result (λ kept. IsTable (set_from survey.now) survey.now.count kept.2.bounds.items kept.2.all.items) }
{
    let starts = first_leaves(alloc, survey.pages(), pairs)?;
    let (values, taken) = loose_beside(alloc, survey, &starts)?;
    let sets = set_table(alloc, survey, &starts)?;
    Ok((values, taken, sets))
}

/// What an image still has, whose pages are surveyed.
fn salvaged_in<'a>(
    alloc: Global,
    image: &'a [u8],
    guess: Guess,
    survey: &Survey<'_>,
) -> Result<Salvaged<'a>, AllocError>
    requires size { IsTrue (is_page_size guess.page_size) }
    requires small { length image.now ≤ 2 ^ 30 }
    requires survey { survey.now ≡ salvaged_file guess.order guess.page_size image.now }
    ensures { IfOk result (λ salvaged. salvaged ≡ record { guess = guess; image = image.now }) }
{
    let pairs = kept_pairs(alloc, survey)?;
    let (values, taken, sets) = values_beside(alloc, survey, &pairs.all)?;
    let thin = thin_table(alloc, survey)?;
    Ok(Salvaged {
        image,
        guess,
        pairs,
        values,
        taken,
        sets,
        thin,
    })
}

/// Finds what an image still has, by a guess.
fn salvage_as<'a, L: Ledger>(
    alloc: Global,
    image: &'a [u8],
    guess: Guess,
    steps: &mut Steps<L>,
) -> Result<Salvaged<'a>, AllocError>
    requires size { IsTrue (is_page_size guess.page_size) }
    requires small { length image.now ≤ 2 ^ 30 }
    ensures { IfOk result (λ salvaged. salvaged ≡ record { guess = guess; image = image.now }) }
{
    let survey = Survey::of(alloc, WholePages::over(image, guess), steps)?;
    salvaged_in(alloc, image, guess, &survey)
}

impl<'a> Salvaged<'a> {
    /// The byte order and page size by which the image is read.
    pub fn guess(&self) -> Guess
        ensures { result ≡ self.now.guess }
    {
        self.guess
    }

    /// The stored pairs, in the order of page, slot and place in a set.
    #[tactic(auto, using(crate::proofs::StoredLemmas::stored_is))]
    pub fn pairs<'s>(&'s self) -> SalvagePairs<'s, 'a>
        ensures { result ≡ stored (file_in self.now) }
    {
        SalvagePairs::over(self)
    }

    /// The stored keys in their order, each with its data: together they are the stored pairs.
    #[tactic(auto, using(crate::proofs::StoredLemmas::stored_is, crate::proofs::LeftLemmas::entries_give))]
    pub fn entries<'s>(&'s self) -> SalvageEntries<'s, 'a>
        ensures { flat_map pairs_under result ≡ stored (file_in self.now) }
    {
        SalvageEntries::over(self)
    }

    /// The loose records, in the order of page and slot.
    pub fn loose<'s>(&'s self) -> SalvageValues<'s, 'a>
        ensures { result ≡ loose (file_in self.now) }
    {
        SalvageValues::over(self, &self.values.all)
    }

    /// The stored pairs of a page, in the order of slot and place in a set.
    pub fn pairs_on<'s>(&'s self, page: u32) -> SalvagePairs<'s, 'a>
        requires { page < (file_in self.now).count }
        ensures { result ≡ stored_on (file_in self.now) page }
    {
        SalvagePairs::among(self, Places::over(self.pairs_at(page)))
    }

    /// The loose records of a page, in the order of slot, each with its number, where `start` records come before the page.
    pub fn records_on<'s>(&'s self, page: u32, start: u32) -> SalvageRecords<'s, 'a>
        requires { page < (file_in self.now).count }
        ensures { result ≡ map (numbered_at (file_in self.now) start) (untaken_on (file_in self.now) page) }
    {
        SalvageRecords::over(self, start, self.records_at(page))
    }

    /// The whole pages of the image.
    pub fn pages(&self) -> WholePages<'a>
        ensures { result ≡ file_in self.now }
    {
        WholePages::over(self.image, self.guess)
    }

    /// The image.
    pub fn image(&self) -> &'a [u8]
        ensures image { result.now ≡ self.now.image }
        ensures small { length self.now.image ≤ 2 ^ 30 }
        ensures legal { IsTrue (is_page_size self.now.guess.page_size) }
    {
        self.image
    }

    /// The bytes of a page.
    #[tactic(auto, using(crate::proofs::PageLemmas::page_ends))]
    pub fn bytes_at(&self, number: u32) -> &'a [u8]
        requires { number < (file_in self.now).count }
        ensures bytes { result.now ≡ take self.now.guess.page_size (drop (number * self.now.guess.page_size) self.now.image) }
        ensures whole { length result.now ≡ self.now.guess.page_size }
        ensures legal { IsTrue (is_page_size self.now.guess.page_size) }
    {
        let size = self.guess.page_size as usize;
        let from = number as usize * size;
        &self.image[from..from + size]
    }

    /// The bytes of a page; none where there's no such page.
    pub(crate) fn page_bytes(&self, number: u32) -> &'a [u8] {
        let size = self.guess.page_size as usize;
        let from = number as usize * size;
        if self.image.len() < from + size {
            return &[];
        }
        &self.image[from..from + size]
    }

    /// The places of the pairs.
    pub(crate) fn kept_pairs(&self) -> &[KeptPair]
        ensures { result.now ≡ kept_pairs (file_in self.now) }
    {
        &self.pairs.all
    }

    /// The places of the pairs of a page whose key and data are whole, live or deleted.
    pub fn pairs_at(&self, page: u32) -> &[KeptPair]
        requires { page < (file_in self.now).count }
        ensures { result.now ≡ kept_on (file_in self.now) page }
    {
        part(&self.pairs.bounds, &self.pairs.all, page)
    }

    /// The places of the loose records of a page.
    pub fn records_at(&self, page: u32) -> &[KeptValue]
        requires { page < (file_in self.now).count }
        ensures { result.now ≡ untaken_on (file_in self.now) page }
    {
        part(&self.values.bounds, &self.values.all, page)
    }

    /// Whether a page belongs to a whole set of a pair whose key is whole.
    #[tactic(auto, unfolding(crate::specs::Below::is_taken))]
    pub fn is_taken(&self, page: u32) -> bool
        requires { page < (file_in self.now).count }
        ensures { result ≡ is_taken (file_in self.now) page }
    {
        is_marked(&self.taken, page)
    }

    /// The places of the loose records.
    pub(crate) fn loose_places(&self) -> &[KeptValue]
        ensures { result.now ≡ loose_values (file_in self.now) }
    {
        &self.values.all
    }

    /// The bytes of a whole chain, where they are fewer than its pages; else none.
    fn thin_bytes<'s>(&'s self, head: u32) -> &'s [u8]
        requires { IsTrue (is_row (file_in self.now) is_overflow head) }
        ensures { result.now ≡ thin_from (file_in self.now) head }
    {
        part(&self.thin.bounds, &self.thin.all, head)
    }

    /// The value in a whole chain. Pages without data are passed only where it has as many bytes as pages.
    #[tactic(auto, using(crate::proofs::ThinLemmas::values_of_chains), unfolding(crate::specs::Below::value_of))]
    pub(crate) fn chained<'s>(&'s self, head: u32, total: u32) -> Datum<'s>
        requires { IsTrue (is_whole (file_in self.now) head total) }
        ensures { datum_seen result ≡ value_of (file_in self.now) (Chain head total) }
    {
        if total == 0 {
            return Datum::Inline(&[]);
        }
        let bytes = self.thin_bytes(head);
        if !bytes.is_empty() {
            return Datum::Inline(bytes);
        }
        Datum::Chained(self.pages().pieces(head))
    }

    /// The value of an item that has one by itself.
    #[tactic(auto, unfolding(crate::specs::Below::value_of))]
    fn datum<'s>(&'s self, content: Content<'a>) -> Datum<'s>
        requires { IsTrue (is_valued (file_in self.now) (content_seen content)) }
        ensures { datum_seen result ≡ value_of (file_in self.now) (content_seen content.entry) }
    {
        match content {
            Content::Inline(bytes) => Datum::Inline(bytes),
            Content::Overflow { head, total } => self.chained(head, total),
            Content::Set(_) | Content::OffPage { .. } => Datum::Inline(&[]),
        }
    }

    /// The value of the item of a page that has one by itself.
    pub(crate) fn value_on<'s>(&'s self, page: u32, index: u32) -> Datum<'s>
        requires there { index < length (slots_in (page_at (file_in self.now) page)) }
        requires valued { IsTrue (is_valued (file_in self.now) (item_of (file_in self.now) page index).content) }
        ensures { datum_seen result ≡ value_of (file_in self.now) (item_of (file_in self.now) page index).content }
    {
        self.datum(self.pages().content(page, index))
    }

    /// The value at a place.
    pub(crate) fn value<'s>(&'s self, place: KeptValue) -> Datum<'s>
        requires { IsKeptValue (file_in self.now) place }
        ensures { datum_seen result ≡ value_at (file_in self.now) place }
    {
        self.value_on(place.page, u32::from(place.index))
    }

    /// The places of the values of the set that begins at a page.
    pub fn places_in(&self, leaf: u32) -> &[KeptValue]
        requires { Contains (set_starts (file_in self.now)) leaf }
        ensures { result.now ≡ flat_map (values_on (file_in self.now)) (chain (file_in self.now) leaf) }
    {
        part(&self.sets.bounds, &self.sets.all, leaf)
    }

    /// The values of the set that begins at a page.
    #[tactic(auto, using(crate::proofs::KeptLemmas::all_in_set, crate::proofs::LooseLemmas::set_values))]
    pub(crate) fn set<'s>(&'s self, leaf: u32) -> SalvageValues<'s, 'a>
        requires { Contains (set_starts (file_in self.now)) leaf }
        ensures { result ≡ flat_map (live_whole (file_in self.now)) (chain (file_in self.now) leaf) }
    {
        SalvageValues::over(self, self.places_in(leaf))
    }
}
