ghost use Rattle.std.specs.Prelude.{◌≡◌, ◌≤◌, ◌<◌, ◌+◌, ◌^◌, ◌++◌, ◌∷◌, [], IfOk, List, length, map, ℕ};
ghost use Rattle.std.specs.List.{All};
ghost use Rattle.bdb_rescue.specs.of_format.Terms.{page_at};
ghost use Rattle.bdb_rescue.specs.Kept.{file_in, numbered_at, untaken_on};
ghost use Rattle.bdb_rescue.specs.of_overflow.Datum.{datum_seen};
ghost use Rattle.bdb_rescue.specs.of_survey.Salvage.{stored_on};
ghost use Rattle.bdb_apart.specs.Found.{Found, found, is_master_leaf};
ghost use Rattle.bdb_apart.specs.Given.{are_given, found_in, names_by, pairs_left, records_left};
ghost use Rattle.bdb_apart.specs.Kept.{AreHeld, found_seen, kind_in, row_in};
ghost use Rattle.bdb_apart.specs.Left.{IsThere, held_at, start_by, start_on};

use crate::above::{aboves, meta_of};
use crate::database::Databases;
use crate::databases::databases;
use crate::entry::page_named;
use crate::holds::{Holds, PageKind, holds_of, holds_pairs, kind_of};
use crate::left::{PairsLeft, RecordsLeft};
use crate::names::is_master_leaf;
use crate::place::Place;
use crate::rows::{Pages, Rows};
use bdb_homes::PageHomes;
use bdb_rescue::{Datum, Guess, SalvagePairs, SalvageRecords, Salvaged, Steps};
use std::alloc::{AllocError, Global};
use std::marker::Model;
use std::sync::ledger::Ledger;

/// What is salvaged of an image, database by database: the home of each page, and the databases that are found. It keeps 48 bytes for each page.
#[derive(Drop)]
pub struct Apart<'s, 'a> {
    salvaged: &'s Salvaged<'a>,
    homes: PageHomes<'a>,
    rows: Rows,
    /// What a database holds whose metadata stand on a page.
    held: Vec<Option<Holds>>,
    places: Vec<Place<'s>>,
}

impl<'s, 'a> Model for Apart<'s, 'a> {
    ghost use Rattle.bdb_rescue.specs.Kept.{Reading};
    ghost use Rattle.bdb_apart.specs.Kept.{IsApart};

    ghost Value = { Reading };

    ghost view = { λ v. v.salvaged.now };

    ghost invariant = { λ v. IsApart v.salvaged.now v.homes v.rows v.held.items v.places.items };
}

/// Keeps what a database holds, where it's the first with its metadata page.
fn note_held(held: &mut [Option<Holds>], place: &Place<'_>)
    ensures { (dbs : List Found) (count : ℕ) → AreHeld dbs count held.old
        → AreHeld (dbs ++ found_seen place.now ∷ []) count held.new }
{
    let at = place.meta as usize;
    if at < held.len() && held[at].is_none() {
        held[at] = Some(holds_of(&place.fields));
    }
}

/// Keeps what databases hold.
fn note_places(held: &mut [Option<Holds>], places: &[Place<'_>])
    ensures { (count : ℕ) → AreHeld [] count held.old → AreHeld (map found_seen places.now) count held.new }
{
    for place in places {
        note_held(held, place);
    }
}

/// Nothing held, by so many pages.
fn none_held(alloc: Global, count: u32) -> Result<Vec<Option<Holds>>, AllocError>
    ensures { IfOk result (λ held. AreHeld [] count held.items) }
{
    vec![in alloc; None; count as usize]
}

/// What databases hold, by their metadata pages.
fn held_of(
    alloc: Global,
    count: u32,
    places: &[Place<'_>],
) -> Result<Vec<Option<Holds>>, AllocError>
    ensures { IfOk result (λ held. AreHeld (map found_seen places.now) count held.items) }
{
    let mut held = none_held(alloc, count)?;
    note_places(&mut held, places);
    Ok(held)
}

/// Finds the databases of a damaged image and the pages of each, from what `salvage` found. It takes at most as many steps as there are whole pages.
/// An error means that memory ran out.
pub fn apart_of<'s, 'a, L: Ledger>(
    alloc: Global,
    salvaged: &'s Salvaged<'a>,
    steps: &mut Steps<L>,
) -> Result<Apart<'s, 'a>, AllocError>
    ensures apart { IfOk result (λ apart. apart ≡ salvaged.now) }
    ensures cost { steps.new ≤ steps.old + (file_in salvaged.now).count }
{
    let count = salvaged.pages().count();
    let homes = PageHomes::of(alloc, salvaged.pages(), steps)?;
    let rows = Rows::of(alloc, aboves(alloc, salvaged, &homes)?)?;
    let places = databases(alloc, salvaged, &homes)?;
    let held = held_of(alloc, count, &places)?;
    Ok(Apart {
        salvaged,
        homes,
        rows,
        held,
        places,
    })
}

impl<'s, 'a> Apart<'s, 'a> {
    /// The byte order and page size by which the image is read.
    pub fn guess(&self) -> Guess
        ensures { result ≡ self.now.guess }
    {
        self.salvaged.guess()
    }

    /// The databases that are found, in the order of their names.
    pub fn databases<'t>(&'t self) -> Databases<'t, 's, 'a>
        ensures { result ≡ found_in self.now }
    {
        Databases::over(self)
    }

    /// The stored pairs that belong to no database that is found, by page and slot, except the entries of a master that name one.
    pub fn pairs_left<'t>(&'t self) -> PairsLeft<'t, 's, 'a>
        ensures { result ≡ pairs_left self.now }
    {
        PairsLeft::over(self)
    }

    /// The loose records that belong to no database that is found, by page and slot.
    pub fn records_left<'t>(&'t self) -> RecordsLeft<'t, 's, 'a>
        ensures records { result ≡ records_left self.now }
        ensures few { length result < 2 ^ 32 }
    {
        let _pages = self.salvaged.pages();
        RecordsLeft::over(self)
    }

    /// How many whole pages the image has.
    pub fn count(&self) -> u32
        ensures { result ≡ (file_in self.now).count }
    {
        self.salvaged.pages().count()
    }

    /// What is kept of the databases.
    pub(crate) fn places(&self) -> &[Place<'s>]
        ensures { map found_seen result.now ≡ found self.now }
    {
        &self.places
    }

    /// What is salvaged.
    pub fn salvaged(&self) -> &'s Salvaged<'a>
        ensures { result.now ≡ self.now }
    {
        self.salvaged
    }

    /// The homes of pages.
    pub(crate) fn homes(&self) -> &PageHomes<'a>
        ensures { result.now ≡ file_in self.now }
    {
        &self.homes
    }

    /// The pages that may belong to the database of a metadata page.
    pub(crate) fn row(&self, meta: u32) -> Pages<'_>
        ensures row { result ≡ row_in self.now meta }
        ensures there { All (IsThere (file_in self.now)) result }
    {
        self.rows.row(meta)
    }

    /// The pairs of a page.
    pub(crate) fn pairs_on(&self, page: u32) -> SalvagePairs<'s, 'a>
        requires { page < (file_in self.now).count }
        ensures { result ≡ stored_on (file_in self.now) page }
    {
        self.salvaged.pairs_on(page)
    }

    /// The loose records of a page, each with its number where so many come before the page.
    pub(crate) fn records_on(&self, page: u32, start: u32) -> SalvageRecords<'s, 'a>
        requires { page < (file_in self.now).count }
        ensures { result ≡ map (numbered_at (file_in self.now) start) (untaken_on (file_in self.now) page) }
    {
        self.salvaged.records_on(page, start)
    }

    /// What the database holds that is found with a metadata page.
    fn held_at(&self, meta: Option<u32>) -> Option<Holds>
        ensures { result ≡ held_at (found self.now) meta }
    {
        let at = meta? as usize;
        if at < self.held.len() {
            self.held[at]
        } else {
            None
        }
    }

    /// The kind of a page.
    pub fn kind(&self, page: u32) -> PageKind
        ensures { result ≡ kind_in (page_at (file_in self.now) page) }
    {
        kind_of(&self.salvaged.pages().page(page))
    }

    /// Whether the pairs of a page belong to a database that is found.
    pub fn are_given(&self, page: u32) -> bool
        requires { page < (file_in self.now).count }
        ensures { result ≡ are_given (file_in self.now) (found self.now) page }
    {
        match self.held_at(self.rows.above(page)) {
            Some(holds) => holds_pairs(holds, self.kind(page)),
            None => false,
        }
    }

    /// Whether a page is a leaf of a master: its pairs may name databases.
    pub fn is_master_leaf(&self, page: u32) -> bool
        requires { page < (file_in self.now).count }
        ensures { result ≡ is_master_leaf (file_in self.now) page }
    {
        is_master_leaf(self.salvaged, &self.homes, page)
    }

    /// Whether a datum is the number (four bytes, high byte first) of the metadata page of a database that is found.
    pub fn names_found(&self, value: &Datum<'_>) -> bool
        ensures { result ≡ names_by (found self.now) (datum_seen value.now) }
    {
        self.held_at(page_named(value)).is_some()
    }

    /// How many records of its database come before a page, or `None` if it is no leaf of records or has no home.
    pub fn start_on(&self, page: u32) -> Option<u32>
        requires { page < (file_in self.now).count }
        ensures { result ≡ start_on (file_in self.now) page }
    {
        if self.kind(page) != PageKind::Records {
            return None;
        }
        let home = self.homes.home(page)?;
        Some(home.start)
    }

    /// How many records of its database come before a leaf of records, and what the pages of that database hold; `None` if the page is no such leaf,
    /// or its database isn't found.
    pub fn start(&self, page: u32) -> Option<(u32, Holds)>
        requires { page < (file_in self.now).count }
        ensures { result ≡ start_by (file_in self.now) (found self.now) page }
    {
        if self.kind(page) != PageKind::Records {
            return None;
        }
        let home = self.homes.home(page)?;
        let holds = self.held_at(Some(home.meta))?;
        Some((home.start, holds))
    }
}
