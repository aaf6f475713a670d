ghost use Rattle.std.specs.Prelude.{◌≡◌, IfOk};
ghost use Rattle.std.specs.Iterator.{YieldsFirst, item_count};
ghost use Rattle.std.specs.List.{All};
ghost use Rattle.std.specs.Option.{option_map};
ghost use Rattle.bdb_rescue.specs.of_format.Flags.{has_records};
ghost use Rattle.bdb_rescue.specs.Kept.{file_in};
ghost use Rattle.bdb_rescue.specs.of_overflow.Datum.{datum_seen};
ghost use Rattle.bdb_apart.specs.Given.{found_in, pairs_given, records_given};
ghost use Rattle.bdb_apart.specs.Kept.{IsKnown, holds_in, row_in};
ghost use Rattle.bdb_apart.specs.Left.{IsThere};
ghost use Rattle.bdb_apart.specs.Text.{section_pairs, settings_in};

use crate::Apart;
use crate::holds::{Holds, holds_of};
use crate::pairs::Pairs;
use crate::place::Place;
use crate::records::Records;
use crate::rows::Pages;
use crate::section_pairs::{pairs_of, records_of, slots_of};
use bdb_homes::Settings;
use bdb_rescue::{Datum, TextPairs};
use std::alloc::{AllocError, Global};
use std::marker::Model;

/// A database that is found.
#[derive(Drop)]
pub struct Database<'t, 's, 'a> {
    apart: &'t Apart<'s, 'a>,
    place: &'t Place<'s>,
}

impl<'t, 's, 'a> Model for Database<'t, 's, 'a> {
    ghost use Rattle.bdb_apart.specs.Given.{FoundIn};
    ghost use Rattle.bdb_apart.specs.Kept.{IsKnown, found_of, found_seen};

    ghost Value = { FoundIn };

    ghost view = { λ v. found_of v.apart.now v.place.now };

    ghost invariant = { λ v. IsKnown v.apart.now (found_seen v.place.now) };
}

impl<'t, 's, 'a> Database<'t, 's, 'a> {
    /// Its name, or `None` for the one database of a file without names. One that no entry of a master names is called `page M`, `M` the number of
    /// its metadata page.
    pub fn name(&self) -> Option<Datum<'t>>
        ensures { option_map datum_seen result ≡ self.now.db.name }
    {
        match &self.place.name {
            Some(name) => Some(name.datum()),
            None => None,
        }
    }

    /// Its settings by its metadata, with the page size and byte order of the guess.
    pub fn settings(&self) -> Settings
        ensures { result ≡ settings_in self.now }
    {
        let guess = self.apart.guess();
        self.place.fields.settings(guess.page_size, guess.order)
    }

    /// Whether it has records with numbers, and not pairs.
    pub fn has_records(&self) -> bool
        ensures { result ≡ has_records self.now.db.fields }
    {
        match holds_of(&self.place.fields) {
            Holds::Records { .. } | Holds::Slots => true,
            Holds::Leaves | Holds::Buckets => false,
        }
    }

    /// What is salvaged of its file.
    pub fn apart(&self) -> &'t Apart<'s, 'a>
        ensures { result.now ≡ self.now.reading }
    {
        self.apart
    }

    /// What its pages hold.
    pub fn holds(&self) -> Holds
        ensures holds { result ≡ holds_in self.now.db }
        ensures known { IsKnown self.now.reading self.now.db }
    {
        holds_of(&self.place.fields)
    }

    /// The pages whose home is its metadata, in order; of a file's only database, unless it is a queue, also every other page of pairs.
    pub fn pages(&self) -> Pages<'t>
        ensures row { result ≡ row_in self.now.reading self.now.db.meta }
        ensures there { All (IsThere (file_in self.now.reading)) result }
    {
        self.apart.row(self.place.meta)
    }

    /// Its pairs, by page and slot; none where it has records.
    pub fn pairs(&self) -> Pairs<'t, 's, 'a>
        ensures { result ≡ pairs_given self.now }
    {
        Pairs::over(
            self.apart.salvaged(),
            holds_of(&self.place.fields),
            self.apart.row(self.place.meta),
        )
    }

    /// Its pairs, or its records with their numbers, as pairs of a section whose lines are 0. A chain or a set that several items name is copied
    /// once. An error means that memory ran out.
    pub fn section_pairs(&self, alloc: Global) -> Result<TextPairs, AllocError>
        ensures { IfOk result (λ pairs. pairs ≡ section_pairs self.now) }
    {
        let apart = self.apart;
        let row = apart.row(self.place.meta);
        match holds_of(&self.place.fields) {
            Holds::Leaves => pairs_of(alloc, apart.salvaged(), Holds::Leaves, row),
            Holds::Buckets => pairs_of(alloc, apart.salvaged(), Holds::Buckets, row),
            Holds::Records { length } => {
                records_of(alloc, apart.salvaged(), apart.homes(), length, row)
            }
            Holds::Slots => slots_of(alloc, &mut self.records()),
        }
    }

    /// Its records, by page and slot, each with its number; none where it has pairs.
    pub fn records(&self) -> Records<'t, 's, 'a>
        ensures { result ≡ records_given self.now }
    {
        Records::of(self.apart, self.place)
    }
}

/// The databases that are left.
#[derive(Drop)]
pub struct Databases<'t, 's, 'a> {
    apart: &'t Apart<'s, 'a>,
    at: usize,
}

impl<'t, 's, 'a> Model for Databases<'t, 's, 'a> {
    ghost use Rattle.std.specs.Prelude.{List};
    ghost use Rattle.bdb_apart.specs.Given.{FoundIn};
    ghost use Rattle.bdb_apart.specs.Kept.{found_from};

    ghost Value = { List FoundIn };

    ghost view = { λ v. found_from v.apart.now v.at };
}

impl<'t, 's, 'a> Databases<'t, 's, 'a> {
    /// All of them.
    pub(crate) fn over(apart: &'t Apart<'s, 'a>) -> Databases<'t, 's, 'a>
        ensures { result ≡ found_in apart.now }
    {
        Databases { apart, at: 0 }
    }
}

impl<'t, 's, 'a> Iterator for Databases<'t, 's, 'a> {
    type Item = Database<'t, 's, 'a>;

    ghost next_gives = { YieldsFirst (λ left. left) };

    ghost remaining = { item_count (λ left. left) };

    fn next(&mut self) -> Option<Database<'t, 's, 'a>> {
        let apart = self.apart;
        let place = apart.places().get(self.at)?;
        self.at += 1;
        Some(Database { apart, place })
    }
}
