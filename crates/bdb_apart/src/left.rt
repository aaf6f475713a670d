ghost use Rattle.std.specs.Prelude.{◌≡◌, ◌<◌};
ghost use Rattle.std.specs.Iterator.{YieldsFirstBy, item_count};
ghost use Rattle.bdb_rescue.specs.Entries.{pair_read};
ghost use Rattle.bdb_rescue.specs.Kept.{file_in};
ghost use Rattle.bdb_rescue.specs.of_overflow.Datum.{datum_seen};
ghost use Rattle.bdb_apart.specs.Found.{found};
ghost use Rattle.bdb_apart.specs.Given.{pairs_left, pairs_left_on, records_left, records_left_on};
ghost use Rattle.bdb_apart.specs.Left.{pairs_here, records_here};

use crate::Apart;
use crate::holds::{Holds, fits_record};
use bdb_rescue::{Datum, SalvagePairs, SalvageRecords};
use std::marker::Model;

/// The pairs of a page that are left. Where it's a leaf of a master, those that name a database that is found are left out.
#[derive(Drop)]
pub(crate) struct Others<'t, 's, 'a> {
    apart: &'t Apart<'s, 'a>,
    names: bool,
    pairs: SalvagePairs<'s, 'a>,
}

impl<'t, 's, 'a> Model for Others<'t, 's, 'a> {
    ghost use Rattle.std.specs.Prelude.{List, ℕ};
    ghost use Rattle.std.specs.List.{filter};
    ghost use Rattle.bdb_apart.specs.Found.{found};
    ghost use Rattle.bdb_apart.specs.Left.{is_other};

    ghost Value = { List (List ℕ × List ℕ) };

    ghost view = { λ v. filter (is_other (found v.apart.now) v.names) v.pairs };
}

impl<'t, 's, 'a> Others<'t, 's, 'a> {
    /// The next one.
    fn next(&mut self) -> Option<(Datum<'s>, Datum<'s>)>
        ensures { YieldsFirstBy pair_read (λ left. left) self.old result self.new }
    {
        'walk: loop {
            let (key, value) = self.pairs.next()?;
            if !(self.names && self.apart.names_found(&value)) {
                return Some((key, value));
            }
        }
    }
}

/// The pairs that belong to no database and are left.
#[derive(Drop)]
pub struct PairsLeft<'t, 's, 'a> {
    apart: &'t Apart<'s, 'a>,
    here: Option<Others<'t, 's, 'a>>,
    page: u32,
}

impl<'t, 's, 'a> Model for PairsLeft<'t, 's, 'a> {
    ghost use Rattle.std.specs.Prelude.{List, ℕ};
    ghost use Rattle.bdb_apart.specs.Left.{pairs_from};

    ghost Value = { List (List ℕ × List ℕ) };

    ghost view = { λ v. pairs_from v.apart.now v.here v.page };
}

/// What is left of the pairs of a page.
fn others_on<'t, 's, 'a>(apart: &'t Apart<'s, 'a>, page: u32) -> Option<Others<'t, 's, 'a>>
    requires { page < (file_in apart.now).count }
    ensures { pairs_here result ≡ pairs_left_on (file_in apart.now) (found apart.now) page }
{
    if apart.are_given(page) {
        return None;
    }
    Some(Others {
        apart,
        names: apart.is_master_leaf(page),
        pairs: apart.pairs_on(page),
    })
}

/// The next pair of a page, if there is one.
fn next_other<'s>(here: &mut Option<Others<'_, 's, '_>>) -> Option<(Datum<'s>, Datum<'s>)>
    ensures { YieldsFirstBy pair_read pairs_here here.old result here.new }
{
    match here {
        Some(pairs) => pairs.next(),
        None => None,
    }
}

impl<'t, 's, 'a> PairsLeft<'t, 's, 'a> {
    /// All of them.
    #[tactic(auto, using(crate::proofs::LeftLemmas::all_pairs))]
    pub(crate) fn over(apart: &'t Apart<'s, 'a>) -> PairsLeft<'t, 's, 'a>
        ensures { result ≡ pairs_left apart.now }
    {
        PairsLeft {
            apart,
            here: None,
            page: 0,
        }
    }
}

impl<'t, 's, 'a> Iterator for PairsLeft<'t, 's, 'a> {
    type Item = (Datum<'s>, Datum<'s>);

    ghost next_gives = { YieldsFirstBy pair_read (λ left. left) };

    ghost remaining = { item_count (λ left. left) };

    #[tactic(auto, using(crate::proofs::LeftLemmas::pages_more, crate::proofs::LeftLemmas::pages_none))]
    fn next(&mut self) -> Option<(Datum<'s>, Datum<'s>)> {
        'walk: loop {
            match next_other(&mut self.here) {
                Some(pair) => return Some(pair),
                None => {}
            }
            if self.page >= self.apart.count() {
                return None;
            }
            self.here = others_on(self.apart, self.page);
            self.page += 1;
        }
    }
}

/// The records of a page that are left, without those that fit a database.
#[derive(Drop)]
pub(crate) struct Loose<'s, 'a> {
    holds: Option<Holds>,
    records: SalvageRecords<'s, 'a>,
}

impl<'s, 'a> Model for Loose<'s, 'a> {
    ghost use Rattle.std.specs.Prelude.{List, ℕ};
    ghost use Rattle.bdb_apart.specs.Left.{loose_in};

    ghost Value = { List (List ℕ) };

    ghost view = { λ v. loose_in v.holds v.records };
}

/// Whether a record fits a database, where there is one.
fn is_fit(holds: Option<Holds>, number: u64, value: &Datum<'_>) -> bool
    ensures { result ≡ Rattle.bdb_apart.specs.Left.is_fit holds (number, datum_seen value.now) }
{
    match holds {
        Some(holds) => fits_record(holds, number, value),
        None => false,
    }
}

impl<'s, 'a> Loose<'s, 'a> {
    /// The next one.
    fn next(&mut self) -> Option<Datum<'s>>
        ensures { YieldsFirstBy datum_seen (λ left. left) self.old result self.new }
    {
        'walk: loop {
            let (number, value) = self.records.next()?;
            if !is_fit(self.holds, number, &value) {
                return Some(value);
            }
        }
    }
}

/// The records that belong to no database and are left.
#[derive(Drop)]
pub struct RecordsLeft<'t, 's, 'a> {
    apart: &'t Apart<'s, 'a>,
    here: Option<Loose<'s, 'a>>,
    page: u32,
}

impl<'t, 's, 'a> Model for RecordsLeft<'t, 's, 'a> {
    ghost use Rattle.std.specs.Prelude.{List, ℕ};
    ghost use Rattle.bdb_apart.specs.Left.{loose_from};

    ghost Value = { List (List ℕ) };

    ghost view = { λ v. loose_from v.apart.now v.here v.page };
}

/// What is left of the records of a page.
fn loose_on<'s, 'a>(apart: &Apart<'s, 'a>, page: u32) -> Loose<'s, 'a>
    requires { page < (file_in apart.now).count }
    ensures { result ≡ records_left_on (file_in apart.now) (found apart.now) page }
{
    match apart.start(page) {
        Some((start, holds)) => Loose {
            holds: Some(holds),
            records: apart.records_on(page, start),
        },
        None => Loose {
            holds: None,
            records: apart.records_on(page, 0),
        },
    }
}

/// The next record of a page, if there is one.
fn next_loose<'s>(here: &mut Option<Loose<'s, '_>>) -> Option<Datum<'s>>
    ensures { YieldsFirstBy datum_seen records_here here.old result here.new }
{
    match here {
        Some(records) => records.next(),
        None => None,
    }
}

impl<'t, 's, 'a> RecordsLeft<'t, 's, 'a> {
    /// All of them.
    #[tactic(auto, using(crate::proofs::LeftLemmas::all_records))]
    pub(crate) fn over(apart: &'t Apart<'s, 'a>) -> RecordsLeft<'t, 's, 'a>
        ensures { result ≡ records_left apart.now }
    {
        RecordsLeft {
            apart,
            here: None,
            page: 0,
        }
    }
}

impl<'t, 's, 'a> Iterator for RecordsLeft<'t, 's, 'a> {
    type Item = Datum<'s>;

    ghost next_gives = { YieldsFirstBy datum_seen (λ left. left) };

    ghost remaining = { item_count (λ left. left) };

    #[tactic(auto, using(crate::proofs::LeftLemmas::pages_more, crate::proofs::LeftLemmas::pages_none))]
    fn next(&mut self) -> Option<Datum<'s>> {
        'walk: loop {
            match next_loose(&mut self.here) {
                Some(value) => return Some(value),
                None => {}
            }
            if self.page >= self.apart.count() {
                return None;
            }
            self.here = Some(loose_on(self.apart, self.page));
            self.page += 1;
        }
    }
}
