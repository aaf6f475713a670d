ghost use Rattle.std.specs.Prelude.{◌≡◌, ◌<◌};
ghost use Rattle.std.specs.Iterator.{YieldsFirstBy, item_count};
ghost use Rattle.std.specs.List.{All, filter, flat_map};
ghost use Rattle.bdb_rescue.specs.Entries.{record_read};
ghost use Rattle.bdb_rescue.specs.Kept.{file_in};
ghost use Rattle.bdb_apart.specs.Kept.{fits_in};
ghost use Rattle.bdb_apart.specs.Left.{IsThere, fit_left, fit_on, records_at};

use crate::holds::{Holds, PageKind, fits_record, kind_of};
use crate::rows::Pages;
use bdb_homes::PageHomes;
use bdb_rescue::{Datum, SalvageRecords, Salvaged};
use std::marker::Model;

/// The records of a page that are left, of which those are given that fit.
#[derive(Drop)]
pub(crate) struct Fitting<'s, 'a> {
    holds: Holds,
    records: SalvageRecords<'s, 'a>,
}

impl<'s, 'a> Model for Fitting<'s, 'a> {
    ghost use Rattle.std.specs.Prelude.{List, ℕ};
    ghost use Rattle.std.specs.List.{filter};
    ghost use Rattle.bdb_apart.specs.Kept.{fits_in};

    ghost Value = { List (ℕ × List ℕ) };

    ghost view = { λ v. filter (fits_in v.holds) v.records };
}

impl<'s, 'a> Fitting<'s, 'a> {
    /// The next one.
    fn next(&mut self) -> Option<(u32, Datum<'s>)>
        ensures { YieldsFirstBy record_read (λ left. left) self.old result self.new }
    {
        'walk: loop {
            let (number, value) = self.records.next()?;
            if fits_record(self.holds, number, &value) {
                return Some((number as u32, value));
            }
        }
    }
}

/// The records on leaves of a database that are left.
#[derive(Drop)]
pub(crate) struct LeafRecords<'t, 's, 'a> {
    salvaged: &'s Salvaged<'a>,
    homes: &'t PageHomes<'a>,
    holds: Holds,
    here: Option<Fitting<'s, 'a>>,
    pages: Pages<'t>,
}

impl<'t, 's, 'a> Model for LeafRecords<'t, 's, 'a> {
    ghost use Rattle.std.specs.Prelude.{List, ℕ, ◌++◌};
    ghost use Rattle.std.specs.List.{flat_map};
    ghost use Rattle.bdb_rescue.specs.Kept.{file_in};
    ghost use Rattle.bdb_apart.specs.Left.{AreOfOne, fit_left, fit_on};

    ghost Value = { List (ℕ × List ℕ) };

    ghost view = { λ v. fit_left v.here ++ flat_map (fit_on (file_in v.salvaged.now) v.holds) v.pages };

    ghost invariant = { λ v. AreOfOne (file_in v.salvaged.now) v.homes.now v.pages };
}

impl<'t, 's, 'a> LeafRecords<'t, 's, 'a> {
    /// Those on some pages.
    pub(crate) fn over(
        salvaged: &'s Salvaged<'a>,
        homes: &'t PageHomes<'a>,
        holds: Holds,
        pages: Pages<'t>,
    ) -> LeafRecords<'t, 's, 'a>
        requires { Rattle.bdb_apart.specs.Left.AreOfOne (file_in salvaged.now) homes.now pages }
        ensures { result ≡ flat_map (fit_on (file_in salvaged.now) holds) pages.entry }
    {
        LeafRecords {
            salvaged,
            homes,
            holds,
            here: None,
            pages,
        }
    }
}

/// The records of a page, each with its number, where it's a leaf of records that has a home.
pub(crate) fn records_of<'s, 'a>(
    salvaged: &'s Salvaged<'a>,
    homes: &PageHomes<'a>,
    page: u32,
) -> Option<SalvageRecords<'s, 'a>>
    requires homes { homes.now ≡ file_in salvaged.now }
    requires there { page < (file_in salvaged.now).count }
    ensures { result ≡ records_at (file_in salvaged.now) page }
{
    if kind_of(&salvaged.pages().page(page)) != PageKind::Records {
        return None;
    }
    let home = homes.home(page)?;
    Some(salvaged.records_on(page, home.start))
}

/// The same, of which those are given that fit.
fn fitting_of<'s, 'a>(
    salvaged: &'s Salvaged<'a>,
    homes: &PageHomes<'a>,
    holds: Holds,
    page: u32,
) -> Option<Fitting<'s, 'a>>
    requires homes { homes.now ≡ file_in salvaged.now }
    requires there { page < (file_in salvaged.now).count }
    ensures { fit_left result ≡ fit_on (file_in salvaged.now) holds page }
{
    let records = records_of(salvaged, homes, page)?;
    Some(Fitting { holds, records })
}

/// The next record of a page, if there is one.
fn next_here<'s>(here: &mut Option<Fitting<'s, '_>>) -> Option<(u32, Datum<'s>)>
    ensures { YieldsFirstBy record_read fit_left here.old result here.new }
{
    match here {
        Some(records) => records.next(),
        None => None,
    }
}

impl<'t, 's, 'a> Iterator for LeafRecords<'t, 's, 'a> {
    type Item = (u32, Datum<'s>);

    ghost next_gives = { YieldsFirstBy record_read (λ left. left) };

    ghost remaining = { item_count (λ left. left) };

    #[tactic(auto, using(crate::proofs::LeftLemmas::first_page))]
    fn next(&mut self) -> Option<(u32, Datum<'s>)> {
        'walk: loop {
            match next_here(&mut self.here) {
                Some(record) => return Some(record),
                None => {}
            }
            let page = self.pages.next()?;
            self.here = fitting_of(self.salvaged, self.homes, self.holds, page);
        }
    }
}
