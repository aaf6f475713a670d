ghost use Rattle.std.specs.Prelude.{◌≡◌, ◌≤◌, IsTrue, OnErr, OnOk, false};
ghost use Rattle.std.specs.Option.{option_map};
ghost use Rattle.bdb_faults.specs.Notes.{Notes};
ghost use Rattle.bdb_faults.specs.of_format.Terms.{asked_by, asks_type, file_of, first_row, fit_code, header_in, is_asked, reference_row_code};
ghost use Rattle.bdb_image.specs.Fits.{asks_previous, is_of_type, page_rows};
ghost use Rattle.bdb_image.specs.Noted.{both_misfits, misfit_faults, more_misfits, no_misfits};

use crate::Formed;
use crate::formed_page::{FormedPage, page_at};
use bdb_faults::{FaultSink, PageType, Reference, ReferenceRow, Row, Sort, has_type, note_if};
use std::alloc::AllocError;
use std::marker::Model;

/// What a reference asks of its target: one of these types, or a zero page; a level; a previous page.
#[derive(Drop)]
struct Demand {
    types: &'static [u8],
    or_zero: bool,
    level: Option<u32>,
    previous: Option<u32>,
}

impl Model for Demand {
    ghost use Rattle.bdb_faults.specs.of_format.Terms.{Asked};

    ghost Value = { Asked };

    ghost view = { λ v. record { types = v.types.now; or_zero = v.or_zero; level = v.level; previous = v.previous } };
}

impl Demand {
    fn of_types(types: &'static [u8]) -> Demand
        ensures { result ≡ asks_type types.now }
    {
        Demand {
            types,
            or_zero: false,
            level: None,
            previous: None,
        }
    }

    fn after(types: &'static [u8], previous: u32) -> Demand
        ensures { result ≡ asks_previous types.now previous }
    {
        Demand {
            types,
            or_zero: false,
            level: None,
            previous: Some(previous),
        }
    }

    /// The first row with which a page that is there falls short of what is asked.
    fn misfit(&self, page: &FormedPage) -> Option<ReferenceRow>
        ensures { option_map reference_row_code result ≡ first_row (page_rows self.now page.now) }
    {
        if !self.is_of_type(page) {
            Some(ReferenceRow::WrongKind)
        } else if !self.is_of_level(page) {
            Some(ReferenceRow::WrongLevel)
        } else if !self.is_behind(page) {
            Some(ReferenceRow::WrongBack)
        } else {
            None
        }
    }

    fn is_of_type(&self, page: &FormedPage) -> bool
        ensures { result ≡ is_of_type self.now page.now }
    {
        has_type(self.types, page.type_byte()) || (self.or_zero && page.is_zero())
    }

    fn is_of_level(&self, page: &FormedPage) -> bool
        ensures { result ≡ is_asked self.now.level (header_in page.now).level }
    {
        match self.level {
            Some(asked) => asked == u32::from(page.level()),
            None => true,
        }
    }

    fn is_behind(&self, page: &FormedPage) -> bool
        ensures { result ≡ is_asked self.now.previous (header_in page.now).previous }
    {
        match self.previous {
            Some(asked) => asked == page.previous(),
            None => true,
        }
    }
}

/// What a reference of this sort asks, by its holder and the holder's page.
fn asked_by(holder: u32, page: &FormedPage, sort: Sort) -> Demand
    ensures { result ≡ asked_by holder page.now sort }
{
    match sort {
        Sort::Free => Demand::of_types(&[PageType::FREE]),
        Sort::Root => Demand::of_types(page.root_types()),
        Sort::Bucket => Demand {
            types: &[PageType::UNSORTED_HASH, PageType::HASH],
            or_zero: true,
            level: None,
            previous: Some(0),
        },
        Sort::HashNext => Demand::after(&[PageType::UNSORTED_HASH, PageType::HASH], holder),
        Sort::Child => Demand {
            types: page.child_types(),
            or_zero: false,
            level: Some(u32::from(page.level()).saturating_sub(1)),
            previous: None,
        },
        Sort::OverflowHead => Demand::after(&[PageType::OVERFLOW], 0),
        Sort::OverflowNext => Demand::after(&[PageType::OVERFLOW], holder),
        Sort::DuplicateRoot => Demand::of_types(&[
            PageType::INTERNAL,
            PageType::RECNO_INTERNAL,
            PageType::RECNO_LEAF,
            PageType::DUP_LEAF,
        ]),
    }
}

/// The first row that holds for a reference of this page; none where it fits.
#[tactic(auto, using(crate::proofs::FitLemmas::pages_named))]
pub fn misfit(formed: &Formed, holder: u32, reference: Reference) -> Option<ReferenceRow>
    requires { holder ≤ (file_of formed.now).last }
    ensures { option_map reference_row_code result ≡ fit_code (file_of formed.now) holder reference }
{
    if reference.target == 0 || reference.target > u64::from(formed.head().last) {
        return Some(ReferenceRow::OutOfRange);
    }
    let asked = asked_by(holder, &page_at(formed, holder), reference.sort);
    asked.misfit(&page_at(formed, reference.target as u32))
}

/// With which rows some of the references of a page fail.
#[derive(Clone, Copy)]
pub struct Misfits {
    target: bool,
    page_type: bool,
    level: bool,
    previous: bool,
}

impl Misfits {
    /// No reference yet.
    pub fn none() -> Misfits
        ensures { result ≡ no_misfits }
    {
        Misfits {
            target: false,
            page_type: false,
            level: false,
            previous: false,
        }
    }

    /// The rows after one more reference.
    pub fn with(self, misfit: Option<ReferenceRow>) -> Misfits
        ensures { result ≡ more_misfits self (option_map reference_row_code misfit) }
    {
        Misfits {
            target: self.target || matches!(misfit, Some(ReferenceRow::OutOfRange)),
            page_type: self.page_type || matches!(misfit, Some(ReferenceRow::WrongKind)),
            level: self.level || matches!(misfit, Some(ReferenceRow::WrongLevel)),
            previous: self.previous || matches!(misfit, Some(ReferenceRow::WrongBack)),
        }
    }

    /// Those of references to buckets, which ask for no level.
    pub(crate) fn of_buckets(target: bool, page_type: bool, previous: bool) -> Misfits
        ensures { result ≡ record { target = target; page_type = page_type; level = false; previous = previous } }
    {
        Misfits {
            target,
            page_type,
            level: false,
            previous,
        }
    }

    /// The rows of these references and of others behind them.
    pub fn both(self, others: Misfits) -> Misfits
        ensures { result ≡ both_misfits self others }
    {
        Misfits {
            target: self.target || others.target,
            page_type: self.page_type || others.page_type,
            level: self.level || others.level,
            previous: self.previous || others.previous,
        }
    }

    /// Notes each of them at the page. An error means that memory ran out.
    pub fn note<F: FaultSink>(self, page: u32, found: &mut F) -> Result<(), AllocError>
        ensures noted { OnOk result (Notes (F.has_noted found.old) (F.has_noted found.new) (misfit_faults self page)) }
        ensures refused { OnErr result (IsTrue F.takes_memory) }
    {
        note_if(
            found,
            Row::Reference(ReferenceRow::OutOfRange),
            page,
            self.target,
        )?;
        note_if(
            found,
            Row::Reference(ReferenceRow::WrongKind),
            page,
            self.page_type,
        )?;
        note_if(
            found,
            Row::Reference(ReferenceRow::WrongLevel),
            page,
            self.level,
        )?;
        note_if(
            found,
            Row::Reference(ReferenceRow::WrongBack),
            page,
            self.previous,
        )?;
        Ok(())
    }
}
