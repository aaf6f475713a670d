ghost use Rattle.std.specs.Prelude.{◌≡◌, ◌∷◌, ◌++◌, [], false, None, IfErr, IfOk, OnOk, option_copied};
ghost use Rattle.std.specs.List.{AllZip, fold};
ghost use Rattle.bdb_mkfile.specs.of_settle.LoadErrors.{IsSettleRefusal, sooner};
ghost use Rattle.bdb_onto.specs.Onto.{is_other, is_unlike, onto_error, onto_errors, partner_of, same_kind};
ghost use Rattle.bdb_onto.specs.Search.{HasNames, IsPartnerAt};

use crate::Base;
use crate::partners::{at_place, is_misnamed, place_of, settings_onto};
use bdb_format::{Kind, Settings};
use bdb_mkfile::{
    LoadError, Section, Sections, is_among_names, is_too_wide, sooner_where, with_pairs,
};
use std::alloc::Global;

// Whether two kinds are the same.
fn same_kind(a: Kind, b: Kind) -> bool
    ensures { result ≡ same_kind a b }
{
    match (a, b) {
        (Kind::Btree, Kind::Btree)
        | (Kind::Recno, Kind::Recno)
        | (Kind::Hash, Kind::Hash)
        | (Kind::Queue, Kind::Queue) => true,
        _ => false,
    }
}

// Whether one is of another kind than the other, or keeps the data of a key in another way.
fn is_unlike(settings: &Settings, others: &Settings) -> bool
    ensures { result ≡ is_unlike settings.now others.now }
{
    !same_kind(settings.kind, others.kind)
        || settings.sorted != others.sorted
        || (settings.duplicates || settings.sorted) != (others.duplicates || others.sorted)
}

// Whether a section has a partner that is unlike it.
fn is_other(settings: &Settings, partner: Option<&Section>) -> bool
    ensures { result ≡ is_other settings.now (option_copied partner.entry) }
{
    match partner {
        Some(partner) => is_unlike(settings, &partner.settings),
        None => false,
    }
}

// The first error, with those of a section on a base, where this is its partner.
fn with_section(
    first: Option<LoadError>,
    base: &Base,
    alone: bool,
    section: &Section,
    partner: Option<&Section>,
) -> Option<LoadError>
    requires { option_copied partner ≡ partner_of base.now section.now }
    ensures { result ≡ fold sooner first (onto_errors base.now alone section.now) }
{
    let line = section.header_line;
    let settings = settings_onto(base, section, partner);
    let other = is_other(&section.settings, partner);
    let first = sooner_where(
        first,
        is_too_wide(base.page_size, &settings),
        LoadError::RecordTooLong(line),
    );
    let first = sooner_where(
        first,
        is_among_names(alone, section),
        LoadError::QueueAmongNames(line),
    );
    let first = sooner_where(first, other, LoadError::OntoKind(line));
    let first = sooner_where(
        first,
        is_misnamed(base, section),
        LoadError::OntoNames(line),
    );
    with_pairs(first, &settings, section.pairs.as_slice())
}

// Adds a place, where memory ran out for none before, and answers whether it ran out.
fn push_place(places: &mut Vec<Option<usize>>, wanting: bool, place: Option<usize>) -> bool
    ensures before { result ≡ false → wanting ≡ false }
    ensures places { result ≡ false → places.new.items ≡ places.old.items ++ place ∷ [] }
{
    if wanting {
        return true;
    }
    places.push(place).is_err()
}

// The places of partners, where memory doesn't run out: an error of any section comes before that.
fn placed(
    first: Option<LoadError>,
    places: Vec<Option<usize>>,
    wanting: bool,
) -> Result<Vec<Option<usize>>, LoadError>
    ensures places { IfOk result (λ found. (found ≡ places) × (wanting ≡ false)) }
    ensures sound { OnOk result (first ≡ None) }
    ensures refused { IfErr result (IsSettleRefusal first) }
{
    match first {
        Some(error) => Err(error),
        None if wanting => Err(LoadError::Memory),
        None => Ok(places),
    }
}

/// The places in a base of the partners of sections, each of which is sought once. An error is the first of the sections on the base; where there is none,
/// memory may have run out.
pub(crate) fn partner_places(
    alloc: Global,
    base: &Base,
    sections: &Sections,
) -> Result<Vec<Option<usize>>, LoadError>
    requires { HasNames base.now }
    ensures places { IfOk result (λ places. AllZip (IsPartnerAt base.now) sections.now places.items) }
    ensures sound { OnOk result (onto_error base.now sections.now ≡ None) }
    ensures refused { IfErr result (IsSettleRefusal (onto_error base.now sections.now)) }
{
    let alone = sections.len() == 1;
    let mut first = None;
    let mut places = Vec::new(alloc);
    let mut wanting = false;
    for section in sections.as_slice() {
        let place = place_of(base, section);
        first = with_section(first, base, alone, section, at_place(base, place));
        wanting = push_place(&mut places, wanting, place);
    }
    placed(first, places, wanting)
}
