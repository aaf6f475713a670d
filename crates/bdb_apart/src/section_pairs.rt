//! What is given of a database, as pairs of a section.
ghost use Rattle.std.specs.Prelude.{◌≡◌, ◌<◌, ◌++◌, [], IfOk, OnOk, map};
ghost use Rattle.std.specs.List.{All, flat_map};
ghost use Rattle.bdb_rescue.specs.Gathered.{loose_pair, stored_pair};
ghost use Rattle.bdb_rescue.specs.Kept.{file_in};
ghost use Rattle.bdb_apart.specs.Left.{AreOfOne, IsThere, fit_on, pairs_on};
ghost use Rattle.bdb_apart.specs.declared.holds.Holds.TheVariants.{Records as OnLeaves};

use crate::holds::{Holds, PageKind, holds_pairs, kind_of};
use crate::records::Records;
use crate::rows::Pages;
use bdb_homes::PageHomes;
use bdb_rescue::{Gatherer, KeyRef, PairRef, Salvaged, TextPairs, bytes_in};
use std::alloc::{AllocError, Global};

// Adds the pairs of a page, where it holds some of a database.
fn push_pairs_on(
    all: &mut Gatherer<'_, '_>,
    salvaged: &Salvaged<'_>,
    holds: Holds,
    page: u32,
) -> Result<(), AllocError>
    requires reading { all.old.reading ≡ salvaged.now }
    requires there { page < (file_in salvaged.now).count }
    ensures reading { OnOk result (all.new.reading ≡ salvaged.now) }
    ensures pairs { OnOk result (all.new.gathered.pairs ≡ all.old.gathered.pairs ++ map stored_pair (pairs_on (file_in salvaged.now) holds page)) }
{
    if !holds_pairs(holds, kind_of(&salvaged.pages().page(page))) {
        return Ok(());
    }
    all.push_pairs_on(page)
}

// Adds those of some pages.
fn push_pairs(
    all: &mut Gatherer<'_, '_>,
    salvaged: &Salvaged<'_>,
    holds: Holds,
    pages: Pages<'_>,
) -> Result<(), AllocError>
    requires reading { all.old.reading ≡ salvaged.now }
    requires there { All (IsThere (file_in salvaged.now)) pages }
    ensures { OnOk result (all.new.gathered.pairs ≡ all.old.gathered.pairs
        ++ map stored_pair (flat_map (pairs_on (file_in salvaged.now) holds) pages.entry)) }
{
    for page in pages {
        push_pairs_on(all, salvaged, holds, page)?;
    }
    Ok(())
}

// Adds the records of a page, of which those are given that have a number, and a length where that isn't 0.
fn push_records_on(
    all: &mut Gatherer<'_, '_>,
    salvaged: &Salvaged<'_>,
    homes: &PageHomes<'_>,
    len: u32,
    page: u32,
) -> Result<(), AllocError>
    requires reading { all.old.reading ≡ salvaged.now }
    requires homes { homes.now ≡ file_in salvaged.now }
    requires there { page < (file_in salvaged.now).count }
    ensures reading { OnOk result (all.new.reading ≡ salvaged.now) }
    ensures pairs { OnOk result (all.new.gathered.pairs ≡ all.old.gathered.pairs
        ++ map loose_pair (fit_on (file_in salvaged.now) (OnLeaves len) page)) }
{
    if kind_of(&salvaged.pages().page(page)) != PageKind::Records {
        return Ok(());
    }
    match homes.home(page) {
        Some(home) => all.push_records_on(page, home.start, len),
        None => Ok(()),
    }
}

// Adds those of some pages.
fn push_records(
    all: &mut Gatherer<'_, '_>,
    salvaged: &Salvaged<'_>,
    homes: &PageHomes<'_>,
    len: u32,
    pages: Pages<'_>,
) -> Result<(), AllocError>
    requires reading { all.old.reading ≡ salvaged.now }
    requires pages { AreOfOne (file_in salvaged.now) homes.now pages }
    ensures { OnOk result (all.new.gathered.pairs ≡ all.old.gathered.pairs
        ++ map loose_pair (flat_map (fit_on (file_in salvaged.now) (OnLeaves len)) pages.entry)) }
{
    for page in pages {
        push_records_on(all, salvaged, homes, len, page)?;
    }
    Ok(())
}

/// The pairs on some pages.
pub(crate) fn pairs_of(
    alloc: Global,
    salvaged: &Salvaged<'_>,
    holds: Holds,
    pages: Pages<'_>,
) -> Result<TextPairs, AllocError>
    requires { All (IsThere (file_in salvaged.now)) pages }
    ensures { IfOk result (λ pairs. pairs ≡ map stored_pair (flat_map (pairs_on (file_in salvaged.now) holds) pages.entry)) }
{
    let mut all = Gatherer::of(alloc, salvaged)?;
    push_pairs(&mut all, salvaged, holds, pages)?;
    Ok(all.into_pairs())
}

/// The records on some pages, each with its number.
pub(crate) fn records_of(
    alloc: Global,
    salvaged: &Salvaged<'_>,
    homes: &PageHomes<'_>,
    len: u32,
    pages: Pages<'_>,
) -> Result<TextPairs, AllocError>
    requires { AreOfOne (file_in salvaged.now) homes.now pages }
    ensures { IfOk result (λ pairs. pairs ≡ map loose_pair (flat_map (fit_on (file_in salvaged.now) (OnLeaves len)) pages.entry)) }
{
    let mut all = Gatherer::of(alloc, salvaged)?;
    push_records(&mut all, salvaged, homes, len, pages)?;
    Ok(all.into_pairs())
}

// Adds the records of a queue, each with its number.
fn push_slots(
    pairs: &mut TextPairs,
    room: &mut Vec<u8>,
    records: &mut Records<'_, '_, '_>,
) -> Result<(), AllocError>
    ensures { OnOk result (pairs.new ≡ pairs.old ++ map loose_pair records.old) }
{
    for (number, value) in records {
        pairs.push(PairRef {
            key: KeyRef::Number(number),
            value: bytes_in(value, room)?,
            line: 0,
        })?;
    }
    Ok(())
}

/// The records of a queue, each with its number.
pub(crate) fn slots_of(
    alloc: Global,
    records: &mut Records<'_, '_, '_>,
) -> Result<TextPairs, AllocError>
    ensures { IfOk result (λ pairs. pairs ≡ map loose_pair records.old) }
{
    let mut pairs = TextPairs::new(alloc);
    let mut room = Vec::new(alloc);
    push_slots(&mut pairs, &mut room, records)?;
    Ok(pairs)
}
