ghost use Rattle.std.specs.Prelude.{◌≡◌, ◌≤◌, ◌<◌, [], IfOk, drop, length};
ghost use Rattle.std.specs.List.{All};
ghost use Rattle.bdb_text_format.specs.Terms.{AscendFrom, listed, pairs_of, slice_seen};
ghost use Rattle.bdb_mktree.specs.Building.{ArePushed, CanBePushed, IsTreeBuilt};
ghost use Rattle.bdb_mktree.specs.Lists.{AreKeysOf, HasBytes, IsTreeList, IsRecordAt, keyed_units, record_units, units_in};
ghost use Rattle.bdb_mktree.specs.Units.{IsTreeKind, unit_seen};

use crate::runs::run_at;
use crate::{TreeBuilder, Unit};
use bdb_mkleaves::Pages;
use bdb_text_format::{Kind, PairSlice, Settings, number_of};
use std::alloc::{AllocError, Global};

/// A record of a list, and the place of the next one to come.
#[derive(Clone, Copy)]
struct Next<'a> {
    unit: Unit<'a>,
    end: usize,
}

// Pushes each key of a list with all its data.
fn push_keys(
    builder: &mut TreeBuilder,
    pages: &mut Pages,
    list: PairSlice<'_>,
) -> Result<(), AllocError>
    requires keys { All (λ pair. HasBytes pair.key) (pairs_of list) }
    requires can { CanBePushed builder.old pages.old (keyed_units (pairs_of list)) }
    ensures { IfOk result (λ _. ArePushed builder.old builder.new pages.old pages.new (keyed_units (pairs_of list.entry)) []) }
{
    let mut start = 0;
    while start < list.len() {
        let run = run_at(list, start);
        let unit = Unit::Keyed {
            key: run.key,
            values: run.values,
        };
        builder.push(pages, &unit)?;
        start = run.end;
    }
    Ok(())
}

// The record with a number: that of the pair at a place, or a missing one before it.
fn record_at<'a>(list: PairSlice<'a>, place: usize, number: u64) -> Next<'a>
    requires ascend { AscendFrom number (drop place (pairs_of list)) }
    requires more { place < length (slice_seen list) }
    ensures { IsRecordAt (pairs_of list.entry) place number (unit_seen result.unit) result.end }
{
    let pair = list.at(place);
    if number < u64::from(number_of(pair.key)) {
        let unit = Unit::Entry {
            value: &[],
            deleted: true,
        };
        return Next { unit, end: place };
    }
    let unit = Unit::Entry {
        value: pair.value,
        deleted: false,
    };
    Next {
        unit,
        end: place + 1,
    }
}

// Pushes each record of a list, and those that are missing before it.
fn push_records(
    builder: &mut TreeBuilder,
    pages: &mut Pages,
    list: PairSlice<'_>,
) -> Result<(), AllocError>
    requires keys { AscendFrom 1 (pairs_of list) }
    requires can { CanBePushed builder.old pages.old (record_units 1 (pairs_of list)) }
    ensures { IfOk result (λ _. ArePushed builder.old builder.new pages.old pages.new (record_units 1 (pairs_of list.entry)) []) }
{
    let mut number = 1;
    let mut place = 0;
    while place < list.len() {
        let next = record_at(list, place, number);
        builder.push(pages, &next.unit)?;
        place = next.end;
        number += 1;
    }
    Ok(())
}

// Pushes the units of a list.
fn push_list(
    builder: &mut TreeBuilder,
    pages: &mut Pages,
    kind: Kind,
    list: PairSlice<'_>,
) -> Result<(), AllocError>
    requires keys { AreKeysOf kind (pairs_of list) }
    requires can { CanBePushed builder.old pages.old (units_in kind (pairs_of list)) }
    ensures { IfOk result (λ _. ArePushed builder.old builder.new pages.old pages.new (units_in kind (pairs_of list.entry)) []) }
{
    match kind {
        Kind::Btree => push_keys(builder, pages, list),
        Kind::Recno => push_records(builder, pages, list),
        Kind::Hash | Kind::Queue => Ok(()),
    }
}

/// Builds the tree of a list behind all pages, and answers its root, which is the tree's first page. The page size and the order of the settings are
/// those of the pages. An error means that memory ran out, that there would be more than 2^21 pages, or that a sum of counts doesn't fit its field.
pub fn build_tree(
    alloc: Global,
    pages: &mut Pages,
    settings: &Settings,
    list: PairSlice<'_>,
) -> Result<u32, AllocError>
    requires kind { IsTreeKind settings.now.kind }
    requires size { pages.old.size ≡ settings.now.page_size }
    requires order { pages.old.order ≡ settings.now.order }
    requires some { 1 ≤ length pages.old.pages }
    requires list { IsTreeList settings.now (pairs_of list) }
    ensures { IfOk result (λ root. IsTreeBuilt settings.now (length pages.old.pages) pages.old pages.new
        (units_in settings.now.kind (pairs_of list.entry)) (listed (pairs_of list.entry)) root) }
{
    let mut builder = TreeBuilder::start(alloc, pages, settings)?;
    push_list(&mut builder, pages, settings.kind, list)?;
    let root = builder.finish(pages)?;
    Ok(root)
}
