ghost use Rattle.std.specs.Prelude.{◌≡◌, ◌+◌, ◌<◌, ◌≤◌, ◌^◌, [], IfOk, IsTrue, length, map};
ghost use Rattle.std.specs.List.{All};
ghost use Rattle.bdb_mktree.specs.of_format.Terms.{is_page_size};
ghost use Rattle.bdb_mktree.specs.of_mkleaves.Leaves.{KeepsAll};
ghost use Rattle.bdb_mkhash.specs.Filling.{AreEmptyPages, AreFilled, IsBucketFilled, IsEmptyPage, IsFollowed, IsOpenPage, IsPageFilled};
ghost use Rattle.bdb_mkhash.specs.Pages.{HoldsContentsOn};
ghost use Rattle.bdb_mkhash.specs.Units.{IsShortUnit, units_seen};

use crate::data::put_unit;
use crate::page::{add_page, set_next};
use crate::unit::{Unit, keyed_cost};
use bdb_mktree::Pages;
use std::alloc::{AllocError, Global};

// Puts units on a page without any, as many as have room there, and answers how many.
fn fill_page(
    alloc: Global,
    pages: &mut Pages,
    page: u32,
    sorted: bool,
    units: &[Unit<'_>],
) -> Result<usize, AllocError>
    requires empty { IsEmptyPage page pages.old }
    requires short { All IsShortUnit (units_seen units.now) }
    requires legal { IsTrue (is_page_size pages.old.size) }
    ensures { IfOk result (λ n. IsPageFilled page pages.old pages.new sorted (units_seen units.now) n) }
{
    let size = pages.size();
    let mut n = 0;
    for unit in units {
        if keyed_cost(size, unit.key, unit.values) > pages.room(page) as usize {
            return Ok(n);
        }
        put_unit(alloc, pages, page, sorted, unit)?;
        n += 1;
    }
    Ok(n)
}

// Adds a page without units behind all pages, as the one after a page of a bucket.
fn follow(pages: &mut Pages, page: u32) -> Result<u32, AllocError>
    requires open { IsOpenPage page pages.old }
    requires legal { IsTrue (is_page_size pages.old.size) }
    ensures { IfOk result (λ next. IsFollowed page pages.old pages.new next) }
{
    let next = add_page(pages, page)?;
    set_next(pages, page, next);
    Ok(next)
}

// Puts the units of a bucket on its first page, and on further ones behind all pages.
fn fill_bucket(
    alloc: Global,
    pages: &mut Pages,
    first: u32,
    sorted: bool,
    units: &[Unit<'_>],
) -> Result<(), AllocError>
    requires there { first < length pages.old.pages }
    requires empty { HoldsContentsOn pages.old first 0 0 [] }
    requires short { All IsShortUnit (units_seen units.now) }
    requires legal { IsTrue (is_page_size pages.old.size) }
    ensures { IfOk result (λ _. IsBucketFilled first pages.old pages.new sorted (units_seen units.now)) }
{
    let mut page = first;
    let mut done = fill_page(alloc, pages, page, sorted, units)?;
    while done < units.len() {
        page = follow(pages, page)?;
        done += fill_page(alloc, pages, page, sorted, &units[done..])?;
    }
    Ok(())
}

/// Puts the units of each bucket on its pages. The first pages of the buckets follow each other.
pub(crate) fn fill_buckets(
    alloc: Global,
    pages: &mut Pages,
    first: u32,
    sorted: bool,
    buckets: &[Vec<Unit<'_>>],
) -> Result<(), AllocError>
    requires empty { AreEmptyPages first (length buckets.now) pages.old }
    requires short { All (λ bucket. All IsShortUnit (units_seen bucket.items)) buckets.now }
    requires legal { IsTrue (is_page_size pages.old.size) }
    requires few { first + length buckets.now < 2 ^ 32 }
    ensures { IfOk result (λ _. AreFilled first pages.old pages.new sorted (map (λ bucket. units_seen bucket.items) buckets.now)) }
{
    let mut page = first;
    for units in buckets {
        fill_bucket(alloc, pages, page, sorted, units.as_slice())?;
        page += 1;
    }
    Ok(())
}

/// Adds the first pages of so many buckets behind all pages.
pub(crate) fn add_buckets(pages: &mut Pages, count: u32) -> Result<(), AllocError>
    requires { IsTrue (is_page_size pages.old.size) }
    ensures kept { IfOk result (λ _. KeepsAll pages.old pages.new) }
    ensures count { IfOk result (λ _. length pages.new.pages ≡ length pages.old.pages + count) }
    ensures empty { IfOk result (λ _. AreEmptyPages (length pages.old.pages) count pages.new) }
    ensures few { IfOk result (λ _. 0 < count → length pages.new.pages ≤ 2 ^ 21) }
{
    for _bucket in 0..count {
        add_page(pages, 0)?;
    }
    Ok(())
}
