ghost use Rattle.std.specs.Prelude.{◌≡◌, ◌+◌, ◌<◌, ◌≤◌, ◌%◌, false, IfOk, IsTrue, length};
ghost use Rattle.std.specs.List.{All};
ghost use Rattle.bdb_mktree.specs.of_format.Terms.{is_page_size};
ghost use Rattle.bdb_mktree.specs.of_places.Places.{values_seen};
ghost use Rattle.bdb_mktree.specs.of_mkleaves.Runs.{IsShort};
ghost use Rattle.bdb_mkhash.specs.Costs.{data_cost, data_form, hash_item_cost, keyed_cost};
ghost use Rattle.bdb_mkhash.specs.Filling.{AreDataPut, IsHalfPage, IsOpenPage, IsUnitPut, IsValuePut, IsWholePage, room_on};
ghost use Rattle.bdb_mkhash.specs.Units.{IsShortUnit, unit_seen};
ghost use Rattle.bdb_mkhash.specs.declared.form.DataForm.TheVariants.{One as OneDatum, Set as SetOnPage, Tree as OwnTree};

use crate::form::DataForm;
use crate::page::append_item;
use crate::sets::spell_set;
use crate::store::store;
use crate::unit::{Unit, data_form};
use bdb_mktree::{DupBlocks, HashItem, Pages, Values, build_set};
use std::alloc::{AllocError, Global};

// Puts a value at the end of a page: its item, or that of a chain behind all pages.
fn put_value(pages: &mut Pages, page: u32, value: &[u8]) -> Result<(), AllocError>
    requires open { IsOpenPage page pages.old }
    requires short { IsShort value.now }
    requires legal { IsTrue (is_page_size pages.old.size) }
    requires room { hash_item_cost pages.old.size value.now ≤ room_on pages.old page }
    ensures { IfOk result (λ _. IsValuePut page pages.old pages.new value.now) }
{
    let item = store(pages, value)?;
    append_item(pages, page, &item);
    Ok(())
}

// Puts one datum at the end of a page.
fn put_one(pages: &mut Pages, page: u32, sorted: bool, values: Values<'_>) -> Result<(), AllocError>
    requires open { IsHalfPage page pages.old }
    requires short { All IsShort (values_seen values) }
    requires legal { IsTrue (is_page_size pages.old.size) }
    requires form { data_form pages.old.size (values_seen values) ≡ OneDatum }
    requires room { data_cost pages.old.size (values_seen values) ≤ room_on pages.old page }
    ensures { IfOk result (λ _. AreDataPut page pages.old pages.new sorted (values_seen values.entry)) }
{
    put_value(pages, page, values.at(0))?;
    Ok(())
}

// Puts several data at the end of a page, as a set there.
fn put_set(
    alloc: Global,
    pages: &mut Pages,
    page: u32,
    sorted: bool,
    values: Values<'_>,
) -> Result<(), AllocError>
    requires open { IsHalfPage page pages.old }
    requires legal { IsTrue (is_page_size pages.old.size) }
    requires form { data_form pages.old.size (values_seen values) ≡ SetOnPage }
    requires room { data_cost pages.old.size (values_seen values) ≤ room_on pages.old page }
    ensures { IfOk result (λ _. AreDataPut page pages.old pages.new sorted (values_seen values.entry)) }
{
    let order = pages.order();
    let run = spell_set(alloc, order, values)?;
    let Some(set) = DupBlocks::over(run.as_slice(), order) else {
        unreachable!()
    };
    append_item(pages, page, &HashItem::Set(set));
    Ok(())
}

// Puts the tree of several data, which stands behind all pages, at the end of a page.
fn put_tree(
    alloc: Global,
    pages: &mut Pages,
    page: u32,
    sorted: bool,
    values: Values<'_>,
) -> Result<(), AllocError>
    requires open { IsHalfPage page pages.old }
    requires short { All IsShort (values_seen values) }
    requires legal { IsTrue (is_page_size pages.old.size) }
    requires form { data_form pages.old.size (values_seen values) ≡ OwnTree }
    requires some { 0 < length (values_seen values) }
    requires room { data_cost pages.old.size (values_seen values) ≤ room_on pages.old page }
    ensures { IfOk result (λ _. AreDataPut page pages.old pages.new sorted (values_seen values.entry)) }
{
    let root = build_set(alloc, pages, sorted, values)?;
    append_item(pages, page, &HashItem::OffPage { root });
    Ok(())
}

// Puts the data of a key at the end of a page.
fn put_data(
    alloc: Global,
    pages: &mut Pages,
    page: u32,
    sorted: bool,
    values: Values<'_>,
) -> Result<(), AllocError>
    requires open { IsHalfPage page pages.old }
    requires short { All IsShort (values_seen values) }
    requires some { 0 < length (values_seen values) }
    requires legal { IsTrue (is_page_size pages.old.size) }
    requires room { data_cost pages.old.size (values_seen values) ≤ room_on pages.old page }
    ensures { IfOk result (λ _. AreDataPut page pages.old pages.new sorted (values_seen values.entry)) }
{
    match data_form(pages.size(), values) {
        DataForm::One => put_one(pages, page, sorted, values),
        DataForm::Set => put_set(alloc, pages, page, sorted, values),
        DataForm::Tree => put_tree(alloc, pages, page, sorted, values),
    }
}

/// Puts a key with its data at the end of a page. Chains and the tree of the data stand behind all pages.
pub(crate) fn put_unit(
    alloc: Global,
    pages: &mut Pages,
    page: u32,
    sorted: bool,
    unit: &Unit<'_>,
) -> Result<(), AllocError>
    requires open { IsWholePage page pages.old }
    requires short { IsShortUnit (unit_seen unit.now) }
    requires legal { IsTrue (is_page_size pages.old.size) }
    requires room { keyed_cost pages.old.size (unit_seen unit.now) ≤ room_on pages.old page }
    ensures { IfOk result (λ _. IsUnitPut page pages.old pages.new sorted (unit_seen unit.now)) }
{
    put_value(pages, page, unit.key)?;
    put_data(alloc, pages, page, sorted, unit.values)?;
    Ok(())
}
