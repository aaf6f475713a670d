ghost use Rattle.std.specs.Prelude.{◌≡◌, ◌+◌, ◌<◌, ◌≤◌, ◌*◌, ◌^◌, IfOk, IsTrue, length};
ghost use Rattle.std.specs.List.{All};
ghost use Rattle.bdb_mkhash.specs.of_format.Terms.{is_page_size};
ghost use Rattle.bdb_mkhash.specs.of_places.Places.{values_seen};
ghost use Rattle.bdb_mkhash.specs.of_mkleaves.Runs.{IsShort};
ghost use Rattle.bdb_mkhash.specs.Costs.{data_form, keyed, keyed_own_pages, pages_in};

use crate::count::Count;
use crate::data::set_pages;
use bdb_mkhash::{DataForm, KeyGroup, Values, chain_pages, data_form};
use std::alloc::Global;

// The pages that the data of a key have of their own: chains, and the tree of them.
fn data_own_pages(alloc: Global, size: usize, sorted: bool, values: Values<'_>) -> Count
    requires legal { IsTrue (is_page_size size) }
    requires some { 0 < length (values_seen values) }
    requires short { All IsShort (values_seen values) }
    ensures pages { IfOk result (λ pages. pages ≡ pages_in (data_form size (values_seen values.entry)) size sorted (values_seen values.entry)) }
    ensures few { IfOk result (λ pages. pages ≤ length (values_seen values.entry) * 2 ^ 33) }
    ensures small { IfOk result (λ pages. pages ≤ 2 ^ 97) }
{
    match data_form(size, values) {
        DataForm::One => Ok(chain_pages(size, values.at(0))),
        DataForm::Set => Ok(0),
        DataForm::Tree => set_pages(alloc, size, sorted, values),
    }
}

/// The pages that a key and its data have of their own.
pub(crate) fn keyed_own_pages(alloc: Global, size: usize, sorted: bool, run: &KeyGroup<'_>) -> Count
    requires legal { IsTrue (is_page_size size) }
    requires some { 0 < length (values_seen run.now.values) }
    requires key { IsShort run.now.key.now }
    requires short { All IsShort (values_seen run.now.values) }
    ensures pages { IfOk result (λ pages. pages ≡ keyed_own_pages size sorted (keyed run.now.key.now (values_seen run.now.values))) }
    ensures few { IfOk result (λ pages. pages ≤ (length (values_seen run.now.values) + 1) * 2 ^ 33) }
{
    let data = data_own_pages(alloc, size, sorted, run.values)?;
    Ok(chain_pages(size, run.key) + data)
}
