ghost use Rattle.std.specs.Prelude.{◌≡◌, ◌+◌, ◌≤◌, ◌*◌, ◌^◌, IfOk, IsTrue, length};
ghost use Rattle.std.specs.List.{All, sum_by};
ghost use Rattle.bdb_mkhash.specs.of_format.Terms.{is_page_size};
ghost use Rattle.bdb_mkhash.specs.of_places.Places.{values_seen};
ghost use Rattle.bdb_mkhash.specs.of_mkleaves.Runs.{IsShort};
ghost use Rattle.bdb_mkhash.specs.of_mkleaves.Spread.{leaves_and_levels, set_pages, set_type};
ghost use Rattle.bdb_mkhash.specs.of_mkleaves.Units.{chain_pages};
ghost use Rattle.bdb_mkhash.specs.of_mkleaves.declared.leaf_type.LeafType.TheVariants.{Records, SortedData};
ghost use Rattle.bdb_need.specs.Counting.{data_units};

use crate::count::Count;
use crate::keyed_leaves::KeyedLeaves;
use crate::open_page::OpenPage;
use bdb_mkhash::{Values, chain_pages, key_item_cost, page_room, record_cost};
use std::alloc::Global;

/// The pages of the chains of data.
pub fn data_chains(size: usize, values: Values<'_>) -> u128
    requires legal { IsTrue (is_page_size size) }
    requires short { All IsShort (values_seen values) }
    ensures pages { result ≡ sum_by (chain_pages size) (values_seen values.entry) }
    ensures few { result ≤ length (values_seen values.entry) * 2 ^ 32 }
    ensures small { result ≤ 2 ^ 96 }
{
    let mut pages: u128 = 0;
    for i in 0..values.len() {
        pages += chain_pages(size, values.at(i));
    }
    pages
}

// The leaves of sorted data, with the levels over them.
fn sorted_pages(alloc: Global, size: usize, values: Values<'_>) -> Count
    requires { IsTrue (is_page_size size) }
    ensures pages { IfOk result (λ pages. pages ≡ leaves_and_levels SortedData size (data_units (values_seen values.entry))) }
    ensures few { IfOk result (λ pages. pages ≤ 3 * (length (values_seen values.entry) + 1)) }
    ensures small { IfOk result (λ pages. pages ≤ 2 ^ 66) }
{
    let mut leaves = KeyedLeaves::new(alloc, page_room(size));
    for i in 0..values.len() {
        let value = values.at(i);
        leaves.put(record_cost(size, value.len()), key_item_cost(size, value))?;
    }
    Ok(leaves.tree_pages())
}

// The leaves of data in the order in which they came, with the levels over them.
fn unsorted_pages(size: usize, values: Values<'_>) -> u128
    requires { IsTrue (is_page_size size) }
    ensures pages { result ≡ leaves_and_levels Records size (data_units (values_seen values.entry)) }
    ensures few { result ≤ 3 * (length (values_seen values.entry) + 1) }
    ensures small { result ≤ 2 ^ 66 }
{
    let mut open = OpenPage::new(page_room(size));
    for i in 0..values.len() {
        open.put(record_cost(size, values.at(i).len()));
    }
    open.tree_pages()
}

/// The leaves of the tree of a key's data, with the levels over them. An error means that memory ran out.
pub fn data_pages(alloc: Global, size: usize, sorted: bool, values: Values<'_>) -> Count
    requires { IsTrue (is_page_size size) }
    ensures pages { IfOk result (λ pages. pages ≡ leaves_and_levels (set_type sorted) size (data_units (values_seen values.entry))) }
    ensures few { IfOk result (λ pages. pages ≤ 3 * (length (values_seen values.entry) + 1)) }
    ensures small { IfOk result (λ pages. pages ≤ 2 ^ 66) }
{
    if sorted {
        sorted_pages(alloc, size, values)
    } else {
        Ok(unsorted_pages(size, values))
    }
}

/// The pages of the tree of a key's data, with their chains.
pub(crate) fn set_pages(alloc: Global, size: usize, sorted: bool, values: Values<'_>) -> Count
    requires legal { IsTrue (is_page_size size) }
    requires short { All IsShort (values_seen values) }
    ensures pages { IfOk result (λ pages. pages ≡ set_pages size sorted (values_seen values.entry)) }
    ensures few { IfOk result (λ pages. pages ≤ length (values_seen values.entry) * 2 ^ 32 + 3 * (length (values_seen values.entry) + 1)) }
    ensures small { IfOk result (λ pages. pages ≤ 2 ^ 97) }
{
    let chains = data_chains(size, values);
    let tree = data_pages(alloc, size, sorted, values)?;
    Ok(chains + tree)
}
