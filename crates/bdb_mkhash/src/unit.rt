ghost use Rattle.std.specs.Prelude.{◌≡◌, ◌<◌, ◌≤◌, IsTrue, length};
ghost use Rattle.bdb_mktree.specs.of_format.Terms.{is_page_size};
ghost use Rattle.bdb_mktree.specs.of_places.Places.{values_seen};
ghost use Rattle.bdb_mktree.specs.of_mkleaves.Units.{page_room};
ghost use Rattle.bdb_mkhash.specs.Costs.{data_cost, data_form, hash_item_cost, keyed, keyed_cost, set_or_none};

use crate::form::DataForm;
use bdb_mktree::Values;

/// A key of a table with all its data, one at least.
#[derive(Clone, Copy)]
pub(crate) struct Unit<'a> {
    pub(crate) key: &'a [u8],
    pub(crate) values: Values<'a>,
}

// What the item of a tree of data takes of a page, with its entry.
const TREE_COST: usize = 10;

// The entry of a value's item, and the item, on a page of so many bytes.
fn hash_item_cost(size: usize, value: &[u8]) -> usize
    requires { IsTrue (is_page_size size) }
    ensures { result ≡ hash_item_cost size value.now }
{
    if value.len() <= size / 8 {
        3 + value.len()
    } else {
        14
    }
}

// What several data take of a page as a set there, or `None` where they don't stand together. It ends where they take too much, so that no sum is too large.
fn set_or_none(size: usize, values: Values<'_>) -> Option<usize>
    requires { IsTrue (is_page_size size) }
    ensures { result ≡ set_or_none size (values_seen values.entry) }
{
    let most = (size - 26) / 4;
    let mut cost = 3;
    for i in 0..values.len() {
        let len = values.at(i).len();
        if len > size / 8 {
            return None;
        }
        cost += 4 + len;
        if cost > most {
            return None;
        }
    }
    Some(cost)
}

/// How the data of a key stand on a page of so many bytes.
pub fn data_form(size: usize, values: Values<'_>) -> DataForm
    requires legal { IsTrue (is_page_size size) }
    requires some { 0 < length (values_seen values) }
    ensures { result ≡ data_form size (values_seen values.entry) }
{
    if values.len() == 1 {
        return DataForm::One;
    }
    match set_or_none(size, values) {
        Some(_) => DataForm::Set,
        None => DataForm::Tree,
    }
}

// What the data of a key take of a page.
fn data_cost(size: usize, values: Values<'_>) -> usize
    requires legal { IsTrue (is_page_size size) }
    requires some { 0 < length (values_seen values) }
    ensures { result ≡ data_cost size (values_seen values.entry) }
{
    if values.len() == 1 {
        return hash_item_cost(size, values.at(0));
    }
    match set_or_none(size, values) {
        Some(cost) => cost,
        None => TREE_COST,
    }
}

/// What a key with its data takes of a page.
pub fn keyed_cost(size: usize, key: &[u8], values: Values<'_>) -> usize
    requires legal { IsTrue (is_page_size size) }
    requires some { 0 < length (values_seen values) }
    ensures cost { result ≡ keyed_cost size (keyed key.now (values_seen values.entry)) }
    ensures fits { result ≤ page_room size }
{
    hash_item_cost(size, key) + data_cost(size, values)
}
