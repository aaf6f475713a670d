ghost use Rattle.std.specs.Prelude.{◌≡◌, ◌+◌, ◌≤◌, ◌<◌, ◌*◌, ◌^◌, IfOk, IsTrue, drop, length};
ghost use Rattle.std.specs.List.{All};
ghost use Rattle.bdb_mkhash.specs.of_format.Terms.{is_page_size};
ghost use Rattle.bdb_mkhash.specs.of_places.Places.{values_seen};
ghost use Rattle.bdb_mkhash.specs.of_text_format.Terms.{pairs_of};
ghost use Rattle.bdb_mkhash.specs.of_mkleaves.Runs.{IsShort};
ghost use Rattle.bdb_mkhash.specs.of_mkleaves.Spread.{own_pages, tree_size};
ghost use Rattle.bdb_mkhash.specs.of_mkleaves.Units.{KeyedUnit, has_own_tree};
ghost use Rattle.bdb_mkhash.specs.of_mkleaves.declared.leaf_type.LeafType.TheVariants.{Pairs};
ghost use Rattle.bdb_mkhash.specs.of_mktree.Lists.{HasBytes, keyed_units};
ghost use Rattle.bdb_mkhash.specs.of_mktree.Units.{IsShortUnit};

use crate::count::Count;
use crate::data::{data_chains, set_pages};
use crate::keyed_leaves::KeyedLeaves;
use bdb_mkhash::{KeyGroup, PairSlice, chain_pages, key_item_cost, leaf_cost, page_room, run_at};
use std::alloc::Global;

// The pages of its own: the chains of the key and its data, and the tree of the data where there is one.
fn own_pages(alloc: Global, run: &KeyGroup<'_>, size: usize, sorted: bool, has_tree: bool) -> Count
    requires legal { IsTrue (is_page_size size) }
    requires short { IsShortUnit (KeyedUnit run.now.key.now (values_seen run.now.values)) }
    requires tree { has_tree ≡ has_own_tree size run.now.key.now (values_seen run.now.values) }
    ensures pages { IfOk result (λ pages. pages ≡ own_pages size sorted (KeyedUnit run.now.key.now (values_seen run.now.values))) }
    ensures few { IfOk result (λ pages. pages ≤ (length (values_seen run.now.values) + 1) * 2 ^ 33) }
{
    let key = chain_pages(size, run.key);
    if has_tree {
        return Ok(key + set_pages(alloc, size, sorted, run.values)?);
    }
    Ok(key + data_chains(size, run.values))
}

/// The pages of a btree with these pairs.
pub(crate) fn keyed_pages(alloc: Global, size: usize, sorted: bool, pairs: PairSlice<'_>) -> Count
    requires legal { IsTrue (is_page_size size) }
    requires keys { All (λ pair. HasBytes pair.key) (pairs_of pairs) }
    requires short { All IsShortUnit (keyed_units (pairs_of pairs)) }
    ensures pages { IfOk result (λ pages. pages ≡ tree_size Pairs size sorted (keyed_units (pairs_of pairs.entry))) }
    ensures few { IfOk result (λ pages. pages < 2 ^ 100) }
{
    let mut leaves = KeyedLeaves::new(alloc, page_room(size));
    let mut own: u128 = 0;
    let mut start = 0;
    while start < pairs.len() {
        let run = run_at(pairs, start);
        let taken = leaf_cost(size, run.key, run.values);
        leaves.put(taken.cost, key_item_cost(size, run.key))?;
        own += own_pages(alloc, &run, size, sorted, taken.has_tree)?;
        start = run.end;
    }
    Ok(own + leaves.tree_pages())
}
