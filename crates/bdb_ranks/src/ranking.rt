ghost use Rattle.std.specs.Prelude.{◌≡◌, ◌<◌, List, ℕ, IfOk, length};
ghost use Rattle.std.specs.List.Sorted.{IsPermutation, IsSortedBy};
ghost use Rattle.std.specs.Ordering.{is_lt};
ghost use Rattle.bdb_tree.specs.of_format.Terms.{less};
ghost use Rattle.bdb_ranks.specs.Ranks.{AreRanks, is_above, value_less};
ghost use Rattle.bdb_ranks.specs.Shared.{AreShared};

use crate::shared::{SharedChain, shared_chains};
use bdb_tree::{Forest, compare_datum, is_less};
use std::alloc::{AllocError, Global};
use std::cmp::Ordering;
use std::collections::BTreeMap;

/// The order of two chains by their values.
#[tactic(auto, using(crate::proofs::Below::by_bytes))]
fn compare_chains(a: &SharedChain<'_>, b: &SharedChain<'_>) -> Ordering
    ensures { is_lt result ≡ less a.now.value b.now.value }
{
    compare_datum(a.value(), b.value())
}

/// Puts chains into the order of their values.
fn sort_chains(chains: &mut Vec<SharedChain<'_>>)
    ensures moved { IsPermutation chains.old.items chains.new.items }
    ensures sorted { IsSortedBy value_less chains.new.items }
{
    chains.sort_unstable_by(|a, b| compare_chains(a, b));
}

/// Whether a chain, by its place, has a greater value than the one before it.
fn is_above(chains: &[SharedChain<'_>], i: usize) -> bool
    requires { i < length chains.now }
    ensures { result ≡ is_above chains.now i }
{
    i > 0 && is_less(chains[i - 1].value(), chains[i].value())
}

/// The ranks of chains in the order of their values, by their heads: the rank of each is the place of the first one that has its
/// value. An error means that memory ran out.
fn ranks_in(alloc: Global, chains: &[SharedChain<'_>]) -> Result<BTreeMap<u32, usize>, AllocError>
    requires { IsSortedBy value_less chains.now }
    ensures { IfOk result (λ ranks. (image : List ℕ) → AreShared image chains.now → AreRanks image ranks) }
{
    let mut ranks = BTreeMap::new(alloc);
    let mut rank = 0;
    for i in 0..chains.len() {
        if is_above(chains, i) {
            rank = i;
        }
        ranks.insert(chains[i].head(), rank)?;
    }
    Ok(ranks)
}

/// The ranks of the chains of a file that several items may name. An error means that memory ran out.
#[tactic(auto, using(crate::proofs::RankLemmas::shared_moved))]
pub(crate) fn ranks_of(
    alloc: Global,
    forest: &Forest<'_>,
) -> Result<BTreeMap<u32, usize>, AllocError>
    ensures { IfOk result (λ ranks. AreRanks forest.now ranks) }
{
    let mut chains = shared_chains(alloc, forest)?;
    sort_chains(&mut chains);
    ranks_in(alloc, &chains)
}
