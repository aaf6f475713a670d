ghost use Rattle.std.specs.Prelude.{◌≡◌, [], ◌∷◌, IfSome};
ghost use Rattle.std.specs.List.{flat_map};
ghost use Rattle.std.specs.Iterator.{YieldsFirstBy, item_count};
ghost use Rattle.bdb_ranks.specs.of_format.Terms.{File, file_of, listed_pair, structure_faults};
ghost use Rattle.bdb_btree.specs.Pairs.{FitsPair, left_of, pair_seen};
ghost use Rattle.bdb_btree.specs.Search.{AreOpen, entry_seen};

use crate::data::{ItemData, item_data};
use crate::pair::Pair;
use crate::walk::Pairs;
use bdb_ranks::{Datum, Forest, KeyView, LeafItem};
use std::marker::Model;

/// The data of one pair that are left, each with the pair's key.
#[derive(Drop)]
pub struct Entries<'a> {
    key: Datum<'a>,
    values: ItemData<'a>,
}

impl<'a> Model for Entries<'a> {
    ghost use Rattle.std.specs.Prelude.{List, ℕ};
    ghost use Rattle.bdb_ranks.specs.of_format.Terms.{ListKey};

    ghost Value = { List (ListKey × List ℕ) };

    ghost use Rattle.bdb_ranks.specs.of_overflow.Datum.{datum_seen};
    ghost use Rattle.bdb_btree.specs.Search.{under};

    ghost view = { λ v. under (datum_seen v.key) v.values };
}

impl<'a> Iterator for Entries<'a> {
    type Item = (KeyView<'a>, Datum<'a>);

    ghost next_gives = { YieldsFirstBy entry_seen (λ left. left) };

    ghost remaining = { item_count (λ left. left) };

    fn next(&mut self) -> Option<(KeyView<'a>, Datum<'a>)> {
        let value = self.values.next()?;
        Some((KeyView::Bytes(self.key.again()), value))
    }
}

/// The entries of a pair; a deleted one has none.
#[inline(always)]
pub fn pair_entries<'a>(forest: &Forest<'a>, pair: Pair<'a>) -> Option<Entries<'a>>
    requires pair { FitsPair (file_of forest.now) (pair_seen pair) }
    requires stage { structure_faults (file_of forest.now) ≡ [] }
    ensures { left_of result ≡ listed_pair (file_of forest.now) (pair_seen pair.entry) }
{
    if !pair.live {
        return None;
    }
    Some(Entries {
        values: item_data(forest, &pair.item),
        key: pair.key,
    })
}

/// The next entry of a pair, if there is one.
#[inline(always)]
pub fn next_entry<'a>(here: &mut Option<Entries<'a>>) -> Option<(KeyView<'a>, Datum<'a>)>
    ensures { YieldsFirstBy entry_seen left_of here.old result here.new }
{
    match here {
        Some(entries) => entries.next(),
        None => None,
    }
}

/// The only entry of a live pair whose datum stands on its page.
#[inline(always)]
#[tactic(auto, unfolding(crate::specs::Below::data_of))]
fn entry_on_page<'a>(pair: &Pair<'a>) -> Option<(KeyView<'a>, Datum<'a>)>
    ensures { IfSome result (λ entry. (file : File) → listed_pair file (pair_seen pair.now) ≡ entry_seen entry ∷ []) }
{
    match &pair.item {
        LeafItem::Inline { bytes, .. } if pair.live => {
            Some((KeyView::Bytes(pair.key.again()), Datum::Inline(bytes)))
        }
        _ => None,
    }
}

/// The list of a btree that is left: its live pairs from left to right, each key with each of its data.
#[derive(Drop)]
pub struct Scan<'a> {
    forest: Forest<'a>,
    here: Option<Entries<'a>>,
    pairs: Pairs<'a>,
}

impl<'a> Model for Scan<'a> {
    ghost use Rattle.std.specs.Prelude.{List, ℕ};
    ghost use Rattle.bdb_ranks.specs.of_format.Terms.{ListKey, file_of};

    ghost Value = { List (ListKey × List ℕ) };

    ghost use Rattle.bdb_btree.specs.Search.{AreOpen, entries_left};

    ghost view = { λ v. entries_left (file_of v.forest) v.here v.pairs };

    ghost invariant = { λ v. AreOpen (file_of v.forest) v.pairs };
}

impl<'a> Scan<'a> {
    // The entries of these pairs.
    pub(crate) fn over(forest: Forest<'a>, pairs: Pairs<'a>) -> Scan<'a>
        requires { AreOpen (file_of forest) pairs }
        ensures { result ≡ flat_map (listed_pair (file_of forest.entry)) pairs.entry }
    {
        Scan {
            forest,
            here: None,
            pairs,
        }
    }
}

impl<'a> Iterator for Scan<'a> {
    type Item = (KeyView<'a>, Datum<'a>);

    ghost next_gives = { YieldsFirstBy entry_seen (λ left. left) };

    ghost remaining = { item_count (λ left. left) };

    #[tactic(auto, using(crate::proofs::ScanLemmas::next_entries))]
    fn next(&mut self) -> Option<(KeyView<'a>, Datum<'a>)> {
        loop {
            if let Some(entry) = next_entry(&mut self.here) {
                return Some(entry);
            }
            let pair = self.pairs.next()?;
            // Most pairs are such, and what else a pair may have takes long to set up.
            if let Some(entry) = entry_on_page(&pair) {
                return Some(entry);
            }
            self.here = pair_entries(&self.forest, pair);
        }
    }
}
