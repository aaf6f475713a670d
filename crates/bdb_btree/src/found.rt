ghost use Rattle.std.specs.Prelude.{◌≡◌, ◌∷◌, [], MatchOption};
ghost use Rattle.std.specs.Iterator.{YieldsFirstBy, item_count};
ghost use Rattle.std.specs.List.{flat_map};
ghost use Rattle.bdb_ranks.specs.of_image.Linked.{FitsLeafPage};
ghost use Rattle.bdb_ranks.specs.of_format.Terms.{file_of, pairs_of, structure_faults};
ghost use Rattle.bdb_ranks.specs.of_overflow.Datum.{datum_seen};
ghost use Rattle.bdb_btree.specs.Pairs.{FitsPair, left_of, pair_seen};
ghost use Rattle.bdb_btree.specs.Search.{AreOpen, data_under, from_key};

use crate::data::{ItemData, item_data};
use crate::pair::Pair;
use crate::walk::{PagePairs, next_pair, page_pairs};
use bdb_ranks::{Datum, Forest, is_same};
use std::marker::Model;

/// The first of these pairs that has a key; those before it are passed.
fn first_with<'a>(pairs: &mut PagePairs<'a>, key: &Datum<'_>) -> Option<Pair<'a>>
    ensures { MatchOption result (from_key (datum_seen key.now) pairs.old ≡ [])
        (λ pair. from_key (datum_seen key.now) pairs.old ≡ pair_seen pair ∷ pairs.new) }
{
    while let Some(pair) = pairs.next() {
        if is_same(&pair.key, key) {
            return Some(pair);
        }
    }
    None
}

/// The data of a live pair that has a key; another pair has none.
fn data_with<'a>(forest: &Forest<'a>, pair: &Pair<'a>, key: &Datum<'_>) -> Option<ItemData<'a>>
    requires pair { FitsPair (file_of forest.now) (pair_seen pair.now) }
    requires stage { structure_faults (file_of forest.now) ≡ [] }
    ensures { left_of result ≡ data_under (file_of forest.now) (datum_seen key.now) (pair_seen pair.now) }
{
    if is_same(&pair.key, key) && pair.live {
        return Some(item_data(forest, &pair.item));
    }
    None
}

/// The next value of a data item, if there is one.
fn next_datum<'a>(here: &mut Option<ItemData<'a>>) -> Option<Datum<'a>>
    ensures { YieldsFirstBy datum_seen left_of here.old result here.new }
{
    match here {
        Some(data) => data.next(),
        None => None,
    }
}

/// The data of a key that are left, in order.
#[derive(Drop)]
pub struct Found<'a> {
    forest: Forest<'a>,
    key: Datum<'a>,
    here: Option<ItemData<'a>>,
    pairs: Option<PagePairs<'a>>,
}

impl<'a> Model for Found<'a> {
    ghost use Rattle.std.specs.Prelude.{List, ℕ};
    ghost use Rattle.bdb_ranks.specs.of_format.Terms.{file_of};

    ghost Value = { List (List ℕ) };

    ghost use Rattle.bdb_ranks.specs.of_overflow.Datum.{datum_seen};
    ghost use Rattle.bdb_btree.specs.Pairs.{left_of};
    ghost use Rattle.bdb_btree.specs.Search.{AreOpen, found_left};

    ghost view = { λ v. found_left (file_of v.forest) (datum_seen v.key) v.here (left_of v.pairs) };

    ghost invariant = { λ v. AreOpen (file_of v.forest) (left_of v.pairs) };
}

impl<'a> Found<'a> {
    // No data.
    fn none(forest: &Forest<'a>) -> Found<'a>
        requires { structure_faults (file_of forest.now) ≡ [] }
        ensures { result ≡ [] }
    {
        Found {
            forest: forest.again(),
            key: Datum::Inline(&[]),
            here: None,
            pairs: None,
        }
    }

    // The data of a pair, and of those after it with its key.
    fn from(forest: &Forest<'a>, pair: Pair<'a>, pairs: PagePairs<'a>) -> Found<'a>
        requires pair { FitsPair (file_of forest.now) (pair_seen pair) }
        requires pairs { AreOpen (file_of forest.now) pairs }
        ensures { result ≡ flat_map (data_under (file_of forest.now) (pair_seen pair.entry).key) (pair_seen pair.entry ∷ pairs.entry) }
    {
        Found {
            forest: forest.again(),
            here: data_with(forest, &pair, &pair.key),
            key: pair.key,
            pairs: Some(pairs),
        }
    }
}

/// The data of a key on a leaf.
pub(crate) fn found_on<'a>(forest: &Forest<'a>, page: u32, key: &[u8]) -> Found<'a>
    requires page { FitsLeafPage (file_of forest.now) page }
    requires stage { structure_faults (file_of forest.now) ≡ [] }
    ensures { result ≡ flat_map (data_under (file_of forest.now) key.now) (pairs_of (file_of forest.now) page) }
{
    let Some(mut pairs) = page_pairs(forest, page) else {
        return Found::none(forest);
    };
    match first_with(&mut pairs, &Datum::Inline(key)) {
        Some(pair) => Found::from(forest, pair, pairs),
        None => Found::none(forest),
    }
}

impl<'a> Iterator for Found<'a> {
    type Item = Datum<'a>;

    ghost next_gives = { YieldsFirstBy datum_seen (λ left. left) };

    ghost remaining = { item_count (λ left. left) };

    #[tactic(auto, using(crate::proofs::FindLemmas::next_found))]
    fn next(&mut self) -> Option<Datum<'a>> {
        loop {
            if let Some(value) = next_datum(&mut self.here) {
                return Some(value);
            }
            let pair = next_pair(&mut self.pairs)?;
            self.here = data_with(&self.forest, &pair, &self.key);
        }
    }
}
