ghost use Rattle.std.specs.Prelude.{◌≡◌, ◌++◌, List, ℕ};
ghost use Rattle.std.specs.Iterator.{YieldsFirstBy, item_count};
ghost use Rattle.std.specs.List.{flat_map};
ghost use Rattle.bdb_hash_list.specs.Scanned.{entry_seen};
ghost use Rattle.bdb_buckets.specs.of_overflow.Datum.{datum_seen};
ghost use Rattle.bdb_buckets.specs.Told.{entry_list, listed_told};
ghost use Rattle.bdb_buckets.specs.of_format.Terms.{ListKey};

use crate::ranked::Ranked;
use bdb_buckets::{Data, Datum, KeyView};
use std::marker::Model;

/// The list of a table that is left, in the order of its keys: each key with each of its data.
#[derive(Drop)]
pub struct Scan<'a> {
    rest: Ranked<'a>,
    key: Datum<'a>,
    values: Data<'a>,
}

impl<'a> Model for Scan<'a> {
    ghost use Rattle.std.specs.Prelude.{◌++◌, List, ℕ};
    ghost use Rattle.std.specs.List.{flat_map};
    ghost use Rattle.bdb_buckets.specs.of_overflow.Datum.{datum_seen};
    ghost use Rattle.bdb_buckets.specs.Told.{entry_list, listed_told};
    ghost use Rattle.bdb_buckets.specs.of_format.Terms.{ListKey};

    ghost Value = { List (ListKey × List ℕ) };

    ghost view = { λ it. entry_list (datum_seen it.key) it.values ++ flat_map listed_told it.rest };
}

impl<'a> Scan<'a> {
    /// The list of these pairs.
    pub(crate) fn over(pairs: Ranked<'a>) -> Scan<'a>
        ensures { result ≡ flat_map listed_told pairs.entry }
    {
        Scan {
            rest: pairs,
            key: Datum::Inline(&[]),
            values: Data::none(),
        }
    }
}

/// The first of the data that are left, of this key and of the pairs after it, with its key.
#[tactic(auto, using(crate::proofs::ListingLemmas::listed_at_once))]
fn next_entry<'a>(
    rest: &mut Ranked<'a>,
    key: &mut Datum<'a>,
    values: &mut Data<'a>,
) -> Option<(KeyView<'a>, Datum<'a>)>
    ensures { YieldsFirstBy entry_seen (λ (left : List (ListKey × List ℕ)). left) (entry_list (datum_seen key.old) values.old ++ flat_map listed_told rest.old)
        result (entry_list (datum_seen key.new) values.new ++ flat_map listed_told rest.new) }
{
    loop {
        if let Some(value) = values.next() {
            return Some((KeyView::Bytes(key.again()), value));
        }
        let pair = rest.next()?;
        // Most pairs are such, and what else a pair may have takes long to set up.
        if let Some(bytes) = pair.value_on_page() {
            return Some((KeyView::Bytes(pair.key().again()), Datum::Inline(bytes)));
        }
        let (next_key, next_values) = pair.into_entry();
        *key = next_key;
        *values = next_values;
    }
}

impl<'a> Iterator for Scan<'a> {
    type Item = (KeyView<'a>, Datum<'a>);

    ghost next_gives = { YieldsFirstBy entry_seen (λ left. left) };

    ghost remaining = { item_count (λ left. left) };

    fn next(&mut self) -> Option<(KeyView<'a>, Datum<'a>)> {
        next_entry(&mut self.rest, &mut self.key, &mut self.values)
    }
}
