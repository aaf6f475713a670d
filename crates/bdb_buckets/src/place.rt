ghost use Rattle.std.specs.Prelude.{◌≡◌};
ghost use Rattle.bdb_tree.specs.of_overflow.Datum.{datum_seen};
ghost use Rattle.bdb_buckets.specs.Places.{key_at, place_cmp};
ghost use Rattle.bdb_buckets.specs.Views.{IsTable};

use crate::pair::key_of;
use bdb_tree::{Datum, Forest, PageView, compare_datum};
use std::cmp::Ordering;

/// Where a pair of a table stands, and the first eight bytes of its key as a number.
#[derive(Drop)]
pub struct PairPlace {
    pub first: u64,
    pub page: u32,
    pub index: u16,
}

/// The key at any place, empty where no pair is.
fn key_at<'a>(forest: &Forest<'a>, place: &PairPlace) -> Datum<'a>
    requires { IsTable forest.now }
    ensures { datum_seen result ≡ key_at forest.now place.now }
{
    if place.page > forest.head().last {
        return Datum::Inline(&[]);
    }
    match forest.page(place.page) {
        PageView::Hash(view) if place.index < view.pairs() => {
            key_of(forest, &view.key(place.index))
        }
        _ => Datum::Inline(&[]),
    }
}

/// The order of two places. Keys are read only where their first eight bytes are the same.
#[tactic(auto, using(crate::proofs::Below::is_order))]
pub fn compare_places(forest: &Forest<'_>, a: &PairPlace, b: &PairPlace) -> Ordering
    requires { IsTable forest.now }
    ensures { result ≡ place_cmp forest.now a.now b.now }
{
    match a.first.cmp(&b.first) {
        Ordering::Equal => compare_datum(&key_at(forest, a), &key_at(forest, b)),
        other => other,
    }
}
