ghost use Rattle.std.specs.Prelude.{◌≡◌, []};
ghost use Rattle.std.specs.Iterator.{YieldsFirstBy, item_count};
ghost use Rattle.bdb_buckets.specs.Rest.{rest_shown};
ghost use Rattle.bdb_tree.specs.of_overflow.Datum.{FitsContent, datum_seen};
ghost use Rattle.bdb_buckets.specs.Views.{FitsRoot, IsTable};
ghost use Rattle.bdb_tree.specs.of_layout.Seen.{hash_content_seen};
ghost use Rattle.bdb_tree.specs.of_format.Terms.{data_of, file_of};

use bdb_tree::{Datum, DupBlocks, Forest, HashItem, SetValues, hash_datum, set_values};
use std::marker::Model;

/// What is left of the data of a pair.
#[derive(Drop)]
pub(crate) enum Rest<'a> {
    One(Option<Datum<'a>>),
    Blocks(DupBlocks<'a>),
    Leaves(SetValues<'a>),
}

impl<'a> Rest<'a> {
    /// The first of the data that are left.
    fn first(&mut self) -> Option<Datum<'a>>
        ensures { YieldsFirstBy datum_seen rest_shown self.old result self.new }
    {
        match self {
            Rest::One(datum) => datum.take(),
            Rest::Blocks(blocks) => Some(Datum::Inline(blocks.next()?)),
            Rest::Leaves(values) => values.next(),
        }
    }
}

/// The data of a pair that are left, in the order in which they stand: its one value, the blocks of its
/// set, or the live entries of its tree of duplicates.
#[derive(Drop)]
pub struct Data<'a> {
    rest: Rest<'a>,
}

impl<'a> Model for Data<'a> {
    ghost use Rattle.std.specs.Prelude.{List, ℕ};
    ghost use Rattle.bdb_buckets.specs.Rest.{rest_shown};

    ghost Value = { List (List ℕ) };

    ghost view = { λ it. rest_shown it.rest };
}

impl<'a> Data<'a> {
    /// No data.
    pub fn none() -> Data<'a>
        ensures { result ≡ [] }
    {
        Data {
            rest: Rest::One(None),
        }
    }

    /// The data that a data item holds.
    #[tactic(auto, using(crate::proofs::DataLemmas::one_datum), unfolding(crate::specs::Below::data_of))]
    pub(crate) fn of_item(forest: &Forest<'a>, item: HashItem<'a>) -> Data<'a>
        requires table { IsTable forest.now }
        requires chain { FitsContent (file_of forest.now) (hash_content_seen item) }
        requires root { FitsRoot (file_of forest.now) (hash_content_seen item) }
        ensures { result ≡ data_of (file_of forest.now) (hash_content_seen item.entry) }
    {
        let rest = match item {
            HashItem::Set(blocks) => Rest::Blocks(blocks),
            HashItem::OffPage { root } => Rest::Leaves(set_values(forest, root)),
            HashItem::Inline(bytes) => Rest::One(Some(Datum::Inline(bytes))),
            HashItem::Overflow { head, total } => {
                Rest::One(hash_datum(forest, &HashItem::Overflow { head, total }))
            }
        };
        Data { rest }
    }
}

impl<'a> Iterator for Data<'a> {
    type Item = Datum<'a>;

    ghost next_gives = { YieldsFirstBy datum_seen (λ left. left) };

    ghost remaining = { item_count (λ left. left) };

    fn next(&mut self) -> Option<Datum<'a>> {
        self.rest.first()
    }
}
