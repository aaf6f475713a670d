ghost use Rattle.std.specs.Prelude.{◌≡◌, []};
ghost use Rattle.std.specs.Iterator.{YieldsFirstBy, item_count};
ghost use Rattle.bdb_ranks.specs.of_layout.Seen.{leaf_item_seen};
ghost use Rattle.bdb_ranks.specs.of_format.Terms.{data_of, file_of, structure_faults};
ghost use Rattle.bdb_ranks.specs.of_overflow.Datum.{FitsContent, datum_seen};
ghost use Rattle.bdb_btree.specs.Pairs.{FitsSet, left_of};

use bdb_ranks::{Datum, Forest, LeafItem, SetValues, set_values, value_of};
use std::marker::Model;

/// The data of a data item that are left: one value, or those of a set off the page.
#[derive(Drop)]
pub(crate) struct ItemData<'a> {
    one: Option<Datum<'a>>,
    set: Option<SetValues<'a>>,
}

impl<'a> Model for ItemData<'a> {
    ghost use Rattle.std.specs.Prelude.{List, ℕ, ◌++◌};

    ghost Value = { List (List ℕ) };

    ghost use Rattle.bdb_btree.specs.Pairs.{left_of};
    ghost use Rattle.bdb_btree.specs.Search.{one_value};

    ghost view = { λ v. one_value v.one ++ left_of v.set };
}

/// The data of a data item.
#[tactic(auto, unfolding(crate::specs::Below::data_of))]
#[inline(always)]
pub(crate) fn item_data<'a>(forest: &Forest<'a>, item: &LeafItem<'a>) -> ItemData<'a>
    requires content { FitsContent (file_of forest.now) (leaf_item_seen item.now).content }
    requires set { FitsSet (file_of forest.now) (leaf_item_seen item.now).content }
    requires stage { structure_faults (file_of forest.now) ≡ [] }
    ensures { result ≡ data_of (file_of forest.now) (leaf_item_seen item.now).content }
{
    match item {
        LeafItem::Duplicates { root, .. } => ItemData {
            one: None,
            set: Some(set_values(forest, *root)),
        },
        LeafItem::Inline { bytes, .. } => ItemData {
            one: Some(Datum::Inline(bytes)),
            set: None,
        },
        LeafItem::Overflow { .. } => ItemData {
            one: Some(value_of(forest, item)),
            set: None,
        },
    }
}

/// The next value of a set, if there is one.
fn next_of_set<'a>(set: &mut Option<SetValues<'a>>) -> Option<Datum<'a>>
    ensures { YieldsFirstBy datum_seen left_of set.old result set.new }
{
    match set {
        Some(values) => values.next(),
        None => None,
    }
}

impl<'a> Iterator for ItemData<'a> {
    type Item = Datum<'a>;

    ghost next_gives = { YieldsFirstBy datum_seen (λ left. left) };

    ghost remaining = { item_count (λ left. left) };

    #[inline(always)]
    fn next(&mut self) -> Option<Datum<'a>> {
        match self.one.take() {
            Some(value) => Some(value),
            None => next_of_set(&mut self.set),
        }
    }
}
