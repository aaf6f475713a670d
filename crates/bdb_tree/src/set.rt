ghost use Rattle.std.specs.Prelude.{◌≡◌, []};
ghost use Rattle.std.specs.Iterator.{YieldsFirstBy, item_count};
ghost use Rattle.bdb_overflow.specs.of_image.Linked.{FitsDupRoot};
ghost use Rattle.bdb_overflow.specs.of_format.Terms.{Tree, data_of, file_of, structure_faults};
ghost use Rattle.bdb_overflow.specs.Datum.{datum_seen};

use crate::{TreeEntries, tree_entries};
use bdb_overflow::{Datum, Forest, is_deleted, value_of};
use std::marker::Model;

/// The data of a set off the page that are left: the values of the live entries of its leaves, from left to
/// right.
#[derive(Drop)]
pub struct SetValues<'a> {
    forest: Forest<'a>,
    entries: TreeEntries<'a>,
}

impl<'a> Model for SetValues<'a> {
    ghost use Rattle.std.specs.Prelude.{List, ℕ};
    ghost use Rattle.bdb_overflow.specs.of_format.Terms.{file_of};
    ghost use Rattle.bdb_tree.specs.Entries.{AreFit, values_of};

    ghost Value = { List (List ℕ) };

    ghost view = { λ it. values_of (file_of it.forest) it.entries };

    ghost invariant = { λ it. AreFit (file_of it.forest) it.entries };
}

/// The data of the set with this root, which data of a pair name. No memory is taken.
#[tactic(auto, using(crate::proofs::EntryLemmas::all_values))]
pub fn set_values<'a>(forest: &Forest<'a>, root: u32) -> SetValues<'a>
    requires root { FitsDupRoot (file_of forest.now) root }
    requires stage { structure_faults (file_of forest.now) ≡ [] }
    ensures { result ≡ data_of (file_of forest.now) (Tree root) }
{
    SetValues {
        forest: forest.again(),
        entries: tree_entries(forest, root),
    }
}

impl<'a> Iterator for SetValues<'a> {
    type Item = Datum<'a>;

    ghost next_gives = { YieldsFirstBy datum_seen (λ left. left) };

    ghost remaining = { item_count (λ left. left) };

    fn next(&mut self) -> Option<Datum<'a>> {
        while let Some(entry) = self.entries.next() {
            if !is_deleted(&entry) {
                return Some(value_of(&self.forest, &entry));
            }
        }
        None
    }
}
