ghost use Rattle.std.specs.Prelude.{◌≡◌};
ghost use Rattle.std.specs.Iterator.{YieldsFirstBy, item_count};
ghost use Rattle.bdb_tree.specs.of_format.Terms.{file_of};
ghost use Rattle.bdb_recno.specs.Entries.{AreNumbered, listed_after};
ghost use Rattle.bdb_recno.specs.Pairs.{pair_seen};

use bdb_tree::{Datum, Forest, KeyView, TreeEntries, is_deleted, value_of};
use std::marker::Model;

/// The live records of a recno that are left, in order, each with its number as key.
#[derive(Drop)]
pub struct Scan<'a> {
    forest: Forest<'a>,
    entries: TreeEntries<'a>,
    passed: u32,
}

impl<'a> Model for Scan<'a> {
    ghost use Rattle.std.specs.Prelude.{List, ℕ};
    ghost use Rattle.bdb_tree.specs.of_format.Terms.{ListKey, file_of};
    ghost use Rattle.bdb_recno.specs.Entries.{AreNumbered, listed_after};

    ghost Value = { List (ListKey × List ℕ) };

    ghost view = { λ it. listed_after (file_of it.forest) it.passed it.entries };

    ghost invariant = { λ it. AreNumbered (file_of it.forest) it.passed it.entries };
}

impl<'a> Scan<'a> {
    // The live ones of these entries, of which the first has number 1.
    pub(crate) fn over(forest: Forest<'a>, entries: TreeEntries<'a>) -> Scan<'a>
        requires { AreNumbered (file_of forest) 0 entries }
        ensures { result ≡ listed_after (file_of forest.entry) 0 entries.entry }
    {
        Scan {
            forest,
            entries,
            passed: 0,
        }
    }
}

impl<'a> Iterator for Scan<'a> {
    type Item = (KeyView<'a>, Datum<'a>);

    ghost next_gives = { YieldsFirstBy pair_seen (λ left. left) };

    ghost remaining = { item_count (λ left. left) };

    fn next(&mut self) -> Option<(KeyView<'a>, Datum<'a>)> {
        loop {
            let entry = self.entries.next()?;
            self.passed += 1;
            if !is_deleted(&entry) {
                let value = value_of(&self.forest, &entry);
                return Some((KeyView::Number(self.passed), value));
            }
        }
    }
}
