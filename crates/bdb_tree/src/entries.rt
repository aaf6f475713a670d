ghost use Rattle.std.specs.Prelude.{◌≡◌, []};
ghost use Rattle.std.specs.Iterator.{YieldsFirstBy, item_count};
ghost use Rattle.bdb_overflow.specs.of_form.Seen.{page_seen};
ghost use Rattle.bdb_overflow.specs.of_layout.Seen.{leaf_item_seen};
ghost use Rattle.bdb_overflow.specs.of_format.Terms.{entries_in, file_of, structure_faults, tree_entries};
ghost use Rattle.bdb_tree.specs.Entries.{AreFit, leaf_entries_seen};
ghost use Rattle.bdb_tree.specs.Trees.{IsRoot};

use crate::{Leaves, tree_leaves};
use bdb_overflow::{EntryLeafKind, Forest, Items, LeafItem, PageView, Records, SortedData};
use std::marker::Model;

/// The entries of one page that are left: of a leaf of records or of sorted data; another page has none.
#[derive(Drop)]
pub(crate) enum LeafEntries<'a> {
    Empty,
    Records(Items<'a, EntryLeafKind<Records>>),
    Sorted(Items<'a, EntryLeafKind<SortedData>>),
}

impl<'a> LeafEntries<'a> {
    /// All entries of a page.
    fn of_page(page: &PageView<'a>) -> LeafEntries<'a>
        ensures { leaf_entries_seen result ≡ entries_in (page_seen page.now) }
    {
        match page {
            PageView::RecnoLeaf(leaf) => LeafEntries::Records(leaf.items()),
            PageView::DupLeaf(leaf) => LeafEntries::Sorted(leaf.items()),
            _ => LeafEntries::Empty,
        }
    }

    /// The next one.
    fn next(&mut self) -> Option<LeafItem<'a>>
        ensures { YieldsFirstBy leaf_item_seen leaf_entries_seen self.old result self.new }
    {
        match self {
            LeafEntries::Empty => None,
            LeafEntries::Records(items) => items.next(),
            LeafEntries::Sorted(items) => items.next(),
        }
    }
}

/// The entries of a tree of records, or of a set off the page, that are left, deleted ones too.
#[derive(Drop)]
pub struct TreeEntries<'a> {
    forest: Forest<'a>,
    leaves: Leaves<'a>,
    entries: LeafEntries<'a>,
}

impl<'a> Model for TreeEntries<'a> {
    ghost use Rattle.std.specs.Prelude.{List};
    ghost use Rattle.bdb_overflow.specs.of_format.Terms.{Item, file_of};
    ghost use Rattle.bdb_tree.specs.Entries.{AreThere, entries_left, leaf_entries_seen};

    ghost Value = { List Item };

    ghost view = { λ it. entries_left (file_of it.forest) (leaf_entries_seen it.entries) it.leaves };

    ghost invariant = { λ it. AreThere (file_of it.forest) it.leaves };
}

/// The entries of the tree with this root, from left to right: of its leaves of records and of sorted data. No
/// memory is taken.
#[tactic(auto, using(crate::proofs::EntryLemmas::all_entries))]
pub fn tree_entries<'a>(forest: &Forest<'a>, root: u32) -> TreeEntries<'a>
    requires root { IsRoot (file_of forest.now) root }
    requires stage { structure_faults (file_of forest.now) ≡ [] }
    ensures entries { result ≡ tree_entries (file_of forest.now) root }
    ensures fit { AreFit (file_of forest.now) result }
{
    TreeEntries {
        forest: forest.again(),
        leaves: tree_leaves(forest, root),
        entries: LeafEntries::Empty,
    }
}

impl<'a> Iterator for TreeEntries<'a> {
    type Item = LeafItem<'a>;

    ghost next_gives = { YieldsFirstBy leaf_item_seen (λ left. left) };

    ghost remaining = { item_count (λ left. left) };

    fn next(&mut self) -> Option<LeafItem<'a>> {
        loop {
            if let Some(entry) = self.entries.next() {
                return Some(entry);
            }
            let leaf = self.leaves.next()?;
            self.entries = LeafEntries::of_page(&self.forest.page(leaf.number()));
        }
    }
}
