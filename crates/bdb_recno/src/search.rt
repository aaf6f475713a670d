ghost use Rattle.std.specs.Prelude.{◌≡◌, ◌+◌, ◌≤◌};
ghost use Rattle.std.specs.List.{slice_get};
ghost use Rattle.std.specs.Option.{option_map};
ghost use Rattle.bdb_tree.specs.of_image.Linked.{IsForest};
ghost use Rattle.bdb_tree.specs.of_layout.Seen.{leaf_item_seen};
ghost use Rattle.bdb_tree.specs.of_format.Terms.{file_of, header_in, page_at, tree_entries};
ghost use Rattle.bdb_recno.specs.Counts.{HasRightCounts, child_by_count};
ghost use Rattle.bdb_recno.specs.Pages.{IsRecnoPage};

use crate::page::{RecnoPage, recno_page};
use bdb_tree::{Forest, LeafItem, RecnoInternalView, RecnoLeafView, Steps};
use std::sync::ledger::Ledger;

/// By the counts of an internal page, the child below which the entry at a place stands, from 0, and its place there.
#[tactic(auto, using(crate::proofs::SearchLemmas::count_here, crate::proofs::SearchLemmas::count_later))]
fn child_by_count(page: &RecnoInternalView<'_>, place: u32) -> Option<(u32, u32)>
    ensures { result ≡ child_by_count page.now.items place }
{
    let mut left = place;
    for i in 0..page.entries() {
        let item = page.item(i);
        if left < item.count {
            return Some((item.child, left));
        }
        left -= item.count;
    }
    None
}

/// The entry at a place of a leaf, from 0.
fn entry_of<'a>(leaf: &RecnoLeafView<'a>, place: u32) -> Option<LeafItem<'a>>
    ensures { option_map leaf_item_seen result ≡ slice_get leaf.now.items place }
{
    if place < u32::from(leaf.entries()) {
        return Some(leaf.item(place as u16));
    }
    None
}

/// The entry at a place among all below a page, from 0: a step for each page from there down to a leaf.
#[tactic(auto, using(crate::proofs::SearchLemmas::some_level, crate::proofs::SearchLemmas::way_leaf))]
pub(crate) fn entry_below<'a, L: Ledger>(
    forest: &Forest<'a>,
    root: u32,
    place: u32,
    steps: &mut Steps<L>,
) -> Option<LeafItem<'a>>
    requires forest { IsForest forest.now }
    requires root { IsRecnoPage (file_of forest.now) root }
    requires counts { HasRightCounts (file_of forest.now) root }
    ensures entry { option_map leaf_item_seen result ≡ slice_get (tree_entries (file_of forest.now) root) place }
    ensures cost { steps.new ≤ steps.old + (header_in (page_at (file_of forest.now) root)).level }
{
    let mut page = root;
    let mut left = place;
    loop {
        steps.tick();
        match recno_page(forest, page) {
            RecnoPage::Leaf(leaf) => return entry_of(&leaf, left),
            RecnoPage::Internal(inner) => {
                let (child, below) = child_by_count(&inner, left)?;
                page = child;
                left = below;
            }
        }
    }
}
