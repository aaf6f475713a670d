ghost use Rattle.std.specs.Prelude.{◌≡◌, ◌<◌, ◌&&◌, ◌==◌, IsTrue, OnOk, length, slice_index};
ghost use Rattle.std.specs.List.{All, flat_map};
ghost use Rattle.bdb_faults.specs.Notes.{Notes, NotesAll};
ghost use Rattle.bdb_overflow.specs.of_form.Seen.{page_seen};
ghost use Rattle.bdb_overflow.specs.of_image.Linked.{FitsLeafPage, IsForest};
ghost use Rattle.bdb_overflow.specs.of_format.Terms.{file_of, has_type, header_in, places_from, type_in, wrong_leaf_types};
ghost use Rattle.bdb_tree.specs.Noted.{is_leaf_page, place_faults, place_in};

use bdb_faults::{FaultSink, note_if};
use bdb_overflow::{Forest, PageView, Row, Sort, StructureRow};
use std::alloc::AllocError;

/// Whether a leaf names these two as its previous and its next page.
#[tactic(auto, using(crate::proofs::ShapeLemmas::leaf_header))]
fn is_between(page: &PageView<'_>, before: u32, after: u32) -> bool
    requires { IsTrue (is_leaf_page (page_seen page.now)) }
    ensures { result ≡ ((header_in (page_seen page.now)).previous == before && (header_in (page_seen page.now)).next == after) }
{
    let header = page.header();
    header.previous == before && header.next == after
}

/// Whether a leaf has the type that none of a tree has: below metadata that of sorted data, below a set that of pairs.
#[tactic(auto, using(crate::proofs::ShapeLemmas::no_dup_leaf, crate::proofs::ShapeLemmas::no_pair_leaf))]
fn has_wrong_type(page: &PageView<'_>, sort: Sort) -> bool
    requires { IsTrue (is_leaf_page (page_seen page.now)) }
    ensures { result ≡ has_type (wrong_leaf_types sort) (type_in (page_seen page.now)) }
{
    match sort {
        Sort::Root => matches!(page, PageView::DupLeaf(_)),
        Sort::DuplicateRoot => matches!(page, PageView::Leaf(_)),
        _ => false,
    }
}

/// Notes each row that holds for leaf `i` of a tree, between its neighbours.
#[tactic(auto, using(crate::proofs::TreeLemmas::leaf_inside, crate::proofs::TreeLemmas::leaf_view))]
fn note_place<F: FaultSink>(
    forest: &Forest<'_>,
    sort: Sort,
    leaves: &[u32],
    i: usize,
    found: &mut F,
) -> Result<(), AllocError>
    requires forest { IsForest forest.now }
    requires there { i < length leaves.now }
    requires leaf { FitsLeafPage (file_of forest.now) (slice_index leaves.now i) }
    ensures { OnOk result (Notes (F.has_noted found.old) (F.has_noted found.new)
        (place_faults (file_of forest.now) (place_in sort leaves.now i))) }
{
    let leaf = leaves[i];
    let page = forest.page(leaf);
    let before = if i > 0 { leaves[i - 1] } else { 0 };
    let after = leaves.get(i + 1).copied().unwrap_or(0);
    let wrong_type = has_wrong_type(&page, sort);
    let wrong_link = !is_between(&page, before, after);
    let kind = Row::Structure(StructureRow::LeafKind);
    let link = Row::Structure(StructureRow::LeafLink);
    note_if(found, kind, leaf, wrong_type)?;
    note_if(found, link, leaf, wrong_link)?;
    Ok(())
}

/// Notes each row that holds for a leaf of a tree, whose root is named by this sort.
pub(crate) fn note_places<F: FaultSink>(
    forest: &Forest<'_>,
    sort: Sort,
    leaves: &[u32],
    found: &mut F,
) -> Result<(), AllocError>
    requires forest { IsForest forest.now }
    requires leaves { All (FitsLeafPage (file_of forest.now)) leaves.now }
    ensures { OnOk result (NotesAll (F.has_noted found.old) (F.has_noted found.new)
        (flat_map (place_faults (file_of forest.now)) (places_from sort 0 leaves.now))) }
{
    for i in 0..leaves.len() {
        note_place(forest, sort, leaves, i, found)?;
    }
    Ok(())
}
