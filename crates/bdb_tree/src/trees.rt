ghost use Rattle.std.specs.Prelude.{◌≤◌, ◌+◌, IfSome, OnOk, Some};
ghost use Rattle.std.specs.List.{flat_map, range_with_len};
ghost use Rattle.bdb_faults.specs.Notes.{NotesAll};
ghost use Rattle.bdb_overflow.specs.of_image.Linked.{IsForest, meta_pages};
ghost use Rattle.bdb_overflow.specs.of_format.Terms.{file_of};
ghost use Rattle.bdb_tree.specs.Noted.{held_sets, meta_faults, root_faults};
ghost use Rattle.bdb_tree.specs.Trees.{IsTreePage};

use crate::leaves_below;
use crate::named_roots::{data_root, meta_root, pairs};
use crate::places::note_places;
use bdb_faults::FaultSink;
use bdb_overflow::{Forest, Linked, Sort};
use std::alloc::{AllocError, Global};

/// Notes the faults of the leaves of the tree with this root.
#[tactic(auto, using(crate::proofs::NotedLemmas::all_leaves))]
fn note_leaves<F: FaultSink>(
    alloc: Global,
    forest: &Forest<'_>,
    sort: Sort,
    root: u32,
    found: &mut F,
) -> Result<(), AllocError>
    requires forest { IsForest forest.now }
    requires root { IsTreePage (file_of forest.now) root }
    ensures { OnOk result (NotesAll (F.has_noted found.old) (F.has_noted found.new) (root_faults (file_of forest.now) sort (Some root))) }
{
    let leaves = leaves_below(alloc, forest, root)?;
    note_places(forest, sort, &leaves, found)?;
    Ok(())
}

/// Notes the faults of the leaves of the tree with this root, if there is one.
#[tactic(auto, using(crate::proofs::Below::notes_none))]
fn note_tree<F: FaultSink>(
    alloc: Global,
    forest: &Forest<'_>,
    sort: Sort,
    root: Option<u32>,
    found: &mut F,
) -> Result<(), AllocError>
    requires forest { IsForest forest.now }
    requires root { IfSome root (IsTreePage (file_of forest.now)) }
    ensures { OnOk result (NotesAll (F.has_noted found.old) (F.has_noted found.new) (root_faults (file_of forest.now) sort root)) }
{
    match root {
        Some(root) => note_leaves(alloc, forest, sort, root, found),
        None => Ok(()),
    }
}

/// Notes the faults of the sets that the data of the pairs of a page name.
fn note_sets<F: FaultSink>(
    alloc: Global,
    forest: &Forest<'_>,
    page: u32,
    found: &mut F,
) -> Result<(), AllocError>
    requires forest { IsForest forest.now }
    requires there { page ≤ (file_of forest.now).last }
    ensures { OnOk result (NotesAll (F.has_noted found.old) (F.has_noted found.new) (held_sets (file_of forest.now) page)) }
{
    let view = forest.page(page);
    for i in 0..pairs(&view) {
        note_tree(
            alloc,
            forest,
            Sort::DuplicateRoot,
            data_root(&view, i),
            found,
        )?;
    }
    Ok(())
}

/// Notes the faults of the leaves of the trees whose roots metadata names.
#[tactic(auto, using(crate::proofs::RootLemmas::meta_root_tree))]
pub(crate) fn note_metas<F: FaultSink>(
    alloc: Global,
    linked: &Linked<'_>,
    found: &mut F,
) -> Result<(), AllocError>
    ensures noted { OnOk result (NotesAll (F.has_noted found.old) (F.has_noted found.new)
        (flat_map (meta_faults (file_of linked.now)) (meta_pages (file_of linked.now)))) }
    ensures forest { IsForest linked.now }
{
    let forest = linked.forest();
    for i in 0..linked.metas() {
        let (_, meta) = linked.meta(i);
        note_tree(alloc, &forest, Sort::Root, meta_root(&meta), found)?;
    }
    Ok(())
}

/// Notes the faults of the leaves of the sets that data of pairs name. No page is looked at where no reference names a set.
pub(crate) fn note_all_sets<F: FaultSink>(
    alloc: Global,
    forest: &Forest<'_>,
    found: &mut F,
) -> Result<(), AllocError>
    ensures { OnOk result (NotesAll (F.has_noted found.old) (F.has_noted found.new)
        (flat_map (held_sets (file_of forest.now)) (range_with_len 0 ((file_of forest.now).last + 1)))) }
{
    if !forest.has_sets() {
        return Ok(());
    }
    for page in 0..forest.head().last + 1 {
        note_sets(alloc, forest, page, found)?;
    }
    Ok(())
}
