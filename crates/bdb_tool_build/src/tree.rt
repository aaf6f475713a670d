//! The pairs of a btree or a recno, leaf by leaf: a key with its data, or records with their numbers.
ghost use Rattle.std.specs.Prelude.{◌≡◌, ◌+◌, ◌++◌, [], IfOk, OnOk, map};
ghost use Rattle.std.specs.List.{flat_map};
ghost use Rattle.bdb_model.specs.of_format.Terms.{BtreeFields, btree_list, file_of, list_of, listed_pair, pairs_of, recno_list, structure_faults};
ghost use Rattle.bdb_file.specs.of_image.Linked.{FitsLeafPage, HasMetadata, IsForest};
ghost use Rattle.bdb_onto.specs.Bases.{text_pair};
ghost use Rattle.bdb_tool_build.specs.Copied.{Follow};
ghost use Rattle.bdb_tool_build.specs.Gathered.{AddsEnough, IsEnough};

use crate::gathered::Gatherer;
use crate::on_leaf::{BesideEntries, OnLeaf};
use bdb_file::{Linked, tree_leaves};
use bdb_model::{BtreeMeta, TextPairs};
use bdb_onto::Beside;
use bdb_ranks::{PageView, tree_entries};
use std::alloc::{AllocError, Global};

// Adds the pairs of a leaf, but for those that a section replaces.
fn push_leaf(page: u32, all: &mut Gatherer<'_>, beside: &Beside<'_>) -> Result<(), AllocError>
    requires forest { IsForest all.old.image }
    requires page { FitsLeafPage (file_of all.old.image) page }
    requires keys { Follow (pairs_of (file_of all.old.image) page) }
    requires stage { structure_faults (file_of all.old.image) ≡ [] }
    ensures image { OnOk result (all.new.image ≡ all.old.image) }
    ensures pairs { OnOk result (AddsEnough beside.now all.old.gathered.pairs all.new.gathered.pairs
        (map text_pair (flat_map (listed_pair (file_of all.old.image)) (pairs_of (file_of all.old.image) page)))) }
{
    let forest = all.forest();
    let view = forest.page(page);
    let PageView::Leaf(leaf) = view else {
        return Ok(());
    };
    let mut pairs = leaf.iter();
    let mut on = OnLeaf::of(&forest, page);
    let mut last = None;
    while let Some(pair) = pairs.next() {
        last = Some(all.push_pair(last, &pair, &mut on, beside)?);
        on.step();
    }
    Ok(())
}

// The pairs of a btree, as if they stood in a text without numbers of lines.
fn btree_pairs(
    alloc: Global,
    linked: &Linked<'_>,
    meta: &BtreeMeta,
    beside: &Beside<'_>,
) -> Result<TextPairs, AllocError>
    requires meta { HasMetadata (file_of linked.now) (BtreeFields meta.now) }
    requires stage { structure_faults (file_of linked.now) ≡ [] }
    ensures { IfOk result (IsEnough beside.now (map text_pair (btree_list (file_of linked.now) meta.now.root))) }
{
    let forest = linked.forest();
    let mut leaves = tree_leaves(&forest, linked.root(meta).number());
    let mut all = Gatherer::new(alloc, forest)?;
    while let Some(leaf) = leaves.next() {
        push_leaf(leaf.number(), &mut all, beside)?;
    }
    Ok(all.into_pairs())
}

// The number after another; there is one for each record of a file.
fn number_after(number: u32) -> Result<u32, AllocError>
    ensures { IfOk result (λ next. next ≡ number + 1) }
{
    number.checked_add(1).ok_or(AllocError)
}

// The leaves of a tree, beside its entries.
fn beside_entries<'a>(linked: &Linked<'a>, meta: &BtreeMeta) -> BesideEntries<'a>
    requires meta { HasMetadata (file_of linked.now) (BtreeFields meta.now) }
    requires stage { structure_faults (file_of linked.now) ≡ [] }
{
    let forest = linked.forest();
    BesideEntries::over(&forest, linked.root(meta).number())
}

// The records of a recno, as if they stood so.
fn recno_pairs(
    alloc: Global,
    linked: &Linked<'_>,
    meta: &BtreeMeta,
    beside: &Beside<'_>,
) -> Result<TextPairs, AllocError>
    requires meta { HasMetadata (file_of linked.now) (BtreeFields meta.now) }
    requires stage { structure_faults (file_of linked.now) ≡ [] }
    ensures { IfOk result (IsEnough beside.now (map text_pair (recno_list (file_of linked.now) meta.now.root))) }
{
    let forest = linked.forest();
    let mut entries = tree_entries(&forest, linked.root(meta).number());
    let mut all = Gatherer::new(alloc, forest)?;
    let mut walk = beside_entries(linked, meta);
    let mut number: u32 = 0;
    while let Some(entry) = entries.next() {
        number = number_after(number)?;
        walk.turn();
        all.push_record(number, &entry, &mut walk.leaf, beside)?;
    }
    Ok(all.into_pairs())
}

/// The pairs of a tree with this metadata, as if they stood in a text without numbers of lines, but for those that a section replaces.
pub(crate) fn tree_pairs(
    alloc: Global,
    linked: &Linked<'_>,
    meta: &BtreeMeta,
    beside: &Beside<'_>,
) -> Result<TextPairs, AllocError>
    requires meta { HasMetadata (file_of linked.now) (BtreeFields meta.now) }
    requires stage { structure_faults (file_of linked.now) ≡ [] }
    ensures { IfOk result (IsEnough beside.now (map text_pair (list_of (file_of linked.now) (BtreeFields meta.now)))) }
{
    if meta.is_recno() {
        recno_pairs(alloc, linked, meta, beside)
    } else {
        btree_pairs(alloc, linked, meta, beside)
    }
}
