ghost use Rattle.std.specs.Prelude.{◌≡◌, [], OnOk, if◌then◌else◌, length};
ghost use Rattle.bdb_faults.specs.Notes.{NotesAll};
ghost use Rattle.bdb_tree.specs.of_image.Linked.{IsForest};
ghost use Rattle.bdb_tree.specs.of_layout.Seen.{leaf_item_seen};
ghost use Rattle.bdb_tree.specs.of_format.Terms.{file_of, has_wrong_record, is_fixed, is_wrong_record, leaves, page_at, structure_faults, value_of};
ghost use Rattle.bdb_tree.specs.of_overflow.Datum.{FitsContent};
ghost use Rattle.bdb_recno.specs.Noted.{length_faults};
ghost use Rattle.bdb_recno.specs.Pages.{IsRecnoLeaf, IsRecnoPage};
ghost use Rattle.bdb_tree.specs.Trees.{IsRoot};

use crate::page::leaf_at;
use bdb_faults::{FaultSink, note_if};
use bdb_tree::{BtreeMeta, ContentsRow, Forest, LeafItem, Linked, Row, is_deleted, tree_leaves};
use std::alloc::AllocError;

/// How many bytes a record has. A chain isn't gone through: its length was counted when the file was linked.
#[tactic(auto, unfolding(crate::specs::Below::value_of))]
fn record_len(linked: &Linked<'_>, item: &LeafItem<'_>) -> u64
    requires { FitsContent (file_of linked.now) (leaf_item_seen item.now).content }
    ensures { result ≡ length (value_of (file_of linked.now) (leaf_item_seen item.now).content) }
{
    match item {
        LeafItem::Inline { bytes, .. } => bytes.len() as u64,
        LeafItem::Overflow { head, .. } => u64::from(linked.chain_length(*head)),
        LeafItem::Duplicates { .. } => 0,
    }
}

/// Whether a record is live and hasn't the fixed length; a deleted one isn't looked at.
fn is_wrong_record(linked: &Linked<'_>, meta: &BtreeMeta, item: &LeafItem<'_>) -> bool
    requires { FitsContent (file_of linked.now) (leaf_item_seen item.now).content }
    ensures { result ≡ is_wrong_record (file_of linked.now) meta.now (leaf_item_seen item.now) }
{
    !is_deleted(item) && record_len(linked, item) != u64::from(meta.re_len)
}

/// Whether a live record of a leaf hasn't the fixed length.
fn has_wrong_record(linked: &Linked<'_>, forest: &Forest<'_>, meta: &BtreeMeta, page: u32) -> bool
    requires same { linked.now ≡ forest.now }
    requires forest { IsForest forest.now }
    requires leaf { IsRecnoLeaf (file_of forest.now) page }
    ensures { result ≡ has_wrong_record (file_of forest.now) meta.now (page_at (file_of forest.now) page) }
{
    for item in leaf_at(forest, page).items() {
        if is_wrong_record(linked, meta, &item) {
            return true;
        }
    }
    false
}

/// Notes the leaves of a tree that have a record of a wrong length, if records have a fixed one. It takes no memory of its own.
pub(crate) fn note_lengths<F: FaultSink>(
    linked: &Linked<'_>,
    forest: &Forest<'_>,
    meta: &BtreeMeta,
    found: &mut F,
) -> Result<(), AllocError>
    requires same { linked.now ≡ forest.now }
    requires forest { IsForest forest.now }
    requires root { IsRoot (file_of forest.now) meta.now.root }
    requires recno { IsRecnoPage (file_of forest.now) meta.now.root }
    requires stage { structure_faults (file_of forest.now) ≡ [] }
    ensures { OnOk result (NotesAll (F.has_noted found.old) (F.has_noted found.new)
        (if is_fixed meta.now then length_faults (file_of forest.now) meta.now (leaves (file_of forest.now) meta.now.root) else [])) }
{
    if !meta.is_fixed() {
        return Ok(());
    }
    for leaf in tree_leaves(forest, meta.root) {
        let page = leaf.number();
        let wrong = has_wrong_record(linked, forest, meta, page);
        note_if(found, Row::Contents(ContentsRow::RecordLength), page, wrong)?;
    }
    Ok(())
}
