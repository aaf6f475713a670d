//! A file that is sound up to stage 6, and the btree on its page 0.

ghost use Rattle.std.specs.Prelude.{◌≡◌, [], IfSome, IsTrue, false};
ghost use Rattle.bdb_tree.specs.of_image.Linked.{HasMetadata};
ghost use Rattle.bdb_tree.specs.of_format.Terms.{BtreeFields, file_of, is_recno, structure_faults};

use bdb_tree::{BtreeMeta, Linked, Meta, check_chains, check_trees};
use std::alloc::Global;

/// Whether no row of stage 6 holds; not, where memory runs out.
#[tactic(auto, using(bdb_tree::proofs::StageLemmas::no_structure_fault))]
pub fn has_sound_trees(alloc: Global, linked: &Linked<'_>) -> bool
    ensures { IsTrue result → structure_faults (file_of linked.now) ≡ [] }
{
    check_chains(linked).is_ok() && check_trees(alloc, linked).is_ok()
}

/// The metadata of page 0, if it's that of a btree or a recno.
pub fn btree_of(linked: &Linked<'_>) -> Option<BtreeMeta>
    ensures { IfSome result (λ meta. HasMetadata (file_of linked.now) (BtreeFields meta)) }
{
    if linked.metas() == 0 {
        return None;
    }
    match linked.meta(0) {
        (_, Meta::Btree(meta)) => Some(meta),
        _ => None,
    }
}

/// Whether a btree isn't a recno.
pub fn is_keyed(meta: &BtreeMeta) -> bool
    ensures { IsTrue result → is_recno meta.now ≡ false }
{
    !meta.is_recno()
}

/// Whether it's a recno.
pub fn is_recno(meta: &BtreeMeta) -> bool
    ensures { IsTrue result → IsTrue (is_recno meta.now) }
{
    meta.is_recno()
}
