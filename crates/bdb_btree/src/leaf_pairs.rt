ghost use Rattle.std.specs.Prelude.{◌≡◌, [], map};
ghost use Rattle.bdb_ranks.specs.of_image.Linked.{HasMetadata};
ghost use Rattle.bdb_ranks.specs.of_format.Terms.{BtreeFields, file_of, structure_faults, tree_pairs};
ghost use Rattle.bdb_btree.specs.Held.{AreKeyed, stored_as};
ghost use Rattle.bdb_btree.specs.Pairs.{AreFit};
ghost use Rattle.bdb_ranks.specs.of_image.Linked.{IsForest};

use crate::held::{HeldPairs, tree_items};
use bdb_ranks::{BtreeMeta, Linked};

/// All pairs of a btree, from left to right, deleted ones too, as their items hold them. It takes no memory.
#[tactic(auto, using(crate::proofs::HeldLemmas::stored_fit, crate::proofs::HeldLemmas::tree_keyed, crate::proofs::HeldLemmas::tree_stored))]
pub fn pairs<'a>(linked: &Linked<'a>, meta: &BtreeMeta) -> HeldPairs<'a>
    requires meta { HasMetadata (file_of linked.now) (BtreeFields meta.now) }
    requires stage { structure_faults (file_of linked.now) ≡ [] }
    ensures pairs { map (stored_as (file_of linked.now)) result ≡ tree_pairs (file_of linked.now) meta.now.root }
    ensures keyed { AreKeyed (file_of linked.now) result }
    ensures fits { AreFit (file_of linked.now) (map (stored_as (file_of linked.now)) result) }
    ensures forest { IsForest linked.now }
{
    tree_items(&linked.forest(), linked.root(meta).number())
}
