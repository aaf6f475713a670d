ghost use Rattle.std.specs.Prelude.{◌≡◌, ◌+◌, [], false};
ghost use Rattle.bdb_ranks.specs.of_image.Linked.{HasMetadata};
ghost use Rattle.bdb_ranks.specs.of_format.Terms.{BtreeFields, BytesKey, btree_list, database_faults, file_of, get, header_in, is_recno, page_at};
ghost use Rattle.bdb_ranks.specs.of_format.Terms.{structure_faults};

use crate::entries::Scan;
use crate::found::{Found, found_on};
use crate::walk::tree_pairs;
use crate::way_down::leaf_for;
use bdb_ranks::{BtreeMeta, Linked, Steps};
use std::sync::ledger::Ledger;

/// The list of a btree: its live pairs from left to right, each key with each of its data. It takes no
/// memory.
pub fn scan<'a>(linked: &Linked<'a>, meta: &BtreeMeta) -> Scan<'a>
    requires meta { HasMetadata (file_of linked.now) (BtreeFields meta.now) }
    requires stage { structure_faults (file_of linked.now) ≡ [] }
    ensures { result ≡ btree_list (file_of linked.now) meta.now.root }
{
    let forest = linked.forest();
    let pairs = tree_pairs(&forest, linked.root(meta).number());
    Scan::over(forest, pairs)
}

/// The data that a key has in a btree, in order; none where it isn't there. One step for each page on the way
/// down, the leaf too; it takes no memory.
pub fn find<'a, L: Ledger>(
    linked: &Linked<'a>,
    meta: &BtreeMeta,
    key: &[u8],
    steps: &mut Steps<L>,
) -> Found<'a>
    requires meta { HasMetadata (file_of linked.now) (BtreeFields meta.now) }
    requires keys { is_recno meta.now ≡ false }
    requires stage { structure_faults (file_of linked.now) ≡ [] }
    requires contents { database_faults (file_of linked.now) (BtreeFields meta.now) ≡ [] }
    ensures found { result ≡ get (btree_list (file_of linked.now) meta.now.root) (BytesKey key.now) }
    ensures cost { steps.new ≡ steps.old + (header_in (page_at (file_of linked.now) meta.now.root)).level }
{
    let leaf = leaf_for(linked, meta, key, steps);
    steps.tick();
    let forest = linked.forest();
    found_on(&forest, leaf.number(), key)
}
