ghost use Rattle.std.specs.Prelude.{◌≡◌, ◌+◌, [], false};
ghost use Rattle.bdb_ranks.specs.of_image.Linked.{FitsLeafPage, HasMetadata, IsForest};
ghost use Rattle.bdb_ranks.specs.of_format.Terms.{BtreeFields, database_faults, file_of, header_in, is_recno, page_at};
ghost use Rattle.bdb_ranks.specs.of_overflow.Datum.{FitsContent};
ghost use Rattle.bdb_ranks.specs.of_tree.Descent.{descent};
ghost use Rattle.bdb_btree.specs.Search.{is_below};

use bdb_ranks::{
    BtreeMeta, Datum, Forest, LeafPage, Linked, Ref, Separate, Steps, descend_in, is_less,
    key_datum,
};
use std::sync::ledger::Ledger;

/// A key that is sought among the items of internal pages.
#[derive(Drop)]
struct Sought<'s, 'a> {
    forest: &'s Forest<'a>,
    key: &'s [u8],
}

impl<'s, 'a> Separate for Sought<'s, 'a> {
    ghost reads = { λ sought item. FitsContent (file_of sought.forest.now) item.key };

    ghost says = { λ sought item. is_below (file_of sought.forest.now) sought.key.now item };

    fn below(&self, item: &bdb_ranks::InternalItem<'_>) -> bool {
        is_less(&Datum::Inline(self.key), &key_datum(self.forest, &item.key))
    }
}

/// The leaf on which a key of a btree stands, or would stand. One step for each internal page on the way down;
/// it takes no memory.
pub fn leaf_for<L: Ledger>(
    linked: &Linked<'_>,
    meta: &BtreeMeta,
    key: &[u8],
    steps: &mut Steps<L>,
) -> Ref<LeafPage>
    requires meta { HasMetadata (file_of linked.now) (BtreeFields meta.now) }
    requires keys { is_recno meta.now ≡ false }
    requires contents { database_faults (file_of linked.now) (BtreeFields meta.now) ≡ [] }
    ensures leaf { result ≡ descent (header_in (page_at (file_of linked.now) meta.now.root)).level (file_of linked.now)
        (is_below (file_of linked.now) key.now) meta.now.root }
    ensures fits { FitsLeafPage (file_of linked.now) result }
    ensures forest { IsForest linked.now }
    ensures cost { steps.new + 1 ≡ steps.old + (header_in (page_at (file_of linked.now) meta.now.root)).level }
{
    let forest = linked.forest();
    let sought = Sought {
        forest: &forest,
        key,
    };
    descend_in(&forest, linked.root(meta).number(), &sought, steps)
}
