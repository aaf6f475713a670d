ghost use Rattle.std.specs.Prelude.{◌≡◌, [], IsTrue};
ghost use Rattle.bdb_tree.specs.of_image.Linked.{HasMetadata};
ghost use Rattle.bdb_tree.specs.of_format.Terms.{BtreeFields, file_of, is_recno, recno_list, structure_faults};

use crate::Scan;
use crate::page::pages_of;
use bdb_tree::{BtreeMeta, Linked, tree_entries};

/// The list of a recno: its live records, each with its place among all entries, from 1. It takes no memory.
#[tactic(auto, using(crate::proofs::ScanLemmas::all_listed))]
pub fn scan<'a>(linked: &Linked<'a>, meta: &BtreeMeta) -> Scan<'a>
    requires meta { HasMetadata (file_of linked.now) (BtreeFields meta.now) }
    requires recno { IsTrue (is_recno meta.now) }
    requires stage { structure_faults (file_of linked.now) ≡ [] }
    ensures { result ≡ recno_list (file_of linked.now) meta.now.root }
{
    let forest = pages_of(linked, meta);
    let entries = tree_entries(&forest, meta.root);
    Scan::over(forest, entries)
}
