ghost use Rattle.std.specs.Prelude.{◌≡◌, ◌≤◌, ◌+◌, []};
ghost use Rattle.bdb_tree.specs.of_image.Linked.{HasMetadata};
ghost use Rattle.bdb_buckets.specs.Views.{IsTable};
ghost use Rattle.bdb_tree.specs.of_format.Terms.{HashFields, file_of, structure_faults};

use bdb_tree::{HashMeta, Linked};

/// How many buckets a table has.
#[tactic(auto, using(crate::proofs::Below::bucket_few, crate::proofs::TableLemmas::table_is))]
pub fn buckets(linked: &Linked<'_>, meta: &HashMeta) -> u32
    requires meta { HasMetadata (file_of linked.now) (HashFields meta.now) }
    requires stage { structure_faults (file_of linked.now) ≡ [] }
    ensures count { result ≡ meta.now.max_bucket + 1 }
    ensures table { IsTable linked.now }
{
    prove!(meta.max_bucket <= linked.head().last);
    meta.max_bucket + 1
}
