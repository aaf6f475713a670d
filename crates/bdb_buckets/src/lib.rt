//! The pairs of a hash table, bucket by bucket.
#![tactic(auto)]

mod bucket;
mod data;
mod key;
mod pair;
mod pairs;
mod place;
mod table;

pub use bdb_tree::{
    Datum, DupBlocks, Forest, HashItem, HashMeta, Head, Held, KeyView, Linked, Order, PageView,
    Steps, bucket_of, hash5, u16_at,
};
pub use bucket::{BucketPages, bucket_pages};
pub use data::Data;
pub use key::hash_of;
pub use pair::Pair;
pub use pairs::PagePairs;
pub use place::{PairPlace, compare_places};
pub use table::buckets;
