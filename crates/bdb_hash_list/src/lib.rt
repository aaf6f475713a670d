//! What a hash table lists, and what it has under a key.
#![tactic(auto)]

mod listing;
mod lookup;
mod near;
mod ranked;
mod ranking;

pub use bdb_buckets::{Data as Found, DupBlocks, HashItem, Pair as TablePair};
pub use listing::Scan;
pub use lookup::find;
pub use ranked::Ranked as TablePairs;
pub use ranking::{pairs_in_order, scan};
