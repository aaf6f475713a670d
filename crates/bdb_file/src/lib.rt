//! Whole files: the verdict, and the databases of a sound one, or of one that is sound but for the order of its keys and data.
#![tactic(auto)]

pub mod laws;
mod reads;
mod sound;
mod verdict;

pub use bdb_check::{
    AllError, BtreeMeta, Bytes, Datum, Entries, First, FirstError, Forest, KeyView, Linked, Meta,
    NamedList, Order, Pair, Rows, Steps, bytes_in, hash5, is_less, is_same, next_entry, page_pairs,
    pair_entries, tree_leaves,
};
pub use bdb_databases::{
    Db, DupBlocks, Found, HashItem, Readable, Scan, TablePair, TablePairs, pairs_in_order,
};
pub use sound::Sound;
pub use verdict::{sound_by, verify, verify_all, verify_by};
