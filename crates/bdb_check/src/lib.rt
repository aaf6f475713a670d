//! The checks of a whole file: stages 6 to 8.
#![tactic(auto)]

mod check;
mod contents;
mod structure;
mod unordered;

pub use bdb_any_order::{Rows, laws};
pub use bdb_master::{Entries, Pair, next_entry, page_pairs, pair_entries};
pub use bdb_recno::{
    AllError, BtreeMeta, Bytes, Datum, First, FirstError, Forest, Formed, Head, Judge, KeyView,
    Linked, Meta, NamedList, Order, Settings, Steps, Verdict, bytes_in, first_verdict, hash5,
    is_less, is_same, link_by, open_by, tree_leaves,
};
pub use check::entries_by;
