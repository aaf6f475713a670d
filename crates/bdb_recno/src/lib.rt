//! What a recno holds: its counts and lengths checked, its list, and a record by its number.
#![tactic(auto)]

mod contents;
mod counts;
mod found;
mod lengths;
mod list;
mod listing;
mod page;
mod search;

pub use bdb_faults::{AllError, FaultSink, First, FirstError, Judge, NamedList, first_verdict};
pub use bdb_tree::{
    BtreeMeta, Bytes, ContentsRow, Datum, Forest, Formed, Head, KeyView, Linked, Meta, Order,
    QueueMeta, Row, Settings, Steps, Verdict, bytes_in, hash5, is_less, is_same, link_by,
    note_chains, note_trees, number_in, open_by, tree_leaves,
};
pub use contents::{all_faults, check, note_contents};
pub use found::{Found, find};
pub use list::scan;
pub use listing::Scan;
