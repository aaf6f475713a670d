//! How many pages loading needs, for every list of sections, before any page is built.
#![tactic(auto)]

mod count;
mod data;
mod keyed_leaves;
mod keys;
mod levels;
mod master;
mod open_page;
mod queue;
mod records;
mod sections;
mod table;
mod trees;
mod units;

pub use bdb_mkhash::{
    BtreeMeta, Bytes, HashMeta, KeyRef, Kind, Order, Pages, PairRef, PairSlice, Place, PlacedKey,
    Section, Settings, Span, TextPairs, Values, build_table, build_tree, chain_pages, compare,
    hash5, plain_settings, u32_at,
};
pub use bdb_mkqueue::{Linked, Meta, build_queue, put_btree_meta, put_hash_meta, put_queue_meta};
pub use bdb_settle::{
    LoadError, filled, first_load_error, is_among_names, is_too_wide, ordered, page_size_in,
    settle, sooner_where, with_pairs,
};
pub use count::Count;
pub use data::{data_chains, data_pages};
pub use master::{is_short, master_settings, name_of};
pub use queue::queue_pages;
pub use sections::{filled_need, need};
pub use table::table_pages;
pub use trees::{filled_tree_pages, tree_pages};
