//! Hash tables that are built from lists.
#![tactic(auto)]

mod buckets;
mod build;
mod data;
mod fill;
mod form;
mod page;
mod sets;
mod store;
mod unit;

pub use bdb_mktree::{
    BtreeMeta, Bytes, HashMeta, KeyGroup, KeyRef, Kind, LeafCost, Order, Pages, PairRef, PairSlice,
    Place, PlacedKey, Section, Sections, Settings, Span, TextPairs, Values, build_tree,
    chain_pages, compare, hash5, key_item_cost, leaf_cost, length_chain, number_of, page_room,
    plain_settings, record_cost, records_per_page, run_at, u32_at,
};
pub use buckets::{bucket_among, bucket_count, table_bits};
pub use build::build_table;
pub use form::DataForm;
pub use unit::{data_form, keyed_cost};
