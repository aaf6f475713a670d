//! Trees that are built from units which come one by one, or from a list.
#![tactic(auto)]

mod build;
mod builder;
mod runs;
mod unit;

pub use bdb_mkleaves::{
    DupBlocks, HashItem, LeafCost, Pages, Stored, bucket_of, build_set, chain_pages, compare,
    hash5, key_item_cost, leaf_cost, length_chain, page_room, push_value, put_u16, put_u32,
    record_cost, records_per_page, slot_size, u32_at,
};
pub use bdb_text_format::{
    BtreeMeta, Bytes, HashMeta, Header, KeyRef, Kind, Order, PageType, PairRef, PairSlice, Place,
    PlacedKey, PlacedPairs, Section, Sections, Settings, Span, TextPairs, Values, are_one, key_at,
    number_of, plain_settings,
};
pub use build::build_tree;
pub use builder::TreeBuilder;
pub use runs::{KeyGroup, run_at};
pub use unit::Unit;
