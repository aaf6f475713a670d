//! Trees that are built unit by unit: leaves that take units, levels that are laid over them, and laws of the trees that they make.
#![tactic(auto)]

mod children;
mod costs;
mod entries;
mod finish;
mod inner;
pub mod laws;
mod leaf_type;
mod leaves;
mod levels;
mod moving;
mod pairs;
mod placing;
mod sets;
mod tower;
mod units;

pub use bdb_pack::{
    DupBlocks, HashItem, Pages, Stored, bucket_of, compare, hash5, push_value, put_u16, put_u32,
    records_per_page, slot_size, u32_at,
};
pub use costs::{
    LeafCost, chain_pages, key_item_cost, leaf_cost, length_chain, page_room, record_cost,
};
pub use leaf_type::LeafType;
pub use leaves::Leaves;
pub use sets::build_set;
