//! What a damaged image stores, its pages, and what begins at each: a whole chain, the leaves of a set, or a way down.
#![tactic(auto)]

mod chain;
mod down;
mod guess;
pub mod laws;
mod links;
mod metadata;
mod row_leaves;
mod slots;
mod survey;
mod whole_pages;

pub use bdb_law_sums::{Datum, KeyView, Meta, Pieces, bytes_in, compare_datum};
pub use bdb_meta::{
    Content, DupBlocks, Unsupported, first_page_case, first_page_is_queue_or_master, queue_fields,
    u16_at, u32_at,
};
pub use chain::chain_of;
pub use guess::Guess;
pub use row_leaves::RowPages;
pub use slots::{Slots, entry_slots, paired_slots};
pub use survey::Survey;
pub use whole_pages::WholePages;
