//! Queues that are built from lists.
#![tactic(auto)]

mod build;
pub mod laws;
mod records;

pub use bdb_law_join::{Linked, Meta, put_btree_meta, put_hash_meta, put_queue_meta};
pub use build::build_queue;
pub use records::page_of_record;
