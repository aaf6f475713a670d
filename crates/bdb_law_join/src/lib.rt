//! Parts of a file that are joined under their metadata pages: laws of one file.
#![tactic(auto)]

pub mod laws;

pub use bdb_graph::{
    Linked, Meta, put_btree_meta, put_hash_meta, put_header, put_queue_meta, records_per_page,
    slot_size,
};
pub use bdb_pack::Pages;
