//! Metadata pages, read and written.
#![tactic(auto)]

mod btree;
mod file_head;
mod first_page;
mod generic;
pub mod laws;
mod queue;
mod table;

pub use bdb_layout::{
    BtreeMeta, Content, DupBlocks, FileKind, HashItem, HashMeta, Head, InternalItem, InternalKey,
    ItemFault, LeafItem, MetaFault, Order, QueueMeta, Unsupported, bucket_of, compare, group_of,
    hash5, hash5_after, header, index_end, known_hash_item, known_internal_item, known_leaf_item,
    leaf_item, offset_at, page_of, page_slice, page_type, put_header, put_u16, put_u32,
    records_per_page, slot_size, u16_at, u32_at,
};
pub use btree::{btree_fields, btree_meta, checked_btree, put_btree_meta};
pub use file_head::{checked_head, head};
pub use first_page::{first_page_case, first_page_is_queue_or_master};
pub use queue::{checked_queue, put_queue_meta, queue_fields, queue_meta};
pub use table::{checked_table, hash_fields, hash_meta, put_hash_meta};
