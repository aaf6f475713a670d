//! What pages and files are in the other byte order: definitions, and their laws.
#![tactic(auto)]

mod laid;
pub mod laws;

pub use bdb_graph::{
    DupBlocks, EndKind, Entries, EntryLeafKind, FileKind, HashItem, HashKind, Head, InternalItem,
    InternalKey, InternalKind, LeafItem, LeafKind, Linked, Order, PageKind, PageType, PageView,
    RecnoInternalKind, Records, SortedData, index_end, is_zero, known_hash_item,
    known_internal_item, known_leaf_item, link, offset_at, open_image, page_bytes, page_type,
    u16_at,
};
pub use laid::LaidKind;
