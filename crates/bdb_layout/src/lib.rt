//! Fields and items of a page, read and written.
#![tactic(auto)]

mod blocks;
mod hash;
mod hashing;
mod index;
mod internal;
mod item_rows;
mod items;
mod keys;
pub mod laws;
mod leaf;
mod lengths;
mod numbers;
mod page_bytes;
mod page_header;
mod recno;
mod writing;

pub use bdb_format::{
    BtreeMeta, Bytes, FileKind, FileRow, FormRow, HashMeta, Head, Header, ItemFault, MetaFault,
    Order, PageType, QueueMeta, RecnoItem, Sort, Unsupported, is_page_size, magic_of,
};
pub use blocks::DupBlocks;
pub use hash::{hash_item, hash_row, known_hash_item};
pub use hashing::{bucket_of, group_of, hash5, hash5_after, page_of};
pub use index::{index_end, offset_at};
pub use internal::{internal_item, internal_row, known_internal_item};
pub use items::{Content, HashItem, InternalItem, InternalKey, LeafItem};
pub use keys::compare;
pub use leaf::{known_leaf_item, leaf_item, leaf_row};
pub use lengths::{
    internal_end, leaf_end, pad4, page_slice, recno_end, records_per_page, slot_size,
};
pub use numbers::{put_u16, put_u32, u16_at, u32_at};
pub use page_bytes::PageBytes;
pub use page_header::{header, page_type};
pub use recno::{known_recno_item, recno_item, recno_row};
pub use writing::{put_hash_item, put_header, put_internal_item, put_leaf_item, put_recno_item};
