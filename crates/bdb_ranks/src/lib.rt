//! The order of the values of a file, in which chains that several items name are ranked by one sort.
#![tactic(auto)]

mod ranking;
mod shared;
mod values;

pub use bdb_tree::{
    BtreeMeta, Bytes, CheckError, ContentsRow, Datum, Forest, HashMeta, Held, InternalItem,
    InternalView, KeyView, Keys, Kind, LeafItem, LeafKind, LeafPage, LeafView, Leaves, Linked,
    Meta, PagePairs, PageView, Pair, Pieces, QueueMeta, Ref, Row, Separate, SetValues, Settings,
    Steps, bucket_of, compare, compare_datum, descend_in, is_deleted, is_less, is_same, is_shared,
    is_wrong_root, key_datum, key_held, leaf_held, link, open_image, plain_settings, set_values,
    tree_entries, tree_leaves, u32_at, value_of,
};
pub use values::Values;
