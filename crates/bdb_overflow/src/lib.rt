//! Values, piece by piece: chains of overflow pages, and what items hold.
#![tactic(auto)]

mod chains;
mod check;
mod content;
mod datum;
mod first;
mod held;
mod item;
mod key;
mod keys;
mod lengths;
mod piece;
mod run;
mod taken;
mod values;

pub use bdb_graph::{
    BtreeMeta, Bytes, CheckError, ContentsRow, DupBlocks, DupLeafView, DupRoot, EntryLeafKind,
    Fault, Forest, Formed, HashItem, HashKind, HashMeta, HashView, Head, Header, InternalItem,
    InternalKey, InternalView, Items, Kind, LeafItem, LeafKind, LeafPage, LeafView, Linked, Meta,
    Order, PagePairs, PageType, PageView, Pair, QueueMeta, QueueView, RecnoInternalView,
    RecnoLeafView, Records, Ref, Row, Settings, Sort, SortedData, Steps, StructureRow, TreeRoot,
    Verdict, bucket_of, compare, form, has_type, hash5, hash5_after, keyed_types, known_form, link,
    link_by, number_in, open_by, open_image, plain_settings, put_u16, put_u32, record_types,
    u16_at, u32_at,
};
pub use chains::{chain_pieces, pieces};
pub use check::{chain_faults, check_chains, note_chains};
pub use content::{content_datum, hash_datum, key_datum, leaf_datum};
pub use datum::{Datum, KeyView, bytes_in};
pub use first::prefix;
pub use held::{Held, key_held, leaf_held};
pub use item::{is_deleted, value_of};
pub use key::{Key, is_less, is_same};
pub use keys::Keys;
pub use piece::{Pieces, page_bytes, pieces_at};
pub use run::compare_datum;
pub use values::{Values, is_shared};
