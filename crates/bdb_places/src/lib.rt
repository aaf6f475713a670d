//! Where keys and data stand in a run of bytes.
#![tactic(auto)]

mod place;
mod span;
mod values;

pub use bdb_format::{
    BtreeMeta, Bytes, CheckError, Fault, FileKind, HashMeta, Head, Header, ItemFault, Kind,
    MetaFault, Order, PageType, QueueMeta, RecnoItem, Reference, Settings, Sort, Steps,
    Unsupported, Verdict, is_page_size, magic_of, number_in, plain_settings,
};
pub use place::{Place, PlacedKey};
pub use span::Span;
pub use values::Values;
