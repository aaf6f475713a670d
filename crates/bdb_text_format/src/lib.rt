//! The sections of dump texts, and the definitions of how such a text is written, reads, and what its first fault is.
#![tactic(auto)]

mod faults;
mod gathered;
mod keywords;
mod lent;
mod list;
mod page_room;
mod pairs;
mod sections;

pub use bdb_places::{
    BtreeMeta, Bytes, CheckError, Fault, FileKind, HashMeta, Head, Header, ItemFault, Kind,
    MetaFault, Order, PageType, Place, PlacedKey, QueueMeta, RecnoItem, Reference, Settings, Sort,
    Span, Steps, Unsupported, Values, Verdict, is_page_size, magic_of, number_in, plain_settings,
};
pub use faults::{TextFault, TextReason};
pub use gathered::Gathered;
pub use keywords::Judged;
pub use lent::{KeyRef, PairRef, PairSlice, are_one, key_at, number_of, pair_at};
pub use list::{PairList, lent_key};
pub use page_room::PageRoom;
pub use pairs::{Key, Pair, PlacedPairs, TextPair, TextPairs};
pub use sections::{Section, Sections};
