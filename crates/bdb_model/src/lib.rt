//! The words of a command, and the definitions that answers cite; what bdb_faults and bdb_text_format have of lists and plain types is passed on.
#![tactic(auto)]

mod shape;
mod words;

pub use bdb_faults::{Named, NamedList};
pub use bdb_text_format::{
    BtreeMeta, Bytes, CheckError, Fault, FileKind, HashMeta, Head, Header, ItemFault, Judged, Key,
    KeyRef, Kind, MetaFault, Order, Pair, PairList, PairRef, PairSlice, QueueMeta, RecnoItem,
    Reference, Section, Sections, Settings, Sort, Span, Steps, TextFault, TextPair, TextPairs,
    TextReason, Unsupported, Verdict, number_in, plain_settings,
};
pub use shape::{Duplicates, Shape};
pub use words::Words;
