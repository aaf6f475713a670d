//! From a damaged image to a sound file with what is salvaged of it.
#![tactic(auto)]

mod apart;
mod apart_room;
mod error;
pub mod laws;
mod parts;
mod repairing;
mod room;
mod salvaging;
mod shape;

pub use apart::repair_apart;
pub use bdb_apart::{Apart, apart_of};
pub use bdb_io::{
    BaseSource, Failed, Image, MemSink, MemSource, PureSink, PureSource, ReadError, Sink, Source,
    StdSink, StdSource, put_all, read_image,
};
pub use bdb_law_kept::{push_line_text, read_dump};
pub use bdb_mkfile::{Linked, LoadError, Meta, hash5, load, settle};
pub use bdb_model::{
    BtreeMeta, Bytes, Duplicates, KeyRef, Kind, Order, PairSlice, Shape, Steps, TextPairs,
    Unsupported, Words,
};
pub use bdb_rescue::{
    Guess, SalvageError, Salvaged, is_queue_or_master, salvage, unsupported_case,
};
pub use error::RepairError;
pub use repairing::{repair, repair_as};
pub use salvaging::salvage_uncounted;
