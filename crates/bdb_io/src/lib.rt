//! Bytes in and out, with a count of what failed.
#![tactic(auto)]

mod base;
mod calls;
mod image;
mod memory;
mod outside;
mod pure;
mod put;
mod source;

pub use base::BaseSource;
pub use bdb_format::{
    BtreeMeta, Bytes, HashMeta, Head, Kind, Order, PageType, Settings, Steps, plain_settings,
};
pub use image::{Image, ReadError, read_image};
pub use memory::{MemSink, MemSource};
pub use outside::{StdSink, StdSource};
pub use pure::{PureSink, PureSource};
pub use put::{WriteFault, put_all};
pub use source::{Failed, Sink, Source};
