//! Plain types of a database file, and the definitions that every contract cites.
#![tactic(auto)]

mod bytes;
mod digits;
mod flags;
pub mod graph_laws;
mod head;
mod kinds;
pub mod laws;
mod metadata;
mod named;
mod pages;
mod references;
mod rows;
mod settings;
mod steps;

pub use bytes::Bytes;
pub use digits::number_in;
pub use head::{is_page_size, magic_of};
pub use kinds::{CheckError, Fault, Kind, Order, Unsupported, Verdict};
pub use metadata::{BtreeMeta, FileKind, HashMeta, Head, MetaFault, QueueMeta};
pub use named::Named;
pub use pages::{Header, ItemFault, PageType, RecnoItem, has_type, keyed_types, record_types};
pub use references::{Reference, Sort};
pub use rows::{
    ContentsRow, FileRow, FormRow, MasterRow, OwnershipRow, ReachRow, ReferenceRow, Row, RowEntry,
    StructureRow,
};
pub use settings::{Settings, plain_settings};
pub use steps::Steps;
