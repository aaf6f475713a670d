//! Where the faults of a check go: a sink that keeps the first of them, or a list of all.
#![tactic(auto)]

mod first;
mod judge;
mod list;
mod note;
mod refusals;
mod sink;

pub use bdb_format::{
    BtreeMeta, Bytes, CheckError, ContentsRow, Fault, FileKind, FileRow, FormRow, HashMeta, Head,
    Header, Kind, Named, Order, OwnershipRow, PageType, QueueMeta, ReachRow, Reference,
    ReferenceRow, Row, Settings, Sort, Steps, StructureRow, Verdict, has_type, keyed_types,
    number_in, plain_settings, record_types,
};
pub use first::{First, checked};
pub use judge::{Judge, judged};
pub use list::NamedList;
pub use note::note_if;
pub use refusals::{AllError, FirstError, check_error, first_verdict};
pub use sink::FaultSink;
