//! What a page names, slot by slot.
#![tactic(auto)]

mod names;
mod source;

pub use bdb_form::{
    ContentKind, DupLeafView, EndKind, Entries, EntryLeafKind, HashKind, HashView, IndexedView,
    InternalKind, InternalView, Items, LeafKind, LeafView, MetaView, PageKind, PagePairs, PageView,
    Pair, QueueView, RecnoInternalKind, RecnoInternalView, RecnoLeafView, Records, SortedData,
    form, is_zero, is_zero_at, known_form, known_queue_form, page_row, queue_row,
};
pub use names::content_name;
pub use source::Source;
