//! Typed views of one page. A view is made by the test of its page's form, and is then read without refusal.
#![tactic(auto)]

mod contents;
mod ends;
mod entry_leaf;
mod forms;
mod free;
mod hash;
mod indexed;
mod internal;
mod items;
mod leaf;
mod metadata;
mod overflow;
mod page_pairs;
mod pairs;
mod queue;
mod recno_internal;
mod rows;
mod view;
mod zero;
mod zeros;

pub use bdb_layout::{
    Bytes, Content, DupBlocks, HashItem, Header, InternalItem, InternalKey, LeafItem, Order,
    RecnoItem, Sort, page_of, u16_at,
};
pub use contents::ContentKind;
pub use ends::EndKind;
pub use entry_leaf::{DupLeafView, Entries, EntryLeafKind, RecnoLeafView, Records, SortedData};
pub use forms::{form, is_zero_at, known_form, known_queue_form, page_row, queue_form, queue_row};
pub use free::FreeView;
pub use hash::{HashKind, HashView};
pub use indexed::{IndexedView, ItemKind, PageKind};
pub use internal::{InternalKind, InternalView};
pub use items::Items;
pub use leaf::{LeafKind, LeafView};
pub use metadata::MetaView;
pub use overflow::OverflowView;
pub use page_pairs::{PagePairs, Pair};
pub use pairs::PairKind;
pub use queue::QueueView;
pub use recno_internal::{RecnoInternalKind, RecnoInternalView};
pub use view::PageView;
pub use zero::ZeroView;
pub use zeros::is_zero;
