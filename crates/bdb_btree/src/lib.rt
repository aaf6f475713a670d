//! What a btree holds, and the faults of its contents.
#![tactic(auto)]

mod contents;
mod counts;
mod data;
mod data_order;
mod duplicates;
mod ends;
mod entries;
mod found;
mod held;
mod inner;
mod leaf_pairs;
mod lookups;
mod order;
mod pair;
mod pair_rows;
mod separators;
mod walk;
mod way_down;

pub use bdb_faults::{FaultSink, NamedList};
pub use bdb_ranks::{
    BtreeMeta, Bytes, Datum, Forest, HashMeta, KeyView, Kind, LeafItem, LeafPage, Linked, Meta,
    PageView, Pieces, QueueMeta, Ref, Settings, Steps, compare_datum, is_less, link, open_image,
    plain_settings, u32_at,
};
pub use contents::{all_faults, check, note_contents};
pub use entries::{Entries, Scan, next_entry, pair_entries};
pub use found::Found;
pub use held::{HeldPair, HeldPairs};
pub use leaf_pairs::pairs;
pub use lookups::{find, scan};
pub use pair::Pair;
pub use walk::{PagePairs, next_pair, page_pairs};
pub use way_down::leaf_for;
