//! What the list of a master names, and what is wrong with it.
#![tactic(auto)]

mod counts;
mod entry;
mod master;
mod named_pages;
mod noting;
mod repeats;
mod seen_names;
mod targets;

pub use bdb_btree::{Entries, Pair, next_entry, note_contents, page_pairs, pair_entries};
pub use entry::{MasterEntry, master_among, master_entries, master_of};
pub use master::note_master;
