//! The databases of a file that can be read: their names, settings and lists, and what they have under a key.
#![tactic(auto)]

mod db;
pub mod laws;
mod listing;
mod lookup;
mod named;
mod readable;
mod reads;
mod under;

pub use bdb_hash_list::{DupBlocks, HashItem, TablePair, TablePairs, pairs_in_order};
pub use bdb_recno::{Bytes, Datum};
pub use db::Db;
pub use listing::Scan;
pub use lookup::{Found, found_in};
pub use named::{NamedMeta, databases_of};
pub use readable::Readable;
