//! The checks of what a hash table holds.
#![tactic(auto)]

mod chained;
mod contents;
mod hashes;
mod passed;
mod repeats;
mod rows;
mod seen;
mod set_order;
mod strays;

pub use bdb_ranks::Values;
pub use chained::Chains;
pub use contents::{all_faults, check, note_contents};
