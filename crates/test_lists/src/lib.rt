//! For tests: whether a file that was built is sound and gives a list.
#![tactic(auto)]

mod judging;

pub use bdb_file::{Datum, is_less};
pub use judging::{gives, is_pair_at, pair_of};
