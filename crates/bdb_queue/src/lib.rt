//! The records of a queue, in order and by their number.
#![tactic(auto)]

mod list;
mod lookup;
mod record;
mod records;
mod walk;

pub use list::scan;
pub use lookup::{Found, find};
pub use records::Scan;
