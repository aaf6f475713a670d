//! Laws of a file in the other byte order: what it keeps.
pub use bdb_law_turned::laws::{files_flip, flipped_files_keep_databases, pages_turn_round};
