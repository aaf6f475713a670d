//! Laws of the databases of a file without faults, and of the rows that count in any order.
pub use bdb_check::laws::{all_are_of_all, master_counts, same_without_order, sound_in_any_order};
pub use bdb_databases::laws::{names_ascend, names_ascend_in_any_order};
