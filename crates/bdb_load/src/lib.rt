//! From the sections of a dump text to a sound image: the calls, and what follows from their definitions. The code is that of `bdb_mkfile` and of the
//! crates below it.
#![tactic(auto)]

pub mod laws;

pub use bdb_onto::{Base, LoadError, in_name_order, load, load_onto, need, settle, settle_onto};
