//! From the sections of a dump text and the databases of a sound file to a sound file with both.
#![tactic(auto)]

mod base;
mod beside;
mod errors;
mod joining;
pub mod laws;
mod lists;
mod onto;
mod partners;

pub use base::Base;
pub use bdb_law_kept::{TextError, read_dump};
pub use bdb_mkfile::{LoadError, in_name_order, load, need, settle};
pub use beside::Beside;
pub use lists::Lists;
pub use onto::{join, load_lists, load_onto, settle_onto};
pub use partners::place_of;
