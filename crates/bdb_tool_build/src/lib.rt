//! What the commands that build a file write: the image of a dump text, alone or onto a base, and the lines of a trial, or why there are none.
#![tactic(auto)]

mod base;
mod copied;
mod gathered;
mod loading;
mod on_leaf;
mod onto;
mod refusal;
mod table;
mod texts;
mod tree;
mod trial;

pub use base::open_base;
pub use bdb_file::{Db, Rows, Scan, Sound, verify};
pub use bdb_gen::generate;
pub use loading::{load_text, load_text_onto};
pub use refusal::Refusal;
pub use texts::image_too_large_line;
pub use trial::trial_text;
