//! What is kept where the dump of a sound file is loaded.
#![tactic(auto)]

pub mod laws;

pub use bdb_text::{TextError, push_line_text, read_dump, shows_length};
