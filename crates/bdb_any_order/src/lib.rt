//! Which rows of the fault table count in a whole file.
#![tactic(auto)]

pub mod laws;
mod rows;

pub use rows::{Rows, Which};
