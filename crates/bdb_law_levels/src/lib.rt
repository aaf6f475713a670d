//! Levels of a tree over its leaves: laws of one file.
#![tactic(auto)]

mod inner_type;
pub mod laws;

pub use inner_type::InnerType;
