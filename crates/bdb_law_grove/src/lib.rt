//! Parts of a file that is being built, and how they grow.
#![tactic(auto)]

pub mod laws;
