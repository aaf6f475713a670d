//! What salvage finds whole in a sound file.
#![tactic(auto)]

pub mod laws;
