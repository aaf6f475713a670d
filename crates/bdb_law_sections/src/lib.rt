//! What is so of the sections of a dump text that is read.
#![tactic(auto)]

pub mod laws;
