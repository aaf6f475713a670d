//! Pairs that are generated from a number, as input for trials.
#![tactic(auto)]

mod pairs;

pub use pairs::generate;
