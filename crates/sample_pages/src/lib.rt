//! Laws that compute the definitions on sample files.
#![tactic(auto, unfolding(crate::proofs::Computed::pages))]

pub mod edges;
pub mod file_faults;
pub mod formed;
pub mod keys;
pub mod meta_faults;
pub mod one_pair;
pub mod page_faults;
pub mod pages;
