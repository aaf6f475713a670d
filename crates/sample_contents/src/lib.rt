//! Laws that compute what trees and tables hold, and the faults of it.
#![tactic(auto, unfolding(crate::proofs::Computed::contents))]

pub mod built;
pub mod chains;
pub mod content_faults;
pub mod counts;
pub mod databases;
pub mod duplicates;
pub mod keys;
pub mod lists;
pub mod master_faults;
pub mod masters;
pub mod named;
pub mod records;
pub mod separators;
pub mod settings;
pub mod structure_faults;
pub mod tables;
pub mod trees;
