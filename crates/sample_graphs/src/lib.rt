//! Laws that compute all faults of sample files.
#![tactic(auto, unfolding(crate::proofs::Computed::graphs))]

pub mod file_faults;
pub mod hostile;
pub mod meta_faults;
pub mod ownership;
pub mod page_faults;
pub mod plain;
pub mod references;
pub mod worked;
