//! Laws that compute what salvage gives from sample files.
#![tactic(auto, unfolding(crate::proofs::Computed::salvaged))]

pub mod worked;
