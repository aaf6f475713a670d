//! Laws that compute pages and files in the other byte order.
#![tactic(auto, unfolding(crate::proofs::Computed::turned))]

pub mod files;
pub mod pages;
