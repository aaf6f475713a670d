//! Laws that compute dump texts.
#![tactic(auto, unfolding(crate::proofs::Computed::texts))]

pub mod read_texts;
pub mod texts;
