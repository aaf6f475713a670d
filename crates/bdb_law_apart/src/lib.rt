//! What `--apart` and `--rest` give of a sound file.
#![tactic(auto)]

pub mod laws;
