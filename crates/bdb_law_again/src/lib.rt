//! What `repair --apart` makes of a sound file: the file again.
#![tactic(auto)]

pub mod laws;
