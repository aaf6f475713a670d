//! Laws of hash tables: pages that hold keys with their data, and the tables that they make.
#![tactic(auto)]

pub mod laws;
