//! Tests of files in the other byte order.
#![tactic(auto)]

#[cfg(test)]
mod flips;
#[cfg(test)]
mod told;
