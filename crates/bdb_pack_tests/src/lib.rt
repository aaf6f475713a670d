//! Tests of pages that are being built: items of each sort are placed and read back by the views, and values stored.
#![tactic(auto)]

#[cfg(test)]
mod hashes;
#[cfg(test)]
mod internals;
#[cfg(test)]
mod leaves;
mod sheet;
#[cfg(test)]
mod spelled;
#[cfg(test)]
mod values;

pub use sheet::Sheet;
